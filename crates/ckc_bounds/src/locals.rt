//! The locals of a function.

ghost use Rattle.std.specs.Prelude.{◌≡◌, ◌∷◌, [], ◌++◌, map, slice_set, IfOk, OnOk};
ghost use Rattle.std.specs.Option.{option_map};
ghost use Rattle.ckc_typed.specs.Interfaces.{seen};
ghost use Rattle.ckc_bounds.specs.Declarations.{local_made, nameless, with_local};
ghost use Rattle.ckc_bounds.specs.code.Declarations.{with_turn, with_turns};
ghost use Rattle.ckc_bounds_statements.specs.code.Parts.{all_declared, there_declared};
ghost use Rattle.ckc_bounds_statements.specs.Paths.{path, path_of_act};

use crate::declared::{known_bounds, known_param};
use ckc_base::{Boxed, Mode, Seq};
use ckc_bounds_declared::Holder;
use ckc_bounds_points::{Bounds, Frame, Local};
use ckc_syntax::{Act, Decl, Name, Stmt};
use ckc_typed::Note;
use ckc_typed::interfaces::type_seen;
use ckc_typed::types::type_written;
use ckc_types::CType;
use core::mem::replace;
use std::alloc::{AllocError, Global};

/// A local by its type alone, or with its bounds.
fn local_made(
    alloc: Global,
    frame: &Frame,
    bounded: bool,
    k: u32,
    d: &Decl<Name, Note>,
) -> Result<Local, AllocError>
    ensures { IfOk result (λ r. r ≡ local_made frame.now bounded k d.now) }
{
    let ctype = type_written(alloc, &d.ctype)?;
    if bounded {
        let bounds = known_bounds(alloc, frame, Holder::Local(k), d)?;
        Ok(Local { ctype, bounds })
    } else {
        Ok(Local {
            ctype,
            bounds: Bounds::Unknown,
        })
    }
}

/// A parameter as code of a mode sees it, by its type alone or with its bounds.
fn param_made(
    alloc: Global,
    frame: &Frame,
    bounded: bool,
    mode: Mode,
    k: u32,
    d: &Decl<Name, Note>,
) -> Result<Local, AllocError>
    ensures { IfOk result (λ r. r ≡ local_made frame.now bounded k (seen mode d.now)) }
{
    let ctype = type_seen(alloc, mode, d)?;
    if bounded {
        let bounds = known_param(alloc, frame, Holder::Local(k), mode, d)?;
        Ok(Local { ctype, bounds })
    } else {
        Ok(Local {
            ctype,
            bounds: Bounds::Unknown,
        })
    }
}

/// What a walk through declarations does with each: it makes room for one more local, or places the local at its number,
/// by its type alone or with its bounds.
#[derive(Clone, Copy)]
pub enum Turn {
    Counts,
    Places(bool),
}

/// Puts a local at a number, if there is room at it.
#[tactic(auto, using(crate::proofs::Lists::past_end))]
fn put(alloc: Global, k: u32, local: Local, all: &mut Seq<Local>)
    ensures { all.new ≡ slice_set all.old k local }
{
    let mut items = replace(all, Seq::new(alloc)).into_vec();
    if (k as usize) < items.len() {
        items[k as usize] = local;
    }
    *all = Seq::from_vec(items);
}

fn place_local(
    alloc: Global,
    frame: &Frame,
    bounded: bool,
    d: &Decl<Name, Note>,
    all: &mut Seq<Local>,
) -> Result<(), AllocError>
    ensures { OnOk result (all.new ≡ with_local frame.now bounded all.old d.now.name d.now) }
{
    match d.name {
        Name::Local(k) => {
            let local = local_made(alloc, frame, bounded, k, d)?;
            put(alloc, k, local, all);
            Ok(())
        }
        _ => Ok(()),
    }
}

fn place_param(
    alloc: Global,
    frame: &Frame,
    bounded: bool,
    mode: Mode,
    d: &Decl<Name, Note>,
    all: &mut Seq<Local>,
) -> Result<(), AllocError>
    ensures { OnOk result
        (all.new ≡ with_local frame.now bounded all.old d.now.name (seen mode d.now)) }
{
    match d.name {
        Name::Local(k) => {
            let local = param_made(alloc, frame, bounded, mode, k, d)?;
            put(alloc, k, local, all);
            Ok(())
        }
        _ => Ok(()),
    }
}

/// Makes room for a local. A function of an accepted text has fewer than 1,024.
fn count_local(all: &mut Seq<Local>) -> Result<(), AllocError>
    ensures { OnOk result (all.new ≡ all.old ++ nameless ∷ []) }
{
    if all.len() >= 1024 {
        return Err(AllocError);
    }
    all.push(Local {
        ctype: CType::Void,
        bounds: Bounds::Unknown,
    })
}

fn add_local(
    alloc: Global,
    frame: &Frame,
    turn: Turn,
    d: &Decl<Name, Note>,
    all: &mut Seq<Local>,
) -> Result<(), AllocError>
    ensures { OnOk result (all.new ≡ with_turn frame.now turn all.old d.now) }
{
    match turn {
        Turn::Counts => count_local(all),
        Turn::Places(bounded) => place_local(alloc, frame, bounded, d, all),
    }
}

#[tactic(auto, using(crate::proofs::Seen::same_name))]
fn add_param(
    alloc: Global,
    frame: &Frame,
    turn: Turn,
    mode: Mode,
    d: &Decl<Name, Note>,
    all: &mut Seq<Local>,
) -> Result<(), AllocError>
    ensures { OnOk result (all.new ≡ with_turn frame.now turn all.old (seen mode d.now)) }
{
    match turn {
        Turn::Counts => count_local(all),
        Turn::Places(bounded) => place_param(alloc, frame, bounded, mode, d, all),
    }
}

/// Takes a turn for each parameter of a function, as code of a mode sees it.
pub fn add_params(
    alloc: Global,
    frame: &Frame,
    turn: Turn,
    mode: Mode,
    ds: &[Decl<Name, Note>],
    all: &mut Seq<Local>,
) -> Result<(), AllocError>
    ensures { OnOk result (all.new ≡ with_turns frame.now turn all.old (map (seen mode) ds.now)) }
{
    for d in ds {
        add_param(alloc, frame, turn, mode, d, all)?;
    }
    Ok(())
}

#[cycle(locals)]
#[tactic(auto, using(crate::proofs::Lists::with_turns_append))]
fn add_act(
    alloc: Global,
    frame: &Frame,
    turn: Turn,
    act: &Act<Name, Note>,
    all: &mut Seq<Local>,
) -> Result<(), AllocError>
    ensures { OnOk result
        (all.new ≡ with_turns frame.now turn all.old (path_of_act act.now).declared) }
{
    match act {
        Act::Block(_, ss) | Act::Bundle(ss) => add_stmts(alloc, frame, turn, ss.as_slice(), all),
        Act::Local(d) => add_local(alloc, frame, turn, d.get(), all),
        Act::If(_, s, t) => {
            add_stmt(alloc, frame, turn, s.get(), all)?;
            add_part(alloc, frame, turn, t, all)
        }
        Act::While(_, s) => add_stmt(alloc, frame, turn, s.get(), all),
        Act::For(s, _, t, body) => {
            add_part(alloc, frame, turn, s, all)?;
            add_stmt(alloc, frame, turn, body.get(), all)?;
            add_part(alloc, frame, turn, t, all)
        }
        Act::Empty | Act::Assign(_, _) | Act::Call(_) | Act::Return(_) => Ok(()),
        Act::Break | Act::Continue | Act::Check(_) => Ok(()),
    }
}

/// Takes a turn for each local that a statement declares anywhere in it.
#[cycle(locals)]
pub fn add_stmt(
    alloc: Global,
    frame: &Frame,
    turn: Turn,
    s: &Stmt<Name, Note>,
    all: &mut Seq<Local>,
) -> Result<(), AllocError>
    ensures { OnOk result (all.new ≡ with_turns frame.now turn all.old (path s.now).declared) }
{
    add_act(alloc, frame, turn, &s.body, all)
}

#[cycle(locals)]
#[tactic(auto, using(crate::proofs::Lists::with_turns_append))]
fn add_stmts(
    alloc: Global,
    frame: &Frame,
    turn: Turn,
    ss: &[Stmt<Name, Note>],
    all: &mut Seq<Local>,
) -> Result<(), AllocError>
    ensures { OnOk result
        (all.new ≡ with_turns frame.now turn all.old (all_declared (map path ss.now))) }
{
    for s in ss {
        add_stmt(alloc, frame, turn, s, all)?;
    }
    Ok(())
}

#[cycle(locals)]
fn add_part(
    alloc: Global,
    frame: &Frame,
    turn: Turn,
    part: &Option<Boxed<Stmt<Name, Note>>>,
    all: &mut Seq<Local>,
) -> Result<(), AllocError>
    ensures { OnOk result
        (all.new ≡ with_turns frame.now turn all.old (there_declared (option_map path part.now))) }
{
    match part {
        None => Ok(()),
        Some(s) => add_stmt(alloc, frame, turn, s.get(), all),
    }
}
