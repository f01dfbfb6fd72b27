//! The bodies of functions.

ghost use Rattle.std.specs.Prelude.{◌≡◌, [], ◌++◌, flat_map, length, replicate, IfOk, OnOk};
ghost use Rattle.ckc_base.specs.Outcomes.{AnswersOutcome};
ghost use Rattle.ckc_typed.specs.Interfaces.{seen_params};
ghost use Rattle.ckc_bounds.specs.Declarations.{all_made};
ghost use Rattle.ckc_bounds.specs.code.Declarations.{text_of};
ghost use Rattle.ckc_bounds.specs.Frames.{name_seen, begin_in, counted, fresh_needed, nameless, with_nameless, locals_frame, first_fresh, frame_by};
ghost use Rattle.ckc_bounds.specs.Texts.{body_judged};
ghost use Rattle.ckc_bounds_statements.specs.Paths.{path};
ghost use Rattle.ckc_bounds_statements.specs.Walks.{here};

use crate::declared::{clear, set_locals};
use crate::heads::head_bounds;
use crate::locals::{Turn, add_params, add_stmt};
use ckc_base::{Fault, Mode, Seq};
use ckc_bounds_points::{Bounds, Frame, HeadBounds, Local, Work, entry, fit_row};
use ckc_bounds_statements::{Walk, add_name, judge_stmt, may_need};
use ckc_syntax::{Decl, Head, Name, Stmt};
use ckc_typed::Note;
use ckc_types::CType;
use core::mem::replace;
use std::alloc::{AllocError, Global};

/// The parameters of a function, as code of a mode sees them, and its locals, by their types alone or with their bounds.
fn variables(
    alloc: Global,
    frame: &Frame,
    bounded: bool,
    mode: Mode,
    h: &Head<Name, Note>,
    body: &Stmt<Name, Note>,
) -> Result<Seq<Local>, AllocError>
    ensures { IfOk result (λ r.
        r ≡ all_made frame.now bounded (seen_params mode h.now ++ (path body.now).declared)) }
{
    let mut all = Seq::new(alloc);
    let ds = h.params.as_slice();
    add_params(alloc, frame, Turn::Counts, mode, ds, &mut all)?;
    add_stmt(alloc, frame, Turn::Counts, body, &mut all)?;
    add_params(alloc, frame, Turn::Places(bounded), mode, ds, &mut all)?;
    add_stmt(alloc, frame, Turn::Places(bounded), body, &mut all)?;
    Ok(all)
}

/// How many variables there are: fewer than 1,024 in an accepted text.
fn count(all: &[Local]) -> Result<u32, AllocError>
    ensures { IfOk result (λ r. r ≡ length all.now) }
{
    if all.len() >= 1024 {
        return Err(AllocError);
    }
    Ok(all.len() as u32)
}

/// Makes the parameters and the locals of a function the locals of a frame, and gives the number of the first fresh
/// variable.
#[tactic(auto, using(crate::proofs::Lists::all_made_length))]
fn set_variables(
    alloc: Global,
    frame: &mut Frame,
    h: &Head<Name, Note>,
    body: &Stmt<Name, Note>,
) -> Result<u32, AllocError>
    ensures first { IfOk result (λ n. n ≡ first_fresh h.now body.now) }
    ensures frame { OnOk result (frame.new ≡ locals_frame (text_of frame.old) h.now body.now) }
{
    clear(alloc, frame);
    let bare = variables(alloc, frame, false, Mode::Checked, h, body)?;
    set_locals(frame, bare)?;
    let all = variables(alloc, frame, true, body.note.mode, h, body)?;
    let first = count(all.as_slice())?;
    set_locals(frame, all)?;
    Ok(first)
}

fn scope_of(alloc: Global, params: &[Decl<Name, Note>]) -> Result<Seq<u32>, AllocError>
    ensures { IfOk result (λ ks. ks ≡ flat_map name_seen params.now) }
{
    let mut seen = Seq::new(alloc);
    for d in params {
        add_name(d.name, &mut seen)?;
    }
    Ok(seen)
}

/// The start of a walk through a function. The row in which chains are searched is made here, with two places for each
/// variable, once for each function: before a second walk it only grows, by the fresh variables that the first one found.
fn begin(
    work: &mut Work,
    frame: &Frame,
    counting: bool,
    h: &Head<Name, Note>,
    next: u32,
) -> Result<Walk, AllocError>
    ensures { IfOk result (λ w. here w ≡ begin_in frame.now counting h.now next) }
{
    fit_row(frame, work)?;
    let seen = scope_of(work.alloc, h.params.as_slice())?;
    let at = entry(work.alloc, frame)?;
    Ok(Walk {
        seen,
        at,
        next,
        counting,
    })
}

/// How many fresh variables a walk through a function needs, of which the first has the given number.
fn counted(
    work: &mut Work,
    frame: &Frame,
    head: &HeadBounds,
    h: &Head<Name, Note>,
    body: &Stmt<Name, Note>,
    first: u32,
) -> Result<u32, AllocError>
    ensures { IfOk result (λ n. n ≡ counted frame.now head.now h.now body.now first) }
{
    let mut walk = begin(work, frame, true, h, first)?;
    match judge_stmt(work, frame, head, body, &mut walk) {
        Ok(_) => Ok(walk.next.saturating_sub(first)),
        Err(Fault::Refused(_)) => Ok(0),
        Err(Fault::Memory) => Err(AllocError),
    }
}

/// How many fresh variables a function needs, in a frame of its parameters and locals.
fn fresh_needed(
    work: &mut Work,
    frame: &Frame,
    head: &HeadBounds,
    h: &Head<Name, Note>,
    body: &Stmt<Name, Note>,
    first: u32,
) -> Result<u32, AllocError>
    ensures { IfOk result (λ n. n ≡ fresh_needed frame.now head.now h.now body.now first) }
{
    if may_need(frame, body) {
        counted(work, frame, head, h, body, first)
    } else {
        Ok(0)
    }
}

#[tactic(auto, using(crate::proofs::Lists::one_more))]
fn add_nameless(all: &mut Seq<Local>, n: u32) -> Result<(), AllocError>
    ensures { OnOk result (all.new ≡ all.old ++ replicate n nameless) }
{
    for _k in 0..n {
        all.push(Local {
            ctype: CType::Void,
            bounds: Bounds::Unknown,
        })?;
    }
    Ok(())
}

/// Puts so many fresh variables after the locals of a frame.
fn set_fresh(alloc: Global, frame: &mut Frame, n: u32) -> Result<(), AllocError>
    ensures { OnOk result (frame.new ≡ with_nameless n frame.old) }
{
    let mut all = replace(&mut frame.locals, Seq::new(alloc));
    add_nameless(&mut all, n)?;
    set_locals(frame, all)
}

/// Makes the variables of a function the locals of a frame, and gives the number of the first fresh one.
fn set_function(
    work: &mut Work,
    frame: &mut Frame,
    head: &HeadBounds,
    h: &Head<Name, Note>,
    body: &Stmt<Name, Note>,
) -> Result<u32, AllocError>
    ensures first { IfOk result (λ n. n ≡ first_fresh h.now body.now) }
    ensures frame { OnOk result
        (frame.new ≡ frame_by (text_of frame.old) head.now h.now body.now) }
{
    let first = set_variables(work.alloc, frame, h, body)?;
    let n = fresh_needed(work, frame, head, h, body, first)?;
    set_fresh(work.alloc, frame, n)?;
    Ok(first)
}

/// Judges the body of a function, and notes the ranges in it.
pub fn judge_body(
    alloc: Global,
    frame: &mut Frame,
    h: &Head<Name, Note>,
    body: &Stmt<Name, Note>,
) -> Result<Stmt<Name, Note>, Fault>
    ensures judged { AnswersOutcome result (body_judged (text_of frame.old) h.now body.now) }
    ensures kept { OnOk result (text_of frame.new ≡ text_of frame.old) }
{
    let head = head_bounds(alloc, frame, h)?;
    let mut work = Work::new(alloc);
    let first = set_function(&mut work, frame, &head, h, body)?;
    let mut walk = begin(&mut work, frame, false, h, first)?;
    let judged = judge_stmt(&mut work, frame, &head, body, &mut walk)?;
    Ok(judged)
}
