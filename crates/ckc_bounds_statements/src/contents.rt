//! What the body and the step of a loop assign, and how they leave it.

ghost use Rattle.std.specs.Prelude.{◌≡◌, ◌++◌, ◌||◌, map, OnOk};
ghost use Rattle.std.specs.Option.{option_map};
ghost use Rattle.ckc_bounds_statements.specs.code.Parts.{all_assigned, there_assigned, some_break, there_breaks, some_continue, there_continues};
ghost use Rattle.ckc_bounds_statements.specs.Paths.{local_in, target_in, path, path_of_act};

use ckc_base::{Boxed, Seq};
use ckc_syntax::{Act, Expr, Name, Node, Stmt};
use ckc_typed::Note;
use std::alloc::AllocError;

/// The locals that statements assign, a declaration being an assignment, whether a `break` in them leaves the loop around
/// them, and whether a `continue` goes on with that.
#[derive(Drop)]
pub struct Contents {
    pub assigned: Seq<u32>,
    pub breaks: bool,
    pub continues: bool,
}

/// Adds the local that a name means.
pub fn add_name(name: Name, all: &mut Seq<u32>) -> Result<(), AllocError>
    ensures { OnOk result (all.new ≡ all.old ++ local_in name) }
{
    match name {
        Name::Local(k) => all.push(k),
        _ => Ok(()),
    }
}

fn add_target(e: &Expr<Name, Note>, all: &mut Seq<u32>) -> Result<(), AllocError>
    ensures { OnOk result (all.new ≡ all.old ++ target_in e.now) }
{
    match &e.node {
        Node::Name(n) => add_name(*n, all),
        _ => Ok(()),
    }
}

#[cycle(contents)]
fn add_act(act: &Act<Name, Note>, all: &mut Contents) -> Result<(), AllocError>
    ensures assigned { OnOk result
        (all.new.assigned ≡ all.old.assigned ++ (path_of_act act.now).assigned) }
    ensures breaks { OnOk result
        (all.new.breaks ≡ (all.old.breaks || (path_of_act act.now).breaks)) }
    ensures continues { OnOk result
        (all.new.continues ≡ (all.old.continues || (path_of_act act.now).continues)) }
{
    match act {
        Act::Block(_, ss) => add_stmts(ss.as_slice(), all),
        Act::Bundle(ss) => add_stmts(ss.as_slice(), all),
        Act::Local(d) => add_name(d.get().name, &mut all.assigned),
        Act::Assign(e, _) => add_target(e.get(), &mut all.assigned),
        Act::If(_, s, t) => {
            add_stmt(s.get(), all)?;
            add_part(t, all)
        }
        Act::While(_, s) => {
            let (breaks, continues) = (all.breaks, all.continues);
            add_stmt(s.get(), all)?;
            all.breaks = breaks;
            all.continues = continues;
            Ok(())
        }
        Act::For(s, _, t, body) => {
            let (breaks, continues) = (all.breaks, all.continues);
            add_part(s, all)?;
            add_stmt(body.get(), all)?;
            add_part(t, all)?;
            all.breaks = breaks;
            all.continues = continues;
            Ok(())
        }
        Act::Break => {
            all.breaks = true;
            Ok(())
        }
        Act::Continue => {
            all.continues = true;
            Ok(())
        }
        Act::Empty | Act::Call(_) | Act::Return(_) | Act::Check(_) => Ok(()),
    }
}

/// Adds what a statement assigns, and whether it leaves the loop around it or goes on with that.
#[cycle(contents)]
pub fn add_stmt(s: &Stmt<Name, Note>, all: &mut Contents) -> Result<(), AllocError>
    ensures assigned { OnOk result (all.new.assigned ≡ all.old.assigned ++ (path s.now).assigned) }
    ensures breaks { OnOk result (all.new.breaks ≡ (all.old.breaks || (path s.now).breaks)) }
    ensures continues { OnOk result
        (all.new.continues ≡ (all.old.continues || (path s.now).continues)) }
{
    add_act(&s.body, all)
}

#[cycle(contents)]
fn add_stmts(ss: &[Stmt<Name, Note>], all: &mut Contents) -> Result<(), AllocError>
    ensures assigned { OnOk result
        (all.new.assigned ≡ all.old.assigned ++ all_assigned (map path ss.now)) }
    ensures breaks { OnOk result
        (all.new.breaks ≡ (all.old.breaks || some_break (map path ss.now))) }
    ensures continues { OnOk result
        (all.new.continues ≡ (all.old.continues || some_continue (map path ss.now))) }
{
    for s in ss {
        add_stmt(s, all)?;
    }
    Ok(())
}

/// Adds the same of a statement that may be left out.
#[cycle(contents)]
pub fn add_part(
    part: &Option<Boxed<Stmt<Name, Note>>>,
    all: &mut Contents,
) -> Result<(), AllocError>
    ensures assigned { OnOk result
        (all.new.assigned ≡ all.old.assigned ++ there_assigned (option_map path part.now)) }
    ensures breaks { OnOk result
        (all.new.breaks ≡ (all.old.breaks || there_breaks (option_map path part.now))) }
    ensures continues { OnOk result
        (all.new.continues ≡ (all.old.continues || there_continues (option_map path part.now))) }
{
    match part {
        None => Ok(()),
        Some(s) => add_stmt(s.get(), all),
    }
}
