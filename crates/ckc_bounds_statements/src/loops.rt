//! Where branches and loops begin and end.

ghost use Rattle.std.specs.Prelude.{◌≡◌, ◌++◌, true, IfOk, OnOk};
ghost use Rattle.std.specs.Option.{option_map};
ghost use Rattle.ckc_base.specs.Outcomes.{StepsOutcome};
ghost use Rattle.ckc_base.specs.Phases.{viewed};
ghost use Rattle.ckc_bounds_points.specs.Flow.{state, joined};
ghost use Rattle.ckc_bounds_statements.specs.code.Parts.{there_assigned};
ghost use Rattle.ckc_bounds_statements.specs.Paths.{maybe_side, other_side, maybe_other, branched, loop_head, maybe_point, for_started, to_step, path};
ghost use Rattle.ckc_bounds_statements.specs.Walks.{here};
ghost use Rattle.ckc_bounds_statements.specs.code.Walks.{maybe_state, branch, start};

use crate::contents::{Contents, add_part, add_stmt};
use crate::walk::{Walk, boxed_value, maybe_value, take_side};
use ckc_base::{Boxed, Fault, Seq};
use ckc_bounds_points::{Frame, Point, Work, copied, forget_assigned, join};
use ckc_syntax::{Expr, Name, Stmt};
use ckc_typed::Note;
use core::mem::replace;
use std::alloc::{AllocError, Global};

/// A condition, and the point where it is false.
#[derive(Drop)]
pub struct Branch {
    pub condition: Boxed<Expr<Name, Note>>,
    pub other: Point,
}

/// A condition that may be left out, the point where it is false, and the one that a `continue` leads to.
#[derive(Drop)]
pub struct Start {
    pub condition: Option<Boxed<Expr<Name, Note>>>,
    pub other: Point,
    pub step: Option<Point>,
}

fn other_side(
    work: &mut Work,
    frame: &Frame,
    left: bool,
    e: &Expr<Name, Note>,
    at: &Point,
) -> Result<Point, AllocError>
    ensures { IfOk result (λ p. state p ≡ other_side frame.now left e.now (state at.now)) }
{
    let mut other = copied(work.alloc, at)?;
    if !left {
        take_side(work, frame, e, false, &mut other)?;
    }
    Ok(other)
}

/// Judges a condition and goes on to its true side. A loop that a `break` leaves keeps what is known at its head.
pub fn judge_branch(
    work: &mut Work,
    frame: &Frame,
    left: bool,
    e: &Expr<Name, Note>,
    walk: &mut Walk,
) -> Result<Branch, Fault>
    ensures { StepsOutcome (viewed branch result) (here walk.new)
        (branched frame.now left e.now (here walk.old)) }
{
    let condition = boxed_value(work, frame, e, walk)?;
    let other = other_side(work, frame, left, condition.get(), &walk.at)?;
    take_side(work, frame, condition.get(), true, &mut walk.at)?;
    Ok(Branch { condition, other })
}

/// Goes on from another point, and gives the one behind it.
pub fn turn(walk: &mut Walk, other: Point) -> Point
    ensures old { state result ≡ (here walk.old).at }
    ensures new { here walk.new ≡ record (here walk.old) { at = state other } }
{
    replace(&mut walk.at, other)
}

/// Joins the end of one branch with that of the other.
pub fn join_ends(alloc: Global, end: Point, walk: &mut Walk) -> Result<(), AllocError>
    ensures { OnOk result
        (here walk.new ≡ record (here walk.old) { at = joined (state end) (here walk.old).at }) }
{
    let other = replace(&mut walk.at, end);
    join(alloc, &mut walk.at, other)
}

/// What the body of a loop assigns, and how it leaves the loop.
fn contents_of(alloc: Global, s: &Stmt<Name, Note>) -> Result<Contents, AllocError>
    ensures assigned { IfOk result (λ c. c.assigned ≡ (path s.now).assigned) }
    ensures breaks { IfOk result (λ c. c.breaks ≡ (path s.now).breaks) }
    ensures continues { IfOk result (λ c. c.continues ≡ (path s.now).continues) }
{
    let mut all = Contents {
        assigned: Seq::new(alloc),
        breaks: false,
        continues: false,
    };
    add_stmt(s, &mut all)?;
    Ok(all)
}

fn forget(alloc: Global, frame: &Frame, ks: &[u32], walk: &mut Walk) -> Result<(), AllocError>
    ensures { OnOk result (here walk.new ≡ loop_head frame.now ks.now (here walk.old)) }
{
    forget_assigned(alloc, frame, ks, &mut walk.at)
}

/// Goes on to the head of a `while`, and judges its condition there.
pub fn enter_while(
    work: &mut Work,
    frame: &Frame,
    e: &Expr<Name, Note>,
    s: &Stmt<Name, Note>,
    walk: &mut Walk,
) -> Result<Branch, Fault>
    ensures { let b = path s.now in
        StepsOutcome (viewed branch result) (here walk.new)
        (branched frame.now b.breaks e.now (loop_head frame.now b.assigned (here walk.old))) }
{
    let contents = contents_of(work.alloc, s)?;
    forget(work.alloc, frame, contents.assigned.as_slice(), walk)?;
    judge_branch(work, frame, contents.breaks, e, walk)
}

fn maybe_other(
    work: &mut Work,
    frame: &Frame,
    left: bool,
    e: &Option<Boxed<Expr<Name, Note>>>,
    at: &Point,
) -> Result<Point, AllocError>
    ensures { IfOk result (λ p. state p ≡ maybe_other frame.now left e.now (state at.now)) }
{
    match e {
        None => copied(work.alloc, at),
        Some(e) => other_side(work, frame, left, e.get(), at),
    }
}

fn maybe_side(
    work: &mut Work,
    frame: &Frame,
    e: &Option<Boxed<Expr<Name, Note>>>,
    at: &mut Point,
) -> Result<(), AllocError>
    ensures { OnOk result (state at.new ≡ maybe_side frame.now true e.now (state at.old)) }
{
    match e {
        None => Ok(()),
        Some(e) => take_side(work, frame, e.get(), true, at),
    }
}

fn maybe_point(alloc: Global, there: bool, at: &Point) -> Result<Option<Point>, AllocError>
    ensures { IfOk result (λ p. maybe_state p ≡ maybe_point there (state at.now)) }
{
    if there {
        let copy = copied(alloc, at)?;
        Ok(Some(copy))
    } else {
        Ok(None)
    }
}

/// Judges the condition at the head of a `for`.
fn judge_start(
    work: &mut Work,
    frame: &Frame,
    left: bool,
    continued: bool,
    e: &Option<Boxed<Expr<Name, Note>>>,
    walk: &mut Walk,
) -> Result<Start, Fault>
    ensures { StepsOutcome (viewed start result) (here walk.new)
        (for_started frame.now left continued e.now (here walk.old)) }
{
    let condition = maybe_value(work, frame, e, walk)?;
    let other = maybe_other(work, frame, left, &condition, &walk.at)?;
    let step = maybe_point(work.alloc, continued, &walk.at)?;
    maybe_side(work, frame, &condition, &mut walk.at)?;
    Ok(Start {
        condition,
        other,
        step,
    })
}

/// Goes on to the head of a `for` with this body and this step, and judges its condition there.
pub fn enter_for(
    work: &mut Work,
    frame: &Frame,
    e: &Option<Boxed<Expr<Name, Note>>>,
    s: &Stmt<Name, Note>,
    step: &Option<Boxed<Stmt<Name, Note>>>,
    walk: &mut Walk,
) -> Result<Start, Fault>
    ensures { let b = path s.now in let ks = b.assigned ++ there_assigned (option_map path step.now)
        in
        StepsOutcome (viewed start result) (here walk.new)
        (for_started frame.now b.breaks b.continues e.now
        (loop_head frame.now ks (here walk.old))) }
{
    let mut contents = contents_of(work.alloc, s)?;
    let (left, continued) = (contents.breaks, contents.continues);
    add_part(step, &mut contents)?;
    forget(work.alloc, frame, contents.assigned.as_slice(), walk)?;
    judge_start(work, frame, left, continued, e, walk)
}

/// Goes on to the step of a loop: from its head if a `continue` leads there.
pub fn to_step(step: Option<Point>, walk: &mut Walk)
    ensures { here walk.new ≡ to_step (maybe_state step) (here walk.old) }
{
    match step {
        Some(at) => walk.at = at,
        None => {}
    }
}
