//! Statements.

ghost use Rattle.std.specs.Prelude.{◌≡◌, map, IfOk};
ghost use Rattle.std.specs.Option.{option_map};
ghost use Rattle.ckc_base.specs.Outcomes.{StepsOutcome};
ghost use Rattle.ckc_bounds_statements.specs.Paths.{all_judged, part_judged, parts_judged, is_good, bundle_judged, path, path_of_act};
ghost use Rattle.ckc_bounds_statements.specs.Walks.{here};

use crate::acts::{
    assignment, call, check, close, jump, local, pass_stores, result, sides, stated,
};
use crate::loops::{Branch, Start, enter_for, enter_while, join_ends, judge_branch, to_step, turn};
use crate::walk::Walk;
use ckc_base::{Boxed, Fault, Pos, Seq, refused};
use ckc_bounds_points::codes::BAD_BUNDLE;
use ckc_bounds_points::{Frame, HeadBounds, Work};
use ckc_bounds_ranges::is_bundle;
use ckc_syntax::{Act, ExactClone, Name, Stmt};
use ckc_typed::Note;
use std::alloc::{AllocError, Global};

/// A part of the bundle at a place: an assignment.
fn judge_side(
    work: &mut Work,
    frame: &Frame,
    bundle: Pos,
    s: &Stmt<Name, Note>,
    walk: &mut Walk,
) -> Result<Stmt<Name, Note>, Fault>
    ensures { StepsOutcome result (here walk.new)
        ((path s.now).part frame.now bundle (here walk.old)) }
{
    match &s.body {
        Act::Assign(e, f) => {
            let note = s.note.exact_clone(work.alloc)?;
            sides(work, frame, s.pos, note, e.get(), f.get(), walk)
        }
        _ => Err(refused(BAD_BUNDLE, bundle)),
    }
}

fn judge_sides(
    work: &mut Work,
    frame: &Frame,
    bundle: Pos,
    ss: &[Stmt<Name, Note>],
    walk: &mut Walk,
) -> Result<Seq<Stmt<Name, Note>>, Fault>
    ensures { StepsOutcome result (here walk.new)
        (parts_judged frame.now bundle (map path ss.now) (here walk.old)) }
{
    let mut all = Seq::new(work.alloc);
    for s in ss {
        let judged = judge_side(work, frame, bundle, s, walk)?;
        all.push(judged)?;
    }
    Ok(all)
}

/// Whether assignments make a bundle. A walk that counts fresh variables takes any.
fn is_good(alloc: Global, ss: &[Stmt<Name, Note>], walk: &Walk) -> Result<bool, AllocError>
    ensures { IfOk result (λ b. b ≡ is_good (here walk.now) ss.now) }
{
    if walk.counting {
        return Ok(true);
    }
    is_bundle(alloc, ss)
}

/// A bundle.
#[tactic(auto, unfolding(crate::specs::Paths::bundle_judged))]
fn judge_bundle(
    work: &mut Work,
    frame: &Frame,
    head: &HeadBounds,
    at: Pos,
    note: Note,
    ss: &[Stmt<Name, Note>],
    walk: &mut Walk,
) -> Result<Stmt<Name, Note>, Fault>
    ensures { StepsOutcome result (here walk.new)
        (bundle_judged frame.now head.now at note (map path ss.now) (here walk.old)) }
{
    let first = walk.next;
    let all = judge_sides(work, frame, at, ss, walk)?;
    if !is_good(work.alloc, all.as_slice(), walk)? {
        return Err(refused(BAD_BUNDLE, at));
    }
    pass_stores(work, frame, head, all.as_slice(), first, walk)?;
    Ok(stated(at, note, Act::Bundle(all)))
}

/// What a statement does.
#[cycle(stmt)]
fn judge_act(
    work: &mut Work,
    frame: &Frame,
    head: &HeadBounds,
    act: &Act<Name, Note>,
    at: Pos,
    note: Note,
    walk: &mut Walk,
) -> Result<Stmt<Name, Note>, Fault>
    ensures { StepsOutcome result (here walk.new)
        ((path_of_act act.now).judged frame.now head.now at note (here walk.old)) }
{
    match act {
        Act::Block(m, ss) => {
            let most = walk.seen.len();
            let all = judge_stmts(work, frame, head, ss.as_slice(), walk)?;
            close(most, walk);
            Ok(stated(at, note, Act::Block(*m, all)))
        }
        Act::Empty => Ok(stated(at, note, Act::Empty)),
        Act::Local(d) => local(work, frame, at, note, d.get(), walk),
        Act::Assign(e, f) => assignment(work, frame, head, at, note, e.get(), f.get(), walk),
        Act::Call(e) => call(work, frame, at, note, e.get(), walk),
        Act::If(e, s, t) => {
            let Branch { condition, other } = judge_branch(work, frame, false, e.get(), walk)?;
            let s = boxed_stmt(work, frame, head, s.get(), walk)?;
            let end = turn(walk, other);
            let t = judge_part(work, frame, head, t, walk)?;
            join_ends(work.alloc, end, walk)?;
            Ok(stated(at, note, Act::If(condition, s, t)))
        }
        Act::While(e, s) => {
            let Branch { condition, other } = enter_while(work, frame, e.get(), s.get(), walk)?;
            let s = boxed_stmt(work, frame, head, s.get(), walk)?;
            walk.at = other;
            Ok(stated(at, note, Act::While(condition, s)))
        }
        Act::For(s, e, t, body) => {
            let most = walk.seen.len();
            let first = judge_part(work, frame, head, s, walk)?;
            let Start {
                condition,
                other,
                step,
            } = enter_for(work, frame, e, body.get(), t, walk)?;
            let body = boxed_stmt(work, frame, head, body.get(), walk)?;
            to_step(step, walk);
            let t = judge_part(work, frame, head, t, walk)?;
            walk.at = other;
            close(most, walk);
            Ok(stated(at, note, Act::For(first, condition, t, body)))
        }
        Act::Return(e) => result(work, frame, head, at, note, e, walk),
        Act::Break => jump(work.alloc, frame, at, note, Act::Break, walk),
        Act::Continue => jump(work.alloc, frame, at, note, Act::Continue, walk),
        Act::Check(e) => check(work, frame, at, note, e.get(), walk),
        Act::Bundle(ss) => judge_bundle(work, frame, head, at, note, ss.as_slice(), walk),
    }
}

/// Judges a statement, notes the ranges in it, and goes on after it.
#[cycle(stmt)]
pub fn judge_stmt(
    work: &mut Work,
    frame: &Frame,
    head: &HeadBounds,
    s: &Stmt<Name, Note>,
    walk: &mut Walk,
) -> Result<Stmt<Name, Note>, Fault>
    ensures { StepsOutcome result (here walk.new)
        ((path s.now).judged frame.now head.now (here walk.old)) }
{
    let note = s.note.exact_clone(work.alloc)?;
    judge_act(work, frame, head, &s.body, s.pos, note, walk)
}

/// A statement in a box of its own.
#[cycle(stmt)]
fn boxed_stmt(
    work: &mut Work,
    frame: &Frame,
    head: &HeadBounds,
    s: &Stmt<Name, Note>,
    walk: &mut Walk,
) -> Result<Boxed<Stmt<Name, Note>>, Fault>
    ensures { StepsOutcome result (here walk.new)
        ((path s.now).judged frame.now head.now (here walk.old)) }
{
    let judged = judge_stmt(work, frame, head, s, walk)?;
    let boxed = Boxed::new(work.alloc, judged)?;
    Ok(boxed)
}

/// Statements, from the first to the last.
#[cycle(stmt)]
fn judge_stmts(
    work: &mut Work,
    frame: &Frame,
    head: &HeadBounds,
    ss: &[Stmt<Name, Note>],
    walk: &mut Walk,
) -> Result<Seq<Stmt<Name, Note>>, Fault>
    ensures { StepsOutcome result (here walk.new)
        (all_judged frame.now head.now (map path ss.now) (here walk.old)) }
{
    let mut all = Seq::new(work.alloc);
    for s in ss {
        let judged = judge_stmt(work, frame, head, s, walk)?;
        all.push(judged)?;
    }
    Ok(all)
}

/// A statement, if there is one.
#[cycle(stmt)]
fn judge_part(
    work: &mut Work,
    frame: &Frame,
    head: &HeadBounds,
    part: &Option<Boxed<Stmt<Name, Note>>>,
    walk: &mut Walk,
) -> Result<Option<Boxed<Stmt<Name, Note>>>, Fault>
    ensures { StepsOutcome result (here walk.new)
        (part_judged frame.now head.now (option_map path part.now) (here walk.old)) }
{
    match part {
        None => Ok(None),
        Some(s) => {
            let judged = boxed_stmt(work, frame, head, s.get(), walk)?;
            Ok(Some(judged))
        }
    }
}
