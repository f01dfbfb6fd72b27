//! What statements do beside the statements in them.

ghost use Rattle.std.specs.Prelude.{◌≡◌, take, IfOk, OnOk, Ok};
ghost use Rattle.ckc_base.specs.Outcomes.{StepsOutcome};
ghost use Rattle.ckc_bounds_points.specs.Shown.{known};
ghost use Rattle.ckc_bounds_points.specs.Flow.{state};
ghost use Rattle.ckc_bounds_statements.specs.Paths.{starts_within, value_form, start_form, started, declared_here, decl_judged, local_judged, stated, sides_judged, assign_judged, behind_stores, call_judged, check_judged, gone, is_returned, return_judged, closed};
ghost use Rattle.ckc_bounds_statements.specs.Walks.{here};
ghost use Rattle.ckc_bounds_stores.specs.Stores.{Threads};

use crate::contents::add_name;
use crate::declared::judge_bounds;
use crate::walk::{Walk, boxed_value, judge_init, maybe_value, take_side};
use ckc_base::{Boxed, Fault, Pos, Seq, refused};
use ckc_bounds_points::codes::NOT_CONTAINED;
use ckc_bounds_points::{
    Frame, HeadBounds, Point, Work, assign, constant_form, in_type, unreached,
};
use ckc_bounds_stores::{initialised, pass, returned, stored};
use ckc_bounds_views::form;
use ckc_linear::{Facts, Form};
use ckc_syntax::{Act, Decl, Expr, Init, Name, Stmt, decl_with};
use ckc_typed::Note;
use ckc_typed::types::type_written;
use ckc_types::CType;
use core::mem::replace_with;
use std::alloc::{AllocError, Global};
use std::slice;

/// A statement at its place, with its note.
pub fn stated(at: Pos, note: Note, body: Act<Name, Note>) -> Stmt<Name, Note>
    ensures { result ≡ stated at note body }
{
    Stmt {
        body,
        pos: at,
        note,
    }
}

fn starts_within(
    work: &mut Work,
    frame: &Frame,
    name: Name,
    init: &Init<Name, Note>,
    first: u32,
    walk: &Walk,
) -> Result<bool, AllocError>
    ensures { IfOk result (λ b. b ≡ starts_within frame.now name init.now first (here walk.now)) }
{
    match (name, init) {
        (Name::Local(k), Init::One(e)) => {
            if walk.counting {
                return Ok(true);
            }
            initialised(work, frame, k, e.get(), first, &walk.at)
        }
        _ => Ok(true),
    }
}

#[tactic(auto, unfolding(crate::specs::Paths::value_form))]
fn value_form(
    work: &mut Work,
    frame: &Frame,
    t: &CType,
    e: &Expr<Name, Note>,
    facts: &Facts,
) -> Result<Option<Form>, AllocError>
    ensures { IfOk result (λ f. f ≡ value_form frame.now t.now e.now (known facts.now)) }
{
    let f = form(work, frame, facts, e)?;
    in_type(work, facts, t, f)
}

/// The form of what a local begins with.
fn start_form(
    work: &mut Work,
    frame: &Frame,
    t: &CType,
    init: &Init<Name, Note>,
    facts: &Facts,
) -> Result<Option<Form>, AllocError>
    ensures { IfOk result (λ f. f ≡ start_form frame.now t.now init.now (known facts.now)) }
{
    match init {
        Init::Nothing => Ok(Some(constant_form(0))),
        Init::One(e) => value_form(work, frame, t, e.get(), facts),
        Init::Many(_) => Ok(None),
    }
}

/// Goes on over the assignment that a declaration is.
fn begin(
    work: &mut Work,
    frame: &Frame,
    name: Name,
    t: &CType,
    init: &Init<Name, Note>,
    at: &mut Point,
) -> Result<(), AllocError>
    ensures { OnOk result (state at.new ≡ started frame.now name t.now init.now (state at.old)) }
{
    match name {
        Name::Local(k) => {
            let form = start_form(work, frame, t, init, &at.facts)?;
            assign(work.alloc, frame, k, form, at)
        }
        _ => Ok(()),
    }
}

/// Goes on after a declaration.
fn pass_decl(
    work: &mut Work,
    frame: &Frame,
    d: &Decl<Name, Note>,
    init: &Init<Name, Note>,
    walk: &mut Walk,
) -> Result<(), AllocError>
    ensures { OnOk result (here walk.new ≡ declared_here frame.now d.now init.now (here walk.old)) }
{
    let t = type_written(work.alloc, &d.ctype)?;
    begin(work, frame, d.name, &t, init, &mut walk.at)?;
    add_name(d.name, &mut walk.seen)
}

fn judge_decl(
    work: &mut Work,
    frame: &Frame,
    d: &Decl<Name, Note>,
    walk: &mut Walk,
) -> Result<Decl<Name, Note>, Fault>
    ensures { StepsOutcome result (here walk.new) (decl_judged frame.now d.now (here walk.old)) }
{
    judge_bounds(work.alloc, frame, d, walk)?;
    let first = walk.next;
    let init = judge_init(work, frame, &d.init, walk)?;
    if !starts_within(work, frame, d.name, &init, first, walk)? {
        return Err(refused(NOT_CONTAINED, d.pos));
    }
    pass_decl(work, frame, d, &init, walk)?;
    let judged = decl_with(work.alloc, d, init)?;
    Ok(judged)
}

/// A declaration.
pub fn local(
    work: &mut Work,
    frame: &Frame,
    at: Pos,
    note: Note,
    d: &Decl<Name, Note>,
    walk: &mut Walk,
) -> Result<Stmt<Name, Note>, Fault>
    ensures { StepsOutcome result (here walk.new)
        (local_judged frame.now at note d.now (here walk.old)) }
{
    let judged = judge_decl(work, frame, d, walk)?;
    let boxed = Boxed::new(work.alloc, judged)?;
    Ok(stated(at, note, Act::Local(boxed)))
}

/// An assignment whose sides are judged.
pub fn sides(
    work: &mut Work,
    frame: &Frame,
    at: Pos,
    note: Note,
    e: &Expr<Name, Note>,
    f: &Expr<Name, Note>,
    walk: &mut Walk,
) -> Result<Stmt<Name, Note>, Fault>
    ensures { StepsOutcome result (here walk.new)
        (sides_judged frame.now at note e.now f.now (here walk.old)) }
{
    let e = boxed_value(work, frame, e, walk)?;
    let f = boxed_value(work, frame, f, walk)?;
    Ok(stated(at, note, Act::Assign(e, f)))
}

/// Goes on after assignments that are judged as one.
pub fn pass_stores(
    work: &mut Work,
    frame: &Frame,
    head: &HeadBounds,
    ss: &[Stmt<Name, Note>],
    first: u32,
    walk: &mut Walk,
) -> Result<(), Fault>
    ensures { Threads result (here walk.new)
        (behind_stores frame.now head.now ss.now first (here walk.old)) }
{
    if walk.counting {
        pass(work, frame, ss, first, &mut walk.at)?;
        return Ok(());
    }
    stored(
        work,
        frame,
        &head.bounds,
        walk.seen.as_slice(),
        ss,
        first,
        &mut walk.at,
    )
}

/// An assignment.
pub fn assignment(
    work: &mut Work,
    frame: &Frame,
    head: &HeadBounds,
    at: Pos,
    note: Note,
    e: &Expr<Name, Note>,
    f: &Expr<Name, Note>,
    walk: &mut Walk,
) -> Result<Stmt<Name, Note>, Fault>
    ensures { StepsOutcome result (here walk.new)
        (assign_judged frame.now head.now at note e.now f.now (here walk.old)) }
{
    let first = walk.next;
    let s = sides(work, frame, at, note, e, f, walk)?;
    pass_stores(work, frame, head, slice::from_ref(&s), first, walk)?;
    Ok(s)
}

/// A call.
pub fn call(
    work: &mut Work,
    frame: &Frame,
    at: Pos,
    note: Note,
    e: &Expr<Name, Note>,
    walk: &mut Walk,
) -> Result<Stmt<Name, Note>, Fault>
    ensures { StepsOutcome result (here walk.new)
        (call_judged frame.now at note e.now (here walk.old)) }
{
    let e = boxed_value(work, frame, e, walk)?;
    Ok(stated(at, note, Act::Call(e)))
}

/// A run-time check.
pub fn check(
    work: &mut Work,
    frame: &Frame,
    at: Pos,
    note: Note,
    e: &Expr<Name, Note>,
    walk: &mut Walk,
) -> Result<Stmt<Name, Note>, Fault>
    ensures { StepsOutcome result (here walk.new)
        (check_judged frame.now at note e.now (here walk.old)) }
{
    let e = boxed_value(work, frame, e, walk)?;
    take_side(work, frame, e.get(), true, &mut walk.at)?;
    Ok(stated(at, note, Act::Check(e)))
}

/// Goes on to where nothing leads.
pub fn leave(alloc: Global, frame: &Frame, walk: &mut Walk) -> Result<(), AllocError>
    ensures { OnOk result (here walk.new ≡ gone frame.now (here walk.old)) }
{
    walk.at = unreached(alloc, frame)?;
    Ok(())
}

/// A `break` or a `continue`.
pub fn jump(
    alloc: Global,
    frame: &Frame,
    at: Pos,
    note: Note,
    body: Act<Name, Note>,
    walk: &mut Walk,
) -> Result<Stmt<Name, Note>, Fault>
    ensures { StepsOutcome result (here walk.new)
        (Ok (stated at note body, gone frame.now (here walk.old))) }
{
    leave(alloc, frame, walk)?;
    Ok(stated(at, note, body))
}

fn is_returned(
    work: &mut Work,
    frame: &Frame,
    head: &HeadBounds,
    e: &Option<Boxed<Expr<Name, Note>>>,
    first: u32,
    walk: &Walk,
) -> Result<bool, AllocError>
    ensures { IfOk result (λ b. b ≡ is_returned frame.now head.now e.now first (here walk.now)) }
{
    match e {
        None => Ok(true),
        Some(e) => {
            if walk.counting {
                return Ok(true);
            }
            returned(work, frame, head, e.get(), first, &walk.at)
        }
    }
}

/// A `return`.
pub fn result(
    work: &mut Work,
    frame: &Frame,
    head: &HeadBounds,
    at: Pos,
    note: Note,
    e: &Option<Boxed<Expr<Name, Note>>>,
    walk: &mut Walk,
) -> Result<Stmt<Name, Note>, Fault>
    ensures { StepsOutcome result (here walk.new)
        (return_judged frame.now head.now at note e.now (here walk.old)) }
{
    let first = walk.next;
    let e = maybe_value(work, frame, e, walk)?;
    if !is_returned(work, frame, head, &e, first, walk)? {
        return Err(refused(NOT_CONTAINED, at));
    }
    leave(work.alloc, frame, walk)?;
    Ok(stated(at, note, Act::Return(e)))
}

fn shortened(seen: Seq<u32>, most: usize) -> (Seq<u32>, ())
    ensures { result.0 ≡ take most seen }
{
    let mut items = seen.into_vec();
    items.truncate(most);
    (Seq::from_vec(items), ())
}

/// Lets what was declared since then go out of scope.
pub fn close(most: usize, walk: &mut Walk)
    ensures { here walk.new ≡ closed most (here walk.old) }
{
    replace_with(&mut walk.seen, most, shortened)
}
