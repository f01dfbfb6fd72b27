//! Initialisations, assignments, bundles and returns at a point.

ghost use Rattle.std.specs.Prelude.{◌≡◌, map, IfOk, OnOk};
ghost use Rattle.ckc_bounds_points.specs.Shown.{known};
ghost use Rattle.ckc_bounds_points.specs.Flow.{state};
ghost use Rattle.ckc_bounds_stores.specs.Targets.{local_of};
ghost use Rattle.ckc_bounds_stores.specs.Stores.{Threads, stores_of, assigned_local, received, after, stored_placed, stored, passed, holds_from, initialised, returned};
ghost use Rattle.ckc_bounds_stores.specs.code.Stores.{placed};

use crate::faults::first_fault;
use crate::placed::{Placed, numbered};
use crate::replacing::received;
use crate::targets::local_of;
use crate::values::{Numbered, holds, new_value};
use ckc_base::Fault;
use ckc_bounds_points::{Bounds, Frame, HeadBounds, Point, Work, assign, copied_facts, local_at};
use ckc_bounds_ranges::BaseBy;
use ckc_bounds_views::place;
use ckc_linear::{Base, Facts, Form};
use ckc_syntax::{Expr, Name, Stmt};
use ckc_typed::Note;
use ckc_types::CType;
use std::alloc::{AllocError, Global};

fn assign_local(
    alloc: Global,
    frame: &Frame,
    form: Option<Form>,
    local: Option<u32>,
    at: &mut Point,
) -> Result<(), AllocError>
    ensures { OnOk result (state at.new ≡ assigned_local frame.now form (state at.old) local) }
{
    match local {
        Some(k) => assign(alloc, frame, k, form, at),
        None => Ok(()),
    }
}

fn assign_one(
    work: &mut Work,
    frame: &Frame,
    before: &Facts,
    p: &Placed<'_>,
    at: &mut Point,
) -> Result<(), AllocError>
    ensures { OnOk result (state at.new
        ≡ assigned_local frame.now (received frame.now (known before.now) (placed p.now))
        (state at.old) (local_of (placed p.now).target)) }
{
    let form = received(work, frame, before, p)?;
    assign_local(work.alloc, frame, form, local_of(p.target), at)
}

fn assign_all(
    work: &mut Work,
    frame: &Frame,
    before: &Facts,
    ps: &[Placed<'_>],
    at: &mut Point,
) -> Result<(), AllocError>
    ensures { OnOk result (state at.new
        ≡ after frame.now (known before.now) (map placed ps.now) (state at.old)) }
{
    for p in ps {
        assign_one(work, frame, before, p, at)?;
    }
    Ok(())
}

fn go_on(
    work: &mut Work,
    frame: &Frame,
    ps: &[Placed<'_>],
    at: &mut Point,
) -> Result<(), AllocError>
    ensures { OnOk result (state at.new
        ≡ after frame.now (state at.old).facts (map placed ps.now) (state at.old)) }
{
    match ps {
        // Of one assignment the form is known before the point changes.
        [p] => {
            let form = received(work, frame, &at.facts, p)?;
            assign_local(work.alloc, frame, form, local_of(p.target), at)
        }
        _ => {
            let before = copied_facts(work.alloc, &at.facts)?;
            assign_all(work, frame, &before, ps, at)
        }
    }
}

#[tactic(auto, unfolding(crate::specs::Stores::stored_placed))]
fn stored_placed(
    work: &mut Work,
    frame: &Frame,
    bounds: &Bounds,
    scope: &[u32],
    ps: &[Placed<'_>],
    at: &mut Point,
) -> Result<(), Fault>
    ensures { Threads result (state at.new)
        (stored_placed frame.now bounds.now scope.now (map placed ps.now) (state at.old)) }
{
    let first = first_fault(work, frame, bounds, scope, ps, at)?;
    match first {
        Some(r) => Err(Fault::Refused(r)),
        None => {
            go_on(work, frame, ps, at)?;
            Ok(())
        }
    }
}

/// Judges an assignment, or those of a bundle, and goes on to the point after them. `bounds` are those of the function's
/// result, `scope` are the locals that are in scope, and the first expression numbers its fresh variables from
/// `first_fresh` on.
pub fn stored(
    work: &mut Work,
    frame: &Frame,
    bounds: &Bounds,
    scope: &[u32],
    ss: &[Stmt<Name, Note>],
    first_fresh: u32,
    at: &mut Point,
) -> Result<(), Fault>
    ensures { Threads result (state at.new)
        (stored frame.now bounds.now scope.now (stores_of ss.now) first_fresh (state at.old)) }
{
    let ps = numbered(work, frame, ss, first_fresh, at)?;
    stored_placed(work, frame, bounds, scope, ps.as_slice(), at)
}

/// Goes on to the point after an assignment, or after those of a bundle, whatever they owe.
pub fn pass(
    work: &mut Work,
    frame: &Frame,
    ss: &[Stmt<Name, Note>],
    first_fresh: u32,
    at: &mut Point,
) -> Result<(), AllocError>
    ensures { OnOk result
        (state at.new ≡ passed frame.now (stores_of ss.now) first_fresh (state at.old)) }
{
    let ps = numbered(work, frame, ss, first_fresh, at)?;
    go_on(work, frame, ps.as_slice(), at)
}

#[tactic(auto, unfolding(crate::specs::Stores::holds_from, crate::specs::Values::holds))]
fn holds_from(
    work: &mut Work,
    frame: &Frame,
    t: &CType,
    base: Base,
    e: &Expr<Name, Note>,
    from: Numbered,
    at: &Point,
    bounds: &Bounds,
) -> Result<bool, AllocError>
    ensures { IfOk result (λ b. b
        ≡ holds_from frame.now t.now base e.now from (state at.now) bounds.now) }
{
    match bounds {
        // Unknown bounds contain nothing, whatever the new value is.
        Bounds::Unknown => Ok(true),
        Bounds::Known(_, _) => {
            let v = new_value(work, frame, t, e, from, at)?;
            let by = place(work, frame, &v.facts, e, from.value)?;
            let own = [BaseBy { base, by }];
            holds(work, &v, bounds, &own, &[])
        }
    }
}

/// Whether the initialiser of the local k is contained in its bounds (else E602 at its name).
pub fn initialised(
    work: &mut Work,
    frame: &Frame,
    k: u32,
    e: &Expr<Name, Note>,
    first_fresh: u32,
    at: &Point,
) -> Result<bool, AllocError>
    ensures { IfOk result (λ b. b ≡ initialised frame.now k e.now first_fresh (state at.now)) }
{
    let from = Numbered {
        value: 0,
        fresh: first_fresh,
    };
    match local_at(frame, k) {
        Some(local) => {
            let own = Base::Local(k);
            holds_from(work, frame, &local.ctype, own, e, from, at, &local.bounds)
        }
        None => Ok(true),
    }
}

/// Whether a returned value is contained in the bounds of the function's result (else E602 at `return`).
pub fn returned(
    work: &mut Work,
    frame: &Frame,
    head: &HeadBounds,
    e: &Expr<Name, Note>,
    first_fresh: u32,
    at: &Point,
) -> Result<bool, AllocError>
    ensures { IfOk result (λ b. b ≡ returned frame.now head.now e.now first_fresh (state at.now)) }
{
    let from = Numbered {
        value: 0,
        fresh: first_fresh,
    };
    holds_from(
        work,
        frame,
        &head.result,
        Base::Value(0),
        e,
        from,
        at,
        &head.bounds,
    )
}
