//! Whether the arguments of a call are contained in the bounds of its parameters.

ghost use Rattle.std.specs.Prelude.{◌≡◌, ◌||◌, [], map, slice_get, IfOk, OnOk, Some};
ghost use Rattle.ckc_bounds_extents.specs.ckc_bounds_points.specs.Shown.{known};
ghost use Rattle.ckc_bounds_extents.specs.ckc_bounds_points.specs.Flow.{state};
ghost use Rattle.ckc_bounds_extents.specs.ckc_bounds_views.specs.Arguments.{bases_by, variables_by};
ghost use Rattle.ckc_bounds_extents.specs.ckc_bounds_views.specs.Judged.{extended_by, facts_for, is_owed, is_argument, head_fault, call_fault};
ghost use Rattle.ckc_bounds_extents.specs.ckc_bounds_views.specs.Views.{view};

use ckc_base::{Refusal, Seq};
use ckc_bounds_extents::bounds_points::codes::NOT_CONTAINED;
use ckc_bounds_extents::bounds_points::{Bounds, Frame, HeadBounds, Local, Point, Work, copied};
use ckc_bounds_extents::bounds_ranges::{Ends, extend, is_contained, replaced_bounds};
use ckc_bounds_extents::bounds_views::{bases_by, is_raw, values, variables_by};
use ckc_bounds_extents::{add_fresh_ranges, fresh_behind, is_null, range};
use ckc_linear::Facts;
use ckc_syntax::{Expr, Name};
use ckc_typed::{Note, Range};
use std::alloc::{AllocError, Global};

/// Adds what also holds of a range, by the one without widening.
fn extend_by(
    range: Range,
    before: Range,
    allocated: bool,
    facts: &mut Facts,
) -> Result<(), AllocError>
    ensures { OnOk result (known facts.new ≡ extended_by range before allocated (known facts.old)) }
{
    match (range, before) {
        (Range::Known(low, high), Range::Known(_, end)) => {
            extend(Ends { low, high }, end, allocated, facts)
        }
        (Range::Known(_, _), Range::Missing | Range::Any) => Ok(()),
        (Range::Missing | Range::Any, _) => Ok(()),
    }
}

fn without_widening(alloc: Global, at: &Point) -> Result<Point, AllocError>
    ensures { IfOk result (λ p. state p ≡ record (state at.now) { widened = [] }) }
{
    let mut narrow = copied(alloc, at)?;
    narrow.widened = Seq::new(alloc);
    Ok(narrow)
}

/// A point with what also holds where a new value is judged that is to be contained, by the numbers of the first value and
/// the first fresh variable in it.
fn point_for(
    work: &mut Work,
    frame: &Frame,
    at: &Point,
    e: &Expr<Name, Note>,
    first_value: u32,
    first_fresh: u32,
    allocated: bool,
) -> Result<Point, AllocError>
    ensures { IfOk result (λ p.
        known p.facts ≡ facts_for (view frame.now e.now) first_value first_fresh allocated
        (state at.now)) }
{
    let found = range(work, frame, at, e, first_value, first_fresh)?;
    let mut narrow = without_widening(work.alloc, at)?;
    let before = range(work, frame, &narrow, e, first_value, first_fresh)?;
    add_fresh_ranges(work, frame, at, e, first_fresh, &mut narrow.facts)?;
    extend_by(found, before, allocated, &mut narrow.facts)?;
    Ok(narrow)
}

fn is_argument(
    work: &mut Work,
    frame: &Frame,
    at: &Point,
    params: &[Local],
    es: &[Expr<Name, Note>],
    p: &Local,
    e: &Expr<Name, Note>,
    first_value: u32,
    first_fresh: u32,
) -> Result<bool, AllocError>
    ensures { let views = map (view frame.now) es.now in
        IfOk result (λ b. b ≡ is_argument (Some p.now) (view frame.now e.now) first_value
        first_fresh (state at.now)
        (λ facts. bases_by params.now 0 0 facts views)
        (λ facts. variables_by params.now 0 facts views)) }
{
    let found = range(work, frame, at, e, first_value, first_fresh)?;
    let inner = point_for(work, frame, at, e, first_value, first_fresh, false)?;
    let bases = bases_by(work, frame, &inner.facts, params, es, 0)?;
    let variables = variables_by(work, frame, &inner.facts, params, es)?;
    let limits = replaced_bounds(bases.as_slice(), variables.as_slice(), &p.bounds);
    is_contained(
        work,
        &inner.facts,
        &p.bounds,
        is_null(frame, e),
        found,
        limits,
    )
}

/// Whether the argument with a number is contained in the bounds of its parameter. If nothing is known of those, or
/// if there is none, it is.
fn is_argument_at(
    work: &mut Work,
    frame: &Frame,
    at: &Point,
    params: &[Local],
    es: &[Expr<Name, Note>],
    n: u32,
    e: &Expr<Name, Note>,
    first_value: u32,
    first_fresh: u32,
) -> Result<bool, AllocError>
    ensures { let views = map (view frame.now) es.now in
        IfOk result (λ b. b
        ≡ is_argument (slice_get params.now n) (view frame.now e.now) first_value first_fresh
        (state at.now)
        (λ facts. bases_by params.now 0 0 facts views)
        (λ facts. variables_by params.now 0 facts views)) }
{
    match params.get(n as usize) {
        Some(p) => match p.bounds {
            Bounds::Unknown => Ok(true),
            Bounds::Known(_, _) => {
                is_argument(work, frame, at, params, es, p, e, first_value, first_fresh)
            }
        },
        None => Ok(true),
    }
}

/// Whether the argument with a number goes to an interface as the unchecked pointer that it is, which is not judged.
fn is_owed(frame: &Frame, head: &HeadBounds, n: u32, e: &Expr<Name, Note>) -> bool
    ensures { result ≡ is_owed (slice_get head.now.interfaces n) (view frame.now e.now) }
{
    match head.interfaces.get(n as usize) {
        Some(is_interface) => *is_interface && is_raw(&e.note.ctype),
        None => false,
    }
}

/// Whether the argument with a number is contained in the bounds of its parameter, or is not judged.
fn may_pass(
    work: &mut Work,
    frame: &Frame,
    at: &Point,
    head: &HeadBounds,
    es: &[Expr<Name, Note>],
    n: u32,
    e: &Expr<Name, Note>,
    first_value: u32,
    first_fresh: u32,
) -> Result<bool, AllocError>
    ensures { let views = map (view frame.now) es.now in
        IfOk result (λ b. b ≡ (is_owed (slice_get head.now.interfaces n) (view frame.now e.now)
        || is_argument (slice_get head.now.params n) (view frame.now e.now) first_value first_fresh
        (state at.now)
        (λ facts. bases_by head.now.params 0 0 facts views)
        (λ facts. variables_by head.now.params 0 facts views))) }
{
    if is_owed(frame, head, n, e) {
        return Ok(true);
    }
    let params = head.params.as_slice();
    is_argument_at(work, frame, at, params, es, n, e, first_value, first_fresh)
}

/// The first argument of a call that is judged and is not contained, by what the head of the function says.
fn head_fault(
    work: &mut Work,
    frame: &Frame,
    at: &Point,
    head: &HeadBounds,
    es: &[Expr<Name, Note>],
    first_fresh: u32,
) -> Result<Option<Refusal>, AllocError>
    ensures { IfOk result (λ r.
        r ≡ head_fault (Some head.now) (map (view frame.now) es.now) first_fresh (state at.now)) }
{
    let mut n = 0u32;
    let mut value = 0u32;
    let mut fresh = first_fresh;
    for e in es {
        let passes = may_pass(work, frame, at, head, es, n, e, value, fresh)?;
        if !passes {
            return Ok(Some(Refusal {
                code: NOT_CONTAINED,
                pos: e.pos,
            }));
        }
        n = n.saturating_add(1);
        value = value.saturating_add(values(frame, e));
        fresh = fresh_behind(work, frame, at, e, fresh)?;
    }
    Ok(None)
}

/// The first argument of a call that is not contained in the bounds of its parameter (E602).
pub fn call_fault(
    work: &mut Work,
    frame: &Frame,
    at: &Point,
    name: Name,
    es: &[Expr<Name, Note>],
    first_fresh: u32,
) -> Result<Option<Refusal>, AllocError>
    ensures { IfOk result (λ r.
        r ≡ call_fault frame.now name (map (view frame.now) es.now) first_fresh (state at.now)) }
{
    match name {
        Name::Function(k) => match frame.heads.get(k as usize) {
            Some(head) => head_fault(work, frame, at, head, es, first_fresh),
            None => Ok(None),
        },
        Name::Local(_) | Name::Static(_) | Name::Tag(_) | Name::Member(_) => Ok(None),
        Name::Getchar | Name::Putchar => Ok(None),
    }
}
