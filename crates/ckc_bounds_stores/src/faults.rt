//! The errors of assignments that are judged as one.

ghost use Rattle.std.specs.Prelude.{◌≡◌, ◌==◌, nat_lt, map, length, not, IfOk};
ghost use Rattle.std.specs.List.{filter_map, find};
ghost use Rattle.std.specs.Option.{option_map};
ghost use Rattle.ckc_bounds_points.specs.Flow.{state};
ghost use Rattle.ckc_bounds_stores.specs.Stores.{assigns, assigns_local, is_in_bounds, touches, refusal_unless, target_fault, named_fault, touched_fault, fault_by_bounds, local_fault, memory_fault_by, members_assigned, may_be_assigned, member_fault, memory_fault, store_fault, comes_before, decides, earlier, earliest, first_fault};
ghost use Rattle.ckc_bounds_stores.specs.code.Stores.{placed};

use crate::placed::Placed;
use crate::replacing::{holds_by, holds_in_memory};
use crate::targets::{local_of, member_of, memory_bounds};
use crate::values::{new_value, same_value};
use ckc_base::{Pos, Refusal};
use ckc_bounds_extents::is_null;
use ckc_bounds_points::codes::{ASSIGNED_ALONE, LOST_BOUNDS, NOT_CONTAINED};
use ckc_bounds_points::{Bounds, Frame, Point, Work, in_bounds, local_at};
use ckc_bounds_ranges::{may_be_assigned_alone, may_be_assigned_with};
use ckc_bounds_views::Member;
use std::alloc::{AllocError, Global};

fn assigns(k: u32, local: Option<u32>) -> bool
    ensures { result ≡ assigns k local }
{
    match local {
        Some(j) => j == k,
        None => false,
    }
}

fn is_in_bounds(bounds: &Bounds, local: Option<u32>) -> bool
    ensures { result ≡ is_in_bounds bounds.now local }
{
    match local {
        Some(k) => in_bounds(k, bounds),
        None => false,
    }
}

fn assigns_local(k: u32, p: &Placed<'_>) -> bool
    ensures { result ≡ assigns_local k (placed p.now) }
{
    assigns(k, local_of(p.target))
}

fn touches(bounds: &Bounds, p: &Placed<'_>) -> bool
    ensures { result ≡ touches bounds.now (placed p.now) }
{
    is_in_bounds(bounds, local_of(p.target))
}

/// The assignment to a local.
fn assignment_to<'a>(ps: &[Placed<'a>], k: u32) -> Option<Placed<'a>>
    ensures { option_map placed result ≡ find (assigns_local k) (map placed ps.now) }
{
    for p in ps {
        if assigns_local(k, p) {
            return Some(*p);
        }
    }
    None
}

/// The first assignment to what bounds name.
fn first_touching<'a>(ps: &[Placed<'a>], bounds: &Bounds) -> Option<Placed<'a>>
    ensures { option_map placed result ≡ find (touches bounds.now) (map placed ps.now) }
{
    for p in ps {
        if touches(bounds, p) {
            return Some(*p);
        }
    }
    None
}

fn refusal_unless(kept: bool, code: u16, pos: Pos) -> Option<Refusal>
    ensures { result ≡ refusal_unless kept code pos }
{
    if kept {
        None
    } else {
        Some(Refusal { code, pos })
    }
}

fn target_fault(
    work: &mut Work,
    frame: &Frame,
    ps: &[Placed<'_>],
    at: &Point,
    bounds: &Bounds,
    p: &Placed<'_>,
) -> Result<Option<Refusal>, AllocError>
    ensures { IfOk result (λ r. r
        ≡ target_fault frame.now (map placed ps.now) (state at.now) bounds.now (placed p.now)) }
{
    let v = new_value(work, frame, &p.target.note.ctype, p.right, p.from, at)?;
    let kept = holds_by(work, frame, ps, &v, bounds)?;
    Ok(refusal_unless(kept, NOT_CONTAINED, p.pos))
}

fn named_fault(
    work: &mut Work,
    frame: &Frame,
    ps: &[Placed<'_>],
    at: &Point,
    k: u32,
    bounds: &Bounds,
    named: Option<Placed<'_>>,
) -> Result<Option<Refusal>, AllocError>
    ensures { IfOk result (λ r. r
        ≡ named_fault frame.now (map placed ps.now) (state at.now) k bounds.now
        (option_map placed named.entry)) }
{
    match named {
        Some(p) => {
            let v = same_value(work.alloc, frame, k, at)?;
            let kept = holds_by(work, frame, ps, &v, bounds)?;
            Ok(refusal_unless(kept, LOST_BOUNDS, p.pos))
        }
        None => Ok(None),
    }
}

fn touched_fault(
    work: &mut Work,
    frame: &Frame,
    ps: &[Placed<'_>],
    at: &Point,
    k: u32,
    bounds: &Bounds,
) -> Result<Option<Refusal>, AllocError>
    ensures { IfOk result (λ r. r
        ≡ touched_fault frame.now (map placed ps.now) (state at.now) k bounds.now
        (find (assigns_local k) (map placed ps.now))) }
{
    match assignment_to(ps, k) {
        Some(p) => target_fault(work, frame, ps, at, bounds, &p),
        None => named_fault(work, frame, ps, at, k, bounds, first_touching(ps, bounds)),
    }
}

fn fault_by_bounds(
    work: &mut Work,
    frame: &Frame,
    ps: &[Placed<'_>],
    at: &Point,
    k: u32,
    bounds: &Bounds,
) -> Result<Option<Refusal>, AllocError>
    ensures { IfOk result (λ r. r
        ≡ fault_by_bounds frame.now (map placed ps.now) (state at.now) k bounds.now) }
{
    match bounds {
        Bounds::Unknown => Ok(None),
        Bounds::Known(_, _) => touched_fault(work, frame, ps, at, k, bounds),
    }
}

fn local_fault(
    work: &mut Work,
    frame: &Frame,
    ps: &[Placed<'_>],
    at: &Point,
    k: u32,
) -> Result<Option<Refusal>, AllocError>
    ensures { IfOk result (λ r. r ≡ local_fault frame.now (map placed ps.now) (state at.now) k) }
{
    match local_at(frame, k) {
        Some(local) => fault_by_bounds(work, frame, ps, at, k, &local.bounds),
        None => Ok(None),
    }
}

fn memory_fault_by(
    work: &mut Work,
    frame: &Frame,
    ps: &[Placed<'_>],
    at: &Point,
    p: &Placed<'_>,
    bounds: &Bounds,
) -> Result<Option<Refusal>, AllocError>
    ensures { IfOk result (λ r. r
        ≡ memory_fault_by frame.now (map placed ps.now) (state at.now) (placed p.now)
        bounds.now) }
{
    match bounds {
        Bounds::Unknown => Ok(None),
        Bounds::Known(_, _) => {
            let v = new_value(work, frame, &p.target.note.ctype, p.right, p.from, at)?;
            let kept = holds_in_memory(work, frame, ps, p, &v, bounds)?;
            Ok(refusal_unless(kept, NOT_CONTAINED, p.pos))
        }
    }
}

fn members_assigned(alloc: Global, frame: &Frame, ps: &[Placed<'_>]) -> Result<Vec<u32>, AllocError>
    ensures { IfOk result (λ ms. ms.items ≡ members_assigned frame.now (map placed ps.now)) }
{
    let mut all = Vec::new(alloc);
    for p in ps {
        if let Some(m) = member_of(frame, p.target) {
            all.push(m.number)?;
        }
    }
    Ok(all)
}

fn may_be_assigned(
    alloc: Global,
    frame: &Frame,
    ps: &[Placed<'_>],
    p: &Placed<'_>,
    m: Member,
) -> Result<bool, AllocError>
    ensures { IfOk result (λ b. b
        ≡ may_be_assigned frame.now (map placed ps.now) (placed p.now) m) }
{
    if ps.len() == 1 {
        return Ok(may_be_assigned_alone(&frame.structs, m.tag, m.number, is_null(frame, p.right)));
    }
    let all = members_assigned(alloc, frame, ps)?;
    Ok(may_be_assigned_with(&frame.structs, m.tag, m.number, all.as_slice()))
}

fn member_fault(
    alloc: Global,
    frame: &Frame,
    ps: &[Placed<'_>],
    p: &Placed<'_>,
    member: Option<Member>,
) -> Result<Option<Refusal>, AllocError>
    ensures { IfOk result (λ r. r
        ≡ member_fault frame.now (map placed ps.now) (placed p.now) member) }
{
    match member {
        Some(m) => {
            let kept = may_be_assigned(alloc, frame, ps, p, m)?;
            Ok(refusal_unless(kept, ASSIGNED_ALONE, p.pos))
        }
        None => Ok(None),
    }
}

fn memory_fault(
    work: &mut Work,
    frame: &Frame,
    ps: &[Placed<'_>],
    at: &Point,
    p: &Placed<'_>,
) -> Result<Option<Refusal>, AllocError>
    ensures { IfOk result (λ r. r
        ≡ memory_fault frame.now (map placed ps.now) (state at.now) (placed p.now)) }
{
    let bounds = memory_bounds(frame, p.target);
    let first = memory_fault_by(work, frame, ps, at, p, &bounds)?;
    match first {
        Some(r) => Ok(Some(r)),
        None => member_fault(work.alloc, frame, ps, p, member_of(frame, p.target)),
    }
}

fn store_fault(
    work: &mut Work,
    frame: &Frame,
    bounds: &Bounds,
    ps: &[Placed<'_>],
    at: &Point,
    p: &Placed<'_>,
) -> Result<Option<Refusal>, AllocError>
    ensures { IfOk result (λ r. r
        ≡ store_fault frame.now bounds.now (map placed ps.now) (state at.now) (placed p.now)) }
{
    match local_of(p.target) {
        Some(k) => Ok(refusal_unless(!in_bounds(k, bounds), LOST_BOUNDS, p.pos)),
        None => memory_fault(work, frame, ps, at, p),
    }
}

fn comes_before(a: Pos, b: Pos) -> bool
    ensures { result ≡ comes_before a b }
{
    a.line < b.line || a.line == b.line && a.col < b.col
}

/// Whether an error goes before another one: its place is earlier, or it has the lesser code at the same place.
fn decides(r: Refusal, s: Refusal) -> bool
    ensures { result ≡ decides r s }
{
    comes_before(r.pos, s.pos) || !comes_before(s.pos, r.pos) && r.code < s.code
}

fn earlier(first: Option<Refusal>, other: Option<Refusal>) -> Option<Refusal>
    ensures { result ≡ earlier first other }
{
    match (first, other) {
        (Some(r), Some(s)) => { if decides(s, r) { Some(s) } else { Some(r) } }
        (Some(r), None) => Some(r),
        (None, other) => other,
    }
}

fn first_of_locals(
    work: &mut Work,
    frame: &Frame,
    ps: &[Placed<'_>],
    at: &Point,
    scope: &[u32],
) -> Result<Option<Refusal>, AllocError>
    ensures { IfOk result (λ r. r
        ≡ earliest None
        (map (local_fault frame.now (map placed ps.now) (state at.now)) scope.now)) }
{
    let mut first = None;
    for k in scope {
        let next = local_fault(work, frame, ps, at, *k)?;
        first = earlier(first, next);
    }
    Ok(first)
}

fn first_of_stores(
    work: &mut Work,
    frame: &Frame,
    bounds: &Bounds,
    ps: &[Placed<'_>],
    at: &Point,
    found: Option<Refusal>,
) -> Result<Option<Refusal>, AllocError>
    ensures { IfOk result (λ r. r
        ≡ earliest found
        (map (store_fault frame.now bounds.now (map placed ps.now) (state at.now))
        (map placed ps.now))) }
{
    let mut first = found;
    for p in ps {
        let next = store_fault(work, frame, bounds, ps, at, p)?;
        first = earlier(first, next);
    }
    Ok(first)
}

/// The first error of assignments that are judged as one, of which the bounds of the function's result are `bounds`.
pub fn first_fault(
    work: &mut Work,
    frame: &Frame,
    bounds: &Bounds,
    scope: &[u32],
    ps: &[Placed<'_>],
    at: &Point,
) -> Result<Option<Refusal>, AllocError>
    ensures { IfOk result (λ r. r
        ≡ first_fault frame.now bounds.now scope.now (map placed ps.now) (state at.now)) }
{
    let first = first_of_locals(work, frame, ps, at, scope)?;
    first_of_stores(work, frame, bounds, ps, at, first)
}
