//! What a pointer becomes, and whether the bounds that it must have contain it.

ghost use Rattle.std.specs.Prelude.{◌≡◌, ◌&&◌, not, IfOk, OnOk};
ghost use Rattle.ckc_typed.specs.Conversions.{is_terminated_kind};
ghost use Rattle.ckc_typed.specs.Types.{kind_of};
ghost use Rattle.ckc_bounds_points.specs.Shown.{known};
ghost use Rattle.ckc_bounds_points.specs.Flow.{state};
ghost use Rattle.ckc_bounds_views.specs.Judged.{extended_by};
ghost use Rattle.ckc_bounds_stores.specs.Values.{value, narrow, one_less, received_range, has_element, range_received, new_value, same_value, holds};

use ckc_base::Seq;
use ckc_bounds_extents::{add_fresh_ranges, allocates, is_null, range};
use ckc_bounds_points::{Bounds, Frame, Point, Work, copied_facts, moved_form};
use ckc_bounds_ranges::{
    BaseBy, Ends, VariableBy, extend, is_contained, range_of_local, replaced_bounds,
};
use ckc_linear::Facts;
use ckc_syntax::{Expr, Name};
use ckc_typed::types::kind_of;
use ckc_typed::{Note, Range};
use ckc_types::{CType, Kind};
use std::alloc::{AllocError, Global};

/// The number of the first value in an expression that stands for itself, and the local that is its first fresh variable.
#[derive(Clone, Copy)]
pub struct Numbered {
    pub value: u32,
    pub fresh: u32,
}

/// A new value: whether it is null, its range, and the facts that its containment is judged by.
pub struct Value {
    pub null: bool,
    pub range: Range,
    pub facts: Facts,
}

impl Drop for Value {
    fn drop(self) {
        let Value {
            null: _null,
            range: _range,
            facts: _facts,
        } = self;
    }
}

fn narrow(alloc: Global, at: &Point) -> Result<Point, AllocError>
    ensures { IfOk result (λ p. state p ≡ narrow (state at.now)) }
{
    let facts = copied_facts(alloc, &at.facts)?;
    Ok(Point {
        reached: at.reached,
        facts,
        widened: Seq::new(alloc),
    })
}

fn is_nt(t: &CType) -> bool
    ensures { result ≡ is_terminated_kind (kind_of t.now) }
{
    kind_of(t) == Some(Kind::Nt)
}

fn one_less(range: Range) -> Range
    ensures { result ≡ one_less range }
{
    match range {
        Range::Known(low, high) => match moved_form(Some(high), -1) {
            Some(high) => Range::Known(low, high),
            None => Range::Missing,
        },
        Range::Missing => Range::Missing,
        Range::Any => Range::Any,
    }
}

fn received_range(t: &CType, allocates: bool, found: Range) -> Range
    ensures { result ≡ received_range t.now allocates found }
{
    if allocates && is_nt(t) {
        one_less(found)
    } else {
        found
    }
}

fn has_element(t: &CType, allocates: bool) -> bool
    ensures { result ≡ has_element t.now allocates }
{
    allocates && !is_nt(t)
}

/// Adds what a range makes known; `narrow` is the range as it is without widening.
fn extend_by(
    found: Range,
    narrow: Range,
    allocated: bool,
    facts: &mut Facts,
) -> Result<(), AllocError>
    ensures { OnOk result (known facts.new
        ≡ extended_by found narrow allocated (known facts.old)) }
{
    match (found, narrow) {
        (Range::Known(low, high), Range::Known(_, last)) => {
            extend(Ends { low, high }, last, allocated, facts)
        }
        _ => Ok(()),
    }
}

fn range_received(
    work: &mut Work,
    frame: &Frame,
    t: &CType,
    e: &Expr<Name, Note>,
    from: Numbered,
    at: &Point,
) -> Result<Range, AllocError>
    ensures { IfOk result (λ r. r ≡ range_received frame.now t.now e.now from (state at.now)) }
{
    let found = range(work, frame, at, e, from.value, from.fresh)?;
    Ok(received_range(t, allocates(frame, e), found))
}

fn range_without_widening(
    work: &mut Work,
    frame: &Frame,
    t: &CType,
    e: &Expr<Name, Note>,
    from: Numbered,
    at: &Point,
) -> Result<Range, AllocError>
    ensures { IfOk result (λ r. r
        ≡ range_received frame.now t.now e.now from (narrow (state at.now))) }
{
    let bare = narrow(work.alloc, at)?;
    range_received(work, frame, t, e, from, &bare)
}

/// What goes to a place of a type.
#[tactic(auto, unfolding(crate::specs::Values::new_value))]
pub fn new_value(
    work: &mut Work,
    frame: &Frame,
    t: &CType,
    e: &Expr<Name, Note>,
    from: Numbered,
    at: &Point,
) -> Result<Value, AllocError>
    ensures { IfOk result (λ v. value v ≡ new_value frame.now t.now e.now from (state at.now)) }
{
    let range = range_received(work, frame, t, e, from, at)?;
    let narrow = range_without_widening(work, frame, t, e, from, at)?;
    let mut facts = copied_facts(work.alloc, &at.facts)?;
    add_fresh_ranges(work, frame, at, e, from.fresh, &mut facts)?;
    let allocated = has_element(t, allocates(frame, e));
    extend_by(range, narrow, allocated, &mut facts)?;
    Ok(Value {
        null: is_null(frame, e),
        range,
        facts,
    })
}

/// What a local pointer is that keeps its value.
#[tactic(auto, unfolding(crate::specs::Values::same_value))]
pub fn same_value(alloc: Global, frame: &Frame, k: u32, at: &Point) -> Result<Value, AllocError>
    ensures { IfOk result (λ v. value v ≡ same_value frame.now k (state at.now)) }
{
    let range = range_of_local(frame, k, at.widened.as_slice());
    let narrow = range_of_local(frame, k, &[]);
    let mut facts = copied_facts(alloc, &at.facts)?;
    extend_by(range, narrow, false, &mut facts)?;
    Ok(Value {
        null: false,
        range,
        facts,
    })
}

/// Whether bounds contain a value once what they name is replaced.
#[tactic(auto, unfolding(crate::specs::Values::holds))]
pub fn holds(
    work: &mut Work,
    v: &Value,
    bounds: &Bounds,
    bases: &[BaseBy],
    variables: &[VariableBy],
) -> Result<bool, AllocError>
    ensures { IfOk result (λ b. b ≡ holds (value v.now) bounds.now bases.now variables.now) }
{
    let limits = replaced_bounds(bases, variables, bounds);
    is_contained(work, &v.facts, bounds, v.null, v.range, limits)
}
