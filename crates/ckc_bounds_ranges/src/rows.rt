//! The ranges of pointers that do not come from the ranges of their parts.

ghost use Rattle.std.specs.Prelude.{◌≡◌, ◌==◌};
ghost use Rattle.std.specs.List.{list_any};
ghost use Rattle.ckc_bounds_points.specs.Frames.{local_at};
ghost use Rattle.ckc_bounds_ranges.specs.Rows.{range_from, range_moved, range_of_bounds, range_of_ends, range_widened, range_of_local, readable, range_of_array};

use crate::containment::Ends;
use ckc_bounds_points::{Bounds, Frame, base_form, constant_form, local_at, moved_form};
use ckc_linear::{Base, Form};
use ckc_typed::{Range, StaticObject};

/// From a base so many elements up.
pub fn range_from(base: Base, k: Form) -> Range
    ensures { result ≡ range_from base k }
{
    Range::Known(
        base_form(base),
        Form {
            base: Some(base),
            ..k
        },
    )
}

fn range_moved(low: Form, high: Option<Form>) -> Range
    ensures { result ≡ range_moved low high }
{
    match high {
        Some(high) => Range::Known(low, high),
        None => Range::Missing,
    }
}

/// The range that declared bounds give: unknown ones give none.
fn range_of_bounds(bounds: &Bounds) -> Range
    ensures { result ≡ range_of_bounds bounds.now }
{
    match bounds {
        Bounds::Known(low, high) => Range::Known(*low, *high),
        Bounds::Unknown => Range::Missing,
    }
}

/// The range that is left of bounds with what they name replaced.
pub fn range_of_ends(ends: Option<Ends>) -> Range
    ensures { result ≡ range_of_ends ends }
{
    match ends {
        Some(r) => Range::Known(r.low, r.high),
        None => Range::Missing,
    }
}

fn range_widened(bounds: &Bounds) -> Range
    ensures { result ≡ range_widened bounds.now }
{
    match bounds {
        Bounds::Known(low, high) => range_moved(*low, moved_form(Some(*high), 1)),
        Bounds::Unknown => Range::Missing,
    }
}

fn is_wide(widened: &[u32], k: u32) -> bool
    ensures { result ≡ list_any (λ p. p == k) widened.now }
{
    widened.iter().any(|p| *p == k)
}

/// The range of a local pointer: its declared bounds, with one element more if it is widened.
pub fn range_of_local(frame: &Frame, k: u32, widened: &[u32]) -> Range
    ensures { result ≡ range_of_local frame.now k widened.now }
{
    match local_at(frame, k) {
        Some(local) => {
            if is_wide(widened, k) {
                range_widened(&local.bounds)
            } else {
                range_of_bounds(&local.bounds)
            }
        }
        None => Range::Missing,
    }
}

fn readable(object: &StaticObject) -> u32
    ensures { result ≡ readable object.now }
{
    if object.terminated {
        object.count.saturating_sub(1)
    } else {
        object.count
    }
}

/// The range of a static array by its number.
pub fn range_of_array(k: u32, object: &StaticObject) -> Range
    ensures { result ≡ range_of_array k object.now }
{
    range_from(Base::Array(k), constant_form(i64::from(readable(object))))
}
