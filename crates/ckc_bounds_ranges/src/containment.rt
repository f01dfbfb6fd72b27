//! Whether the bounds that a pointer must have lie in the range that its new value has.

ghost use Rattle.std.specs.Prelude.{◌≡◌, ◌^◌, IfOk, OnOk};
ghost use Rattle.ckc_linear.specs.Facts.{IsWithin};
ghost use Rattle.ckc_bounds_points.specs.Shown.{known};
ghost use Rattle.ckc_bounds_ranges.specs.Contained.{is_at_most, at_most_far, with_far, with_element, extended, lies_between, is_contained};

use ckc_bounds_points::{
    Bounds, Work, add_fact, add_less, add_most, at_most, is_shown, is_small, same_base,
};
use ckc_linear::{Fact, Facts, Form};
use ckc_typed::Range;
use std::alloc::AllocError;

/// The two ends of bounds or of a range.
#[derive(Clone, Copy)]
pub struct Ends {
    pub low: Form,
    pub high: Form,
}

/// Whether `f <= g` follows from the facts, of forms with one base.
fn is_at_most(work: &mut Work, facts: &Facts, f: Form, g: Form) -> Result<bool, AllocError>
    ensures { IfOk result (λ b. b ≡ is_at_most (known facts.now) f g) }
{
    if same_base(f.base, g.base) && is_small(f.add) && is_small(g.add) {
        return is_shown(work, facts, at_most(f, g));
    }
    Ok(false)
}

fn at_most_far(f: Form, g: Form) -> Fact
    requires left { IsWithin (2 ^ 42) f.add }
    requires right { IsWithin (2 ^ 42) g.add }
    ensures { result ≡ at_most_far f g }
{
    let order = at_most(f, g);
    Fact {
        x: order.x,
        y: order.y,
        c: order.c + 16777216,
    }
}

fn add_far(f: Form, g: Form, facts: &mut Facts) -> Result<(), AllocError>
    ensures { OnOk result (known facts.new ≡ with_far f g (known facts.old)) }
{
    if is_small(f.add) && is_small(g.add) {
        return add_fact(facts, at_most_far(f, g));
    }
    Ok(())
}

fn add_element(allocated: bool, range: Ends, facts: &mut Facts) -> Result<(), AllocError>
    ensures { OnOk result (known facts.new ≡ with_element allocated range (known facts.old)) }
{
    if allocated {
        return add_less(range.low, range.high, facts);
    }
    Ok(())
}

/// Adds what also holds of a range whose upper end was `before` without widening.
pub fn extend(
    range: Ends,
    before: Form,
    allocated: bool,
    facts: &mut Facts,
) -> Result<(), AllocError>
    ensures { OnOk result (known facts.new ≡ extended range before allocated (known facts.old)) }
{
    if same_base(range.low.base, range.high.base) {
        add_most(range.low, before, facts)?;
        add_far(range.high, range.low, facts)?;
        return add_element(allocated, range, facts);
    }
    Ok(())
}

/// Whether bounds lie in a range: all four ends are forms with one base, in order.
fn lies_between(
    work: &mut Work,
    facts: &Facts,
    range: Ends,
    limits: Option<Ends>,
) -> Result<bool, AllocError>
    ensures { IfOk result (λ b. b ≡ lies_between (known facts.now) range limits) }
{
    let Some(inner) = limits else {
        return Ok(false);
    };
    let low = is_at_most(work, facts, range.low, inner.low)?;
    if !low {
        return Ok(false);
    }
    let order = is_at_most(work, facts, inner.low, inner.high)?;
    if !order {
        return Ok(false);
    }
    is_at_most(work, facts, inner.high, range.high)
}

/// Whether a new value with a range is contained in declared bounds, whose ends are `limits` with what they name replaced:
/// the bounds are unknown, the value is null, or they lie in its range.
pub fn is_contained(
    work: &mut Work,
    facts: &Facts,
    bounds: &Bounds,
    null: bool,
    range: Range,
    limits: Option<Ends>,
) -> Result<bool, AllocError>
    ensures { IfOk result (λ b. b ≡ is_contained (known facts.now) bounds.now null range limits) }
{
    match bounds {
        Bounds::Unknown => Ok(true),
        Bounds::Known(_, _) => {
            if null {
                return Ok(true);
            }
            match range {
                Range::Known(low, high) => lies_between(work, facts, Ends { low, high }, limits),
                Range::Missing | Range::Any => Ok(false),
            }
        }
    }
}
