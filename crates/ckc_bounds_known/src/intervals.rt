//! The numbers of integer types, and whether facts show that a form lies among them.

ghost use Rattle.std.specs.Prelude.{◌≡◌, ◌&&◌, ◌^◌, IfOk};
ghost use Rattle.ckc_linear.specs.Facts.{IsWithin};
ghost use Rattle.ckc_bounds_known.specs.Shown.{known, is_shown};
ghost use Rattle.ckc_bounds_known.specs.Ranges.{range_of, is_small, below, above};

use crate::shown::{is_shown, is_within};
use crate::work::Work;
use ckc_linear::{Fact, Facts, Form};
use ckc_types::CType;
use std::alloc::AllocError;

/// The least and the greatest number of an integer type.
#[derive(Clone, Copy)]
pub struct Interval {
    pub low: i32,
    pub high: u32,
}

/// The numbers of an integer type.
pub fn range_of(t: &CType) -> Option<Interval>
    ensures { result ≡ range_of t.now }
{
    match t {
        CType::Int => Some(Interval {
            low: -2147483648,
            high: 2147483647,
        }),
        CType::Unsigned => Some(Interval {
            low: 0,
            high: 4294967295,
        }),
        CType::Char => Some(Interval { low: 0, high: 255 }),
        CType::Void | CType::Struct(_) | CType::Pointer(_, _) => None,
    }
}

/// Whether a number may be that of a form: it is within 2^42.
pub fn is_small(n: i64) -> bool
    ensures { result ≡ is_small n }
{
    is_within(1 << 42, n)
}

fn below(f: Form, r: Interval) -> Fact
    requires { IsWithin (2 ^ 42) f.add }
    ensures { result ≡ below f r }
{
    Fact {
        x: f.var,
        y: 0,
        c: i64::from(r.high) - f.add,
    }
}

fn above(f: Form, r: Interval) -> Fact
    requires { IsWithin (2 ^ 42) f.add }
    ensures { result ≡ above f r }
{
    Fact {
        x: 0,
        y: f.var,
        c: f.add - i64::from(r.low),
    }
}

/// Whether facts show that a form, with a number within 2^42, lies in an interval.
pub fn is_between(work: &mut Work, facts: &Facts, f: Form, r: Interval) -> Result<bool, AllocError>
    ensures { IfOk result (λ b. b ≡ (is_small f.add
        && (is_shown (known facts.now) (below f r) && is_shown (known facts.now) (above f r)))) }
{
    if !is_small(f.add) {
        return Ok(false);
    }
    let high = is_shown(work, facts, below(f, r))?;
    if !high {
        return Ok(false);
    }
    is_shown(work, facts, above(f, r))
}
