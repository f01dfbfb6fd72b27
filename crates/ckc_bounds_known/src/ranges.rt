//! Facts that are added, and the ranges of types among them.

ghost use Rattle.std.specs.Prelude.{◌≡◌, ◌∷◌, [], ◌++◌, OnOk};
ghost use Rattle.ckc_bounds_known.specs.Shown.{known};
ghost use Rattle.ckc_bounds_known.specs.Ranges.{range_of, fits, with_fact, with_range, forgotten};

use crate::intervals::range_of;
use crate::shown::is_within;
use ckc_linear::{Fact, Facts, add, forget};
use ckc_types::CType;
use std::alloc::AllocError;

fn fits(vars: u32, f: Fact) -> bool
    ensures { result ≡ fits vars f }
{
    f.x < vars && f.y < vars && is_within(1 << 50, f.c)
}

/// Adds a fact about variables that there are, with a number within 2^50.
pub fn add_fact(facts: &mut Facts, f: Fact) -> Result<(), AllocError>
    ensures { OnOk result (known facts.new ≡ with_fact f (known facts.old)) }
{
    if fits(facts.vars, f) {
        return add(facts, f);
    }
    Ok(())
}

/// Adds the range of a variable's type.
pub fn add_range(facts: &mut Facts, x: u32, t: &CType) -> Result<(), AllocError>
    ensures { OnOk result (known facts.new ≡ with_range x (range_of t.now) (known facts.old)) }
{
    match range_of(t) {
        Some(r) => {
            add_fact(
                facts,
                Fact {
                    x,
                    y: 0,
                    c: i64::from(r.high),
                },
            )?;
            add_fact(
                facts,
                Fact {
                    x: 0,
                    y: x,
                    c: -i64::from(r.low),
                },
            )
        }
        None => Ok(()),
    }
}

/// Forgets what is known of a variable, but for the range of its type.
pub fn lose(x: u32, t: &CType, facts: &mut Facts) -> Result<(), AllocError>
    ensures { OnOk result
        (known facts.new ≡ with_range x (range_of t.now) (forgotten x (known facts.old))) }
{
    forget(facts, x);
    add_range(facts, x, t)
}
