//! Whether facts show another one.

ghost use Rattle.std.specs.Prelude.{◌≡◌, ◌+◌, ◌<◌, ◌^◌, IfOk};
ghost use Rattle.ckc_linear.specs.Facts.{IsWithin};
ghost use Rattle.ckc_bounds_known.specs.Shown.{known, is_within, reaches, is_shown};
ghost use Rattle.ckc_bounds_known.specs.code.Shown.{shows};
ghost use Rattle.std.specs.List.{list_any};

use crate::work::{Work, grow};
use ckc_linear::{Fact, Facts, entails};
use std::alloc::AllocError;

/// Whether a number is from `-limit` to `limit`.
pub fn is_within(limit: u64, n: i64) -> bool
    requires { limit < 2 ^ 62 }
    ensures { result ≡ is_within limit n }
{
    let most = limit as i64;
    -most <= n && n <= most
}

/// Whether a fact follows from others by a chain, for variables that there are and a number within 2^50.
pub fn is_shown(work: &mut Work, facts: &Facts, f: Fact) -> Result<bool, AllocError>
    ensures { IfOk result (λ b. b ≡ is_shown (known facts.now) f) }
{
    if f.x < facts.vars && f.y < facts.vars && is_within(1 << 50, f.c) {
        // The empty chain and a single fact need no search.
        if f.x == f.y && f.c >= 0 {
            return Ok(true);
        }
        if stands(facts, f) {
            return Ok(true);
        }
        return reaches(work, facts, f);
    }
    Ok(false)
}

/// Whether a fact stands among others, with its number or a smaller one.
fn stands(facts: &Facts, f: Fact) -> bool
    ensures { result ≡ list_any (shows f) facts.now.list }
{
    has(f, facts.list.as_slice())
}

/// Whether some fact shows a fact.
fn has(f: Fact, facts: &[Fact]) -> bool
    ensures { result ≡ list_any (shows f) facts.now }
{
    for g in facts {
        if shows(f, g) {
            return true;
        }
    }
    false
}

fn shows(f: Fact, g: &Fact) -> bool
    ensures { result ≡ shows f g.now }
{
    g.x == f.x && g.y == f.y && g.c <= f.c
}

fn reaches(work: &mut Work, facts: &Facts, f: Fact) -> Result<bool, AllocError>
    requires from { f.x < facts.now.vars }
    requires to { f.y < facts.now.vars }
    requires number { IsWithin (2 ^ 50) f.c }
    ensures { IfOk result (λ b. b ≡ reaches (facts.now.vars + 1) facts.now.list f.x f.y f.c) }
{
    grow(facts.vars, &mut work.row)?;
    let places = 2 * facts.vars as usize;
    Ok(entails(facts, f.x, f.y, f.c, &mut work.row[..places]))
}
