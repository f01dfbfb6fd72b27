ghost use Rattle.std.specs.Prelude.{◌≡◌, ◌+◌, ◌*◌, ◌^◌, ◌<◌, ◌≤◌, ◌↔◌, length, IsTrue, pos, ◌≤ℤ◌};
ghost use Rattle.std.specs.Bool.{OnFalse};
ghost use Rattle.std.specs.List.{All};
ghost use Rattle.ckc_linear.specs.Facts.{IsWithin};
ghost use Rattle.ckc_linear.specs.Chains.{Chain};
ghost use Rattle.ckc_linear.specs.code.Rows.{IsRow, IsRound, IsSmall, Lowers, sum_at};

use crate::{Fact, Facts};
use ckc_base_counts::most_facts;

/// Stands for no sum. The sums of walks are far below it.
const NONE: i64 = i64::MAX;

/// Whether `x - y <= c` follows from the facts by a chain. It takes no memory and works in `row`, of which the contract
/// says nothing afterwards.
pub fn entails(facts: &Facts, x: u32, y: u32, c: i64, row: &mut [i64]) -> bool
    requires from { x < facts.now.vars }
    requires to { y < facts.now.vars }
    requires number { IsWithin (2 ^ 50) c }
    requires room { length row.old ≡ 2 * facts.now.vars }
    ensures { IsTrue result ↔ Chain facts.now.vars facts.now.list x y c }
{
    let (sums, next) = row.split_at_mut(facts.vars as usize);
    find_sums(facts, y, sums, next);
    is_at_most(sums, x, c)
}

/// Leaves in `sums`, for each variable, the least sum of a walk from it to `y` of at most one fact more than there are
/// variables.
fn find_sums(facts: &Facts, y: u32, sums: &mut [i64], next: &mut [i64])
    requires to { y < facts.now.vars }
    requires sums { length sums.old ≡ facts.now.vars }
    requires next { length next.old ≡ facts.now.vars }
    ensures { IsRow facts.now.list y (facts.now.vars + 1) sums.new }
{
    sums.fill(NONE);
    sums[y as usize] = 0;
    for _most in 0..most_facts(facts.vars) {
        next.copy_from_slice(sums);
        // If a round lowers no sum, no later one does.
        if !round(facts, sums, next) {
            return;
        }
        sums.copy_from_slice(next);
    }
}

/// Lets each fact lower the sums of `next`, which are those of `sums` before, and says whether one did.
fn round(facts: &Facts, sums: &[i64], next: &mut [i64]) -> bool
    requires room { length sums.now ≡ facts.now.vars }
    requires same { next.old ≡ sums.now }
    requires small { All IsSmall sums.now }
    ensures round { IsRound facts.now.list sums.now next.new }
    ensures same { OnFalse result (next.new ≡ sums.now) }
{
    let mut lowered = false;
    for f in facts.list.as_slice() {
        lowered |= lowers(*f, sums, next);
    }
    lowered
}

/// Lets a fact lower the sum of its left variable in `next`: a walk from its right variable with that sum in `sums` goes
/// on from the left one with the fact at its front.
fn lowers(f: Fact, sums: &[i64], next: &mut [i64]) -> bool
    requires left { f.x < length next.old }
    requires right { f.y < length sums.now }
    requires number { IsWithin (2 ^ 50) f.c }
    requires small { IsSmall (sum_at sums.now f.y) }
    ensures { Lowers f sums.now next.old next.new result }
{
    let through = sums[f.y as usize];
    if through < NONE {
        let sum = f.c + through;
        if sum < next[f.x as usize] {
            next[f.x as usize] = sum;
            return true;
        }
    }
    false
}

fn is_at_most(sums: &[i64], x: u32, c: i64) -> bool
    requires { x < length sums.now }
    ensures { IsTrue result ↔ (sum_at sums.now x ≤ℤ c) }
{
    sums[x as usize] <= c
}
