//! Chains against a search that tries each walk over the facts.
ghost use Rattle.std.specs.Prelude.{◌<◌};

use crate::facts::{add_one, no_facts, put_facts, says};
use ckc_linear::{Fact, Facts};
use ckc_test_trials::Page;

/// `walks | SETS | LEAST | MOST`: whether chains agree with the search over so many random sets of facts, and between
/// LEAST and MOST questions have the answer yes.
pub fn walks_case(sets: &str, least: &str, most: &str, page: &mut Page) {
    let mut state = 1;
    let mut yes: u32 = 0;
    for _ in 0..page.word_of(sets) {
        let facts = random_facts(&mut state, page);
        yes = yes.saturating_add(entailed_by(&facts, page));
    }
    if page.word_of(least) < yes && yes < page.word_of(most) {
        page.put("they agree");
    } else {
        page.put_number(i64::from(yes));
        page.put(" are entailed");
    }
}

/// Up to six facts over two to four variables, with numbers from -4 to 4.
fn random_facts(state: &mut u64, page: &mut Page) -> Facts {
    let vars = 2 + next(state, 3);
    let mut facts = no_facts(vars, page);
    for _ in 0..next(state, 7) {
        let x = next(state, vars);
        let y = next(state, vars);
        let c = i64::from(next(state, 9)) - 4;
        add_one(&mut facts, Fact { x, y, c }, page);
    }
    facts
}

/// Numbers below `limit`, one after the other.
fn next(state: &mut u64, limit: u32) -> u32
    requires { 0 < limit }
    ensures { result < limit }
{
    *state = state
        .wrapping_mul(6_364_136_223_846_793_005)
        .wrapping_add(1_442_695_040_888_963_407);
    (*state >> 33) as u32 % limit
}

/// How many facts with a number from -8 to 8 are entailed.
fn entailed_by(facts: &Facts, page: &mut Page) -> u32 {
    let mut yes: u32 = 0;
    let mut row = Vec::new(page.alloc());
    for x in 0..facts.vars {
        for y in 0..facts.vars {
            for c in 0..17u8 {
                let c = i64::from(c) - 8;
                if is_entailed(facts, Fact { x, y, c }, &mut row, page) {
                    yes = yes.saturating_add(1);
                }
            }
        }
    }
    yes
}

/// Whether a fact is entailed by chains. Tells where the search differs.
fn is_entailed(facts: &Facts, f: Fact, row: &mut Vec<i64>, page: &mut Page) -> bool {
    let found = says(facts, f, 0, row, page);
    let walks = facts.vars.saturating_add(1);
    if found != has_walk(facts.list.as_slice(), f.x, f.y, f.c, walks) {
        put_facts(facts, page);
        page.put(": they differ at ");
        page.put_debug(&f);
    }
    found
}

/// Whether some walk of at most `left` facts leads from x to y with a sum of at most c: each walk is tried.
fn has_walk(facts: &[Fact], x: u32, y: u32, c: i64, left: u32) -> bool {
    if x == y && 0 <= c {
        return true;
    }
    if left == 0 {
        return false;
    }
    for f in facts {
        if f.x == x && has_walk(facts, f.y, y, c.wrapping_sub(f.c), left - 1) {
            return true;
        }
    }
    false
}
