ghost use Rattle.std.specs.Prelude.{◌≡◌, ◌≤◌, ◌<◌, ◌^◌, [], ◌∷◌, ◌++◌, map, not, length, take, OnOk, OnErr};
ghost use Rattle.std.specs.List.{All, filter};
ghost use Rattle.ckc_linear.specs.Facts.{IsInRange, IsWithin, names, shifted};
ghost use Rattle.ckc_linear.specs.code.Runs.{AllStay, AreOthers};
ghost use Rattle.std.specs.Bool.{OnFalse};

use ckc_base::Seq;
use core::mem::replace_with;
use std::alloc::AllocError;

/// `x - y <= c`. Variable 0 is the number zero.
#[derive(Clone, Copy, Debug)]
pub struct Fact {
    pub x: u32,
    pub y: u32,
    pub c: i64,
}

/// Facts over the variables below `vars`, of which there are at most 1,024. Each number is within 2^50 either way.
#[derive(Drop)]
pub struct Facts {
    pub vars: u32,
    pub list: Seq<Fact>,
    ghost small: { vars ≤ 1024 },
    ghost in_range: { All (IsInRange vars) list },
}

/// Adds a fact at the end.
pub fn add(facts: &mut Facts, f: Fact) -> Result<(), AllocError>
    requires { IsInRange facts.old.vars f }
    ensures vars { facts.new.vars ≡ facts.old.vars }
    ensures ok { OnOk result (facts.new.list ≡ facts.old.list ++ f ∷ []) }
    ensures err { OnErr result (facts.new.list ≡ facts.old.list) }
{
    facts.list.push(f)
}

/// Drops the facts that have `x` on the left or on the right. It takes no memory.
pub fn forget(facts: &mut Facts, x: u32)
    ensures vars { facts.new.vars ≡ facts.old.vars }
    ensures list { facts.new.list ≡ filter (λ f. not (names x f)) facts.old.list }
{
    replace_with(&mut facts.list, x, without)
}

fn without(list: Seq<Fact>, x: u32) -> (Seq<Fact>, ())
    ensures { result.0 ≡ filter (λ f. not (names x f)) list }
{
    let mut items = list.into_vec();
    // Facts that stay move to the front in whole runs.
    let mut kept = others(items.as_slice(), x);
    let mut from = kept;
    'runs: while from < items.len() {
        let next = from + 1;
        let run = others(&items[next..], x);
        items.copy_within(next..next + run, kept);
        kept += run;
        from = next + run;
    }
    items.truncate(kept);
    (Seq::from_vec(items), ())
}

/// How many facts in front do not have `x`.
fn others(facts: &[Fact], x: u32) -> usize
    ensures { AreOthers x facts.now result }
{
    let start = passed_over(facts, x);
    let rest = &facts[start..];
    for (k, f) in rest.iter().enumerate() {
        if names(f, x) {
            return start + k;
        }
    }
    facts.len()
}

/// How many facts are tested together.
const BLOCK: usize = 32;

/// How many facts in front, in whole blocks, do not have `x`.
fn passed_over(facts: &[Fact], x: u32) -> usize
    ensures within { result ≤ length facts.now }
    ensures stay { AllStay x (take result facts.now) }
{
    let mut at = 0;
    'tests: while BLOCK <= facts.len() - at {
        let block = &facts[at..at + BLOCK];
        if has(block, x) {
            return at;
        }
        at += BLOCK;
    }
    at
}

/// Whether some fact has `x`.
fn has(facts: &[Fact], x: u32) -> bool
    ensures { OnFalse result (AllStay x facts.now) }
{
    // All are looked at, without a branch: so several are compared at once.
    let mut found = false;
    for f in facts {
        found |= names(f, x);
    }
    found
}

fn names(f: &Fact, x: u32) -> bool
    ensures { result ≡ names x f.now }
{
    // Without a branch, as `has` wants it.
    (f.x == x) | (f.y == x)
}

/// Moves the facts along with `x`, which has grown by `c`: a fact that has `x` on the left alone gets a number that is
/// greater by `c`, one that has it on the right alone a smaller one. It takes no memory.
pub fn shift(facts: &mut Facts, x: u32, c: i64)
    requires { All (λ f. IsWithin (2 ^ 50) (shifted x c f).c) facts.old.list }
    ensures vars { facts.new.vars ≡ facts.old.vars }
    ensures list { facts.new.list ≡ map (shifted x c) facts.old.list }
{
    replace_with(&mut facts.list, (x, c), all_shifted)
}

fn all_shifted(list: Seq<Fact>, by: (u32, i64)) -> (Seq<Fact>, ())
    requires { All (λ f. IsWithin (2 ^ 50) (shifted by.0 by.1 f).c) list }
    ensures { result.0 ≡ map (shifted by.0 by.1) list }
{
    let (x, c) = by;
    let mut items = list.into_vec();
    for f in items.iter_mut() {
        *f = shifted(*f, x, c);
    }
    (Seq::from_vec(items), ())
}

fn shifted(f: Fact, x: u32, c: i64) -> Fact
    requires { IsWithin (2 ^ 50) (shifted x c f).c }
    ensures { result ≡ shifted x c f }
{
    let number = match (f.x == x, f.y == x) {
        (true, false) => f.c + c,
        (false, true) => f.c - c,
        _ => f.c,
    };
    Fact { c: number, ..f }
}
