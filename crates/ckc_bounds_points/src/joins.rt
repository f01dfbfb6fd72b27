//! Where points begin and where they join.

ghost use Rattle.std.specs.Prelude.{◌≡◌, ◌+◌, ◌==◌, ◌<◌, [], length, IfOk, OnOk};
ghost use Rattle.std.specs.List.{filter, list_any};
ghost use Rattle.ckc_bounds_points.specs.Shown.{known};
ghost use Rattle.ckc_bounds_points.specs.Flow.{state, same_fact, in_both, wide_in_both, joined, ranges_from, ranges, entry, unreached};

use crate::frame::Frame;
use crate::point::Point;
use ckc_base::Seq;
use ckc_bounds_known::add_range;
use ckc_linear::{Fact, Facts};
use core::mem::replace_with;
use std::alloc::{AllocError, Global};

fn same_fact(f: &Fact, g: &Fact) -> bool
    ensures { result ≡ same_fact f.now g.now }
{
    f.x == g.x && f.y == g.y && f.c == g.c
}

fn is_among(gs: &[Fact], f: &Fact) -> bool
    ensures { result ≡ list_any (same_fact f.now) gs.now }
{
    gs.iter().any(|g| same_fact(f, g))
}

fn is_wide(qs: &[u32], p: u32) -> bool
    ensures { result ≡ list_any (λ q. q == p) qs.now }
{
    qs.iter().any(|q| *q == p)
}

fn both(list: Seq<Fact>, other: &[Fact]) -> (Seq<Fact>, ())
    ensures { result.0 ≡ in_both list other.now }
{
    let mut items = list.into_vec();
    items.retain(|f| is_among(other, f));
    (Seq::from_vec(items), ())
}

/// Keeps the facts that are in the other list too.
fn keep_both(facts: &mut Facts, other: &[Fact])
    ensures vars { facts.new.vars ≡ facts.old.vars }
    ensures list { facts.new.list ≡ in_both facts.old.list other.now }
{
    replace_with(&mut facts.list, other, both)
}

fn wide_in_both(alloc: Global, ps: &[u32], qs: &[u32]) -> Result<Seq<u32>, AllocError>
    ensures { IfOk result (λ rs. rs ≡ wide_in_both ps.now qs.now) }
{
    let mut items = Vec::from_slice(alloc, ps)?;
    items.retain(|p| is_wide(qs, *p));
    Ok(Seq::from_vec(items))
}

/// Joins the point with another one, as at the end of an `if`.
pub fn join(alloc: Global, at: &mut Point, other: Point) -> Result<(), AllocError>
    ensures { OnOk result (state at.new ≡ joined (state at.old) (state other)) }
{
    if !at.reached {
        *at = other;
        return Ok(());
    }
    if other.reached {
        at.widened = wide_in_both(alloc, at.widened.as_slice(), other.widened.as_slice())?;
        keep_both(&mut at.facts, other.facts.list.as_slice());
    }
    Ok(())
}

/// The ranges of the types of all locals.
fn ranges(alloc: Global, frame: &Frame) -> Result<Facts, AllocError>
    ensures { IfOk result (λ facts. known facts ≡ ranges frame.now) }
{
    let mut facts = Facts {
        vars: frame.locals.len() as u32 + 1,
        list: Seq::new(alloc),
    };
    let mut x = 1u32;
    for local in frame.locals.as_slice() {
        add_range(&mut facts, x, &local.ctype)?;
        x += 1;
    }
    Ok(facts)
}

/// The point at the begin of a function, or, if `reached` is not set, one that cannot be reached: the ranges of types
/// are all that is known there.
fn bare_point(alloc: Global, frame: &Frame, reached: bool) -> Result<Point, AllocError>
    ensures { IfOk result (λ at. state at ≡ record (entry frame.now) { reached = reached }) }
{
    let facts = ranges(alloc, frame)?;
    Ok(Point {
        reached,
        facts,
        widened: Seq::new(alloc),
    })
}

/// The point at the begin of a function: the ranges of types are all that is known.
pub fn entry(alloc: Global, frame: &Frame) -> Result<Point, AllocError>
    ensures { IfOk result (λ at. state at ≡ entry frame.now) }
{
    bare_point(alloc, frame, true)
}

/// A point that cannot be reached, as after `return`.
pub fn unreached(alloc: Global, frame: &Frame) -> Result<Point, AllocError>
    ensures { IfOk result (λ at. state at ≡ unreached frame.now) }
{
    bare_point(alloc, frame, false)
}
