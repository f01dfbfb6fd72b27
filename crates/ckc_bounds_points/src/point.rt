//! Points of a function, and what assignments and joins make of them.

ghost use Rattle.std.specs.Prelude.{◌≡◌, ◌+◌, ◌<◌, ◌^◌, ◌∷◌, [], ◌++◌, map, not, length, IfOk, OnOk};
ghost use Rattle.std.specs.List.{filter};
ghost use Rattle.ckc_linear.specs.Facts.{IsWithin, shifted};
ghost use Rattle.ckc_bounds_points.specs.Shown.{known};
ghost use Rattle.ckc_bounds_points.specs.Flow.{state, range_of, with_range, with_equal, stays_small, forgotten, moved, assigned_facts, names_local, in_form, in_bounds, widening_names, unwidened, facts_assigned, assigned, less};

use crate::frame::{Bounds, Frame, Local};
use crate::locals::local_at;
use ckc_base::Seq;
use ckc_bounds_known::{add_fact, add_range, is_within, lose, range_of};
use ckc_linear::{Base, Fact, Facts, Form, shift};
use ckc_typed::types::is_integer;
use ckc_types::CType;
use core::mem::replace_with;
use std::alloc::{AllocError, Global};

/// A point of a function: whether it can be reached, the facts about the function's integer variables, among them always
/// the range of each one's type, and the locals that are widened.
pub struct Point {
    pub reached: bool,
    pub facts: Facts,
    pub widened: Seq<u32>,
}

impl Drop for Point {
    fn drop(self) {
        let Point {
            reached: _reached,
            facts: _facts,
            widened: _widened,
        } = self;
    }
}

/// A copy of facts.
pub fn copied_facts(alloc: Global, facts: &Facts) -> Result<Facts, AllocError>
    ensures { IfOk result (λ f. known f ≡ known facts.now) }
{
    let list = Seq::from_slice(alloc, facts.list.as_slice())?;
    Ok(Facts {
        vars: facts.vars,
        list,
    })
}

/// A copy of a point.
pub fn copied(alloc: Global, at: &Point) -> Result<Point, AllocError>
    ensures { IfOk result (λ p. state p ≡ state at.now) }
{
    let facts = copied_facts(alloc, &at.facts)?;
    let widened = Seq::from_slice(alloc, at.widened.as_slice())?;
    Ok(Point {
        reached: at.reached,
        facts,
        widened,
    })
}

/// Adds that a variable is what a form says.
fn add_equal(facts: &mut Facts, x: u32, f: Form) -> Result<(), AllocError>
    ensures { OnOk result (known facts.new ≡ with_equal x f (known facts.old)) }
{
    if is_within(1 << 50, f.add) {
        add_fact(
            facts,
            Fact {
                x,
                y: f.var,
                c: f.add,
            },
        )?;
        return add_fact(
            facts,
            Fact {
                x: f.var,
                y: x,
                c: -f.add,
            },
        );
    }
    Ok(())
}

/// The number of a fact after `x` has grown by `c`.
fn shifted_number(x: u32, c: i64, f: &Fact) -> i64
    requires by { IsWithin (2 ^ 50) c }
    requires number { IsWithin (2 ^ 50) f.now.c }
    ensures { result ≡ (shifted x c f.now).c }
{
    match (f.x == x, f.y == x) {
        (true, false) => f.c + c,
        (false, true) => f.c - c,
        _ => f.c,
    }
}

/// Whether a fact stays within 2^50 if `x` grows by `c`.
fn stays_small(x: u32, c: i64, f: &Fact) -> bool
    requires { IsWithin (2 ^ 50) c }
    ensures { result ≡ stays_small x c f.now }
{
    is_within(1 << 50, f.c) && is_within(1 << 50, shifted_number(x, c, f))
}

fn without_large(list: Seq<Fact>, by: (u32, Form)) -> (Seq<Fact>, ())
    requires { IsWithin (2 ^ 50) by.1.add }
    ensures { result.0 ≡ filter (stays_small by.0 by.1.add) list }
{
    let (x, f) = by;
    let mut items = list.into_vec();
    items.retain(|g| stays_small(x, f.add, g));
    (Seq::from_vec(items), ())
}

fn drop_large(facts: &mut Facts, x: u32, f: Form)
    requires { IsWithin (2 ^ 50) f.add }
    ensures vars { facts.new.vars ≡ facts.old.vars }
    ensures list { facts.new.list ≡ filter (stays_small x f.add) facts.old.list }
{
    replace_with(&mut facts.list, (x, f), without_large)
}

/// Moves the facts on `x`, which has grown by the number of a form.
fn move_facts(facts: &mut Facts, x: u32, f: Form)
    requires { IsWithin (2 ^ 50) f.add }
    ensures { known facts.new ≡ moved x f.add (known facts.old) }
{
    drop_large(facts, x, f);
    shift(facts, x, f.add);
}

/// What an assignment to an integer variable makes known and forgets.
fn assign_facts(x: u32, t: &CType, form: Option<Form>, facts: &mut Facts) -> Result<(), AllocError>
    ensures { OnOk result
        (known facts.new ≡ assigned_facts x (range_of t.now) form (known facts.old)) }
{
    match form {
        Some(f) => {
            if f.var == x && is_within(1 << 50, f.add) {
                move_facts(facts, x, f);
                return add_range(facts, x, t);
            }
            lose(x, t, facts)?;
            add_equal(facts, x, f)
        }
        None => lose(x, t, facts),
    }
}

fn names_local(k: u32, base: Option<Base>) -> bool
    ensures { result ≡ names_local k base }
{
    match base {
        Some(Base::Local(j)) => j == k,
        Some(Base::Array(_)) | Some(Base::Value(_)) | None => false,
    }
}

/// Whether a form names a local, as its base or as its variable.
fn in_form(k: u32, f: &Form) -> bool
    ensures { result ≡ in_form k f.now }
{
    names_local(k, f.base) || f.var.checked_sub(1) == Some(k)
}

/// Whether bounds name a local.
pub fn in_bounds(k: u32, bounds: &Bounds) -> bool
    ensures { result ≡ in_bounds k bounds.now }
{
    match bounds {
        Bounds::Unknown => false,
        Bounds::Known(low, high) => in_form(k, low) || in_form(k, high),
    }
}

/// Whether the widening of a local names a local.
fn widening_names(frame: &Frame, k: u32, p: u32) -> bool
    ensures { result ≡ widening_names frame.now k p }
{
    p == k
        || match local_at(frame, p) {
            Some(local) => in_bounds(k, &local.bounds),
            None => false,
        }
}

fn unwidened(alloc: Global, frame: &Frame, k: u32, wide: &[u32]) -> Result<Seq<u32>, AllocError>
    ensures { IfOk result (λ ps. ps ≡ unwidened frame.now k wide.now) }
{
    let mut items = Vec::from_slice(alloc, wide)?;
    items.retain(|p| !widening_names(frame, k, *p));
    Ok(Seq::from_vec(items))
}

fn facts_assigned(
    k: u32,
    local: &Local,
    form: Option<Form>,
    facts: &mut Facts,
) -> Result<(), AllocError>
    requires { k + 1 < 2 ^ 32 }
    ensures { OnOk result (known facts.new ≡ facts_assigned k local.now form (known facts.old)) }
{
    if is_integer(&local.ctype) {
        return assign_facts(k + 1, &local.ctype, form, facts);
    }
    Ok(())
}

/// Goes on over an assignment to the local k, of a new value with a form if it is an integer that has one.
pub fn assign(
    alloc: Global,
    frame: &Frame,
    k: u32,
    form: Option<Form>,
    at: &mut Point,
) -> Result<(), AllocError>
    ensures { OnOk result (state at.new ≡ assigned frame.now k form (state at.old)) }
{
    if !at.reached {
        return Ok(());
    }
    match local_at(frame, k) {
        Some(local) => {
            facts_assigned(k, local, form, &mut at.facts)?;
            at.widened = unwidened(alloc, frame, k, at.widened.as_slice())?;
            Ok(())
        }
        None => Ok(()),
    }
}

/// Goes on to the head of a loop that assigns these locals: what is known of them is forgotten.
pub fn forget_assigned(
    alloc: Global,
    frame: &Frame,
    ks: &[u32],
    at: &mut Point,
) -> Result<(), AllocError>
    ensures { OnOk result (state at.new ≡ less frame.now ks.now (state at.old)) }
{
    for k in ks {
        assign(alloc, frame, *k, None, at)?;
    }
    Ok(())
}
