//! The first effect of a text that may not stand where it stands.

ghost use Rattle.std.specs.Prelude.{◌≡◌, IfOk, OnOk};
ghost use Rattle.ckc_plain_barred.specs.Barred.{in_init, in_local, in_act, in_stmt, in_static_init, in_decl, in_head, in_function, in_item};
ghost use Rattle.ckc_plain_barred.specs.code.First.{first, in_part, in_each, in_decls, in_items};

use crate::effects::{
    first_in, first_in_bounds, first_in_exprs, first_in_maybe, first_in_right, first_in_whole,
    first_of,
};
use crate::forms::form_of;
use crate::integers::{Integers, locals_of};
use ckc_base::{Boxed, Pos};
use ckc_syntax::{Act, Decl, Head, Init, Item, Name, Stmt};
use std::alloc::{AllocError, Global};
use std::mem::replace;

fn first_in_init(known: &Integers, init: &Init<Name, ()>, barred: bool) -> Option<Pos>
    ensures { result ≡ first (in_init known.now init.now barred) }
{
    match init {
        Init::Nothing => None,
        Init::One(e) => first_in_whole(known, e.get(), barred),
        Init::Many(es) => first_in_exprs(known, es.as_slice(), barred),
    }
}

#[tactic(auto, using(crate::proofs::Firsts::first_both))]
fn first_in_local(known: &Integers, d: &Decl<Name, ()>, barred: bool) -> Option<Pos>
    ensures { result ≡ first (in_local known.now d.now barred) }
{
    first_of(
        first_in_bounds(known, &d.bounds),
        first_in_init(known, &d.init, barred),
    )
}

/// The first effect that is refused in what a statement does.
#[cycle(barred)]
fn first_in_act(known: &Integers, act: &Act<Name, ()>, barred: bool) -> Option<Pos>
    ensures { result ≡ first (in_act known.now act.now barred) }
{
    match act {
        Act::Block(_, ss) => first_in_each(known, ss.as_slice(), barred),
        Act::Empty => None,
        Act::Local(d) => first_in_local(known, d.get(), barred),
        Act::Assign(x, e) => first_of(
            first_in(known, x.get(), true),
            first_in_right(known, form_of(x.get()), e.get(), barred),
        ),
        Act::Call(e) => first_in_whole(known, e.get(), barred),
        Act::If(e, s, t) => first_of(
            first_in(known, e.get(), barred),
            first_of(
                first_in_stmt(known, s.get(), barred),
                first_in_part(known, t, barred),
            ),
        ),
        Act::While(e, s) => {
            first_of(
                first_in(known, e.get(), barred),
                first_in_stmt(known, s.get(), barred),
            )
        }
        Act::For(first, e, step, body) => first_of(
            first_in_part(known, first, barred),
            first_of(
                first_in_maybe(known, e, barred),
                first_of(
                    first_in_stmt(known, body.get(), barred),
                    first_in_part(known, step, barred),
                ),
            ),
        ),
        Act::Return(e) => first_in_maybe(known, e, barred),
        Act::Break => None,
        Act::Continue => None,
        Act::Check(e) => first_in(known, e.get(), barred),
        Act::Bundle(ss) => first_in_each(known, ss.as_slice(), true),
    }
}

#[cycle(barred)]
fn first_in_stmt(known: &Integers, s: &Stmt<Name, ()>, barred: bool) -> Option<Pos>
    ensures { result ≡ first (in_stmt known.now s.now barred) }
{
    first_in_act(known, &s.body, barred)
}

#[cycle(barred)]
fn first_in_part(
    known: &Integers,
    part: &Option<Boxed<Stmt<Name, ()>>>,
    barred: bool,
) -> Option<Pos>
    ensures { result ≡ first (in_part known.now part.now barred) }
{
    match part {
        None => None,
        Some(s) => first_in_stmt(known, s.get(), barred),
    }
}

#[cycle(barred)]
fn first_in_each(known: &Integers, ss: &[Stmt<Name, ()>], barred: bool) -> Option<Pos>
    ensures { result ≡ first (in_each known.now ss.now barred) }
{
    for s in ss {
        if let Some(pos) = first_in_stmt(known, s, barred) {
            return Some(pos);
        }
    }
    None
}

fn first_in_static_init(known: &Integers, init: &Init<Name, ()>) -> Option<Pos>
    ensures { result ≡ first (in_static_init known.now init.now) }
{
    match init {
        Init::Nothing => None,
        Init::One(e) => first_in(known, e.get(), true),
        Init::Many(es) => first_in_exprs(known, es.as_slice(), true),
    }
}

#[tactic(auto, using(crate::proofs::Firsts::first_both))]
fn first_in_decl(known: &Integers, d: &Decl<Name, ()>) -> Option<Pos>
    ensures { result ≡ first (in_decl known.now d.now) }
{
    first_of(
        first_in_bounds(known, &d.bounds),
        first_in_static_init(known, &d.init),
    )
}

fn first_in_decls(known: &Integers, ds: &[Decl<Name, ()>]) -> Option<Pos>
    ensures { result ≡ first (in_decls known.now ds.now) }
{
    for d in ds {
        if let Some(pos) = first_in_decl(known, d) {
            return Some(pos);
        }
    }
    None
}

#[tactic(auto, using(crate::proofs::Firsts::first_both))]
fn first_in_head(known: &Integers, h: &Head<Name, ()>) -> Option<Pos>
    ensures { result ≡ first (in_head known.now h.now) }
{
    first_of(
        first_in_decls(known, h.params.as_slice()),
        first_in_bounds(known, &h.bounds),
    )
}

#[tactic(auto, using(crate::proofs::Firsts::first_both))]
fn first_in_function(
    alloc: Global,
    known: &mut Integers,
    h: &Head<Name, ()>,
    body: &Stmt<Name, ()>,
) -> Result<Option<Pos>, AllocError>
    ensures first { IfOk result (λ r. r ≡ first (in_function known.old h.now body.now)) }
    ensures kept { OnOk result (known.new ≡ known.old) }
{
    let in_head = first_in_head(known, h);
    let locals = locals_of(alloc, h, body)?;
    let outer = replace(&mut known.locals, locals);
    let found = first_in_stmt(known, body, false);
    known.locals = outer;
    Ok(first_of(in_head, found))
}

fn first_in_item(
    alloc: Global,
    known: &mut Integers,
    item: &Item<Name, ()>,
) -> Result<Option<Pos>, AllocError>
    ensures first { IfOk result (λ r. r ≡ first (in_item known.old item.now)) }
    ensures kept { OnOk result (known.new ≡ known.old) }
{
    match item {
        Item::Directive(_) => Ok(None),
        Item::Tag(_, _) => Ok(None),
        Item::Struct(_, members, _) => Ok(first_in_decls(known, members.as_slice())),
        Item::Static(d) => Ok(first_in_decl(known, d.get())),
        Item::Proto(h) => Ok(first_in_head(known, h.get())),
        Item::Function(h, body) => first_in_function(alloc, known, h.get(), body.get()),
    }
}

/// The first effect of a text that is refused.
pub fn first_in_items(
    alloc: Global,
    known: &mut Integers,
    items: &[Item<Name, ()>],
) -> Result<Option<Pos>, AllocError>
    ensures first { IfOk result (λ r. r ≡ first (in_items known.old items.now)) }
    ensures kept { OnOk result (known.new ≡ known.old) }
{
    for item in items {
        if let Some(pos) = first_in_item(alloc, known, item)? {
            return Ok(Some(pos));
        }
    }
    Ok(None)
}
