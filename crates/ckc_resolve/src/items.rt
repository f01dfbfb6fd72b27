//! The items of a text with their names replaced by what they mean.

ghost use Rattle.std.specs.Prelude.{◌≡◌, Ok, IfOk};
ghost use Rattle.ckc_base.specs.Outcomes.{AnswersOutcome, StepsOutcome};
ghost use Rattle.ckc_resolve.specs.Items.{is_taken_static, is_taken_function, first_head, is_same, if_defined, structure_named, static_named, proto_named, function_named, item_named, item_in_turn, items_named, all_named};
ghost use Rattle.ckc_resolve.specs.code.Bodies.{HasFirstHeads};

use crate::bodies::named_body;
use crate::declarations::named_decl;
use crate::heads::{named_head, named_members};
use crate::names::Names;
use crate::refusals::{DECLARED_TWICE, UNDEFINED};
use crate::scopes::{Scopes, is_reserved};
use ckc_base::{Boxed, Fault, Pos, Seq, refused};
use ckc_syntax::{Decl, Head, Item, Name, Spelling, Stmt, same_head};
use indexmap::IndexMap;
use std::alloc::{AllocError, Global};

fn is_taken_static<'a>(before: &Names<'a>, s: &Spelling<'a>) -> bool
    ensures { result ≡ is_taken_static before.now s.now }
{
    is_reserved(s) || before.statics.contains(s) || before.functions.contains(s)
}

fn is_taken_function<'a>(before: &Names<'a>, s: &Spelling<'a>) -> bool
    ensures { result ≡ is_taken_function before.now s.now }
{
    is_reserved(s) || before.statics.contains(s)
}

/// For each name the head of the first function that has a body.
type Bodies<'a, 'b> = IndexMap<&'a str, &'b Head<Spelling<'a>, ()>>;

/// The heads that prototypes are compared with, so that none walks through all items.
fn first_heads<'a, 'b>(
    alloc: Global,
    all: &'b [Item<Spelling<'a>, ()>],
) -> Result<Bodies<'a, 'b>, AllocError>
    ensures { IfOk result (λ m. HasFirstHeads m all.now) }
{
    let mut heads = IndexMap::new(alloc);
    // From the last to the first, so that the first of a name stays.
    for done in 0..all.len() {
        if let Item::Function(head, _) = &all[all.len() - 1 - done] {
            let head = head.get();
            heads.insert(head.name.as_str(), head)?;
        }
    }
    Ok(heads)
}

/// Whether the first function of the name that has a body has the head. All items are there for the contract alone.
fn is_defined<'a>(
    all: &[Item<Spelling<'a>, ()>],
    bodies: &Bodies<'a, '_>,
    head: &Head<Spelling<'a>, ()>,
) -> bool
    requires { HasFirstHeads bodies.now all.now }
    ensures { result ≡ is_same head.now (first_head head.now.name all.now) }
{
    match bodies.get(head.name.as_str()) {
        Some(first) => same_head(head, first),
        None => false,
    }
}

fn defined_proto<'a>(
    all: &[Item<Spelling<'a>, ()>],
    bodies: &Bodies<'a, '_>,
    head: &Head<Spelling<'a>, ()>,
    named: Boxed<Head<Name, ()>>,
) -> Result<Item<Name, ()>, Fault>
    requires { HasFirstHeads bodies.now all.now }
    ensures { AnswersOutcome result (if_defined all.now head.now (Item.Proto named)) }
{
    if !is_defined(all, bodies, head) {
        return Err(refused(UNDEFINED, head.pos));
    }
    Ok(Item::Proto(named))
}

fn named_structure<'a>(
    alloc: Global,
    names: &Names<'a>,
    before: &Names<'a>,
    s: &Spelling<'a>,
    members: &[Decl<Spelling<'a>, ()>],
    pos: Pos,
) -> Result<Item<Name, ()>, Fault>
    ensures { AnswersOutcome result (structure_named names.now before.now s.now members.now pos) }
{
    let tag = Name::Tag(names.tags.number(s));
    let members = named_members(alloc, names, members)?;
    if before.structs.contains(s) {
        return Err(refused(DECLARED_TWICE, pos));
    }
    Ok(Item::Struct(tag, members, pos))
}

fn named_static<'a>(
    alloc: Global,
    names: &Names<'a>,
    before: &Names<'a>,
    decl: &Decl<Spelling<'a>, ()>,
) -> Result<Item<Name, ()>, Fault>
    ensures { AnswersOutcome result (static_named names.now before.now decl.now) }
{
    let number = names.statics.number(&decl.name);
    let scopes = Scopes::new(alloc);
    let named = named_decl(alloc, names, &scopes, Name::Static(number), decl)?;
    let boxed = Boxed::new(alloc, named)?;
    if is_taken_static(before, &decl.name) {
        return Err(refused(DECLARED_TWICE, decl.pos));
    }
    Ok(Item::Static(boxed))
}

fn named_proto<'a>(
    alloc: Global,
    names: &Names<'a>,
    all: &[Item<Spelling<'a>, ()>],
    bodies: &Bodies<'a, '_>,
    before: &Names<'a>,
    head: &Head<Spelling<'a>, ()>,
) -> Result<Item<Name, ()>, Fault>
    requires { HasFirstHeads bodies.now all.now }
    ensures { AnswersOutcome result
        (proto_named names.now all.now before.now head.now) }
{
    let mut body = Scopes::new(alloc);
    let named = named_head(alloc, names, &mut body, head)?;
    let boxed = Boxed::new(alloc, named)?;
    if is_taken_function(before, &head.name) {
        return Err(refused(DECLARED_TWICE, head.pos));
    }
    defined_proto(all, bodies, head, boxed)
}

fn named_function<'a>(
    alloc: Global,
    names: &Names<'a>,
    before: &Names<'a>,
    head: &Head<Spelling<'a>, ()>,
    body: &Stmt<Spelling<'a>, ()>,
) -> Result<Item<Name, ()>, Fault>
    ensures { AnswersOutcome result (function_named names.now before.now head.now body.now) }
{
    let mut scopes = Scopes::new(alloc);
    let named = named_head(alloc, names, &mut scopes, head)?;
    let boxed = Boxed::new(alloc, named)?;
    if is_taken_function(before, &head.name) || before.defined.contains(&head.name) {
        return Err(refused(DECLARED_TWICE, head.pos));
    }
    let body = named_body(alloc, names, &mut scopes, body)?;
    Ok(Item::Function(boxed, body))
}

fn named_item<'a>(
    alloc: Global,
    names: &Names<'a>,
    all: &[Item<Spelling<'a>, ()>],
    bodies: &Bodies<'a, '_>,
    before: &Names<'a>,
    item: &Item<Spelling<'a>, ()>,
) -> Result<Item<Name, ()>, Fault>
    requires { HasFirstHeads bodies.now all.now }
    ensures { AnswersOutcome result
        (item_named names.now all.now before.now item.now) }
{
    match item {
        Item::Directive(directive) => Ok(Item::Directive(*directive)),
        Item::Tag(s, pos) => Ok(Item::Tag(Name::Tag(names.tags.number(s)), *pos)),
        Item::Struct(s, members, pos) => {
            named_structure(alloc, names, before, s, members.as_slice(), *pos)
        }
        Item::Static(decl) => named_static(alloc, names, before, decl.get()),
        Item::Proto(head) => named_proto(alloc, names, all, bodies, before, head.get()),
        Item::Function(head, body) => {
            named_function(alloc, names, before, head.get(), body.get())
        }
    }
}

fn item_in_turn<'a>(
    alloc: Global,
    names: &Names<'a>,
    all: &[Item<Spelling<'a>, ()>],
    bodies: &Bodies<'a, '_>,
    before: &mut Names<'a>,
    item: &Item<Spelling<'a>, ()>,
) -> Result<Item<Name, ()>, Fault>
    requires { HasFirstHeads bodies.now all.now }
    ensures { StepsOutcome result before.new
        (item_in_turn names.now all.now item.now before.old) }
{
    let named = named_item(alloc, names, all, bodies, before, item)?;
    before.note(item)?;
    Ok(named)
}

/// The items, with the names of the whole text.
pub fn named_items<'a>(
    alloc: Global,
    names: &Names<'a>,
    items: &[Item<Spelling<'a>, ()>],
) -> Result<Seq<Item<Name, ()>>, Fault>
    ensures { AnswersOutcome result (all_named names.now items.now) }
{
    let bodies = first_heads(alloc, items)?;
    let mut before = Names::new(alloc);
    items_in_turn(alloc, names, items, &bodies, &mut before)
}

fn items_in_turn<'a>(
    alloc: Global,
    names: &Names<'a>,
    all: &[Item<Spelling<'a>, ()>],
    bodies: &Bodies<'a, '_>,
    before: &mut Names<'a>,
) -> Result<Seq<Item<Name, ()>>, Fault>
    requires { HasFirstHeads bodies.now all.now }
    ensures { StepsOutcome result before.new
        (items_named names.now all.now all.now before.old) }
{
    let mut out = Seq::new(alloc);
    for item in all {
        let named = item_in_turn(alloc, names, all, bodies, before, item)?;
        out.push(named)?;
    }
    Ok(out)
}
