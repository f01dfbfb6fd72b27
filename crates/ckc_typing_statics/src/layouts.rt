//! The structures of a text with the bounds of their members.

ghost use Rattle.std.specs.Prelude.{◌≡◌, [], IfOk, OnOk, map};
ghost use Rattle.std.specs.Option.{option_copied};
ghost use Rattle.ckc_syntax.specs.declared.tree.Limits.{out-Limits};
ghost use Rattle.ckc_typed.specs.Layouts.{member_number, counted, bounds_by, bounds_of, bare_member, bounded_member, behind_tag, tags_to, tag_count, shapes_below, structs_with, structs_of};
ghost use Rattle.ckc_typing_statics.specs.code.Shapes.{member_by, with_shape, with_struct};

use ckc_base::{Boxed, Seq};
use ckc_syntax::{Decl, Item, Limits, Name};
use ckc_typed::Amount;
use ckc_typed::amounts::amount_of_limits;
use ckc_typed::constants::size_of;
use ckc_typed::types::{element_of, type_written};
use ckc_types::{CType, MemberBounds, MemberShape, StructShape, Structs};
use std::alloc::{AllocError, Global};

fn member_number(n: Name) -> u32
    ensures { result ≡ member_number n }
{
    match n {
        Name::Member(k) => k,
        _ => 0,
    }
}

fn counted(amount: Option<Amount>) -> MemberBounds
    ensures { result ≡ counted amount }
{
    match amount {
        None => MemberBounds::NoForm,
        Some(a) => match a.variable {
            None => MemberBounds::Fixed(a.number),
            Some(Name::Member(m)) => MemberBounds::Named(m, a.number),
            Some(_) => MemberBounds::NoForm,
        },
    }
}

fn bounds_by(
    alloc: Global,
    structs: &Structs,
    size: u32,
    limits: &Limits<Name, ()>,
) -> Result<MemberBounds, AllocError>
    ensures { IfOk result
        (λ b. b ≡ bounds_by structs.now size (out-Limits Name (Unit {0}) limits.now)) }
{
    if let Limits::Unknown(_) = limits {
        return Ok(MemberBounds::Unknown);
    }
    let found = amount_of_limits(alloc, structs, size, limits)?;
    Ok(counted(found))
}

fn bounds_of(
    alloc: Global,
    structs: &Structs,
    t: &CType,
    bounds: &Option<Boxed<Limits<Name, ()>>>,
) -> Result<MemberBounds, AllocError>
    ensures { IfOk result (λ b. b ≡ bounds_of structs.now t.now bounds.now) }
{
    match bounds {
        None => Ok(MemberBounds::Nothing),
        Some(limits) => {
            let element = element_of(alloc, t)?;
            bounds_by(alloc, structs, size_of(structs, &element), limits.get())
        }
    }
}

fn bare_member(alloc: Global, d: &Decl<Name, ()>) -> Result<MemberShape, AllocError>
    ensures { IfOk result (λ m. m ≡ bare_member d.now) }
{
    let ctype = type_written(alloc, &d.ctype)?;
    Ok(MemberShape {
        name: member_number(d.name),
        ctype,
        bounds: MemberBounds::Nothing,
    })
}

fn bounded_member(
    alloc: Global,
    structs: &Structs,
    d: &Decl<Name, ()>,
) -> Result<MemberShape, AllocError>
    ensures { IfOk result (λ m. m ≡ bounded_member structs.now d.now) }
{
    let ctype = type_written(alloc, &d.ctype)?;
    let bounds = bounds_of(alloc, structs, &ctype, &d.bounds)?;
    Ok(MemberShape {
        name: member_number(d.name),
        ctype,
        bounds,
    })
}

fn behind_tag(n: Name) -> usize
    ensures { result ≡ behind_tag n }
{
    match n {
        Name::Tag(k) => k as usize + 1,
        _ => 0,
    }
}

fn tags_to(item: &Item<Name, ()>) -> usize
    ensures { result ≡ tags_to item.now }
{
    match item {
        Item::Tag(n, _) => behind_tag(*n),
        Item::Struct(n, _, _) => behind_tag(*n),
        Item::Directive(_) | Item::Static(_) => 0,
        Item::Proto(_) | Item::Function(_, _) => 0,
    }
}

/// How many tags there are.
fn tag_count(items: &[Item<Name, ()>]) -> usize
    ensures { result ≡ tag_count items.now }
{
    let mut count: usize = 0;
    for item in items {
        count = count.max(tags_to(item));
    }
    count
}

/// A member with its bounds, if the sizes of structures are known, which bounds in bytes need.
fn member(
    alloc: Global,
    known: Option<&Structs>,
    d: &Decl<Name, ()>,
) -> Result<MemberShape, AllocError>
    ensures { IfOk result (λ m. m ≡ member_by (option_copied known.entry) d.now) }
{
    match known {
        None => bare_member(alloc, d),
        Some(structs) => bounded_member(alloc, structs, d),
    }
}

fn shape(
    alloc: Global,
    known: Option<&Structs>,
    ds: &[Decl<Name, ()>],
) -> Result<StructShape, AllocError>
    ensures { IfOk result (λ s. s.members ≡ map (member_by (option_copied known.entry)) ds.now) }
{
    let mut members = Seq::new(alloc);
    for d in ds {
        let made = member(alloc, known, d)?;
        members.push(made)?;
    }
    Ok(StructShape { members })
}

/// Puts a structure at the number of its tag.
fn put(shapes: &mut Vec<StructShape>, n: Name, s: StructShape)
    ensures { shapes.new.items ≡ with_shape shapes.old.items n s }
{
    if let Name::Tag(k) = n {
        if (k as usize) < shapes.len() {
            shapes[k as usize] = s;
        }
    }
}

fn put_item(
    alloc: Global,
    known: Option<&Structs>,
    shapes: &mut Vec<StructShape>,
    item: &Item<Name, ()>,
) -> Result<(), AllocError>
    ensures { OnOk result
        (shapes.new.items ≡ with_struct (member_by (option_copied known.entry)) shapes.old.items
        item.now) }
{
    match item {
        Item::Struct(n, members, _) => {
            let s = shape(alloc, known, members.as_slice())?;
            put(shapes, *n, s);
            Ok(())
        }
        Item::Directive(_) | Item::Tag(_, _) | Item::Static(_) => Ok(()),
        Item::Proto(_) | Item::Function(_, _) => Ok(()),
    }
}

/// So many structures without members.
fn empty_shapes(alloc: Global, count: usize) -> Result<Vec<StructShape>, AllocError>
    ensures { IfOk result (λ v. v.items ≡ shapes_below (λ k. record { members = [] }) count) }
{
    let mut shapes = Vec::new(alloc);
    for _k in 0..count {
        shapes.push(StructShape {
            members: Seq::new(alloc),
        })?;
    }
    Ok(shapes)
}

/// The structures, each at the number of its tag. Of two with one tag the first counts, so it is put last.
fn structs_with(
    alloc: Global,
    known: Option<&Structs>,
    items: &[Item<Name, ()>],
) -> Result<Structs, AllocError>
    ensures { IfOk result
        (λ s. s ≡ structs_with (member_by (option_copied known.entry)) items.now) }
{
    let mut shapes = empty_shapes(alloc, tag_count(items))?;
    let count = items.len();
    for i in 0..count {
        put_item(alloc, known, &mut shapes, &items[count - 1 - i])?;
    }
    Ok(Structs {
        shapes: Seq::from_vec(shapes),
    })
}

/// The structures of a text, each at the number of its tag.
pub fn structs_of(alloc: Global, items: &[Item<Name, ()>]) -> Result<Structs, AllocError>
    ensures { IfOk result (λ s. s ≡ structs_of items.now) }
{
    let bare = structs_with(alloc, None, items)?;
    structs_with(alloc, Some(&bare), items)
}
