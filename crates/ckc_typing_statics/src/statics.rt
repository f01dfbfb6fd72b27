//! The objects that live as long as the program, at their addresses.

ghost use Rattle.std.specs.Option.{option_map_or};
ghost use Rattle.std.specs.Prelude.{◌≡◌, [], ◌∷◌, ◌++◌, IfOk, OnOk, map};
ghost use Rattle.std.specs.List.{flat_map};
ghost use Rattle.ckc_typed.specs.Declarations.{string_in};
ghost use Rattle.ckc_typed.specs.Statics.{bytes_of, bytes_of_one, initial_bytes, is_terminated, object_of, objects_of_item, object_of_string, strings_of_item, blocks};

use crate::initials::{count_of, string_in};
use crate::strings::strings_of;
use ckc_base::{Bytes, Seq};
use ckc_syntax::{Decl, Expr, Init, Item, Length, Name};
use ckc_typed::constants::constant;
use ckc_typed::types::{is_char, kind_of_array, type_written};
use ckc_typed::{Constant, Note, StaticObject};
use ckc_types::{CType, Kind, Structs};
use std::alloc::{AllocError, Global};

fn word_in(c: Option<Constant>) -> u32
    ensures { result ≡ option_map_or (λ (c : Constant). c.word) c 0 }
{
    match c {
        Some(c) => c.word,
        None => 0,
    }
}

fn add_bytes(all: &mut Bytes, bytes: &[u8]) -> Result<(), AllocError>
    ensures { OnOk result (all.new ≡ all.old ++ bytes.now) }
{
    for b in bytes {
        all.push(*b)?;
    }
    Ok(())
}

fn bytes_of(
    alloc: Global,
    structs: &Structs,
    t: &CType,
    e: &Expr<Name, Note>,
) -> Result<Bytes, AllocError>
    ensures { IfOk result (λ b. b ≡ bytes_of structs.now t.now e.now) }
{
    let c = constant(alloc, structs, e)?;
    let all = word_in(c).to_le_bytes();
    let shown = if is_char(t) { 1 } else { 4 };
    Bytes::from_slice(alloc, &all[..shown])
}

fn bytes_of_many(
    alloc: Global,
    structs: &Structs,
    t: &CType,
    es: &[Expr<Name, Note>],
) -> Result<Bytes, AllocError>
    ensures { IfOk result (λ b. b ≡ flat_map (bytes_of structs.now t.now) es.now) }
{
    let mut all = Seq::new(alloc);
    for e in es {
        let bytes = bytes_of(alloc, structs, t, e)?;
        add_bytes(&mut all, bytes.as_slice())?;
    }
    Ok(all)
}

fn bytes_of_one(
    alloc: Global,
    structs: &Structs,
    t: &CType,
    e: &Expr<Name, Note>,
) -> Result<Bytes, AllocError>
    ensures { IfOk result (λ b. b ≡ bytes_of_one structs.now t.now e.now (string_in e.now)) }
{
    match string_in(e) {
        Some(bytes) => Bytes::from_slice(alloc, bytes.as_slice()),
        None => bytes_of(alloc, structs, t, e),
    }
}

fn initial_bytes(
    alloc: Global,
    structs: &Structs,
    t: &CType,
    init: &Init<Name, Note>,
) -> Result<Bytes, AllocError>
    ensures { IfOk result (λ b. b ≡ initial_bytes structs.now t.now init.now) }
{
    match init {
        Init::Nothing => Ok(Seq::new(alloc)),
        Init::One(e) => bytes_of_one(alloc, structs, t, e.get()),
        Init::Many(es) => bytes_of_many(alloc, structs, t, es.as_slice()),
    }
}

fn is_terminated(length: Length) -> bool
    ensures { result ≡ is_terminated length }
{
    match length {
        Length::Nt(_) => true,
        Length::Plain | Length::Raw(_, _) | Length::Checked(_) => false,
    }
}

/// A count that fits its type; one that does not is taken for want of memory.
fn fitting(n: usize) -> Result<u32, AllocError>
    ensures { IfOk result (λ m. m ≡ n) }
{
    match u32::try_from(n) {
        Ok(small) => Ok(small),
        Err(_) => Err(AllocError),
    }
}

fn object_of(
    alloc: Global,
    structs: &Structs,
    d: &Decl<Name, Note>,
) -> Result<StaticObject, AllocError>
    ensures { IfOk result (λ o. o ≡ object_of structs.now d.now) }
{
    let element = type_written(alloc, &d.ctype)?;
    let count = fitting(count_of(d).unwrap_or(0))?;
    let initial = initial_bytes(alloc, structs, &element, &d.init)?;
    Ok(StaticObject {
        at: 0,
        element,
        array: kind_of_array(d.length),
        count,
        terminated: is_terminated(d.length),
        initial,
    })
}

fn object_of_string(alloc: Global, bytes: &Bytes) -> Result<StaticObject, AllocError>
    ensures { IfOk result (λ o. o ≡ object_of_string bytes.now) }
{
    let count = fitting(bytes.as_slice().len() + 1)?;
    let initial = Bytes::from_slice(alloc, bytes.as_slice())?;
    Ok(StaticObject {
        at: 0,
        element: CType::Char,
        array: Some(Kind::Nt),
        count,
        terminated: true,
        initial,
    })
}

fn add_object(
    alloc: Global,
    structs: &Structs,
    all: &mut Seq<StaticObject>,
    item: &Item<Name, Note>,
) -> Result<(), AllocError>
    ensures { OnOk result (all.new ≡ all.old ++ objects_of_item structs.now item.now) }
{
    match item {
        Item::Static(d) => {
            let o = object_of(alloc, structs, d.get())?;
            all.push(o)?;
            Ok(())
        }
        Item::Directive(_) | Item::Tag(_, _) | Item::Struct(_, _, _) => Ok(()),
        Item::Proto(_) | Item::Function(_, _) => Ok(()),
    }
}

fn add_objects(
    alloc: Global,
    structs: &Structs,
    all: &mut Seq<StaticObject>,
    items: &[Item<Name, Note>],
) -> Result<(), AllocError>
    ensures { OnOk result (all.new ≡ all.old ++ flat_map (objects_of_item structs.now) items.now) }
{
    for item in items {
        add_object(alloc, structs, all, item)?;
    }
    Ok(())
}

fn add_literals(
    alloc: Global,
    all: &mut Seq<StaticObject>,
    strings: &[Bytes],
) -> Result<(), AllocError>
    ensures { OnOk result (all.new ≡ all.old ++ map object_of_string strings.now) }
{
    for s in strings {
        let o = object_of_string(alloc, s)?;
        all.push(o)?;
    }
    Ok(())
}

/// The blocks in their order, without their places.
pub fn blocks(
    alloc: Global,
    structs: &Structs,
    items: &[Item<Name, Note>],
) -> Result<Seq<StaticObject>, AllocError>
    ensures { IfOk result (λ o. o ≡ blocks structs.now items.now) }
{
    let mut all = Seq::new(alloc);
    add_objects(alloc, structs, &mut all, items)?;
    let strings = strings_of(alloc, items)?;
    add_literals(alloc, &mut all, strings.as_slice())?;
    Ok(all)
}
