//! What evaluation needs of types.

ghost use Rattle.std.specs.Prelude.{◌≡◌, IfOk};
ghost use Rattle.ckc_typed.specs.Types.{kind_of, element_of};
ghost use Rattle.ckc_typed.specs.Declarations.{is_checked_kind};
ghost use Rattle.ckc_build_values.specs.Kinds.{integer_of, is_signed, width_of, through_kind, count_of_kind, size_behind, pointee_of, tag_of};

use ckc_base::Width;
use ckc_source::{Count, Integer, Pointee, Through};
use ckc_typed::constants::size_of;
use ckc_typed::conversions::is_terminated;
use ckc_typed::types::{element_of, is_char, is_integer, is_unsigned, kind_of};
use ckc_types::{CType, Kind, Structs};
use std::alloc::{AllocError, Global};

/// The type of an integer.
pub fn integer_of(t: &CType) -> Integer
    ensures { result ≡ integer_of t.now }
{
    match t {
        CType::Int => Integer::Int,
        CType::Unsigned => Integer::Unsigned,
        CType::Char => Integer::Char,
        CType::Void | CType::Struct(_) | CType::Pointer(_, _) => Integer::Int,
    }
}

/// Whether an integer of a type is read as signed.
pub fn is_signed(t: &CType) -> bool
    ensures { result ≡ is_signed t.now }
{
    is_integer(t) && !is_unsigned(t)
}

/// How many bytes a load or store of an object of the type moves.
pub fn width_of(t: &CType) -> Width
    ensures { result ≡ width_of t.now }
{
    if is_char(t) { Width::Byte } else { Width::Word }
}

/// How an access through a pointer of a type is judged.
pub fn through(t: &CType) -> Through
    ensures { result ≡ through_kind (kind_of t.now) }
{
    match kind_of(t) {
        Some(Kind::Raw) => Through::Raw,
        Some(Kind::One) => Through::One,
        Some(Kind::Arr) => Through::Array,
        Some(Kind::Nt) => Through::Terminated,
        None => Through::Raw,
    }
}

/// How many elements a pointer has of which no bounds are written.
pub fn count_by_kind(t: &CType) -> Option<Count>
    ensures { result ≡ count_of_kind (kind_of t.now) }
{
    match kind_of(t) {
        Some(Kind::Raw) => None,
        Some(Kind::One) => Some(Count::Fixed(1)),
        Some(Kind::Arr) => None,
        Some(Kind::Nt) => Some(Count::Fixed(0)),
        None => None,
    }
}

/// Whether a type is that of a checked pointer.
pub fn is_checked(t: &CType) -> bool
    ensures { result ≡ is_checked_kind (kind_of t.now) }
{
    match kind_of(t) {
        Some(Kind::Raw) => false,
        Some(Kind::One) | Some(Kind::Arr) | Some(Kind::Nt) => true,
        None => false,
    }
}

/// The size of what a pointer points to.
pub fn size_behind(structs: &Structs, t: &CType) -> u32
    ensures { result ≡ size_behind structs.now t.now }
{
    match t {
        CType::Pointer(_, to) => size_of(structs, to.get()),
        CType::Int | CType::Unsigned | CType::Char => size_of(structs, &CType::Void),
        CType::Void | CType::Struct(_) => size_of(structs, &CType::Void),
    }
}

/// What a pointer points to.
pub fn pointee_of(alloc: Global, structs: &Structs, t: &CType) -> Result<Pointee, AllocError>
    ensures { IfOk result (λ to. to ≡ pointee_of structs.now t.now) }
{
    let element = element_of(alloc, t)?;
    Ok(Pointee {
        element,
        size: size_behind(structs, t),
        terminated: is_terminated(t),
    })
}

/// The tag of a structure.
pub fn tag_of(t: &CType) -> u32
    ensures { result ≡ tag_of t.now }
{
    match t {
        CType::Struct(tag) => *tag,
        CType::Int | CType::Unsigned | CType::Char | CType::Void => 0,
        CType::Pointer(_, _) => 0,
    }
}

/// The tag of the structure that a pointer points to.
pub fn tag_behind(t: &CType) -> u32
    ensures { result ≡ tag_of (element_of t.now) }
{
    match t {
        CType::Pointer(_, to) => tag_of(to.get()),
        CType::Int | CType::Unsigned | CType::Char => 0,
        CType::Void | CType::Struct(_) => 0,
    }
}
