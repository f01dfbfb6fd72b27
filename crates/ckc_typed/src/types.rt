//! Types: what a written type is, which are the types of objects, and when two are the same.

ghost use Rattle.std.specs.Prelude.{◌≡◌, IfOk};
ghost use Rattle.ckc_typed.specs.Conversions.{is_terminated_kind};
ghost use Rattle.ckc_typed.specs.Declarations.{is_plain};
ghost use Rattle.ckc_typed.specs.Environment.{kind_of_array};
ghost use Rattle.ckc_typed.specs.Types.{type_written, struct_of, is_integer, is_pointer, is_void, is_unsigned, is_char, is_scalar, element_of, kind_of, integer_object, is_object_type, is_scalar_type};
ghost use Rattle.ckc_typed.specs.code.Types.{within};

use ckc_base::Seq;
use ckc_syntax::{Length, Name, TypeTree};
pub use ckc_types::same_type;
use ckc_types::{CType, Kind, wrapped};
use std::alloc::{AllocError, Global};

fn struct_of(name: Name) -> CType
    ensures { result ≡ struct_of name }
{
    match name {
        Name::Tag(k) => CType::Struct(k),
        Name::Local(_) | Name::Static(_) | Name::Function(_) | Name::Member(_) => CType::Void,
        Name::Getchar | Name::Putchar => CType::Void,
    }
}

/// The type that is written.
pub fn type_written(alloc: Global, t: &TypeTree<Name>) -> Result<CType, AllocError>
    ensures { IfOk result (λ u. u ≡ type_written t.now) }
{
    let mut kinds = Seq::new(alloc);
    let mut rest = t;
    'pointers: loop {
        match rest {
            TypeTree::Int => return wrapped(alloc, kinds, CType::Int),
            TypeTree::Unsigned => return wrapped(alloc, kinds, CType::Unsigned),
            TypeTree::Char => return wrapped(alloc, kinds, CType::Char),
            TypeTree::Void => return wrapped(alloc, kinds, CType::Void),
            TypeTree::Struct(n, _) => return wrapped(alloc, kinds, struct_of(*n)),
            TypeTree::Raw(inner, _) => {
                kinds.push(Kind::Raw)?;
                rest = inner.get();
            }
            TypeTree::One(inner) => {
                kinds.push(Kind::One)?;
                rest = inner.get();
            }
            TypeTree::Arr(inner) => {
                kinds.push(Kind::Arr)?;
                rest = inner.get();
            }
            TypeTree::Nt(inner) => {
                kinds.push(Kind::Nt)?;
                rest = inner.get();
            }
        }
    }
}

/// A copy of a type.
#[tactic(auto, using(ckc_types::proofs::Wrapping::wrapped_push))]
pub fn copied(alloc: Global, t: &CType) -> Result<CType, AllocError>
    ensures { IfOk result (λ u. u ≡ t.now) }
{
    let mut kinds = Seq::new(alloc);
    let mut rest = t;
    'pointers: loop {
        match rest {
            CType::Int => return wrapped(alloc, kinds, CType::Int),
            CType::Unsigned => return wrapped(alloc, kinds, CType::Unsigned),
            CType::Char => return wrapped(alloc, kinds, CType::Char),
            CType::Void => return wrapped(alloc, kinds, CType::Void),
            CType::Struct(tag) => return wrapped(alloc, kinds, CType::Struct(*tag)),
            CType::Pointer(kind, inner) => {
                kinds.push(*kind)?;
                rest = inner.get();
            }
        }
    }
}

/// Whether a type is an integer type.
pub fn is_integer(t: &CType) -> bool
    ensures { result ≡ is_integer t.now }
{
    match t {
        CType::Int | CType::Unsigned | CType::Char => true,
        CType::Void | CType::Struct(_) | CType::Pointer(_, _) => false,
    }
}

/// Whether a type is a pointer.
pub fn is_pointer(t: &CType) -> bool
    ensures { result ≡ is_pointer t.now }
{
    match t {
        CType::Pointer(_, _) => true,
        CType::Int | CType::Unsigned | CType::Char | CType::Void | CType::Struct(_) => false,
    }
}

/// Whether a type is `void`.
pub fn is_void(t: &CType) -> bool
    ensures { result ≡ is_void t.now }
{
    match t {
        CType::Void => true,
        CType::Int | CType::Unsigned | CType::Char | CType::Struct(_) => false,
        CType::Pointer(_, _) => false,
    }
}

/// Whether a type is `unsigned`.
pub fn is_unsigned(t: &CType) -> bool
    ensures { result ≡ is_unsigned t.now }
{
    match t {
        CType::Unsigned => true,
        CType::Int | CType::Char | CType::Void | CType::Struct(_) => false,
        CType::Pointer(_, _) => false,
    }
}

/// Whether a type is `char`.
pub fn is_char(t: &CType) -> bool
    ensures { result ≡ is_char t.now }
{
    match t {
        CType::Char => true,
        CType::Int | CType::Unsigned | CType::Void | CType::Struct(_) => false,
        CType::Pointer(_, _) => false,
    }
}

/// Whether a type is an integer or a pointer.
pub fn is_scalar(t: &CType) -> bool
    ensures { result ≡ is_scalar t.now }
{
    is_integer(t) || is_pointer(t)
}

/// The kind of a pointer.
pub fn kind_of(t: &CType) -> Option<Kind>
    ensures { result ≡ kind_of t.now }
{
    match t {
        CType::Pointer(kind, _) => Some(*kind),
        CType::Int | CType::Unsigned | CType::Char | CType::Void | CType::Struct(_) => None,
    }
}

/// The kind of pointer that the use of an array gives.
pub fn kind_of_array(length: Length) -> Option<Kind>
    ensures { result ≡ kind_of_array length }
{
    match length {
        Length::Plain => None,
        Length::Raw(_, _) => Some(Kind::Raw),
        Length::Checked(_) => Some(Kind::Arr),
        Length::Nt(_) => Some(Kind::Nt),
    }
}

/// Whether a declaration is of no array.
pub fn is_plain(length: Length) -> bool
    ensures { result ≡ is_plain length }
{
    match length {
        Length::Plain => true,
        Length::Raw(_, _) | Length::Checked(_) | Length::Nt(_) => false,
    }
}

/// What a pointer points to.
pub fn element_of(alloc: Global, t: &CType) -> Result<CType, AllocError>
    ensures { IfOk result (λ u. u ≡ element_of t.now) }
{
    match t {
        CType::Pointer(_, inner) => copied(alloc, inner.get()),
        CType::Int | CType::Unsigned | CType::Char => Ok(CType::Void),
        CType::Void | CType::Struct(_) => Ok(CType::Void),
    }
}

/// Whether a type is an integer type; none if it is no type of an object. Of the pointers around a type that is
/// none itself only the innermost matters, unless an `_Nt_array_ptr` stands around another pointer.
fn integer_object(t: &CType) -> Option<bool>
    ensures { result ≡ integer_object t.now }
{
    let mut around = None;
    let mut rest = t;
    'pointers: loop {
        match rest {
            CType::Int | CType::Unsigned | CType::Char => return within(around, Some(true)),
            CType::Void => return within(around, None),
            CType::Struct(_) => return within(around, Some(false)),
            CType::Pointer(kind, inner) => {
                if is_terminated(around) {
                    return None;
                }
                around = Some(*kind);
                rest = inner.get();
            }
        }
    }
}

fn is_terminated(pointer: Option<Kind>) -> bool
    ensures { result ≡ is_terminated_kind pointer }
{
    match pointer {
        Some(Kind::Nt) => true,
        Some(Kind::Raw | Kind::One | Kind::Arr) | None => false,
    }
}

/// Whether a type in a pointer, if there is one, is an integer type; none if it is no type of an object.
fn within(around: Option<Kind>, integer: Option<bool>) -> Option<bool>
    ensures { result ≡ within around integer }
{
    match (around, integer) {
        (None, _) => integer,
        (Some(Kind::Nt), Some(true)) => Some(false),
        (Some(Kind::Nt), Some(false) | None) => None,
        (Some(Kind::Raw | Kind::One | Kind::Arr), Some(_)) => Some(false),
        (Some(Kind::Raw | Kind::One | Kind::Arr), None) => None,
    }
}

/// Whether a type is that of an object: no `void`, and no `_Nt_array_ptr` to what is no integer.
pub fn is_object_type(t: &CType) -> bool
    ensures { result ≡ is_object_type t.now }
{
    integer_object(t).is_some()
}

/// Whether a type is that of an object which is an integer or a pointer.
pub fn is_scalar_type(t: &CType) -> bool
    ensures { result ≡ is_scalar_type t.now }
{
    is_scalar(t) && is_object_type(t)
}
