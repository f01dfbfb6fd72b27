//! Conversions of expressions to types.

ghost use Rattle.std.specs.Prelude.{◌≡◌};
ghost use Rattle.ckc_types.specs.declared.types.Kind.{Kind};
ghost use Rattle.ckc_typed.specs.Types.{kind_of};
ghost use Rattle.ckc_typed.specs.Operands.{is_raw_kind};
ghost use Rattle.ckc_typed.specs.Conversions.{is_string, is_allocation, is_terminated_kind, kind_converts, kind_is_tested, kinds_allow, takes_string, takes_allocation, takes_pointer, pointer_takes, converts, is_tested, is_trusted, limits_fit_kind, is_bounds_cast, is_unchecked_pointer};
ghost use Rattle.ckc_typed.specs.Expressions.{is_checked_mode, takes};

use crate::constants::is_null;
use crate::operands::same_element;
use crate::types::{is_char, is_integer, is_object_type, is_pointer, kind_of};
use crate::{Note, Parameter};
use ckc_base::{Boxed, Mode};
use ckc_syntax::{Expr, Limits, Name, Node};
use ckc_types::{CType, Kind};

fn is_string(e: &Expr<Name, Note>) -> bool
    ensures { result ≡ is_string e.now }
{
    match &e.node {
        Node::Text(_) => true,
        _ => false,
    }
}

fn is_allocation(e: &Expr<Name, Note>) -> bool
    ensures { result ≡ is_allocation e.now }
{
    match &e.node {
        Node::Calloc(_, _, _) => true,
        _ => false,
    }
}

fn kind_converts(from: Kind, to: Kind) -> bool
    ensures { result ≡ kind_converts from to }
{
    match (from, to) {
        (Kind::Raw, Kind::Raw | Kind::One | Kind::Arr) => true,
        (Kind::One, Kind::One | Kind::Arr) => true,
        (Kind::Arr, Kind::Arr | Kind::One) => true,
        (Kind::Nt, Kind::One | Kind::Arr | Kind::Nt) => true,
        _ => false,
    }
}

fn kind_is_tested(from: Kind, to: Kind) -> bool
    ensures { result ≡ kind_is_tested from to }
{
    match from {
        Kind::Raw => false,
        Kind::One | Kind::Arr | Kind::Nt => kind_converts(from, to),
    }
}

/// Whether a type is that of a pointer to a null-terminated array.
pub fn is_terminated(t: &CType) -> bool
    ensures { result ≡ is_terminated_kind (kind_of t.now) }
{
    match kind_of(t) {
        Some(Kind::Nt) => true,
        Some(Kind::Raw) | Some(Kind::One) | Some(Kind::Arr) => false,
        None => false,
    }
}

fn takes_string(t: &CType, e: &Expr<Name, Note>) -> bool
    ensures { result ≡ takes_string t.now e.now }
{
    if !is_string(e) {
        return false;
    }
    match t {
        CType::Pointer(Kind::Nt, to) => is_char(to.get()),
        _ => false,
    }
}

fn takes_allocation(t: &CType, e: &Expr<Name, Note>) -> bool
    ensures { result ≡ takes_allocation t.now e.now }
{
    is_allocation(e) && same_element(t, &e.note.ctype)
}

fn kinds_convert(from: Option<Kind>, to: Option<Kind>) -> bool
    ensures { result ≡ kinds_allow kind_converts from to }
{
    match (from, to) {
        (Some(j), Some(k)) => kind_converts(j, k),
        _ => false,
    }
}

fn kinds_are_tested(from: Option<Kind>, to: Option<Kind>) -> bool
    ensures { result ≡ kinds_allow kind_is_tested from to }
{
    match (from, to) {
        (Some(j), Some(k)) => kind_is_tested(j, k),
        _ => false,
    }
}

fn pointer_takes(t: &CType, e: &Expr<Name, Note>) -> bool
    ensures { result ≡ pointer_takes kind_converts t.now e.now }
{
    if is_null(e) || takes_string(t, e) || takes_allocation(t, e) {
        return true;
    }
    same_element(t, &e.note.ctype) && kinds_convert(kind_of(&e.note.ctype), kind_of(t))
}

/// Whether an expression converts to a type.
pub fn converts(t: &CType, e: &Expr<Name, Note>) -> bool
    ensures { result ≡ converts t.now e.now }
{
    if is_integer(t) && is_integer(&e.note.ctype) {
        return true;
    }
    is_pointer(t) && pointer_takes(t, e)
}

fn is_raw_kind(kind: Option<Kind>) -> bool
    ensures { result ≡ is_raw_kind kind }
{
    match kind {
        Some(Kind::Raw) => true,
        Some(Kind::One) | Some(Kind::Arr) | Some(Kind::Nt) => false,
        None => false,
    }
}

/// Whether an expression is an unchecked pointer.
pub fn is_unchecked_pointer(e: &Expr<Name, Note>) -> bool
    ensures { result ≡ is_unchecked_pointer e.now }
{
    is_raw_kind(kind_of(&e.note.ctype))
}

fn is_checked_mode(mode: Mode) -> bool
    ensures { result ≡ is_checked_mode mode }
{
    match mode {
        Mode::Checked => true,
        Mode::Unchecked => false,
    }
}

/// Whether a parameter takes an argument in code of a mode.
pub fn takes(mode: Mode, p: &Parameter, e: &Expr<Name, Note>) -> bool
    ensures { result ≡ takes mode p.now e.now }
{
    let is_refused = p.is_interface && (is_checked_mode(mode) && is_unchecked_pointer(e));
    converts(&p.ctype, e) && !is_refused
}

/// Whether `_Dynamic_bounds_cast` to a type takes an expression.
pub fn is_tested(t: &CType, e: &Expr<Name, Note>) -> bool
    ensures { result ≡ is_tested t.now e.now }
{
    if !is_pointer(t) {
        return false;
    }
    if is_null(e) || takes_string(t, e) || takes_allocation(t, e) {
        return true;
    }
    same_element(t, &e.note.ctype) && kinds_are_tested(kind_of(&e.note.ctype), kind_of(t))
}

/// Whether `_Assume_bounds_cast` to a type takes an expression.
pub fn is_trusted(t: &CType, e: &Expr<Name, Note>) -> bool
    ensures { result ≡ is_trusted t.now e.now }
{
    same_element(t, &e.note.ctype)
}

fn limits_fit_kind(kind: Option<Kind>, there: bool) -> bool
    ensures { result ≡ limits_fit_kind kind there }
{
    match kind {
        Some(Kind::One) => !there,
        Some(Kind::Arr | Kind::Nt) => there,
        Some(Kind::Raw) | None => false,
    }
}

/// Whether a bounds cast may go to a type with these limits.
pub fn is_bounds_cast(t: &CType, limits: &Option<Boxed<Limits<Name, Note>>>) -> bool
    ensures { result ≡ is_bounds_cast t.now limits.now }
{
    is_object_type(t) && limits_fit_kind(kind_of(t), limits.is_some())
}
