//! The table of types: what an operator makes of operands of which types.

ghost use Rattle.std.specs.Prelude.{◌≡◌, IfOk};
ghost use Rattle.ckc_typed.specs.Types.{is_void, element_of};
ghost use Rattle.ckc_typed.specs.Operands.{promoted, common, is_moved, same_element, sign_type, truth_type, target_type, arithmetic_type, shift_type, both_type, sum_type, distance_type, difference_type, is_compared, comparison_type, index_type, choice_type, size_type, is_cast, binary_type, unary_type};

use crate::types::{
    copied, element_of, is_integer, is_object_type, is_pointer, is_scalar, is_unsigned, is_void,
    kind_of, same_type,
};
use ckc_syntax::TreeOp;
use ckc_types::{CType, Kind};
use std::alloc::{AllocError, Global};

fn promoted(t: &CType) -> CType
    ensures { result ≡ promoted t.now }
{
    if is_unsigned(t) {
        CType::Unsigned
    } else {
        CType::Int
    }
}

fn common(t: &CType, u: &CType) -> CType
    ensures { result ≡ common t.now u.now }
{
    if is_unsigned(t) || is_unsigned(u) {
        CType::Unsigned
    } else {
        CType::Int
    }
}

/// Whether arithmetic moves a pointer of a type.
fn is_moved(t: &CType) -> bool
    ensures { result ≡ is_moved t.now }
{
    match kind_of(t) {
        Some(Kind::Raw | Kind::Arr | Kind::Nt) => true,
        Some(Kind::One) | None => false,
    }
}

/// Whether both are pointers to one element type.
pub fn same_element(t: &CType, u: &CType) -> bool
    ensures { result ≡ same_element t.now u.now }
{
    match (t, u) {
        (CType::Pointer(_, a), CType::Pointer(_, b)) => same_type(a.get(), b.get()),
        _ => false,
    }
}

/// Whether a type is a pointer to `void`, or no pointer.
fn has_no_element(t: &CType) -> bool
    ensures { result ≡ is_void (element_of t.now) }
{
    match t {
        CType::Pointer(_, inner) => is_void(inner.get()),
        CType::Int | CType::Unsigned | CType::Char | CType::Void | CType::Struct(_) => true,
    }
}

fn sign_type(t: &CType) -> Option<CType>
    ensures { result ≡ sign_type t.now }
{
    if is_integer(t) {
        Some(promoted(t))
    } else {
        None
    }
}

fn truth_type(t: &CType) -> Option<CType>
    ensures { result ≡ truth_type t.now }
{
    if is_scalar(t) { Some(CType::Int) } else { None }
}

fn target_type(alloc: Global, t: &CType) -> Result<Option<CType>, AllocError>
    ensures { IfOk result (λ r. r ≡ target_type t.now) }
{
    if is_pointer(t) && !has_no_element(t) {
        let element = element_of(alloc, t)?;
        Ok(Some(element))
    } else {
        Ok(None)
    }
}

fn arithmetic_type(t: &CType, u: &CType) -> Option<CType>
    ensures { result ≡ arithmetic_type t.now u.now }
{
    if is_integer(t) && is_integer(u) {
        Some(common(t, u))
    } else {
        None
    }
}

fn shift_type(t: &CType, u: &CType) -> Option<CType>
    ensures { result ≡ shift_type t.now u.now }
{
    if is_integer(t) && is_integer(u) {
        Some(promoted(t))
    } else {
        None
    }
}

fn both_type(t: &CType, u: &CType) -> Option<CType>
    ensures { result ≡ both_type t.now u.now }
{
    if is_scalar(t) && is_scalar(u) {
        Some(CType::Int)
    } else {
        None
    }
}

fn sum_type(alloc: Global, t: &CType, u: &CType) -> Result<Option<CType>, AllocError>
    ensures { IfOk result (λ r. r ≡ sum_type t.now u.now) }
{
    if is_moved(t) && is_integer(u) {
        let sum = copied(alloc, t)?;
        Ok(Some(sum))
    } else if is_integer(t) && is_moved(u) {
        let sum = copied(alloc, u)?;
        Ok(Some(sum))
    } else {
        Ok(arithmetic_type(t, u))
    }
}

fn distance_type(t: &CType, u: &CType) -> Option<CType>
    ensures { result ≡ distance_type t.now u.now }
{
    if same_element(t, u) && !has_no_element(t) {
        Some(CType::Int)
    } else {
        None
    }
}

fn difference_type(alloc: Global, t: &CType, u: &CType) -> Result<Option<CType>, AllocError>
    ensures { IfOk result (λ r. r ≡ difference_type t.now u.now) }
{
    if is_moved(t) && is_integer(u) {
        let difference = copied(alloc, t)?;
        Ok(Some(difference))
    } else if is_pointer(t) {
        Ok(distance_type(t, u))
    } else {
        Ok(arithmetic_type(t, u))
    }
}

fn is_compared(t: &CType, null_t: bool, u: &CType, null_u: bool) -> bool
    ensures { result ≡ is_compared t.now null_t u.now null_u }
{
    if is_integer(t) && is_integer(u) {
        return true;
    }
    same_element(t, u) || (is_pointer(t) && null_u) || (null_t && is_pointer(u))
}

fn comparison_type(t: &CType, null_t: bool, u: &CType, null_u: bool) -> Option<CType>
    ensures { result ≡ comparison_type t.now null_t u.now null_u }
{
    if is_compared(t, null_t, u, null_u) {
        Some(CType::Int)
    } else {
        None
    }
}

/// The type of `p[e]`.
pub fn index_type(alloc: Global, t: &CType, u: &CType) -> Result<Option<CType>, AllocError>
    ensures { IfOk result (λ r. r ≡ index_type t.now u.now) }
{
    if is_moved(t) && is_integer(u) {
        let element = element_of(alloc, t)?;
        Ok(Some(element))
    } else {
        Ok(None)
    }
}

/// The type of `? :`.
pub fn choice_type(t: &CType, u: &CType, v: &CType) -> Option<CType>
    ensures { result ≡ choice_type t.now u.now v.now }
{
    if is_scalar(t) {
        arithmetic_type(u, v)
    } else {
        None
    }
}

/// The type of `sizeof(type)`.
pub fn size_type(t: &CType) -> Option<CType>
    ensures { result ≡ size_type t.now }
{
    if is_object_type(t) {
        Some(CType::Unsigned)
    } else {
        None
    }
}

/// Whether a value of the second type may be cast to the first.
pub fn is_cast(t: &CType, u: &CType, null_u: bool) -> bool
    ensures { result ≡ is_cast t.now u.now null_u }
{
    if !is_object_type(t) {
        return false;
    }
    if is_integer(t) && is_integer(u) {
        return true;
    }
    match kind_of(t) {
        Some(Kind::Raw) => is_pointer(u) || null_u,
        Some(Kind::One | Kind::Arr | Kind::Nt) | None => false,
    }
}

/// What a binary operator makes of two types, each with whether its operand is null.
pub fn binary_type(
    alloc: Global,
    op: TreeOp,
    t: &CType,
    null_t: bool,
    u: &CType,
    null_u: bool,
) -> Result<Option<CType>, AllocError>
    ensures { IfOk result (λ r. r ≡ binary_type op t.now null_t u.now null_u) }
{
    match op {
        TreeOp::OrElse | TreeOp::AndThen => Ok(both_type(t, u)),
        TreeOp::Or | TreeOp::Xor | TreeOp::And => Ok(arithmetic_type(t, u)),
        TreeOp::Mul | TreeOp::Div | TreeOp::Rem => Ok(arithmetic_type(t, u)),
        TreeOp::Eq | TreeOp::Ne => Ok(comparison_type(t, null_t, u, null_u)),
        TreeOp::Lt | TreeOp::Le => Ok(comparison_type(t, null_t, u, null_u)),
        TreeOp::Gt | TreeOp::Ge => Ok(comparison_type(t, null_t, u, null_u)),
        TreeOp::Shl | TreeOp::Shr => Ok(shift_type(t, u)),
        TreeOp::Add => sum_type(alloc, t, u),
        TreeOp::Sub => difference_type(alloc, t, u),
        TreeOp::Minus | TreeOp::Plus | TreeOp::Not => Ok(None),
        TreeOp::Flip | TreeOp::Deref | TreeOp::Address => Ok(None),
        TreeOp::Set | TreeOp::PostInc | TreeOp::PostDec => Ok(None),
    }
}

/// What a unary operator but `&` makes of a type.
pub fn unary_type(alloc: Global, op: TreeOp, t: &CType) -> Result<Option<CType>, AllocError>
    ensures { IfOk result (λ r. r ≡ unary_type op t.now) }
{
    match op {
        TreeOp::Minus | TreeOp::Plus | TreeOp::Flip => Ok(sign_type(t)),
        TreeOp::Not => Ok(truth_type(t)),
        TreeOp::Deref => target_type(alloc, t),
        _ => Ok(None),
    }
}
