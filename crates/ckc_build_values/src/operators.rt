//! Operators, with their operands made.

ghost use Rattle.std.specs.Prelude.{◌≡◌, IfOk};
ghost use Rattle.ckc_source.specs.Code.{expr_of};
ghost use Rattle.ckc_build_values.specs.Operators.{outside, is_signed_at, converted, cast, unary, binary, shift, distance, of_operands, elements_in};

use crate::kinds::{integer_of, is_checked, is_signed, size_behind};
use ckc_base::{Boxed, Pos};
use ckc_source::{ExprTree, Operation, Shift};
use ckc_syntax::TreeOp;
use ckc_typed::operands::same_element;
use ckc_typed::types::{is_char, is_pointer};
use ckc_types::{CType, Structs};
use std::alloc::{AllocError, Global};

/// What stands in place of what has no meaning of its own.
pub fn outside() -> ExprTree
    ensures { expr_of result ≡ outside }
{
    ExprTree::Number(0)
}

/// Whether an operator reads its operands, of these types, as signed.
fn is_signed_at(op: TreeOp, t: &CType, u: &CType) -> bool
    ensures { result ≡ is_signed_at op t.now u.now }
{
    match op {
        TreeOp::Shl | TreeOp::Shr => is_signed(t),
        _ => is_signed(t) && is_signed(u),
    }
}

/// A value as an integer type.
pub fn converted(t: &CType, e: Boxed<ExprTree>) -> ExprTree
    ensures { expr_of result ≡ converted t.now (expr_of e) }
{
    if is_char(t) {
        ExprTree::Narrow(e)
    } else {
        e.into_inner()
    }
}

fn less(alloc: Global, at: Pos, e: Boxed<ExprTree>) -> Result<ExprTree, AllocError>
    ensures { IfOk result (λ t. expr_of t ≡ unary TreeOp.Minus at (expr_of e)) }
{
    let zero = Boxed::new(alloc, ExprTree::Number(0))?;
    Ok(ExprTree::Binary(Operation::Sub, true, at, zero, e))
}

/// A unary operator with its operand.
pub fn unary(alloc: Global, op: TreeOp, at: Pos, e: Boxed<ExprTree>) -> Result<ExprTree, AllocError>
    ensures { IfOk result (λ t. expr_of t ≡ unary op at (expr_of e)) }
{
    match op {
        TreeOp::Minus => less(alloc, at, e),
        TreeOp::Plus => Ok(e.into_inner()),
        TreeOp::Not => {
            let zero = Boxed::new(alloc, ExprTree::Number(0))?;
            Ok(ExprTree::Binary(Operation::Eq, true, at, e, zero))
        }
        TreeOp::Flip => {
            let ones = Boxed::new(alloc, ExprTree::Number(0xffff_ffff))?;
            Ok(ExprTree::Binary(Operation::Xor, true, at, e, ones))
        }
        _ => Ok(outside()),
    }
}

/// A binary operator with its operands.
fn binary(op: TreeOp, signed: bool, at: Pos, e: Boxed<ExprTree>, f: Boxed<ExprTree>) -> ExprTree
    ensures { expr_of result ≡ binary op signed at (expr_of e) (expr_of f) }
{
    match op {
        TreeOp::OrElse => ExprTree::Or(e, f),
        TreeOp::AndThen => ExprTree::And(e, f),
        TreeOp::Or => ExprTree::Binary(Operation::Or, signed, at, e, f),
        TreeOp::Xor => ExprTree::Binary(Operation::Xor, signed, at, e, f),
        TreeOp::And => ExprTree::Binary(Operation::And, signed, at, e, f),
        TreeOp::Eq => ExprTree::Binary(Operation::Eq, signed, at, e, f),
        TreeOp::Ne => ExprTree::Binary(Operation::Ne, signed, at, e, f),
        TreeOp::Lt => ExprTree::Binary(Operation::Lt, signed, at, e, f),
        TreeOp::Le => ExprTree::Binary(Operation::Le, signed, at, e, f),
        TreeOp::Gt => ExprTree::Binary(Operation::Gt, signed, at, e, f),
        TreeOp::Ge => ExprTree::Binary(Operation::Ge, signed, at, e, f),
        TreeOp::Shl => ExprTree::Binary(Operation::Shl, signed, at, e, f),
        TreeOp::Shr => ExprTree::Binary(Operation::Shr, signed, at, e, f),
        TreeOp::Add => ExprTree::Binary(Operation::Add, signed, at, e, f),
        TreeOp::Sub => ExprTree::Binary(Operation::Sub, signed, at, e, f),
        TreeOp::Mul => ExprTree::Binary(Operation::Mul, signed, at, e, f),
        TreeOp::Div => ExprTree::Binary(Operation::Div, signed, at, e, f),
        TreeOp::Rem => ExprTree::Binary(Operation::Rem, signed, at, e, f),
        TreeOp::Minus | TreeOp::Plus | TreeOp::Not => outside(),
        TreeOp::Flip | TreeOp::Deref | TreeOp::Address => outside(),
        TreeOp::Set | TreeOp::PostInc | TreeOp::PostDec => outside(),
    }
}

/// A value of a type that is cast to another.
pub fn cast(t: &CType, u: &CType, e: Boxed<ExprTree>) -> ExprTree
    ensures { expr_of result ≡ cast t.now u.now (expr_of e) }
{
    if is_pointer(t) && !same_element(t, u) {
        ExprTree::Bare(e)
    } else {
        converted(t, e)
    }
}

fn shift(structs: &Structs, t: &CType, u: &CType, at: Pos, back: bool) -> Shift
    ensures { result ≡ shift structs.now t.now u.now at back }
{
    Shift {
        checked: is_checked(t),
        at,
        size: size_behind(structs, t),
        index: integer_of(u),
        back,
    }
}

/// The difference of two pointers.
fn distance(
    alloc: Global,
    structs: &Structs,
    t: &CType,
    at: Pos,
    e: Boxed<ExprTree>,
    f: Boxed<ExprTree>,
) -> Result<ExprTree, AllocError>
    ensures { IfOk result (λ d. expr_of d ≡ distance structs.now t.now at (expr_of e) (expr_of f)) }
{
    let size = Boxed::new(alloc, ExprTree::Number(size_behind(structs, t)))?;
    let bytes = Boxed::new(alloc, ExprTree::Binary(Operation::Sub, true, at, e, f))?;
    Ok(ExprTree::Binary(Operation::Div, true, at, bytes, size))
}

fn sum_of(
    structs: &Structs,
    t: &CType,
    u: &CType,
    at: Pos,
    e: Boxed<ExprTree>,
    f: Boxed<ExprTree>,
) -> ExprTree
    ensures { expr_of result
        ≡ of_operands structs.now TreeOp.Add t.now u.now at (expr_of e) (expr_of f) }
{
    if is_pointer(t) {
        ExprTree::Moved(shift(structs, t, u, at, false), e, f)
    } else if is_pointer(u) {
        ExprTree::Added(shift(structs, u, t, at, false), e, f)
    } else {
        binary(TreeOp::Add, is_signed_at(TreeOp::Add, t, u), at, e, f)
    }
}

fn difference_of(
    alloc: Global,
    structs: &Structs,
    t: &CType,
    u: &CType,
    at: Pos,
    e: Boxed<ExprTree>,
    f: Boxed<ExprTree>,
) -> Result<ExprTree, AllocError>
    ensures { IfOk result
        (λ d. expr_of d ≡ of_operands structs.now TreeOp.Sub t.now u.now at (expr_of e)
        (expr_of f)) }
{
    if is_pointer(t) {
        if is_pointer(u) {
            distance(alloc, structs, t, at, e, f)
        } else {
            Ok(ExprTree::Moved(shift(structs, t, u, at, true), e, f))
        }
    } else {
        Ok(binary(TreeOp::Sub, is_signed_at(TreeOp::Sub, t, u), at, e, f))
    }
}

/// A binary operator with operands of two types.
pub fn of_operands(
    alloc: Global,
    structs: &Structs,
    op: TreeOp,
    t: &CType,
    u: &CType,
    at: Pos,
    e: Boxed<ExprTree>,
    f: Boxed<ExprTree>,
) -> Result<ExprTree, AllocError>
    ensures { IfOk result
        (λ d. expr_of d ≡ of_operands structs.now op t.now u.now at (expr_of e) (expr_of f)) }
{
    match op {
        TreeOp::Add => Ok(sum_of(structs, t, u, at, e, f)),
        TreeOp::Sub => difference_of(alloc, structs, t, u, at, e, f),
        _ => Ok(binary(op, is_signed_at(op, t, u), at, e, f)),
    }
}

/// So many bytes as elements.
pub fn elements_in(
    alloc: Global,
    size: u32,
    t: &CType,
    at: Pos,
    e: Boxed<ExprTree>,
) -> Result<Boxed<ExprTree>, AllocError>
    ensures { IfOk result (λ d. expr_of d ≡ elements_in size t.now at (expr_of e)) }
{
    if size == 1 {
        Ok(e)
    } else {
        let size = Boxed::new(alloc, ExprTree::Number(size))?;
        Boxed::new(
            alloc,
            ExprTree::Binary(Operation::Div, is_signed(t), at, e, size),
        )
    }
}
