//! Expressions of core code.

ghost use Rattle.std.specs.Prelude.{◌≡◌, ◌+◌, max, IfOk, if◌then◌else◌};
ghost use Rattle.ckc_core.specs.Code.{Expr, expr_of};
ghost use Rattle.ckc_source.specs.Code.{expr_of as source_of};
ghost use Rattle.ckc_base.specs.declared.arithmetic.Width.TheVariants.{Word};
ghost use Rattle.ckc_checks_operands.specs.code.Operands.{is_unchecked, is_direct, operated, low_byte, as_truth, is_zero, scaled, shifted, at_offset, element_of, place_at, direct, operand};

use crate::casts::casts_one;
use ckc_base::{BinOp, Boxed, Width};
use ckc_checks_guards::{binary, low_byte};
use ckc_core::CoreExpr;
use ckc_source::operators::{chosen, divides, operator};
use ckc_source::{Access, ExprTree, Operation, Through};
use std::alloc::{AllocError, Global};

/// Whether an access has no checks.
fn is_unchecked(through: Through) -> bool
    ensures { result ≡ is_unchecked through }
{
    match through {
        Through::Named | Through::Raw => true,
        Through::One | Through::Array | Through::Terminated => false,
    }
}

/// Whether one expression of core code gives the value: no division, no remainder, no branch and no check stands in it.
pub fn is_direct(e: &ExprTree) -> bool
    ensures { result ≡ is_direct (source_of e.now) }
{
    match e {
        ExprTree::Binary(operation, _, _, a, b) => {
            !divides(*operation) && is_direct(a.get()) && is_direct(b.get())
        }
        ExprTree::And(_, _) | ExprTree::Or(_, _) | ExprTree::Choice(_, _, _) => false,
        ExprTree::Load(_, access, p, i)
        | ExprTree::Member(_, _, access, p, i)
        | ExprTree::Address(_, access, p, i) => {
            is_unchecked(access.through) && (is_direct(p.get()) && is_direct(i.get()))
        }
        ExprTree::Moved(shift, a, b) | ExprTree::Added(shift, a, b) => {
            !shift.checked && (is_direct(a.get()) && is_direct(b.get()))
        }
        ExprTree::Trusted(_, _, a, b) => is_direct(a.get()) && is_direct(b.get()),
        ExprTree::Tested(size, _, _, p, k) => {
            casts_one(*size, p.get(), k.get()) && is_direct(p.get())
        }
        ExprTree::Narrow(e) | ExprTree::Bare(e) => is_direct(e.get()),
        ExprTree::Number(_)
        | ExprTree::Local(_)
        | ExprTree::Limited(_, _)
        | ExprTree::Array(_, _) => true,
    }
}

/// An operation of the source: a > b is b < a, and a <= b holds if a > b does not.
pub fn operated(
    alloc: Global,
    operation: Operation,
    is_signed: bool,
    a: CoreExpr,
    b: CoreExpr,
) -> Result<CoreExpr, AllocError>
    ensures { IfOk result (λ c. expr_of c ≡ operated operation is_signed (expr_of a) (expr_of b)) }
{
    let op = operator(operation, is_signed);
    match operation {
        Operation::Le => {
            let over = binary(alloc, op, b, a)?;
            binary(alloc, BinOp::Eq, over, CoreExpr::Const(0))
        }
        Operation::Gt => binary(alloc, op, b, a),
        Operation::Ge => {
            let under = binary(alloc, op, a, b)?;
            binary(alloc, BinOp::Eq, under, CoreExpr::Const(0))
        }
        _ => binary(alloc, op, a, b),
    }
}

/// 1 if a value is not zero, and else 0.
pub fn as_truth(alloc: Global, e: CoreExpr) -> Result<CoreExpr, AllocError>
    ensures { IfOk result (λ c. expr_of c ≡ as_truth (expr_of e)) }
{
    binary(alloc, BinOp::Ne, e, CoreExpr::Const(0))
}

/// Whether an expression is the constant zero.
pub fn is_zero(e: &CoreExpr) -> bool
    ensures { result ≡ is_zero (expr_of e.now) }
{
    match e {
        CoreExpr::Const(n) => *n == 0,
        CoreExpr::Local(_)
        | CoreExpr::Load(_, _)
        | CoreExpr::Bin(_, _, _)
        | CoreExpr::High(_, _, _) => false,
    }
}

/// An operation with a constant on the right, which is left out if the flag says so.
fn with_constant(
    alloc: Global,
    none: bool,
    op: BinOp,
    e: CoreExpr,
    n: u32,
) -> Result<CoreExpr, AllocError>
    ensures { IfOk result (λ c. expr_of c ≡
        (if none then expr_of e else Expr.Bin op (expr_of e) (Expr.Const n))) }
{
    if none {
        Ok(e)
    } else {
        binary(alloc, op, e, CoreExpr::Const(n))
    }
}

/// So many elements of a size.
pub fn scaled(alloc: Global, size: u32, e: CoreExpr) -> Result<CoreExpr, AllocError>
    ensures { IfOk result (λ c. expr_of c ≡ scaled size (expr_of e)) }
{
    match e {
        CoreExpr::Const(n) => Ok(CoreExpr::Const(size.wrapping_mul(n))),
        CoreExpr::Local(_)
        | CoreExpr::Load(_, _)
        | CoreExpr::Bin(_, _, _)
        | CoreExpr::High(_, _, _) => {
            if size == 1 {
                Ok(e)
            } else {
                binary(alloc, BinOp::Mul, CoreExpr::Const(size), e)
            }
        }
    }
}

/// An address so many elements of a size further on, or back.
pub fn shifted(
    alloc: Global,
    back: bool,
    size: u32,
    a: CoreExpr,
    i: CoreExpr,
) -> Result<CoreExpr, AllocError>
    ensures { IfOk result (λ c. expr_of c ≡ shifted back size (expr_of a) (expr_of i)) }
{
    if is_zero(&i) {
        return Ok(a);
    }
    let bytes = scaled(alloc, size, i)?;
    binary(alloc, chosen(back, BinOp::Sub, BinOp::Add), a, bytes)
}

/// An address so many bytes further on.
pub fn at_offset(alloc: Global, offset: u32, e: CoreExpr) -> Result<CoreExpr, AllocError>
    ensures { IfOk result (λ c. expr_of c ≡ at_offset offset (expr_of e)) }
{
    match e {
        CoreExpr::Const(n) => Ok(CoreExpr::Const(n.wrapping_add(offset))),
        CoreExpr::Local(_)
        | CoreExpr::Load(_, _)
        | CoreExpr::Bin(_, _, _)
        | CoreExpr::High(_, _, _) => with_constant(alloc, offset == 0, BinOp::Add, e, offset),
    }
}

/// The element that an access goes to, through a pointer at an index.
pub fn element_of(
    alloc: Global,
    through: Through,
    size: u32,
    a: CoreExpr,
    i: CoreExpr,
) -> Result<CoreExpr, AllocError>
    ensures { IfOk result (λ c. expr_of c ≡ element_of through size (expr_of a) (expr_of i)) }
{
    match through {
        Through::Raw => shifted(alloc, false, size, a, i),
        Through::Named | Through::One | Through::Array | Through::Terminated => Ok(a),
    }
}

/// The place that an access goes to, through a pointer at an index.
pub fn place_at(
    alloc: Global,
    access: Access,
    a: CoreExpr,
    i: CoreExpr,
) -> Result<CoreExpr, AllocError>
    ensures { IfOk result (λ c. expr_of c ≡ place_at access (expr_of a) (expr_of i)) }
{
    let element = element_of(alloc, access.through, access.size, a, i)?;
    at_offset(alloc, access.offset, element)
}

/// What memory has where an access goes to.
fn load(
    alloc: Global,
    width: Width,
    access: Access,
    a: CoreExpr,
    i: CoreExpr,
) -> Result<CoreExpr, AllocError>
    ensures { IfOk result (λ c. expr_of c ≡
        Expr.Load width (place_at access (expr_of a) (expr_of i))) }
{
    let place = place_at(alloc, access, a, i)?;
    let place = Boxed::new(alloc, place)?;
    Ok(CoreExpr::Load(width, place))
}

/// The expression of core code for a direct expression.
pub fn direct(alloc: Global, e: &ExprTree) -> Result<CoreExpr, AllocError>
    ensures { IfOk result (λ c. expr_of c ≡ direct (source_of e.now)) }
{
    match e {
        ExprTree::Number(n) | ExprTree::Array(n, _) => Ok(CoreExpr::Const(*n)),
        ExprTree::Local(x) | ExprTree::Limited(x, _) => Ok(CoreExpr::Local(*x)),
        ExprTree::Load(width, access, p, i) => {
            let a = direct(alloc, p.get())?;
            let i = direct(alloc, i.get())?;
            load(alloc, *width, *access, a, i)
        }
        ExprTree::Member(_, _, access, p, i) => {
            let a = direct(alloc, p.get())?;
            let i = direct(alloc, i.get())?;
            load(alloc, Width::Word, *access, a, i)
        }
        ExprTree::Address(_, access, p, i) => {
            let a = direct(alloc, p.get())?;
            let i = direct(alloc, i.get())?;
            place_at(alloc, *access, a, i)
        }
        ExprTree::Moved(shift, p, i) | ExprTree::Added(shift, i, p) => {
            let a = direct(alloc, p.get())?;
            let i = direct(alloc, i.get())?;
            shifted(alloc, shift.back, shift.size, a, i)
        }
        ExprTree::Binary(operation, is_signed, _, a, b) => {
            let a = direct(alloc, a.get())?;
            let b = direct(alloc, b.get())?;
            operated(alloc, *operation, *is_signed, a, b)
        }
        ExprTree::Narrow(e) => {
            let e = direct(alloc, e.get())?;
            low_byte(alloc, e)
        }
        ExprTree::Bare(p) | ExprTree::Tested(_, _, _, p, _) | ExprTree::Trusted(_, _, p, _) => {
            direct(alloc, p.get())
        }
        ExprTree::And(_, _) | ExprTree::Or(_, _) | ExprTree::Choice(_, _, _) => {
            Ok(CoreExpr::Const(0))
        }
    }
}

/// Where the value of an expression is: where it stands, or in the temporary t.
pub fn operand(alloc: Global, e: &ExprTree, t: u32) -> Result<CoreExpr, AllocError>
    ensures { IfOk result (λ c. expr_of c ≡ operand (source_of e.now) t) }
{
    if is_direct(e) {
        direct(alloc, e)
    } else {
        Ok(CoreExpr::Local(t))
    }
}
