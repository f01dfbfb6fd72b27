//! Expressions of core code that guards are made of.

ghost use Rattle.std.specs.Prelude.{◌≡◌, IfOk};
ghost use Rattle.ckc_core.specs.Code.{Expr, expr_of};
ghost use Rattle.ckc_checks_guards.specs.code.Guards.{kept_in, low_byte};

use ckc_base::{BinOp, Boxed, Width};
use ckc_core::CoreExpr;
use std::alloc::{AllocError, Global};

/// An operation on two words.
pub fn binary(alloc: Global, op: BinOp, a: CoreExpr, b: CoreExpr) -> Result<CoreExpr, AllocError>
    ensures { IfOk result (λ c. expr_of c ≡ Expr.Bin op (expr_of a) (expr_of b)) }
{
    let a = Boxed::new(alloc, a)?;
    let b = Boxed::new(alloc, b)?;
    Ok(CoreExpr::Bin(op, a, b))
}

/// The lowest byte of a value.
pub fn low_byte(alloc: Global, e: CoreExpr) -> Result<CoreExpr, AllocError>
    ensures { IfOk result (λ c. expr_of c ≡ low_byte (expr_of e)) }
{
    binary(alloc, BinOp::And, e, CoreExpr::Const(255))
}

/// A value as it is kept in a local or a place of the width, by whether it is a byte already.
pub fn kept_in(
    alloc: Global,
    width: Width,
    is_byte: bool,
    e: CoreExpr,
) -> Result<CoreExpr, AllocError>
    ensures { IfOk result (λ c. expr_of c ≡ kept_in width is_byte (expr_of e)) }
{
    match width {
        Width::Byte => { if is_byte { Ok(e) } else { low_byte(alloc, e) } }
        Width::Word => Ok(e),
    }
}
