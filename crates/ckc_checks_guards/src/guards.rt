//! The guards.

ghost use Rattle.std.specs.Prelude.{◌≡◌, IfOk};
ghost use Rattle.ckc_base.specs.declared.arithmetic.BinOp.TheVariants.{Add, Eq};
ghost use Rattle.ckc_base.specs.declared.runtime_checks.Check.TheVariants.{Null};
ghost use Rattle.ckc_core.specs.Code.{Code, Expr, expr_of, stmt_of};
ghost use Rattle.ckc_checks_guards.specs.code.Guards.{below_or_at, may_write, upper_test};

use crate::parts::{binary, kept_in};
use ckc_base::{BinOp, Check, Pos, Width, sum};
use ckc_core::{CoreExpr, CoreStmt};
use std::alloc::{AllocError, Global};

/// The check of a pointer that an access goes through: null stops (Checked C specification 0.9, section 3, on dynamic
/// checks).
pub fn null_check(at: Pos, pointer: CoreExpr) -> CoreStmt
    ensures { stmt_of result ≡ Code.Check Null at (expr_of pointer) }
{
    CoreStmt::Check(Check::Null, at, pointer)
}

/// Whether an address is at most another one.
pub fn below_or_at(alloc: Global, a: CoreExpr, b: CoreExpr) -> Result<CoreExpr, AllocError>
    ensures { IfOk result (λ c. expr_of c ≡ below_or_at (expr_of a) (expr_of b)) }
{
    let above = binary(alloc, BinOp::LtU, b, a)?;
    binary(alloc, BinOp::Eq, above, CoreExpr::Const(0))
}

/// Whether an address is below an upper bound, or at it if that counts too.
pub fn upper_test(
    alloc: Global,
    last: bool,
    a: CoreExpr,
    high: CoreExpr,
) -> Result<CoreExpr, AllocError>
    ensures { IfOk result (λ c. expr_of c ≡ upper_test last (expr_of a) (expr_of high)) }
{
    if last {
        below_or_at(alloc, a, high)
    } else {
        binary(alloc, BinOp::LtU, a, high)
    }
}

/// Whether the upper word of a product and a carry or borrow cancel.
pub fn cancels(alloc: Global, high: CoreExpr, over: CoreExpr) -> Result<CoreExpr, AllocError>
    ensures { IfOk result (λ c. expr_of c ≡
        Expr.Bin Eq (Expr.Bin Add (expr_of high) (expr_of over)) (Expr.Const 0)) }
{
    let upper = binary(alloc, BinOp::Add, high, over)?;
    binary(alloc, BinOp::Eq, upper, CoreExpr::Const(0))
}

/// Whether the value in the temporary u may be written to an element of a null-terminated array, where t + 1 says whether
/// the element is below the upper bound of its pointer: at the bound zero alone may be written.
pub fn may_write(
    alloc: Global,
    width: Width,
    is_byte: bool,
    t: u32,
    u: u32,
) -> Result<CoreExpr, AllocError>
    ensures { IfOk result (λ c. expr_of c ≡ may_write width is_byte t u) }
{
    let value = kept_in(alloc, width, is_byte, CoreExpr::Local(u))?;
    let zero = binary(alloc, BinOp::Eq, value, CoreExpr::Const(0))?;
    let below = CoreExpr::Local(sum(t, 1)?);
    binary(alloc, BinOp::Or, below, zero)
}
