//! Ranges that are values, and the tests of bounds casts.

ghost use Rattle.std.specs.Prelude.{◌≡◌, ◌+◌, true, IfOk};
ghost use Rattle.ckc_core.specs.Code.{Expr, expr_of};
ghost use Rattle.ckc_source.specs.Code.{expr_of as source_of};
ghost use Rattle.ckc_source.specs.Words.{width_of};
ghost use Rattle.ckc_base.specs.declared.arithmetic.BinOp.TheVariants.{Or, Eq};
ghost use Rattle.ckc_checks_operands.specs.code.Operands.{keeps_index, held};
ghost use Rattle.ckc_checks_operands.specs.code.Pointers.{length_at, bytes_left, bytes_fit, elements_fit, cast_test};

use crate::exprs::{at_offset, scaled};
use crate::ranges::{from_low, held, held_test, keeps_index};
use ckc_base::{BinOp, Boxed, Width, sum};
use ckc_checks_guards::{below_or_at, binary};
use ckc_core::CoreExpr;
use ckc_source::{Count, ExprTree, Integer};
use std::alloc::{AllocError, Global};

/// How many bytes a word of a type has in memory.
fn width_of(form: Integer) -> Width
    ensures { result ≡ width_of form }
{
    match form {
        Integer::Int | Integer::Unsigned => Width::Word,
        Integer::Char => Width::Byte,
    }
}

/// How many bytes so many elements have that a member says, of the structure whose begin is in the temporary u.
pub fn length_at(alloc: Global, size: u32, count: Count, u: u32) -> Result<CoreExpr, AllocError>
    ensures { IfOk result (λ c. expr_of c ≡ length_at size count u) }
{
    match count {
        Count::Fixed(n) => Ok(CoreExpr::Const(size.wrapping_mul(n.cast_unsigned()))),
        Count::Member(offset, form, add) => {
            let member = at_offset(alloc, offset, CoreExpr::Local(u))?;
            let member = CoreExpr::Load(width_of(form), Boxed::new(alloc, member)?);
            let elements = at_offset(alloc, add.cast_unsigned(), member)?;
            scaled(alloc, size, elements)
        }
    }
}

/// How many bytes of its range lie after the pointer in t.
fn bytes_left(alloc: Global, t: u32) -> Result<CoreExpr, AllocError>
    ensures { IfOk result (λ c. expr_of c ≡ bytes_left t) }
{
    let low = sum(t, 1)?;
    let length = sum(t, 2)?;
    let from = from_low(alloc, t, low)?;
    binary(alloc, BinOp::Sub, CoreExpr::Local(length), from)
}

/// Whether so many bytes lie after the pointer in t in its range, with their count in the temporary `next`.
fn bytes_fit(
    alloc: Global,
    form: Integer,
    k: &ExprTree,
    t: u32,
    next: u32,
) -> Result<CoreExpr, AllocError>
    ensures { IfOk result (λ c. expr_of c ≡ bytes_fit form
        (held (keeps_index true (source_of k.now)) (source_of k.now) next) t) }
{
    let count = held(alloc, keeps_index(true, k), k, next)?;
    let left = bytes_left(alloc, t)?;
    let within = below_or_at(alloc, count, left)?;
    match form {
        Integer::Int => {
            let count = held(alloc, keeps_index(true, k), k, next)?;
            let natural = binary(alloc, BinOp::LtU, count, CoreExpr::Const(0x8000_0000))?;
            binary(alloc, BinOp::And, natural, within)
        }
        Integer::Unsigned | Integer::Char => Ok(within),
    }
}

/// Whether so many elements of a size lie there. A negative count of them needs no test if an element has two bytes or
/// more: as a word it is 2^31 at least, and so many elements lie in no range.
fn elements_fit(
    alloc: Global,
    size: u32,
    form: Integer,
    k: &ExprTree,
    t: u32,
    next: u32,
) -> Result<CoreExpr, AllocError>
    ensures { IfOk result (λ c. expr_of c ≡ elements_fit size form
        (held (keeps_index true (source_of k.now)) (source_of k.now) next) t) }
{
    if size == 1 {
        return bytes_fit(alloc, form, k, t, next);
    }
    let count = held(alloc, keeps_index(true, k), k, next)?;
    let left = bytes_left(alloc, t)?;
    let most = binary(alloc, BinOp::DivU, left, CoreExpr::Const(size))?;
    below_or_at(alloc, count, most)
}

/// Whether the bounds of a cast lie in the range of the pointer in t, with the count in the temporary `next`.
fn cast_test(
    alloc: Global,
    size: u32,
    form: Integer,
    k: &ExprTree,
    t: u32,
    next: u32,
) -> Result<CoreExpr, AllocError>
    ensures { IfOk result (λ c. expr_of c ≡ cast_test size form
        (held (keeps_index true (source_of k.now)) (source_of k.now) next) t) }
{
    let fits = elements_fit(alloc, size, form, k, t, next)?;
    let within = held_test(alloc, true, t)?;
    binary(alloc, BinOp::And, within, fits)
}

/// Whether a bounds cast of the pointer in t passes: null does.
pub fn cast_passes(
    alloc: Global,
    size: u32,
    form: Integer,
    k: &ExprTree,
    t: u32,
    next: u32,
) -> Result<CoreExpr, AllocError>
    ensures { IfOk result (λ c. expr_of c ≡ Expr.Bin Or
        (Expr.Bin Eq (Expr.Local t) (Expr.Const 0))
        (cast_test size form
        (held (keeps_index true (source_of k.now)) (source_of k.now) next) t)) }
{
    let null = binary(alloc, BinOp::Eq, CoreExpr::Local(t), CoreExpr::Const(0))?;
    let within = cast_test(alloc, size, form, k, t, next)?;
    binary(alloc, BinOp::Or, null, within)
}
