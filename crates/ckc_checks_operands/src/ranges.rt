//! The tests of accesses through checked pointers to arrays, and of their arithmetic.

ghost use Rattle.std.specs.Prelude.{◌≡◌, true, IfOk, if◌then◌else◌};
ghost use Rattle.ckc_core.specs.Code.{Expr, expr_of};
ghost use Rattle.ckc_source.specs.Code.{expr_of as source_of};
ghost use Rattle.ckc_base.specs.declared.arithmetic.BinOp.TheVariants.{LtU, Sub};
ghost use Rattle.ckc_base.specs.declared.arithmetic.Width.TheVariants.{Word};
ghost use Rattle.ckc_checks_operands.specs.Cases.{is_named, is_bounded, is_static, is_fixed, is_ranged, takes_range};
ghost use Rattle.ckc_checks_operands.specs.code.Operands.{keeps_index, held, shifted};
ghost use Rattle.ckc_checks_operands.specs.code.Pointers.{below_end, reads_signed, exact_test, base_at, amount_at, end_at, static_place, counted_end, range_end, range_test, index_far, index_in, held_test, bounds_test, are_counted, is_whole, is_counted, count_of, is_array};

use crate::casts::{is_fixed_end, is_own};
use crate::exprs::{at_offset, operand, shifted};
use crate::numbers::{is_number, number};
use ckc_base::{BinOp, Boxed, Width, sum};
use ckc_checks_guards::{below_or_at, binary, cancels, upper_test};
use ckc_core::CoreExpr;
use ckc_source::{Access, Base, Count, End, ExprTree, Integer, Limits, Through, Variable};
use std::alloc::{AllocError, Global};

/// Whether an access is judged by the range of its pointer.
pub fn is_bounded(through: Through) -> bool
    ensures { result ≡ is_bounded through }
{
    match through {
        Through::Array | Through::Terminated => true,
        Through::Named | Through::Raw | Through::One => false,
    }
}

fn is_named(through: Through) -> bool
    ensures { result ≡ is_named through }
{
    match through {
        Through::Named => true,
        Through::Raw | Through::One | Through::Array | Through::Terminated => false,
    }
}

/// Whether an access goes to a static object.
#[tactic(auto, using(crate::proofs::Numeric::static_by))]
fn is_static(access: Access, p: &ExprTree) -> bool
    ensures { result ≡ is_static access (source_of p.now) }
{
    is_number(p) && is_named(access.through)
}

fn is_fixed(count: Count) -> bool
    ensures { result ≡ is_fixed count }
{
    match count {
        Count::Fixed(_) => true,
        Count::Member(_, _, _) => false,
    }
}

/// Whether the range of a pointer is computed where it is tested.
pub fn is_ranged(p: &ExprTree) -> bool
    ensures { result ≡ is_ranged (source_of p.now) }
{
    match p {
        ExprTree::Limited(_, _) | ExprTree::Array(_, _) => true,
        ExprTree::Member(_, count, access, p, _) => is_static(*access, p.get()) && is_fixed(*count),
        ExprTree::Address(_, access, p, _) => is_static(*access, p.get()),
        ExprTree::Moved(shift, p, _) | ExprTree::Added(shift, _, p) => {
            shift.checked && is_ranged(p.get())
        }
        ExprTree::Number(_)
        | ExprTree::Local(_)
        | ExprTree::Load(_, _, _, _)
        | ExprTree::Binary(_, _, _, _, _)
        | ExprTree::And(_, _)
        | ExprTree::Or(_, _)
        | ExprTree::Choice(_, _, _)
        | ExprTree::Narrow(_)
        | ExprTree::Bare(_)
        | ExprTree::Tested(_, _, _, _, _)
        | ExprTree::Trusted(_, _, _, _) => false,
    }
}

/// Whether the range of the pointer of an access goes to temporaries.
pub fn takes_range(through: Through, p: &ExprTree) -> bool
    ensures { result ≡ takes_range through (source_of p.now) }
{
    is_bounded(through) && !is_ranged(p)
}

/// How far after its pointer an index is.
pub fn index_far(ranged: bool) -> u32
    ensures { result ≡ index_far ranged }
{
    match ranged {
        true => 3,
        false => 1,
    }
}

/// The temporary that the index of an access may go to, of which the pointer is in t.
pub fn index_in(access: Access, p: &ExprTree, t: u32) -> Result<u32, AllocError>
    ensures { IfOk result (λ n. n ≡ index_in access (source_of p.now) t) }
{
    sum(t, index_far(takes_range(access.through, p)))
}

/// Whether an index goes to a temporary although it may stand where it is.
pub fn keeps_index(checked: bool, i: &ExprTree) -> bool
    ensures { result ≡ keeps_index checked (source_of i.now) }
{
    checked && !is_number(i)
}

/// Where the value of an operand is, which is always in the temporary t if the flag says so.
pub fn held(alloc: Global, always: bool, e: &ExprTree, t: u32) -> Result<CoreExpr, AllocError>
    ensures { IfOk result (λ c. expr_of c ≡ held always (source_of e.now) t) }
{
    if always {
        Ok(CoreExpr::Local(t))
    } else {
        operand(alloc, e, t)
    }
}

/// Whether the words of a type are read as signed.
pub fn reads_signed(form: Integer) -> bool
    ensures { result ≡ reads_signed form }
{
    match form {
        Integer::Int => true,
        Integer::Unsigned | Integer::Char => false,
    }
}

/// The upper word of a product.
fn high_word(
    alloc: Global,
    is_signed: bool,
    a: CoreExpr,
    b: CoreExpr,
) -> Result<CoreExpr, AllocError>
    ensures { IfOk result (λ c. expr_of c ≡ Expr.High is_signed (expr_of a) (expr_of b)) }
{
    let a = Boxed::new(alloc, a)?;
    let b = Boxed::new(alloc, b)?;
    Ok(CoreExpr::High(is_signed, a, b))
}

/// Whether the address in a temporary is carried over, or borrows, if an index is added or subtracted.
fn carry(
    alloc: Global,
    back: bool,
    size: u32,
    t: u32,
    i: &ExprTree,
    next: u32,
) -> Result<CoreExpr, AllocError>
    ensures { IfOk result (λ c. expr_of c ≡ (if back
        then Expr.Bin LtU (Expr.Local t) (shifted back size (Expr.Local t)
        (held (keeps_index true (source_of i.now)) (source_of i.now) next))
        else Expr.Bin LtU (shifted back size (Expr.Local t)
        (held (keeps_index true (source_of i.now)) (source_of i.now) next)) (Expr.Local t))) }
{
    let index = held(alloc, keeps_index(true, i), i, next)?;
    let there = shifted(alloc, back, size, CoreExpr::Local(t), index)?;
    if back {
        binary(alloc, BinOp::LtU, CoreExpr::Local(t), there)
    } else {
        binary(alloc, BinOp::LtU, there, CoreExpr::Local(t))
    }
}

/// Whether the address in a temporary, moved by an index, is an address.
pub fn exact_test(
    alloc: Global,
    back: bool,
    is_signed: bool,
    size: u32,
    t: u32,
    i: &ExprTree,
    next: u32,
) -> Result<CoreExpr, AllocError>
    ensures { IfOk result (λ c. expr_of c ≡ exact_test back is_signed size (Expr.Local t)
        (held (keeps_index true (source_of i.now)) (source_of i.now) next)) }
{
    let index = held(alloc, keeps_index(true, i), i, next)?;
    let high = high_word(alloc, is_signed, CoreExpr::Const(size), index)?;
    let over = carry(alloc, back, size, t, i, next)?;
    cancels(alloc, high, over)
}

/// The base of an end of the limits of a local.
fn base_at(x: u32, base: Base) -> CoreExpr
    ensures { expr_of result ≡ base_at x base }
{
    match base {
        Base::Own => CoreExpr::Local(x),
        Base::Local(y) => CoreExpr::Local(y),
        Base::Fixed(a) => CoreExpr::Const(a),
    }
}

/// An amount of limits.
fn amount_at(alloc: Global, variable: Option<Variable>, add: i32) -> Result<CoreExpr, AllocError>
    ensures { IfOk result (λ c. expr_of c ≡ amount_at variable add) }
{
    match variable {
        None => Ok(CoreExpr::Const(add.cast_unsigned())),
        Some(v) => at_offset(alloc, add.cast_unsigned(), CoreExpr::Local(v.local)),
    }
}

/// An end of the limits of a local.
pub fn end_at(alloc: Global, x: u32, size: u32, e: End) -> Result<CoreExpr, AllocError>
    ensures { IfOk result (λ c. expr_of c ≡ end_at x size e) }
{
    let count = amount_at(alloc, e.variable, e.add)?;
    shifted(alloc, false, size, base_at(x, e.base), count)
}

/// The place of an access to a static object.
#[tactic(auto, using(crate::proofs::Numeric::static_place_some, crate::proofs::Numeric::static_place_none))]
pub fn static_place(access: Access, p: &ExprTree) -> u32
    ensures { result ≡ static_place access (source_of p.now) }
{
    match number(p) {
        Some(a) => a.wrapping_add(access.offset),
        None => 0,
    }
}

/// An end of the range of a static pointer, which is read from its place.
fn counted_end(
    alloc: Global,
    upper: bool,
    size: u32,
    count: Count,
    place: u32,
) -> Result<CoreExpr, AllocError>
    ensures { IfOk result (λ c. expr_of c ≡
        counted_end upper size count (Expr.Load Word (Expr.Const place))) }
{
    match count {
        Count::Fixed(n) => {
            let at = Boxed::new(alloc, CoreExpr::Const(place))?;
            let pointer = CoreExpr::Load(Width::Word, at);
            if upper {
                shifted(
                    alloc,
                    false,
                    size,
                    pointer,
                    CoreExpr::Const(n.cast_unsigned()),
                )
            } else {
                Ok(pointer)
            }
        }
        Count::Member(_, _, _) => Ok(CoreExpr::Const(0)),
    }
}

/// An end of the range of a pointer, the upper one if the flag says so.
fn range_end(alloc: Global, upper: bool, p: &ExprTree) -> Result<CoreExpr, AllocError>
    ensures { IfOk result (λ c. expr_of c ≡ range_end upper (source_of p.now)) }
{
    match p {
        ExprTree::Limited(x, limits) => {
            let l = limits.get();
            let e = if upper { l.upper } else { l.lower };
            end_at(alloc, *x, l.to.size, e)
        }
        ExprTree::Array(at, bytes) => {
            if upper {
                let end = sum(*at, *bytes)?;
                Ok(CoreExpr::Const(end))
            } else {
                Ok(CoreExpr::Const(*at))
            }
        }
        ExprTree::Member(to, count, access, p, _) => {
            let place = static_place(*access, p.get());
            counted_end(alloc, upper, to.get().size, *count, place)
        }
        ExprTree::Address(bytes, access, p, _) => {
            let place = static_place(*access, p.get());
            if upper {
                let end = sum(place, *bytes)?;
                Ok(CoreExpr::Const(end))
            } else {
                Ok(CoreExpr::Const(place))
            }
        }
        ExprTree::Moved(_, p, _) | ExprTree::Added(_, _, p) => range_end(alloc, upper, p.get()),
        ExprTree::Number(_)
        | ExprTree::Local(_)
        | ExprTree::Load(_, _, _, _)
        | ExprTree::Binary(_, _, _, _, _)
        | ExprTree::And(_, _)
        | ExprTree::Or(_, _)
        | ExprTree::Choice(_, _, _)
        | ExprTree::Narrow(_)
        | ExprTree::Bare(_)
        | ExprTree::Tested(_, _, _, _, _)
        | ExprTree::Trusted(_, _, _, _) => Ok(CoreExpr::Const(0)),
    }
}

/// Whether the address in a temporary lies in the range of a pointer.
fn range_test(alloc: Global, last: bool, p: &ExprTree, t: u32) -> Result<CoreExpr, AllocError>
    ensures { IfOk result (λ c. expr_of c ≡ range_test last (source_of p.now) (Expr.Local t)) }
{
    let low = range_end(alloc, false, p)?;
    let above = below_or_at(alloc, low, CoreExpr::Local(t))?;
    let high = range_end(alloc, true, p)?;
    let below = upper_test(alloc, last, CoreExpr::Local(t), high)?;
    binary(alloc, BinOp::And, above, below)
}

/// How far the address in a temporary is after a lower bound in another one.
pub fn from_low(alloc: Global, t: u32, low: u32) -> Result<CoreExpr, AllocError>
    ensures { IfOk result (λ c. expr_of c ≡ Expr.Bin Sub (Expr.Local t) (Expr.Local low)) }
{
    binary(alloc, BinOp::Sub, CoreExpr::Local(t), CoreExpr::Local(low))
}

/// Whether the address in a temporary lies in the range in the two after it.
pub fn held_test(alloc: Global, last: bool, t: u32) -> Result<CoreExpr, AllocError>
    ensures { IfOk result (λ c. expr_of c ≡ held_test last t) }
{
    let low = sum(t, 1)?;
    let length = sum(t, 2)?;
    let above = below_or_at(alloc, CoreExpr::Local(low), CoreExpr::Local(t))?;
    let from = from_low(alloc, t, low)?;
    let below = upper_test(alloc, last, from, CoreExpr::Local(length))?;
    binary(alloc, BinOp::And, above, below)
}

/// Whether the address in a temporary lies in the range of a pointer.
pub fn bounds_test(alloc: Global, last: bool, p: &ExprTree, t: u32) -> Result<CoreExpr, AllocError>
    ensures { IfOk result (λ c. expr_of c ≡ bounds_test last (source_of p.now) t) }
{
    if is_ranged(p) {
        range_test(alloc, last, p, t)
    } else {
        held_test(alloc, last, t)
    }
}

/// Whether the element in a temporary is not at the upper bound of its pointer.
pub fn below_end(alloc: Global, p: &ExprTree, t: u32) -> Result<CoreExpr, AllocError>
    ensures { IfOk result (λ c. expr_of c ≡ below_end (source_of p.now) t) }
{
    if is_ranged(p) {
        let end = range_end(alloc, true, p)?;
        binary(alloc, BinOp::Ne, CoreExpr::Local(t), end)
    } else {
        let low = sum(t, 1)?;
        let length = sum(t, 2)?;
        let from = from_low(alloc, t, low)?;
        binary(alloc, BinOp::Ne, from, CoreExpr::Local(length))
    }
}

/// Whether limits go from the pointer itself to a count of elements of a size.
fn are_counted(size: u32, limits: &Limits) -> bool
    ensures { result ≡ are_counted size limits.now }
{
    limits.to.size == size && (is_fixed_end(limits.lower, 0) && is_own(limits.upper.base))
}

/// Whether an array that is not at address 0 has whole elements of a size, and ends below 2^31.
fn is_whole(size: u32, at: u32, bytes: u32) -> bool
    ensures { result ≡ is_whole size at bytes }
{
    if at == 0 || size == 0 {
        return false;
    }
    match at.checked_add(bytes) {
        Some(end) => bytes % size == 0 && end < 0x8000_0000,
        None => false,
    }
}

/// Whether the range of a pointer is a count of elements of a size behind the pointer itself.
pub fn is_counted(size: u32, p: &ExprTree) -> bool
    ensures { result ≡ is_counted size (source_of p.now) }
{
    match p {
        ExprTree::Limited(_, limits) => are_counted(size, limits.get()),
        ExprTree::Array(at, bytes) => is_whole(size, *at, *bytes),
        _ => false,
    }
}

/// How many elements the range of such a pointer has.
pub fn count_of(alloc: Global, size: u32, p: &ExprTree) -> Result<CoreExpr, AllocError>
    ensures { IfOk result (λ c. expr_of c ≡ count_of size (source_of p.now)) }
{
    match p {
        ExprTree::Limited(_, limits) => {
            let upper = limits.get().upper;
            amount_at(alloc, upper.variable, upper.add)
        }
        ExprTree::Array(_, bytes) => Ok(CoreExpr::Const(if size == 0 { 0 } else { *bytes / size })),
        _ => Ok(CoreExpr::Const(0)),
    }
}

/// Whether a pointer is a named array.
pub fn is_array(p: &ExprTree) -> bool
    ensures { result ≡ is_array (source_of p.now) }
{
    match p {
        ExprTree::Array(_, _) => true,
        _ => false,
    }
}
