//! The checks of accesses, and what puts them in front of code.

ghost use Rattle.std.specs.Prelude.{◌≡◌, true, IfOk, OnOk};
ghost use Rattle.ckc_core.specs.Code.{Expr, expr_of};
ghost use Rattle.ckc_source.specs.Code.{expr_of as source_of};
ghost use Rattle.ckc_checks_operands.specs.code.Operands.{held, keeps_index};
ghost use Rattle.ckc_checks_operands.specs.Cases.{is_bounded};
ghost use Rattle.ckc_checks_operands.specs.code.Pointers.{index_in, count_of};
ghost use Rattle.ckc_checks_follow.specs.code.Inserted.{element_code, bounded_code, outside_code, count_code, first_code, own_pointer, own_index, counted_code, unless_array, judged, pointer_at, index_at};
ghost use Rattle.ckc_checks.specs.code.Building.{behind};

use crate::code::{front, in_order, nothing};
use ckc_base::{BinOp, Check, Pos, Seq};
use ckc_checks_operands::{
    binary, bounds_test, count_of, exact_test, held, index_in, is_array, is_counted, is_zero,
    keeps_index, null_check, operand, reads_signed, shifted,
};
use ckc_core::{CoreExpr, CoreStmt};
use ckc_source::{Access, ExprTree, Through};
use std::alloc::{AllocError, Global};

/// Puts the step from a checked pointer in t to its element at an index in front.
fn step(
    alloc: Global,
    access: Access,
    i: &ExprTree,
    t: u32,
    next: u32,
    code: &mut Seq<CoreStmt>,
) -> Result<(), AllocError>
    ensures { OnOk result (behind code.new ≡ element_code access
        (held (keeps_index true (source_of i.now)) (source_of i.now) next) t (behind code.old)) }
{
    let index = held(alloc, keeps_index(true, i), i, next)?;
    if is_zero(&index) {
        return Ok(());
    }
    let there = shifted(alloc, false, access.size, CoreExpr::Local(t), index)?;
    front(code, CoreStmt::Set(t, there))?;
    let is_signed = reads_signed(access.index);
    let exact = exact_test(alloc, false, is_signed, access.size, t, i, next)?;
    front(code, CoreStmt::Check(Check::Arith, access.at, exact))
}

/// The local where a pointer that has a count stands, which is t unless it is a local itself.
fn own_pointer(p: &ExprTree, t: u32) -> u32
    ensures { result ≡ own_pointer (source_of p.now) t }
{
    match p {
        ExprTree::Limited(x, _) => *x,
        _ => t,
    }
}

/// The local where an index that is no number stands, which is `next` unless it is a local itself.
fn own_index(i: &ExprTree, next: u32) -> u32
    ensures { held (keeps_index true (source_of i.now)) (source_of i.now) result ≡
        own_index (source_of i.now)
        (held (keeps_index true (source_of i.now)) (source_of i.now) next) }
{
    match i {
        ExprTree::Local(x) => *x,
        _ => next,
    }
}

/// The stops of an access to an element that a count does not show.
fn outside(
    alloc: Global,
    access: Access,
    i: &ExprTree,
    a: u32,
    next: u32,
) -> Result<Seq<CoreStmt>, AllocError>
    ensures { IfOk result (λ code. behind code ≡ outside_code access
        (held (keeps_index true (source_of i.now)) (source_of i.now) next) a) }
{
    let mut code = nothing(alloc);
    front(
        &mut code,
        CoreStmt::Check(Check::Bounds, access.at, CoreExpr::Const(0)),
    )?;
    let is_signed = reads_signed(access.index);
    let exact = exact_test(alloc, false, is_signed, access.size, a, i, next)?;
    front(&mut code, CoreStmt::Check(Check::Arith, access.at, exact))?;
    Ok(code)
}

/// Puts a branch on whether an index is below a count, or at it if the flag says so, in front.
fn branch(
    alloc: Global,
    last: bool,
    index: CoreExpr,
    count: CoreExpr,
    outside: Seq<CoreStmt>,
    code: &mut Seq<CoreStmt>,
) -> Result<(), AllocError>
    ensures { OnOk result (behind code.new ≡
        count_code last (expr_of index) (expr_of count) (behind outside) (behind code.old)) }
{
    let none = nothing(alloc);
    if last {
        let above = binary(alloc, BinOp::LtU, count, index)?;
        front(code, CoreStmt::If(above, in_order(outside), in_order(none)))
    } else {
        let below = binary(alloc, BinOp::LtU, index, count)?;
        front(code, CoreStmt::If(below, in_order(none), in_order(outside)))
    }
}

/// Puts the step to an element behind a checked pointer in a in front, which is not null and has a count of elements.
fn step_within(
    alloc: Global,
    last: bool,
    access: Access,
    p: &ExprTree,
    i: &ExprTree,
    a: u32,
    t: u32,
    next: u32,
    code: &mut Seq<CoreStmt>,
) -> Result<(), AllocError>
    ensures { OnOk result (behind code.new ≡ counted_code last access
        (held (keeps_index true (source_of i.now)) (source_of i.now) next)
        (count_of access.size (source_of p.now)) a t (behind code.old)) }
{
    let index = held(alloc, keeps_index(true, i), i, next)?;
    let count = count_of(alloc, access.size, p)?;
    if is_zero(&index) {
        return first(last, access.at, count, code);
    }
    let there = shifted(alloc, false, access.size, CoreExpr::Local(a), index)?;
    front(code, CoreStmt::Set(t, there))?;
    let stops = outside(alloc, access, i, a, next)?;
    let index = held(alloc, keeps_index(true, i), i, next)?;
    branch(alloc, last, index, count, stops, code)
}

/// Puts the check that a count is not 0 in front, unless the upper bound counts.
fn first(last: bool, at: Pos, count: CoreExpr, code: &mut Seq<CoreStmt>) -> Result<(), AllocError>
    ensures { OnOk result (behind code.new ≡
        first_code last at (expr_of count) (behind code.old)) }
{
    if last {
        return Ok(());
    }
    front(code, CoreStmt::Check(Check::Bounds, at, count))
}

/// Puts the check of a checked pointer in a in front, which a named array needs not.
fn stop_null(p: &ExprTree, at: Pos, a: u32, code: &mut Seq<CoreStmt>) -> Result<(), AllocError>
    ensures { OnOk result (behind code.new ≡
        unless_array (source_of p.now) at a (behind code.old)) }
{
    if is_array(p) {
        return Ok(());
    }
    front(code, null_check(at, CoreExpr::Local(a)))
}

/// Puts the checks of an access to an element of an array in front, through a checked pointer that is in t.
fn bounded(
    alloc: Global,
    last: bool,
    access: Access,
    p: &ExprTree,
    i: &ExprTree,
    t: u32,
    next: u32,
    code: &mut Seq<CoreStmt>,
) -> Result<(), AllocError>
    ensures { OnOk result (behind code.new ≡ bounded_code last access (source_of p.now)
        (source_of i.now) (held (keeps_index true (source_of i.now)) (source_of i.now) next) t (behind code.old)) }
{
    if is_counted(access.size, p) {
        let a = own_pointer(p, t);
        let index = own_index(i, next);
        step_within(alloc, last, access, p, i, a, t, index, code)?;
        stop_null(p, access.at, a, code)
    } else {
        let within = bounds_test(alloc, last, p, t)?;
        front(code, CoreStmt::Check(Check::Bounds, access.at, within))?;
        step(alloc, access, i, t, next, code)?;
        front(code, null_check(access.at, CoreExpr::Local(t)))
    }
}

/// Puts the checks of an access in front, of which the pointer is in t and the index in the temporary `next`.
pub fn judge(
    alloc: Global,
    through: Through,
    access: Access,
    p: &ExprTree,
    i: &ExprTree,
    t: u32,
    next: u32,
    code: &mut Seq<CoreStmt>,
) -> Result<(), AllocError>
    ensures { OnOk result (behind code.new ≡ judged through access (source_of p.now)
        (source_of i.now) (held (is_bounded through) (source_of p.now) t)
        (held (keeps_index (is_bounded through) (source_of i.now)) (source_of i.now) next) t
        (behind code.old)) }
{
    match through {
        Through::Named | Through::Raw => Ok(()),
        Through::One => {
            let pointer = operand(alloc, p, t)?;
            front(code, null_check(access.at, pointer))
        }
        Through::Array => bounded(alloc, false, access, p, i, t, next, code),
        Through::Terminated => bounded(alloc, true, access, p, i, t, next, code),
    }
}

/// Puts the checks of an access in front, of which the pointer is in t.
pub fn judge_access(
    alloc: Global,
    access: Access,
    p: &ExprTree,
    i: &ExprTree,
    t: u32,
    code: &mut Seq<CoreStmt>,
) -> Result<(), AllocError>
    ensures { OnOk result (behind code.new ≡ judged access.through access (source_of p.now)
        (source_of i.now) (pointer_at access (source_of p.now) t)
        (index_at access (source_of i.now) (index_in access (source_of p.now) t)) t
        (behind code.old)) }
{
    let next = index_in(access, p, t)?;
    judge(alloc, access.through, access, p, i, t, next, code)
}
