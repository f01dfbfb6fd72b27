//! The code of expressions, built from its end: lists of statements stand from the last one to the first.

ghost use Rattle.std.specs.Prelude.{◌≡◌, ◌+◌, ◌||◌, true, [], IfOk, OnOk};
ghost use Rattle.ckc_core.specs.Code.{Expr, Code, code_of, stmt_of, expr_of};
ghost use Rattle.ckc_source.specs.Code.{expr_of as source_of};
ghost use Rattle.ckc_base.specs.declared.arithmetic.BinOp.TheVariants.{Sub};
ghost use Rattle.ckc_base.specs.declared.arithmetic.Width.TheVariants.{Word};
ghost use Rattle.ckc_checks_operands.specs.code.Operands.{as_truth, at_offset, low_byte, operated, held, keeps_index, place_at, operand};
ghost use Rattle.ckc_checks_operands.specs.Cases.{is_bounded};
ghost use Rattle.ckc_checks_operands.specs.code.Pointers.{index_in, length_at, end_at};
ghost use Rattle.ckc_checks_follow.specs.code.Inserted.{divide_check, operation_code, exact_code, moved_code, reached_element, reached_place, with_range, no_range, pointer_code, tested_code, trusted_range, moved_range, access_code};
ghost use Rattle.ckc_checks.specs.code.Building.{behind, reached_value, value_code_if, expr_code_if};

use crate::accesses::judge_access;
use ckc_base::{BinOp, Boxed, Check, Pos, Seq, Width, sum};
use ckc_checks_operands::{
    as_truth, at_offset, binary, cast_passes, casts_one, direct, element_of, end_at, exact_test,
    held, index_far, index_in, is_bounded, is_direct, is_zero, keeps_index, length_at, low_byte,
    operand, operated, reads_signed, scaled, shifted, takes_range,
};
use ckc_core::{CoreExpr, CoreStmt};
use ckc_source::operators::divides;
use ckc_source::{Access, Count, ExprTree, Integer, Limits, Operation, Shift};
use std::alloc::{AllocError, Global};

/// An empty list of statements.
#[tactic(auto, using(crate::proofs::Backward::behind_none))]
pub fn nothing(alloc: Global) -> Seq<CoreStmt>
    ensures { behind result ≡ Code.End }
{
    Seq::new(alloc)
}

/// Puts a statement in front.
#[tactic(auto, using(crate::proofs::Backward::behind_push))]
pub fn front(code: &mut Seq<CoreStmt>, s: CoreStmt) -> Result<(), AllocError>
    ensures { OnOk result (behind code.new ≡ stmt_of s (behind code.old)) }
{
    code.push(s)
}

/// The statements from the first one to the last.
#[tactic(auto, unfolding(crate::specs::code::Building::behind))]
pub fn in_order(code: Seq<CoreStmt>) -> Seq<CoreStmt>
    ensures { code_of result ≡ behind code }
{
    let mut items = code.into_vec();
    items.reverse();
    Seq::from_vec(items)
}

/// A list that sets one local.
fn set_alone(alloc: Global, t: u32, value: CoreExpr) -> Result<Seq<CoreStmt>, AllocError>
    ensures { IfOk result (λ code. behind code ≡ Code.Set t (expr_of value) Code.End) }
{
    let mut code = nothing(alloc);
    front(&mut code, CoreStmt::Set(t, value))?;
    Ok(code)
}

/// A list that sets a local to 1 if the value of an operand is not zero, and else to 0.
fn truth_alone(alloc: Global, e: &ExprTree, t: u32) -> Result<Seq<CoreStmt>, AllocError>
    ensures { IfOk result (λ code. behind code ≡
        Code.Set t (as_truth (operand (source_of e.now) t)) Code.End) }
{
    let value = operand(alloc, e, t)?;
    let value = as_truth(alloc, value)?;
    set_alone(alloc, t, value)
}

/// Puts a branch on an operand in front.
pub fn fork(
    alloc: Global,
    e: &ExprTree,
    t: u32,
    one: Seq<CoreStmt>,
    two: Seq<CoreStmt>,
    code: &mut Seq<CoreStmt>,
) -> Result<(), AllocError>
    ensures { OnOk result (behind code.new ≡
        Code.If (operand (source_of e.now) t) (behind one) (behind two) (behind code.old)) }
{
    let condition = operand(alloc, e, t)?;
    front(code, CoreStmt::If(condition, in_order(one), in_order(two)))
}

/// Puts the check of a divisor in front, if the operation divides.
fn check_divisor(
    alloc: Global,
    operation: Operation,
    at: Pos,
    b: &ExprTree,
    t: u32,
    code: &mut Seq<CoreStmt>,
) -> Result<(), AllocError>
    ensures { OnOk result (behind code.new ≡
        divide_check operation at (operand (source_of b.now) t) (behind code.old)) }
{
    if divides(operation) {
        let divisor = operand(alloc, b, t)?;
        front(code, CoreStmt::Check(Check::Divide, at, divisor))?;
    }
    Ok(())
}

/// An operation on two operands, in t and in the temporary `next`.
fn operation_of(
    alloc: Global,
    operation: Operation,
    is_signed: bool,
    a: &ExprTree,
    b: &ExprTree,
    t: u32,
    next: u32,
) -> Result<CoreExpr, AllocError>
    ensures { IfOk result (λ c. expr_of c ≡
        operated operation is_signed (operand (source_of a.now) t)
        (operand (source_of b.now) next)) }
{
    let left = operand(alloc, a, t)?;
    let right = operand(alloc, b, next)?;
    operated(alloc, operation, is_signed, left, right)
}

/// Puts an operation on two operands, in t and in the temporary `next`, in front.
fn operate(
    alloc: Global,
    operation: Operation,
    is_signed: bool,
    at: Pos,
    a: &ExprTree,
    b: &ExprTree,
    t: u32,
    next: u32,
    code: &mut Seq<CoreStmt>,
) -> Result<(), AllocError>
    ensures { OnOk result (behind code.new ≡ operation_code operation is_signed at
        (operand (source_of a.now) t) (operand (source_of b.now) next) t (behind code.old)) }
{
    let value = operation_of(alloc, operation, is_signed, a, b, t, next)?;
    front(code, CoreStmt::Set(t, value))?;
    check_divisor(alloc, operation, at, b, next, code)
}

/// Puts a statement in front that sets a local to the low byte of an operand.
fn narrow(alloc: Global, e: &ExprTree, t: u32, code: &mut Seq<CoreStmt>) -> Result<(), AllocError>
    ensures { OnOk result (behind code.new ≡
        Code.Set t (low_byte (operand (source_of e.now) t)) (behind code.old)) }
{
    let value = operand(alloc, e, t)?;
    let value = low_byte(alloc, value)?;
    front(code, CoreStmt::Set(t, value))
}

/// The element that an access goes to, of which the pointer is in t.
fn element(
    alloc: Global,
    access: Access,
    p: &ExprTree,
    i: &ExprTree,
    t: u32,
) -> Result<CoreExpr, AllocError>
    ensures { IfOk result (λ c. expr_of c ≡
        reached_element access (source_of p.now) (source_of i.now) t) }
{
    let next = index_in(access, p, t)?;
    let checked = is_bounded(access.through);
    let pointer = held(alloc, checked, p, t)?;
    let index = held(alloc, keeps_index(checked, i), i, next)?;
    element_of(alloc, access.through, access.size, pointer, index)
}

/// The place that an access goes to, of which the pointer is in t.
pub fn place(
    alloc: Global,
    access: Access,
    p: &ExprTree,
    i: &ExprTree,
    t: u32,
) -> Result<CoreExpr, AllocError>
    ensures { IfOk result (λ c. expr_of c ≡
        reached_place access (source_of p.now) (source_of i.now) t) }
{
    let to = element(alloc, access, p, i, t)?;
    at_offset(alloc, access.offset, to)
}

/// Puts statements in front that set the two temporaries after t to a range, if the flag says so.
fn with_range(
    ranged: bool,
    t: u32,
    low: CoreExpr,
    length: CoreExpr,
    code: &mut Seq<CoreStmt>,
) -> Result<(), AllocError>
    ensures { OnOk result (behind code.new ≡
        with_range ranged t (expr_of low) (expr_of length) (behind code.old)) }
{
    if ranged {
        let first = sum(t, 1)?;
        let second = sum(t, 2)?;
        front(code, CoreStmt::Set(second, length))?;
        front(code, CoreStmt::Set(first, low))?;
    }
    Ok(())
}

/// The same for a value without a range.
fn no_range(ranged: bool, t: u32, code: &mut Seq<CoreStmt>) -> Result<(), AllocError>
    ensures { OnOk result (behind code.new ≡ no_range ranged t (behind code.old)) }
{
    with_range(ranged, t, CoreExpr::Const(0), CoreExpr::Const(0), code)
}

/// Puts statements in front that set t to a local, and those after it to the range that limits say.
fn limited(
    alloc: Global,
    ranged: bool,
    x: u32,
    limits: &Limits,
    t: u32,
    code: &mut Seq<CoreStmt>,
) -> Result<(), AllocError>
    ensures { OnOk result (behind code.new ≡ Code.Set t (Expr.Local x)
        (with_range ranged t (end_at x limits.now.to.size limits.now.lower)
        (Expr.Bin Sub (end_at x limits.now.to.size limits.now.upper) (Expr.Local (t + 1)))
        (behind code.old))) }
{
    let first = sum(t, 1)?;
    let low = end_at(alloc, x, limits.to.size, limits.lower)?;
    let high = end_at(alloc, x, limits.to.size, limits.upper)?;
    let length = binary(alloc, BinOp::Sub, high, CoreExpr::Local(first))?;
    with_range(ranged, t, low, length, code)?;
    front(code, CoreStmt::Set(t, CoreExpr::Local(x)))
}

/// Puts a statement in front that loads where an access goes to into t.
fn load_place(
    alloc: Global,
    width: Width,
    access: Access,
    p: &ExprTree,
    i: &ExprTree,
    t: u32,
    code: &mut Seq<CoreStmt>,
) -> Result<(), AllocError>
    ensures { OnOk result (behind code.new ≡ Code.Set t (Expr.Load width
        (reached_place access (source_of p.now) (source_of i.now) t)) (behind code.old)) }
{
    let to = place(alloc, access, p, i, t)?;
    let value = CoreExpr::Load(width, Boxed::new(alloc, to)?);
    front(code, CoreStmt::Set(t, value))
}

/// Puts statements in front that load a pointer into t from an offset after the address in `first`, and its range.
fn counted(
    alloc: Global,
    size: u32,
    count: Count,
    offset: u32,
    t: u32,
    first: u32,
    code: &mut Seq<CoreStmt>,
) -> Result<(), AllocError>
    ensures { OnOk result (behind code.new ≡ Code.Set t (Expr.Load Word
        (at_offset offset (Expr.Local first))) (Code.Set (t + 2) (length_at size count first)
        (Code.Set first (Expr.Local t) (behind code.old)))) }
{
    front(code, CoreStmt::Set(first, CoreExpr::Local(t)))?;
    let length = length_at(alloc, size, count, first)?;
    front(code, CoreStmt::Set(sum(t, 2)?, length))?;
    let to = at_offset(alloc, offset, CoreExpr::Local(first))?;
    let value = CoreExpr::Load(Width::Word, Boxed::new(alloc, to)?);
    front(code, CoreStmt::Set(t, value))
}

/// Puts statements in front that load a pointer with a count of elements from where an access goes to.
fn pointer(
    alloc: Global,
    ranged: bool,
    size: u32,
    count: Count,
    access: Access,
    p: &ExprTree,
    i: &ExprTree,
    t: u32,
    code: &mut Seq<CoreStmt>,
) -> Result<(), AllocError>
    ensures { OnOk result (behind code.new ≡ pointer_code ranged size count access.offset
        (reached_element access (source_of p.now) (source_of i.now) t)
        (reached_place access (source_of p.now) (source_of i.now) t) t (behind code.old)) }
{
    if ranged {
        let first = sum(t, 1)?;
        counted(alloc, size, count, access.offset, t, first, code)?;
        let to = element(alloc, access, p, i, t)?;
        front(code, CoreStmt::Set(first, to))
    } else {
        load_place(alloc, Width::Word, access, p, i, t, code)
    }
}

/// Puts statements in front that set t to where an access goes to, with a range of so many bytes.
fn address(
    alloc: Global,
    ranged: bool,
    bytes: u32,
    access: Access,
    p: &ExprTree,
    i: &ExprTree,
    t: u32,
    code: &mut Seq<CoreStmt>,
) -> Result<(), AllocError>
    ensures { OnOk result (behind code.new ≡ Code.Set t
        (reached_place access (source_of p.now) (source_of i.now) t)
        (with_range ranged t (Expr.Local t) (Expr.Const bytes) (behind code.old))) }
{
    with_range(ranged, t, CoreExpr::Local(t), CoreExpr::Const(bytes), code)?;
    let to = place(alloc, access, p, i, t)?;
    front(code, CoreStmt::Set(t, to))
}

/// Puts a bounds cast of the pointer in t in front, with its test and the count in the temporary `next`.
fn test(
    alloc: Global,
    size: u32,
    form: Integer,
    at: Pos,
    k: &ExprTree,
    t: u32,
    next: u32,
    code: &mut Seq<CoreStmt>,
) -> Result<(), AllocError>
    ensures { OnOk result (behind code.new ≡ tested_code size form at
        (held (keeps_index true (source_of k.now)) (source_of k.now) next) t (behind code.old)) }
{
    let count = held(alloc, keeps_index(true, k), k, next)?;
    let length = scaled(alloc, size, count)?;
    front(code, CoreStmt::Set(sum(t, 1)?, CoreExpr::Local(t)))?;
    front(code, CoreStmt::Set(sum(t, 2)?, length))?;
    let passes = cast_passes(alloc, size, form, k, t, next)?;
    front(code, CoreStmt::Check(Check::Cast, at, passes))
}

/// Puts the range of a trusted bounds cast of the pointer in t in front, with the count in the temporary `next`.
fn trust(
    alloc: Global,
    ranged: bool,
    size: u32,
    k: &ExprTree,
    t: u32,
    next: u32,
    code: &mut Seq<CoreStmt>,
) -> Result<(), AllocError>
    ensures { OnOk result (behind code.new ≡ trusted_range ranged size
        (operand (source_of k.now) next) t (behind code.old)) }
{
    if ranged {
        let count = operand(alloc, k, next)?;
        let length = scaled(alloc, size, count)?;
        front(code, CoreStmt::Set(sum(t, 1)?, CoreExpr::Local(t)))?;
        front(code, CoreStmt::Set(sum(t, 2)?, length))?;
    }
    Ok(())
}

/// Puts statements in front that move a range, if the flag says so, from one temporary further on to those after t.
fn moved_range(ranged: bool, t: u32, code: &mut Seq<CoreStmt>) -> Result<(), AllocError>
    ensures { OnOk result (behind code.new ≡ moved_range ranged t (behind code.old)) }
{
    let low = sum(t, 2)?;
    let length = sum(t, 3)?;
    with_range(
        ranged,
        t,
        CoreExpr::Local(low),
        CoreExpr::Local(length),
        code,
    )
}

/// Puts the checks of arithmetic on a checked pointer in front. It is in the one temporary and the index in the other.
fn check_exact(
    alloc: Global,
    shift: Shift,
    of_pointer: u32,
    i: &ExprTree,
    of_index: u32,
    code: &mut Seq<CoreStmt>,
) -> Result<(), AllocError>
    ensures { OnOk result (behind code.new ≡ exact_code shift (Expr.Local of_pointer)
        (held (keeps_index true (source_of i.now)) (source_of i.now) of_index) (behind code.old)) }
{
    let index = held(alloc, keeps_index(true, i), i, of_index)?;
    if !is_zero(&index) {
        let is_signed = reads_signed(shift.index);
        let exact = exact_test(
            alloc, shift.back, is_signed, shift.size, of_pointer, i, of_index,
        )?;
        front(code, CoreStmt::Check(Check::Arith, shift.at, exact))?;
    }
    front(
        code,
        CoreStmt::Check(Check::Arith, shift.at, CoreExpr::Local(of_pointer)),
    )
}

/// Puts a statement in front that sets t to a pointer that is moved, with its checks. It is in the one temporary and
/// the index in the other.
fn shift(
    alloc: Global,
    shift: Shift,
    ranged: bool,
    p: &ExprTree,
    of_pointer: u32,
    i: &ExprTree,
    of_index: u32,
    t: u32,
    code: &mut Seq<CoreStmt>,
) -> Result<(), AllocError>
    ensures { OnOk result (behind code.new ≡ moved_code shift
        (held (ranged || shift.checked) (source_of p.now) of_pointer)
        (held (keeps_index shift.checked (source_of i.now)) (source_of i.now) of_index) t
        (behind code.old)) }
{
    let pointer = held(alloc, ranged || shift.checked, p, of_pointer)?;
    let index = held(alloc, keeps_index(shift.checked, i), i, of_index)?;
    let value = shifted(alloc, shift.back, shift.size, pointer, index)?;
    front(code, CoreStmt::Set(t, value))?;
    if shift.checked {
        check_exact(alloc, shift, of_pointer, i, of_index, code)?;
    }
    Ok(())
}

/// Puts the code in front that has the value of an access once its pointer and its index are found and judged.
fn reached(
    alloc: Global,
    ranged: bool,
    e: &ExprTree,
    t: u32,
    code: &mut Seq<CoreStmt>,
) -> Result<(), AllocError>
    ensures { OnOk result (behind code.new ≡
        reached_value ranged (source_of e.now) t (behind code.old)) }
{
    match e {
        ExprTree::Load(width, access, p, i) => {
            no_range(ranged, t, code)?;
            load_place(alloc, *width, *access, p.get(), i.get(), t, code)?;
        }
        ExprTree::Member(to, count, access, p, i) => {
            let size = to.get().size;
            pointer(
                alloc,
                ranged,
                size,
                *count,
                *access,
                p.get(),
                i.get(),
                t,
                code,
            )?;
        }
        ExprTree::Address(bytes, access, p, i) => {
            address(alloc, ranged, *bytes, *access, p.get(), i.get(), t, code)?;
        }
        ExprTree::Number(_)
        | ExprTree::Local(_)
        | ExprTree::Limited(_, _)
        | ExprTree::Array(_, _)
        | ExprTree::Moved(_, _, _)
        | ExprTree::Added(_, _, _)
        | ExprTree::Binary(_, _, _, _, _)
        | ExprTree::And(_, _)
        | ExprTree::Or(_, _)
        | ExprTree::Choice(_, _, _)
        | ExprTree::Narrow(_)
        | ExprTree::Bare(_)
        | ExprTree::Tested(_, _, _, _, _)
        | ExprTree::Trusted(_, _, _, _) => {}
    }
    Ok(())
}

/// Puts the code in front that writes the value of an expression to the local t, and if the first flag says so its
/// range to the two locals after it. A direct expression has such code only if the second flag says so.
pub fn value(
    alloc: Global,
    e: &ExprTree,
    ranged: bool,
    always: bool,
    t: u32,
    code: &mut Seq<CoreStmt>,
) -> Result<(), AllocError>
    ensures { OnOk result (behind code.new ≡
        value_code_if ranged always (source_of e.now) t (behind code.old)) }
{
    if !always && is_direct(e) {
        return Ok(());
    }
    match e {
        ExprTree::Load(_, access, p, i)
        | ExprTree::Member(_, _, access, p, i)
        | ExprTree::Address(_, access, p, i) => {
            reached(alloc, ranged, e, t, code)?;
            judge_access(alloc, *access, p.get(), i.get(), t, code)?;
            let next = index_in(*access, p.get(), t)?;
            let checked = is_bounded(access.through);
            value(
                alloc,
                i.get(),
                false,
                keeps_index(checked, i.get()),
                next,
                code,
            )?;
            let far = takes_range(access.through, p.get());
            value(alloc, p.get(), far, checked, t, code)
        }
        ExprTree::Moved(how, p, i) => {
            let next = sum(t, index_far(ranged))?;
            let holds = ranged || how.checked;
            let keeps = keeps_index(how.checked, i.get());
            shift(alloc, *how, ranged, p.get(), t, i.get(), next, t, code)?;
            value(alloc, i.get(), false, keeps, next, code)?;
            value(alloc, p.get(), ranged, holds, t, code)
        }
        ExprTree::Added(how, i, p) => {
            let next = sum(t, 1)?;
            let holds = ranged || how.checked;
            let keeps = keeps_index(how.checked, i.get());
            moved_range(ranged, t, code)?;
            shift(alloc, *how, ranged, p.get(), next, i.get(), t, t, code)?;
            value(alloc, p.get(), ranged, holds, next, code)?;
            value(alloc, i.get(), false, keeps, t, code)
        }
        ExprTree::Bare(p) => {
            no_range(ranged, t, code)?;
            value(alloc, p.get(), false, true, t, code)
        }
        ExprTree::Tested(size, form, at, p, k) => {
            if !ranged && casts_one(*size, p.get(), k.get()) {
                value(alloc, p.get(), false, true, t, code)
            } else {
                let next = sum(t, 3)?;
                test(alloc, *size, *form, *at, k.get(), t, next, code)?;
                value(
                    alloc,
                    k.get(),
                    false,
                    keeps_index(true, k.get()),
                    next,
                    code,
                )?;
                value(alloc, p.get(), true, true, t, code)
            }
        }
        ExprTree::Trusted(to, _, p, k) => {
            let next = sum(t, 1)?;
            trust(alloc, ranged, to.get().size, k.get(), t, next, code)?;
            value(alloc, k.get(), false, false, next, code)?;
            value(alloc, p.get(), false, true, t, code)
        }
        ExprTree::Binary(operation, is_signed, at, a, b) => {
            let next = sum(t, 1)?;
            no_range(ranged, t, code)?;
            operate(
                alloc,
                *operation,
                *is_signed,
                *at,
                a.get(),
                b.get(),
                t,
                next,
                code,
            )?;
            value(alloc, b.get(), false, false, next, code)?;
            value(alloc, a.get(), false, false, t, code)
        }
        ExprTree::And(a, b) => {
            no_range(ranged, t, code)?;
            let mut one = truth_alone(alloc, b.get(), t)?;
            value(alloc, b.get(), false, false, t, &mut one)?;
            let two = set_alone(alloc, t, CoreExpr::Const(0))?;
            fork(alloc, a.get(), t, one, two, code)?;
            value(alloc, a.get(), false, false, t, code)
        }
        ExprTree::Or(a, b) => {
            no_range(ranged, t, code)?;
            let one = set_alone(alloc, t, CoreExpr::Const(1))?;
            let mut two = truth_alone(alloc, b.get(), t)?;
            value(alloc, b.get(), false, false, t, &mut two)?;
            fork(alloc, a.get(), t, one, two, code)?;
            value(alloc, a.get(), false, false, t, code)
        }
        ExprTree::Choice(c, a, b) => {
            let mut one = nothing(alloc);
            value(alloc, a.get(), ranged, true, t, &mut one)?;
            let mut two = nothing(alloc);
            value(alloc, b.get(), ranged, true, t, &mut two)?;
            fork(alloc, c.get(), t, one, two, code)?;
            value(alloc, c.get(), false, false, t, code)
        }
        ExprTree::Narrow(inner) => {
            no_range(ranged, t, code)?;
            narrow(alloc, inner.get(), t, code)?;
            value(alloc, inner.get(), false, false, t, code)
        }
        ExprTree::Limited(x, limits) => limited(alloc, ranged, *x, limits.get(), t, code),
        ExprTree::Array(at, bytes) => {
            with_range(
                ranged,
                t,
                CoreExpr::Const(*at),
                CoreExpr::Const(*bytes),
                code,
            )?;
            front(code, CoreStmt::Set(t, CoreExpr::Const(*at)))
        }
        ExprTree::Number(_) | ExprTree::Local(_) => {
            no_range(ranged, t, code)?;
            let here = direct(alloc, e)?;
            front(code, CoreStmt::Set(t, here))
        }
    }
}

/// The same for the value alone.
pub fn expr(
    alloc: Global,
    e: &ExprTree,
    always: bool,
    t: u32,
    code: &mut Seq<CoreStmt>,
) -> Result<(), AllocError>
    ensures { OnOk result (behind code.new ≡
        expr_code_if always (source_of e.now) t (behind code.old)) }
{
    value(alloc, e, false, always, t, code)
}

/// Puts the code in front that finds the place of an access.
pub fn reach(
    alloc: Global,
    access: Access,
    p: &ExprTree,
    i: &ExprTree,
    t: u32,
    code: &mut Seq<CoreStmt>,
) -> Result<(), AllocError>
    ensures { OnOk result (behind code.new ≡
        access_code access (source_of p.now) (source_of i.now) t (behind code.old)) }
{
    judge_access(alloc, access, p, i, t, code)?;
    let next = index_in(access, p, t)?;
    let checked = is_bounded(access.through);
    value(alloc, i, false, keeps_index(checked, i), next, code)?;
    let far = takes_range(access.through, p);
    value(alloc, p, far, checked, t, code)
}
