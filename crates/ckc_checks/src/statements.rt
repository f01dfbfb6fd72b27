//! The code of statements, built from its end.

ghost use Rattle.std.specs.Prelude.{◌≡◌, ◌+◌, true, false, map, IfOk, OnOk};
ghost use Rattle.ckc_core.specs.Code.{Expr, Code, code_of, expr_of};
ghost use Rattle.ckc_source.specs.Code.{expr_of as source_of, target_of, right_of, assign_of, code_of as source_code};
ghost use Rattle.ckc_checks_operands.specs.code.Operands.{low_byte, operand};
ghost use Rattle.ckc_checks_follow.specs.code.Inserted.{operands, operands_code, is_narrow, marked, aim_code, target_count, guarded, stored_code, written, operand_used, assigned, taken, fixed, allowed_code, written_there, right_assigned, valued, planned_code, behind_planned, plans_code, writes_code, bundle_code, result_in, result_kept, statements};
ghost use Rattle.ckc_checks.specs.code.Building.{behind, expr_code_if, get_code, put_code, call_code, branch_code, loop_code, return_code, check_code};

use crate::code::{expr, fork, front, in_order, nothing, place, reach};
use crate::rooms::target_count;
use ckc_base::{Check, Pos, Seq, Width, sum};
use ckc_checks_operands::{below_end, kept_in, low_byte, may_write, operand};
use ckc_core::{CoreExpr, CoreStmt};
use ckc_source::{Access, Assign, ExprTree, Kept, RightTree, StmtTree, TargetTree, Through};
use std::alloc::{AllocError, Global};

/// Whether a value is a byte by its form.
fn is_narrow(e: &ExprTree) -> bool
    ensures { result ≡ is_narrow (source_of e.now) }
{
    match e {
        ExprTree::Narrow(_) => true,
        ExprTree::Number(_)
        | ExprTree::Local(_)
        | ExprTree::Limited(_, _)
        | ExprTree::Array(_, _)
        | ExprTree::Load(_, _, _, _)
        | ExprTree::Member(_, _, _, _, _)
        | ExprTree::Address(_, _, _, _)
        | ExprTree::Moved(_, _, _)
        | ExprTree::Added(_, _, _)
        | ExprTree::Binary(_, _, _, _, _)
        | ExprTree::And(_, _)
        | ExprTree::Or(_, _)
        | ExprTree::Choice(_, _, _)
        | ExprTree::Bare(_)
        | ExprTree::Tested(_, _, _, _, _)
        | ExprTree::Trusted(_, _, _, _) => false,
    }
}

/// Puts the check of the value in u in front, if zero alone may be written to the element in t, by whether the value
/// is a byte already.
fn guard(
    alloc: Global,
    through: Through,
    at: Pos,
    width: Width,
    is_byte: bool,
    t: u32,
    u: u32,
    code: &mut Seq<CoreStmt>,
) -> Result<(), AllocError>
    ensures { OnOk result
        (behind code.new ≡ guarded through at width is_byte t u (behind code.old)) }
{
    match through {
        Through::Named | Through::Raw | Through::One | Through::Array => Ok(()),
        Through::Terminated => {
            let allowed = may_write(alloc, width, is_byte, t, u)?;
            front(code, CoreStmt::Check(Check::Terminator, at, allowed))
        }
    }
}

/// Puts a statement in front that stores a value, after its check, in which it is in u.
fn store(
    alloc: Global,
    access: Access,
    width: Width,
    is_byte: bool,
    t: u32,
    u: u32,
    to: CoreExpr,
    value: CoreExpr,
    code: &mut Seq<CoreStmt>,
) -> Result<(), AllocError>
    ensures { OnOk result (behind code.new ≡ stored_code access.through access.at width is_byte t u
        (expr_of to) (expr_of value) (behind code.old)) }
{
    match access.through {
        Through::Named | Through::Raw | Through::One | Through::Array => {
            front(code, CoreStmt::Store(width, to, value))
        }
        Through::Terminated => {
            front(code, CoreStmt::Store(width, to, CoreExpr::Local(u)))?;
            guard(
                alloc,
                Through::Terminated,
                access.at,
                width,
                is_byte,
                t,
                u,
                code,
            )?;
            front(code, CoreStmt::Set(u, value))
        }
    }
}

/// Puts a statement in front that writes a value to a target whose place is found in the temporaries from t on, by
/// whether it is a byte already.
fn write(
    alloc: Global,
    target: &TargetTree,
    t: u32,
    is_byte: bool,
    value: CoreExpr,
    code: &mut Seq<CoreStmt>,
) -> Result<(), AllocError>
    ensures { OnOk result (behind code.new ≡
        written (target_of target.now) t is_byte (expr_of value) (behind code.old)) }
{
    match target {
        TargetTree::Nothing => Ok(()),
        TargetTree::Local(x, width) => {
            let kept = kept_in(alloc, *width, is_byte, value)?;
            front(code, CoreStmt::Set(*x, kept))
        }
        TargetTree::Memory(width, access, p, i) => {
            let to = place(alloc, *access, p.get(), i.get(), t)?;
            let u = sum(t, target_count(target))?;
            store(alloc, *access, *width, is_byte, t, u, to, value, code)
        }
    }
}

/// Puts a statement in front that says in t + 1 whether the element in t is below the upper bound of its pointer, if
/// zero alone may be written there.
fn mark(
    alloc: Global,
    through: Through,
    p: &ExprTree,
    t: u32,
    code: &mut Seq<CoreStmt>,
) -> Result<(), AllocError>
    ensures { OnOk result (behind code.new ≡ marked through (source_of p.now) t (behind code.old)) }
{
    match through {
        Through::Named | Through::Raw | Through::One | Through::Array => Ok(()),
        Through::Terminated => {
            let below = below_end(alloc, p, t)?;
            front(code, CoreStmt::Set(sum(t, 1)?, below))
        }
    }
}

/// Puts the code in front that finds the place of a target.
fn aim(
    alloc: Global,
    target: &TargetTree,
    t: u32,
    code: &mut Seq<CoreStmt>,
) -> Result<(), AllocError>
    ensures { OnOk result (behind code.new ≡ aim_code (target_of target.now) t (behind code.old)) }
{
    match target {
        TargetTree::Nothing | TargetTree::Local(_, _) => Ok(()),
        TargetTree::Memory(_, access, p, i) => {
            mark(alloc, access.through, p.get(), t, code)?;
            reach(alloc, *access, p.get(), i.get(), t, code)
        }
    }
}

/// Puts the code of an assignment of a value in front.
fn assign_value(
    alloc: Global,
    target: &TargetTree,
    e: &ExprTree,
    t: u32,
    code: &mut Seq<CoreStmt>,
) -> Result<(), AllocError>
    ensures { OnOk result (behind code.new ≡
        assigned (target_of target.now) (source_of e.now) t (behind code.old)) }
{
    match target {
        TargetTree::Nothing => expr(alloc, e, true, t, code),
        TargetTree::Local(_, _) | TargetTree::Memory(_, _, _, _) => {
            let u = sum(t, target_count(target))?;
            let value = operand(alloc, e, u)?;
            write(alloc, target, t, is_narrow(e), value, code)?;
            expr(alloc, e, false, u, code)?;
            aim(alloc, target, t, code)
        }
    }
}

/// Puts the code in front that keeps the place of a target in the temporary t.
fn fix(
    alloc: Global,
    target: &TargetTree,
    t: u32,
    code: &mut Seq<CoreStmt>,
) -> Result<(), AllocError>
    ensures { OnOk result (behind code.new ≡ fixed (target_of target.now) t (behind code.old)) }
{
    match target {
        TargetTree::Nothing | TargetTree::Local(_, _) => Ok(()),
        TargetTree::Memory(_, access, p, i) => {
            let to = place(alloc, *access, p.get(), i.get(), t)?;
            front(code, CoreStmt::Set(t, to))
        }
    }
}

/// Puts the check of the value after the temporaries of a target in front.
fn allow(
    alloc: Global,
    target: &TargetTree,
    t: u32,
    code: &mut Seq<CoreStmt>,
) -> Result<(), AllocError>
    ensures { OnOk result (behind code.new ≡
        allowed_code (target_of target.now) t (behind code.old)) }
{
    match target {
        TargetTree::Nothing | TargetTree::Local(_, _) => Ok(()),
        TargetTree::Memory(width, access, _, _) => {
            let u = sum(t, target_count(target))?;
            guard(alloc, access.through, access.at, *width, false, t, u, code)
        }
    }
}

/// Puts a statement in front that writes a value to a target whose place is in the temporary t.
fn write_there(
    alloc: Global,
    target: &TargetTree,
    t: u32,
    value: CoreExpr,
    code: &mut Seq<CoreStmt>,
) -> Result<(), AllocError>
    ensures { OnOk result (behind code.new ≡
        written_there (target_of target.now) t (expr_of value) (behind code.old)) }
{
    match target {
        TargetTree::Nothing => Ok(()),
        TargetTree::Local(x, width) => {
            let kept = kept_in(alloc, *width, false, value)?;
            front(code, CoreStmt::Set(*x, kept))
        }
        TargetTree::Memory(width, _, _, _) => {
            front(code, CoreStmt::Store(*width, CoreExpr::Local(t), value))
        }
    }
}

/// Puts the code in front that takes a fresh block, whose address goes to u.
fn take(
    alloc: Global,
    e: &ExprTree,
    size: u32,
    u: u32,
    code: &mut Seq<CoreStmt>,
) -> Result<(), AllocError>
    ensures { OnOk result (behind code.new ≡ taken (source_of e.now) size u (behind code.old)) }
{
    let count = operand(alloc, e, u)?;
    front(code, CoreStmt::Alloc(u, count, size))?;
    expr(alloc, e, false, u, code)
}

/// Puts the code of an assignment in front.
fn assign(alloc: Global, a: &Assign, t: u32, code: &mut Seq<CoreStmt>) -> Result<(), AllocError>
    ensures { OnOk result (behind code.new ≡
        right_assigned (target_of a.now.target) (right_of a.now.right) t (behind code.old)) }
{
    match &a.right {
        RightTree::Value(e) => assign_value(alloc, &a.target, e.get(), t, code),
        RightTree::Fresh(to, e) => {
            let u = sum(t, target_count(&a.target))?;
            write_there(alloc, &a.target, t, CoreExpr::Local(u), code)?;
            allow(alloc, &a.target, t, code)?;
            take(alloc, e.get(), to.get().size, u, code)?;
            fix(alloc, &a.target, t, code)?;
            aim(alloc, &a.target, t, code)
        }
    }
}

/// Puts the code in front that puts the value of a right side into u.
fn value(
    alloc: Global,
    right: &RightTree,
    u: u32,
    code: &mut Seq<CoreStmt>,
) -> Result<(), AllocError>
    ensures { OnOk result (behind code.new ≡ valued (right_of right.now) u (behind code.old)) }
{
    match right {
        RightTree::Value(e) => expr(alloc, e.get(), true, u, code),
        RightTree::Fresh(to, e) => take(alloc, e.get(), to.get().size, u, code),
    }
}

/// Puts the code in front that keeps the place of a target and the value that goes there in temporaries from t on.
fn plan(alloc: Global, a: &Assign, t: u32, code: &mut Seq<CoreStmt>) -> Result<(), AllocError>
    ensures { OnOk result (behind code.new ≡
        planned_code (target_of a.now.target) (right_of a.now.right) t (behind code.old)) }
{
    let u = sum(t, target_count(&a.target))?;
    allow(alloc, &a.target, t, code)?;
    value(alloc, &a.right, u, code)?;
    fix(alloc, &a.target, t, code)?;
    aim(alloc, &a.target, t, code)
}

/// The temporaries after those of an assignment that has them from t on.
fn behind_planned(target: &TargetTree, t: u32) -> Result<u32, AllocError>
    ensures { IfOk result (λ n. n ≡ behind_planned (target_of target.now) t) }
{
    let u = sum(t, target_count(target))?;
    sum(u, 1)
}

/// Puts the code in front that keeps places and values of assignments in temporaries from t on.
fn plans(alloc: Global, all: &[Assign], t: u32, code: &mut Seq<CoreStmt>) -> Result<(), AllocError>
    ensures { OnOk result (behind code.new ≡
        plans_code (map assign_of all.now) t (behind code.old)) }
{
    match all.split_first() {
        None => Ok(()),
        Some((a, rest)) => {
            let next = behind_planned(&a.target, t)?;
            plans(alloc, rest, next, code)?;
            plan(alloc, a, t, code)
        }
    }
}

/// Puts the code in front that writes values to their places, both in temporaries from t on.
fn writes(alloc: Global, all: &[Assign], t: u32, code: &mut Seq<CoreStmt>) -> Result<(), AllocError>
    ensures { OnOk result (behind code.new ≡
        writes_code (map assign_of all.now) t (behind code.old)) }
{
    match all.split_first() {
        None => Ok(()),
        Some((a, rest)) => {
            let next = behind_planned(&a.target, t)?;
            writes(alloc, rest, next, code)?;
            let u = sum(t, target_count(&a.target))?;
            write_there(alloc, &a.target, t, CoreExpr::Local(u), code)
        }
    }
}

/// Puts the code of a bundle in front.
fn bundle(alloc: Global, all: &[Assign], t: u32, code: &mut Seq<CoreStmt>) -> Result<(), AllocError>
    ensures { OnOk result (behind code.new ≡
        bundle_code (map assign_of all.now) t (behind code.old)) }
{
    writes(alloc, all, t, code)?;
    plans(alloc, all, t, code)
}

/// Puts the code in front that gets a byte.
fn get(
    alloc: Global,
    target: &TargetTree,
    t: u32,
    code: &mut Seq<CoreStmt>,
) -> Result<(), AllocError>
    ensures { OnOk result (behind code.new ≡ get_code (target_of target.now) t (behind code.old)) }
{
    let u = sum(t, target_count(target))?;
    write(alloc, target, t, false, CoreExpr::Local(u), code)?;
    front(code, CoreStmt::Get(u))?;
    aim(alloc, target, t, code)
}

/// Puts the code in front that puts the byte of an operand and writes it.
fn put_operand(
    alloc: Global,
    target: &TargetTree,
    e: &ExprTree,
    t: u32,
    u: u32,
    code: &mut Seq<CoreStmt>,
) -> Result<(), AllocError>
    ensures { OnOk result (behind code.new ≡ Code.Put (operand (source_of e.now) u)
        (written (target_of target.now) t true (low_byte (operand (source_of e.now) u))
        (behind code.old))) }
{
    let value = operand(alloc, e, u)?;
    let byte = low_byte(alloc, value)?;
    write(alloc, target, t, true, byte, code)?;
    let value = operand(alloc, e, u)?;
    front(code, CoreStmt::Put(value))
}

/// Puts the code in front that puts a byte.
fn put(
    alloc: Global,
    target: &TargetTree,
    e: &ExprTree,
    t: u32,
    code: &mut Seq<CoreStmt>,
) -> Result<(), AllocError>
    ensures { OnOk result (behind code.new ≡
        put_code (target_of target.now) (source_of e.now) t (behind code.old)) }
{
    let u = sum(t, target_count(target))?;
    put_operand(alloc, target, e, t, u, code)?;
    expr(alloc, e, false, u, code)?;
    aim(alloc, target, t, code)
}

/// The operands of a call, each with a temporary of its own from t on.
fn operands(alloc: Global, es: &[ExprTree], t: u32) -> Result<Seq<CoreExpr>, AllocError>
    ensures { IfOk result (λ cs. map expr_of cs ≡ operands (map source_of es.now) t) }
{
    let mut done = Seq::new(alloc);
    let mut next = t;
    for e in es {
        let value = operand(alloc, e, next)?;
        done.push(value)?;
        next = sum(next, 1)?;
    }
    Ok(done)
}

/// Puts what the operands of a call need in front.
fn before_call(
    alloc: Global,
    es: &[ExprTree],
    t: u32,
    code: &mut Seq<CoreStmt>,
) -> Result<(), AllocError>
    ensures { OnOk result (behind code.new ≡
        operands_code (map source_of es.now) t (behind code.old)) }
{
    let mut i = es.len();
    let mut next = match u32::try_from(i) {
        Ok(count) => sum(t, count)?,
        Err(_) => return Err(AllocError),
    };
    while i > 0 {
        i -= 1;
        next -= 1;
        expr(alloc, &es[i], false, next, code)?;
    }
    Ok(())
}

/// Where a call puts its result.
fn result_in(target: Option<Kept>, t: u32) -> Option<u32>
    ensures { result ≡ result_in target t }
{
    match target {
        None => None,
        Some(Kept::Local(x, _)) => Some(x),
        Some(Kept::Static(_, _)) => Some(t),
    }
}

/// Puts a statement in front that keeps the result of a call.
fn keep(
    alloc: Global,
    target: Option<Kept>,
    t: u32,
    code: &mut Seq<CoreStmt>,
) -> Result<(), AllocError>
    ensures { OnOk result (behind code.new ≡ result_kept target t (behind code.old)) }
{
    match target {
        None => Ok(()),
        Some(Kept::Local(x, Width::Byte)) => {
            let value = low_byte(alloc, CoreExpr::Local(x))?;
            front(code, CoreStmt::Set(x, value))
        }
        Some(Kept::Local(_, Width::Word)) => Ok(()),
        Some(Kept::Static(a, width)) => {
            front(
                code,
                CoreStmt::Store(width, CoreExpr::Const(a), CoreExpr::Local(t)),
            )
        }
    }
}

/// Puts the code of a call in front.
fn call(
    alloc: Global,
    target: Option<Kept>,
    callee: u32,
    es: &[ExprTree],
    at: Pos,
    t: u32,
    code: &mut Seq<CoreStmt>,
) -> Result<(), AllocError>
    ensures { OnOk result (behind code.new ≡
        call_code target callee (map source_of es.now) at t (behind code.old)) }
{
    keep(alloc, target, t, code)?;
    let arguments = operands(alloc, es, t)?;
    front(
        code,
        CoreStmt::Call(result_in(target, t), callee, arguments, at),
    )?;
    before_call(alloc, es, t, code)
}

/// Puts a branch in front, with the code of its condition.
fn branch(
    alloc: Global,
    e: &ExprTree,
    t: u32,
    one: Seq<CoreStmt>,
    two: Seq<CoreStmt>,
    code: &mut Seq<CoreStmt>,
) -> Result<(), AllocError>
    ensures { OnOk result (behind code.new ≡
        branch_code (source_of e.now) t (behind one) (behind two) (behind code.old)) }
{
    fork(alloc, e, t, one, two, code)?;
    expr(alloc, e, false, t, code)
}

/// A list that leaves a loop.
fn break_alone(alloc: Global) -> Result<Seq<CoreStmt>, AllocError>
    ensures { IfOk result (λ code. behind code ≡ Code.Break Code.End) }
{
    let mut code = nothing(alloc);
    front(&mut code, CoreStmt::Break)?;
    Ok(code)
}

/// Puts a loop in front, which is left if its condition is zero.
fn turn(
    alloc: Global,
    e: &ExprTree,
    t: u32,
    mut body: Seq<CoreStmt>,
    step: Seq<CoreStmt>,
    code: &mut Seq<CoreStmt>,
) -> Result<(), AllocError>
    ensures { OnOk result (behind code.new ≡
        loop_code (source_of e.now) t (behind body) (behind step) (behind code.old)) }
{
    let out = break_alone(alloc)?;
    branch(alloc, e, t, nothing(alloc), out, &mut body)?;
    front(code, CoreStmt::Loop(in_order(body), in_order(step)))
}

/// Puts a return in front.
fn leave(alloc: Global, e: &ExprTree, t: u32, code: &mut Seq<CoreStmt>) -> Result<(), AllocError>
    ensures { OnOk result (behind code.new ≡ return_code (source_of e.now) t (behind code.old)) }
{
    let value = operand(alloc, e, t)?;
    front(code, CoreStmt::Return(value))?;
    expr(alloc, e, false, t, code)
}

/// Puts a dynamic check in front.
fn check(
    alloc: Global,
    at: Pos,
    e: &ExprTree,
    t: u32,
    code: &mut Seq<CoreStmt>,
) -> Result<(), AllocError>
    ensures { OnOk result (behind code.new ≡ check_code at (source_of e.now) t (behind code.old)) }
{
    let value = operand(alloc, e, t)?;
    front(code, CoreStmt::Check(Check::Dynamic, at, value))?;
    expr(alloc, e, false, t, code)
}

/// Builds the code of statements, where t is the first temporary.
pub fn statements(
    alloc: Global,
    stmts: &[StmtTree],
    t: u32,
    code: &mut Seq<CoreStmt>,
) -> Result<(), AllocError>
    requires { behind code.old ≡ Code.End }
    ensures { OnOk result (behind code.new ≡ statements t (source_code stmts.now)) }
{
    let mut i = stmts.len();
    while i > 0 {
        i -= 1;
        match &stmts[i] {
            StmtTree::Assign(_, a) => assign(alloc, a.get(), t, code)?,
            StmtTree::Bundle(_, all) => bundle(alloc, all.as_slice(), t, code)?,
            StmtTree::Get(_, target) => get(alloc, target.get(), t, code)?,
            StmtTree::Put(_, target, e) => put(alloc, target.get(), e.get(), t, code)?,
            StmtTree::Call(spot, target, callee, es) => {
                call(alloc, *target, *callee, es.as_slice(), spot.at, t, code)?;
            }
            StmtTree::If(_, e, one, two) => {
                let mut first = nothing(alloc);
                statements(alloc, one.as_slice(), t, &mut first)?;
                let mut second = nothing(alloc);
                statements(alloc, two.as_slice(), t, &mut second)?;
                branch(alloc, e.get(), t, first, second, code)?;
            }
            StmtTree::Loop(_, e, body, step) => {
                let mut first = nothing(alloc);
                statements(alloc, body.as_slice(), t, &mut first)?;
                let mut second = nothing(alloc);
                statements(alloc, step.as_slice(), t, &mut second)?;
                turn(alloc, e.get(), t, first, second, code)?;
            }
            StmtTree::Break => front(code, CoreStmt::Break)?,
            StmtTree::Continue => front(code, CoreStmt::Continue)?,
            StmtTree::Return(_, e) => leave(alloc, e.get(), t, code)?,
            StmtTree::Check(spot, e) => check(alloc, spot.at, e.get(), t, code)?,
        }
    }
    Ok(())
}
