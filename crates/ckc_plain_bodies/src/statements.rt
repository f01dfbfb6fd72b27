//! Statements without the effects in their expressions.

ghost use Rattle.std.specs.Prelude.{◌≡◌, ◌++◌, IfOk, OnOk};
ghost use Rattle.ckc_plain_bodies.specs.Taken.{none_pending};
ghost use Rattle.ckc_plain_bodies.specs.Statements.{joined, placed, alone, loop_condition, loop_body, for_condition, for_body, init_plain, act_plain, stmt_plain, block_plain};
ghost use Rattle.ckc_plain_bodies.specs.code.Statements.{first_pos, or_break, tested_body, local_act, assign_act, pieces, part_plain, part_made};
ghost use Rattle.ckc_plain_bodies.specs.code.Steps.{Steps};

use crate::boxes::{Inner, add_all, add_at_end, if_else, in_box, local_in_box, stmt_in_box};
use crate::expressions::{
    boxed_expr, maybe_expr, plain_bounds, plain_expr, plain_exprs, right_expr, whole_expr,
};
use crate::pending::Pending;
use crate::taken::{block_at, number_at, stmt_at};
use ckc_base::{Boxed, Pos, Seq};
use ckc_plain_barred::{Integers, form_of};
use ckc_syntax::{Act, Decl, Expr, Init, Name, Stmt, copied_type};
use std::alloc::{AllocError, Global};

/// The place of the first of the statements, if there is one.
fn first_pos(stmts: &[Stmt<Name, ()>]) -> Option<Pos>
    ensures { result ≡ first_pos stmts.now }
{
    match stmts.first() {
        Some(s) => Some(s.pos),
        None => None,
    }
}

/// A statement after those that go before it.
fn joined(before: Pending, stmt: Stmt<Name, ()>) -> Result<Stmt<Name, ()>, AllocError>
    ensures { IfOk result (λ s. s ≡ joined before.stmts stmt) }
{
    match first_pos(before.stmts.as_slice()) {
        None => Ok(stmt),
        Some(pos) => {
            let mut all = before;
            add_at_end(&mut all.stmts, stmt)?;
            Ok(block_at(all.into_stmts(), pos))
        }
    }
}

/// Adds a statement and what goes before it to its block.
fn place(
    all: &mut Seq<Stmt<Name, ()>>,
    before: Pending,
    stmt: Stmt<Name, ()>,
) -> Result<(), AllocError>
    ensures { OnOk result (all.new ≡ all.old ++ placed before.stmts stmt) }
{
    match &stmt.body {
        Act::Local(_) => {
            add_all(all, before.into_stmts())?;
            add_at_end(all, stmt)
        }
        _ => {
            let whole = joined(before, stmt)?;
            add_at_end(all, whole)
        }
    }
}

/// The `if` of a loop: `if (c) S else break;`
fn or_break(
    alloc: Global,
    condition: Boxed<Expr<Name, ()>>,
    body: Inner,
    pos: Pos,
) -> Result<Stmt<Name, ()>, AllocError>
    ensures { IfOk result (λ s. s ≡ or_break condition body.stmt pos) }
{
    let leave = stmt_in_box(alloc, stmt_at(Act::Break, pos))?;
    Ok(if_else(condition, body, Inner { stmt: leave }, pos))
}

/// The body of a loop whose condition has statements before it.
fn tested_body(
    alloc: Global,
    before: Pending,
    condition: Boxed<Expr<Name, ()>>,
    body: Inner,
    pos: Pos,
) -> Result<Boxed<Stmt<Name, ()>>, AllocError>
    ensures { IfOk result (λ s. s ≡ tested_body before.stmts condition body.stmt pos) }
{
    let mut all = before;
    let test = or_break(alloc, condition, body, pos)?;
    add_at_end(&mut all.stmts, test)?;
    stmt_in_box(alloc, block_at(all.into_stmts(), pos))
}

/// A loop with a condition before which statements run.
fn while_at(
    alloc: Global,
    before: Pending,
    condition: Boxed<Expr<Name, ()>>,
    body: Boxed<Stmt<Name, ()>>,
) -> Result<Act<Name, ()>, AllocError>
    ensures { IfOk result (λ a. a ≡ Act.While (loop_condition before.stmts condition)
        (loop_body before.stmts condition body)) }
{
    match first_pos(before.stmts.as_slice()) {
        None => Ok(Act::While(condition, body)),
        Some(pos) => {
            let body = Inner { stmt: body };
            let one = in_box(alloc, number_at(1, pos))?;
            let body = tested_body(alloc, before, condition, body, pos)?;
            Ok(Act::While(one, body))
        }
    }
}

/// The same of a `for`.
fn for_at(
    alloc: Global,
    first: Option<Boxed<Stmt<Name, ()>>>,
    before: Pending,
    condition: Option<Boxed<Expr<Name, ()>>>,
    step: Option<Boxed<Stmt<Name, ()>>>,
    body: Boxed<Stmt<Name, ()>>,
) -> Result<Act<Name, ()>, AllocError>
    ensures { IfOk result (λ a. a ≡ Act.For first (for_condition before.stmts condition) step
        (for_body before.stmts condition body)) }
{
    match condition {
        None => Ok(Act::For(first, None, step, body)),
        Some(condition) => match first_pos(before.stmts.as_slice()) {
            None => Ok(Act::For(first, Some(condition), step, body)),
            Some(pos) => {
                let body = Inner { stmt: body };
                let one = in_box(alloc, number_at(1, pos))?;
                let body = tested_body(alloc, before, condition, body, pos)?;
                Ok(Act::For(first, Some(one), step, body))
            }
        },
    }
}

fn plain_init(
    alloc: Global,
    known: &Integers,
    init: &Init<Name, ()>,
    pending: &mut Pending,
) -> Result<Init<Name, ()>, AllocError>
    ensures { Steps result pending.new (init_plain known.now init.now pending.old) }
{
    match init {
        Init::Nothing => Ok(Init::Nothing),
        Init::One(e) => {
            let e = whole_expr(alloc, known, e.get(), pending)?;
            Ok(Init::One(e))
        }
        Init::Many(es) => {
            let es = plain_exprs(alloc, known, es.as_slice(), pending)?;
            Ok(Init::Many(es))
        }
    }
}

fn plain_local(
    alloc: Global,
    known: &Integers,
    d: &Decl<Name, ()>,
    pending: &mut Pending,
) -> Result<Act<Name, ()>, AllocError>
    ensures { Steps result pending.new (local_act known.now d.now pending.old) }
{
    let bounds = plain_bounds(alloc, known, &d.bounds, pending)?;
    let init = plain_init(alloc, known, &d.init, pending)?;
    let ctype = copied_type(alloc, &d.ctype)?;
    let decl = Decl {
        ctype,
        name: d.name,
        length: d.length,
        bounds,
        init,
        pos: d.pos,
    };
    local_in_box(alloc, decl)
}

fn plain_assign(
    alloc: Global,
    known: &Integers,
    x: &Expr<Name, ()>,
    e: &Expr<Name, ()>,
    pending: &mut Pending,
) -> Result<Act<Name, ()>, AllocError>
    ensures { Steps result pending.new (assign_act known.now x.now e.now pending.old) }
{
    let target = plain_expr(alloc, known, x, pending)?;
    let right = right_expr(alloc, known, form_of(&target), e, pending)?;
    let target = in_box(alloc, target)?;
    let right = in_box(alloc, right)?;
    Ok(Act::Assign(target, right))
}

/// What a statement does.
#[cycle(plain)]
fn plain_act(
    alloc: Global,
    known: &Integers,
    act: &Act<Name, ()>,
    pending: &mut Pending,
) -> Result<Act<Name, ()>, AllocError>
    ensures { Steps result pending.new (act_plain known.now act.now pending.old) }
{
    match act {
        Act::Block(mode, ss) => {
            let all = plain_block(alloc, known, ss.as_slice(), &mut pending.next)?;
            Ok(Act::Block(*mode, all))
        }
        Act::Empty => Ok(Act::Empty),
        Act::Local(d) => plain_local(alloc, known, d.get(), pending),
        Act::Assign(x, e) => plain_assign(alloc, known, x.get(), e.get(), pending),
        Act::Call(e) => {
            let call = whole_expr(alloc, known, e.get(), pending)?;
            Ok(Act::Call(call))
        }
        Act::If(e, s, t) => {
            let condition = boxed_expr(alloc, known, e.get(), pending)?;
            let then = stmt_alone(alloc, known, s.get(), &mut pending.next)?;
            let otherwise = part_alone(alloc, known, t, &mut pending.next)?;
            Ok(Act::If(condition, then, otherwise))
        }
        Act::While(e, s) => {
            let mut before = Pending::none(alloc, pending.next);
            let condition = boxed_expr(alloc, known, e.get(), &mut before)?;
            pending.next = before.next;
            let body = stmt_alone(alloc, known, s.get(), &mut pending.next)?;
            while_at(alloc, before, condition, body)
        }
        Act::For(first, e, step, body) => {
            let first = part_before(alloc, known, first, pending)?;
            let mut before = Pending::none(alloc, pending.next);
            let condition = maybe_expr(alloc, known, e, &mut before)?;
            pending.next = before.next;
            let body = stmt_alone(alloc, known, body.get(), &mut pending.next)?;
            let step = part_alone(alloc, known, step, &mut pending.next)?;
            for_at(alloc, first, before, condition, step, body)
        }
        Act::Return(e) => {
            let value = maybe_expr(alloc, known, e, pending)?;
            Ok(Act::Return(value))
        }
        Act::Break => Ok(Act::Break),
        Act::Continue => Ok(Act::Continue),
        Act::Check(e) => {
            let condition = boxed_expr(alloc, known, e.get(), pending)?;
            Ok(Act::Check(condition))
        }
        Act::Bundle(ss) => {
            let all = plain_block(alloc, known, ss.as_slice(), &mut pending.next)?;
            Ok(Act::Bundle(all))
        }
    }
}

/// A statement.
#[cycle(plain)]
fn plain_stmt(
    alloc: Global,
    known: &Integers,
    s: &Stmt<Name, ()>,
    pending: &mut Pending,
) -> Result<Stmt<Name, ()>, AllocError>
    ensures { Steps result pending.new (stmt_plain known.now s.now pending.old) }
{
    let body = plain_act(alloc, known, &s.body, pending)?;
    Ok(stmt_at(body, s.pos))
}

/// A statement by itself, in a box of its own.
#[cycle(plain)]
pub fn stmt_alone(
    alloc: Global,
    known: &Integers,
    s: &Stmt<Name, ()>,
    next: &mut u32,
) -> Result<Boxed<Stmt<Name, ()>>, AllocError>
    ensures { Steps result next.new (alone (stmt_plain known.now s.now) next.old) }
{
    let mut before = Pending::none(alloc, *next);
    let made = plain_stmt(alloc, known, s, &mut before)?;
    *next = before.next;
    let whole = joined(before, made)?;
    stmt_in_box(alloc, whole)
}

/// The same of a statement that may be left out.
#[cycle(plain)]
fn part_alone(
    alloc: Global,
    known: &Integers,
    part: &Option<Boxed<Stmt<Name, ()>>>,
    next: &mut u32,
) -> Result<Option<Boxed<Stmt<Name, ()>>>, AllocError>
    ensures { Steps result next.new (part_plain known.now part.now next.old) }
{
    match part {
        None => Ok(None),
        Some(s) => {
            let made = stmt_alone(alloc, known, s.get(), next)?;
            Ok(Some(made))
        }
    }
}

/// A statement that may be left out, and what is pending after it.
#[cycle(plain)]
fn part_before(
    alloc: Global,
    known: &Integers,
    part: &Option<Boxed<Stmt<Name, ()>>>,
    pending: &mut Pending,
) -> Result<Option<Boxed<Stmt<Name, ()>>>, AllocError>
    ensures { Steps result pending.new (part_made known.now part.now pending.old) }
{
    match part {
        None => Ok(None),
        Some(s) => {
            let made = plain_stmt(alloc, known, s.get(), pending)?;
            let boxed = stmt_in_box(alloc, made)?;
            Ok(Some(boxed))
        }
    }
}

/// The statements of a block.
#[cycle(plain)]
fn plain_block(
    alloc: Global,
    known: &Integers,
    ss: &[Stmt<Name, ()>],
    next: &mut u32,
) -> Result<Seq<Stmt<Name, ()>>, AllocError>
    ensures { Steps result next.new (block_plain known.now ss.now next.old) }
{
    let mut all = Seq::new(alloc);
    for s in ss {
        add_stmt(alloc, known, s, next, &mut all)?;
    }
    Ok(all)
}

/// Adds a statement of a block, and what goes before it.
#[cycle(plain)]
fn add_stmt(
    alloc: Global,
    known: &Integers,
    s: &Stmt<Name, ()>,
    next: &mut u32,
    all: &mut Seq<Stmt<Name, ()>>,
) -> Result<(), AllocError>
    ensures all { OnOk result (all.new
        ≡ all.old ++ pieces (stmt_plain known.now s.now (none_pending next.old))) }
    ensures next { OnOk result (next.new
        ≡ (stmt_plain known.now s.now (none_pending next.old)).1.next) }
{
    let mut before = Pending::none(alloc, *next);
    let made = plain_stmt(alloc, known, s, &mut before)?;
    *next = before.next;
    place(all, before, made)
}
