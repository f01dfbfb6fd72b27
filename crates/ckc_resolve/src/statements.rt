//! Statements with their names replaced by what they mean.

ghost use Rattle.ckc_base.specs.Outcomes.{StepsOutcome};
ghost use Rattle.ckc_resolve.specs.Statements.{act_named, stmt_named, stmts_named, part_named};

use crate::acts;
use crate::declarations::maybe_expr;
use crate::expressions::boxed_expr;
use crate::names::Names;
use crate::scopes::Scopes;
use ckc_base::{Boxed, Fault, Seq};
use ckc_syntax::{Act, Name, Spelling, Stmt};
use std::alloc::Global;

/// What a statement does.
#[cycle(stmt)]
pub fn named_act<'a>(
    alloc: Global,
    names: &Names<'a>,
    scopes: &mut Scopes<'a>,
    act: &Act<Spelling<'a>, ()>,
) -> Result<Act<Name, ()>, Fault>
    ensures { StepsOutcome result scopes.new (act_named names.now act.now scopes.old) }
{
    match act {
        Act::Empty => Ok(Act::Empty),
        Act::Break => Ok(Act::Break),
        Act::Continue => Ok(Act::Continue),
        Act::Block(mode, stmts) => {
            let mark = scopes.open();
            let stmts = named_stmts(alloc, names, scopes, stmts.as_slice())?;
            scopes.close(mark);
            Ok(Act::Block(*mode, stmts))
        }
        Act::Local(decl) => acts::local(alloc, names, scopes, decl),
        Act::Assign(e, f) => {
            let target = boxed_expr(alloc, names, scopes, e.get())?;
            let value = boxed_expr(alloc, names, scopes, f.get())?;
            Ok(Act::Assign(target, value))
        }
        Act::Call(e) => acts::call(alloc, names, scopes, e),
        Act::If(e, s, t) => {
            let condition = boxed_expr(alloc, names, scopes, e.get())?;
            let then = boxed_stmt(alloc, names, scopes, s.get())?;
            let otherwise = named_part(alloc, names, scopes, t)?;
            Ok(Act::If(condition, then, otherwise))
        }
        Act::While(e, s) => {
            let condition = boxed_expr(alloc, names, scopes, e.get())?;
            let body = boxed_stmt(alloc, names, scopes, s.get())?;
            Ok(Act::While(condition, body))
        }
        Act::For(first, e, step, body) => {
            let mark = scopes.open();
            let first = named_part(alloc, names, scopes, first)?;
            let condition = maybe_expr(alloc, names, scopes, e)?;
            let body = boxed_stmt(alloc, names, scopes, body.get())?;
            let step = named_part(alloc, names, scopes, step)?;
            scopes.close(mark);
            Ok(Act::For(first, condition, step, body))
        }
        Act::Return(e) => acts::result(alloc, names, scopes, e),
        Act::Check(e) => acts::check(alloc, names, scopes, e),
        Act::Bundle(stmts) => {
            let stmts = named_stmts(alloc, names, scopes, stmts.as_slice())?;
            Ok(Act::Bundle(stmts))
        }
    }
}

/// A statement.
#[cycle(stmt)]
fn named_stmt<'a>(
    alloc: Global,
    names: &Names<'a>,
    scopes: &mut Scopes<'a>,
    stmt: &Stmt<Spelling<'a>, ()>,
) -> Result<Stmt<Name, ()>, Fault>
    ensures { StepsOutcome result scopes.new (stmt_named names.now stmt.now scopes.old) }
{
    let body = named_act(alloc, names, scopes, &stmt.body)?;
    Ok(Stmt {
        body,
        pos: stmt.pos,
        note: (),
    })
}

/// A statement in a box of its own.
#[cycle(stmt)]
fn boxed_stmt<'a>(
    alloc: Global,
    names: &Names<'a>,
    scopes: &mut Scopes<'a>,
    stmt: &Stmt<Spelling<'a>, ()>,
) -> Result<Boxed<Stmt<Name, ()>>, Fault>
    ensures { StepsOutcome result scopes.new (stmt_named names.now stmt.now scopes.old) }
{
    let named = named_stmt(alloc, names, scopes, stmt)?;
    let boxed = Boxed::new(alloc, named)?;
    Ok(boxed)
}

/// A statement that may be left out.
#[cycle(stmt)]
fn named_part<'a>(
    alloc: Global,
    names: &Names<'a>,
    scopes: &mut Scopes<'a>,
    part: &Option<Boxed<Stmt<Spelling<'a>, ()>>>,
) -> Result<Option<Boxed<Stmt<Name, ()>>>, Fault>
    ensures { StepsOutcome result scopes.new (part_named names.now part.now scopes.old) }
{
    match part {
        None => Ok(None),
        Some(stmt) => {
            let named = boxed_stmt(alloc, names, scopes, stmt.get())?;
            Ok(Some(named))
        }
    }
}

/// Statements, each of which sees what the ones before it declare.
#[cycle(stmt)]
pub fn named_stmts<'a>(
    alloc: Global,
    names: &Names<'a>,
    scopes: &mut Scopes<'a>,
    stmts: &[Stmt<Spelling<'a>, ()>],
) -> Result<Seq<Stmt<Name, ()>>, Fault>
    ensures { StepsOutcome result scopes.new (stmts_named names.now stmts.now scopes.old) }
{
    let mut all = Seq::new(alloc);
    for stmt in stmts {
        let named = named_stmt(alloc, names, scopes, stmt)?;
        all.push(named)?;
    }
    Ok(all)
}
