//! Statements with their modes noted, or the first fault.

ghost use Rattle.std.specs.Prelude.{Ok, map};
ghost use Rattle.std.specs.Option.{option_map};
ghost use Rattle.ckc_syntax.specs.declared.tree.Act.TheVariants as act;
ghost use Rattle.ckc_base.specs.Outcomes.{bind};
ghost use Rattle.ckc_typed.specs.Declarations.{local_typed};
ghost use Rattle.ckc_typed.specs.Statements.{act_typed, stmt_typed, all_in, part_in, stated};
ghost use Rattle.ckc_base.specs.Outcomes.{AnswersOutcome};

use crate::declarations::typed_local;
use crate::expressions::{boxed_expr, typed_value};
use crate::forms;
use ckc_base::{Boxed, Fault, Mode, Pos, Seq};
use ckc_syntax::{Act, Decl, Name, Stmt};
use ckc_typed::{Note, Variable};
use ckc_types::CType;
use ckc_typing_environment::notes::stated;
use ckc_typing_environment::scope::FileScope;
use std::alloc::Global;

/// What the statements of a function see beside the whole text, and the type of its result.
#[derive(Drop)]
pub struct Frame {
    pub variables: Seq<Variable>,
    pub result: CType,
}

fn boxed_local(
    alloc: Global,
    globals: &FileScope,
    frame: &Frame,
    mode: Mode,
    pos: Pos,
    d: &Decl<Name, ()>,
) -> Result<Stmt<Name, Note>, Fault>
    ensures { AnswersOutcome result
        (bind (local_typed globals.now frame.now.variables mode d.now)
        (λ n. Ok (stated mode pos (act.Local n)))) }
{
    let typed = typed_local(alloc, globals, frame.variables.as_slice(), mode, d)?;
    let boxed = Boxed::new(alloc, typed)?;
    Ok(stated(mode, pos, Act::Local(boxed)))
}

#[cycle(stmt)]
fn typed_act(
    alloc: Global,
    globals: &FileScope,
    frame: &Frame,
    mode: Mode,
    looped: bool,
    body: &Act<Name, ()>,
    pos: Pos,
) -> Result<Stmt<Name, Note>, Fault>
    ensures { AnswersOutcome result
        (act_typed globals.now frame.now.variables frame.now.result body.now mode looped pos) }
{
    let variables = frame.variables.as_slice();
    match body {
        Act::Block(m, ss) => {
            let inner = m.unwrap_or(mode);
            let all = typed_stmts(alloc, globals, frame, inner, looped, ss.as_slice())?;
            Ok(stated(inner, pos, Act::Block(*m, all)))
        }
        Act::Empty => Ok(stated(mode, pos, Act::Empty)),
        Act::Local(d) => boxed_local(alloc, globals, frame, mode, pos, d.get()),
        Act::Assign(e, f) => {
            let e = boxed_expr(alloc, globals, variables, mode, e.get())?;
            let f = boxed_expr(alloc, globals, variables, mode, f.get())?;
            forms::assignment(globals, variables, mode, pos, e, f)
        }
        Act::Call(e) => {
            let e = boxed_expr(alloc, globals, variables, mode, e.get())?;
            Ok(stated(mode, pos, Act::Call(e)))
        }
        Act::If(e, s, t) => {
            let e = boxed_expr(alloc, globals, variables, mode, e.get())?;
            let s = boxed_stmt(alloc, globals, frame, mode, looped, s.get())?;
            let other = typed_part(alloc, globals, frame, mode, looped, t)?;
            forms::branches(mode, pos, e, s, other)
        }
        Act::While(e, s) => {
            let e = boxed_expr(alloc, globals, variables, mode, e.get())?;
            let s = boxed_stmt(alloc, globals, frame, mode, true, s.get())?;
            forms::repetition(mode, pos, e, s)
        }
        Act::For(s, e, t, body) => {
            let start = typed_part(alloc, globals, frame, mode, looped, s)?;
            let e = typed_value(alloc, globals, variables, mode, e)?;
            let body = boxed_stmt(alloc, globals, frame, mode, true, body.get())?;
            let step = typed_part(alloc, globals, frame, mode, looped, t)?;
            forms::counting(mode, pos, start, e, step, body)
        }
        Act::Return(e) => {
            let e = typed_value(alloc, globals, variables, mode, e)?;
            forms::returned(&frame.result, mode, pos, e)
        }
        Act::Break => {
            forms::in_loop(looped, pos)?;
            Ok(stated(mode, pos, Act::Break))
        }
        Act::Continue => {
            forms::in_loop(looped, pos)?;
            Ok(stated(mode, pos, Act::Continue))
        }
        Act::Check(e) => {
            let e = boxed_expr(alloc, globals, variables, mode, e.get())?;
            forms::check(mode, pos, e)
        }
        Act::Bundle(ss) => {
            let all = typed_stmts(alloc, globals, frame, mode, looped, ss.as_slice())?;
            Ok(stated(mode, pos, Act::Bundle(all)))
        }
    }
}

/// A statement with its mode noted.
#[cycle(stmt)]
fn typed_stmt(
    alloc: Global,
    globals: &FileScope,
    frame: &Frame,
    mode: Mode,
    looped: bool,
    s: &Stmt<Name, ()>,
) -> Result<Stmt<Name, Note>, Fault>
    ensures { AnswersOutcome result
        (stmt_typed globals.now frame.now.variables frame.now.result s.now mode looped) }
{
    typed_act(alloc, globals, frame, mode, looped, &s.body, s.pos)
}

/// A statement in a box of its own.
#[cycle(stmt)]
pub fn boxed_stmt(
    alloc: Global,
    globals: &FileScope,
    frame: &Frame,
    mode: Mode,
    looped: bool,
    s: &Stmt<Name, ()>,
) -> Result<Boxed<Stmt<Name, Note>>, Fault>
    ensures { AnswersOutcome result
        (stmt_typed globals.now frame.now.variables frame.now.result s.now mode looped) }
{
    let typed = typed_stmt(alloc, globals, frame, mode, looped, s)?;
    let boxed = Boxed::new(alloc, typed)?;
    Ok(boxed)
}

/// Statements, from the first to the last.
#[cycle(stmt)]
fn typed_stmts(
    alloc: Global,
    globals: &FileScope,
    frame: &Frame,
    mode: Mode,
    looped: bool,
    ss: &[Stmt<Name, ()>],
) -> Result<Seq<Stmt<Name, Note>>, Fault>
    ensures { AnswersOutcome result
        (all_in mode looped (map (stmt_typed globals.now frame.now.variables frame.now.result)
        ss.now)) }
{
    let mut all = Seq::new(alloc);
    for s in ss {
        let typed = typed_stmt(alloc, globals, frame, mode, looped, s)?;
        all.push(typed)?;
    }
    Ok(all)
}

/// A statement, if there is one.
#[cycle(stmt)]
fn typed_part(
    alloc: Global,
    globals: &FileScope,
    frame: &Frame,
    mode: Mode,
    looped: bool,
    part: &Option<Boxed<Stmt<Name, ()>>>,
) -> Result<Option<Boxed<Stmt<Name, Note>>>, Fault>
    ensures { AnswersOutcome result
        (part_in mode looped (option_map
        (stmt_typed globals.now frame.now.variables frame.now.result) part.now)) }
{
    match part {
        None => Ok(None),
        Some(s) => {
            let typed = boxed_stmt(alloc, globals, frame, mode, looped, s.get())?;
            Ok(Some(typed))
        }
    }
}
