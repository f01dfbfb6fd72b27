//! Statements of a program's text.
ghost use Rattle.std.specs.Prelude.{◌<◌, ℕ, Bool, List, All, IsTrue, IfOk, IfSome};
ghost use Rattle.ckc_core.specs.WellFormed.{IsPlace};
ghost use Rattle.ckc_test_code.specs.code.Fine.{IsExpr, IsStmt, IsBody, IsFitting};

use crate::exprs::{expr, local};
use crate::fault::TextFault;
use crate::words::Words;
use ckc_base::{Boxed, Pos, Seq};
use ckc_core::{CoreExpr, CoreStmt};
use std::alloc::Global;

/// Statements in braces: over functions with these numbers of parameters, in a function with so many locals, perhaps
/// in a loop.
#[cycle(stmt)]
pub fn block(
    alloc: Global,
    words: &mut Words,
    params: &[u32],
    locals: u32,
    looped: bool,
    deep: u32,
) -> Result<Seq<CoreStmt>, TextFault>
    ensures { IfOk result (IsBody params.now locals looped) }
{
    let mut stmts = Seq::new(alloc);
    words.expect("{");
    for _turn in 0..words.left() {
        if words.eat("}") {
            return Ok(stmts);
        }
        let s = stmt(alloc, words, params, locals, looped, deep)?;
        stmts.push(s)?;
    }
    Err(TextFault::Malformed("a block without its end"))
}

#[cycle(stmt)]
fn stmt(
    alloc: Global,
    words: &mut Words,
    params: &[u32],
    locals: u32,
    looped: bool,
    deep: u32,
) -> Result<CoreStmt, TextFault>
    ensures { IfOk result (IsStmt params.now locals looped) }
{
    let word = words.next();
    match word {
        "if" => branch(alloc, words, params, locals, looped, deep),
        "loop" => {
            let (body, step) = blocks(alloc, words, params, locals, (true, false), deep)?;
            Ok(CoreStmt::Loop(body, step))
        }
        "break" => leave(false, looped),
        "continue" => leave(true, looped),
        "call" => call(alloc, words, params, locals),
        _ => simple(alloc, words, locals, word),
    }
}

#[cycle(stmt)]
fn branch(
    alloc: Global,
    words: &mut Words,
    params: &[u32],
    locals: u32,
    looped: bool,
    deep: u32,
) -> Result<CoreStmt, TextFault>
    ensures { IfOk result (IsStmt params.now locals looped) }
{
    let e = value(alloc, words, locals)?;
    let (one, two) = blocks(alloc, words, params, locals, (looped, looped), deep)?;
    Ok(CoreStmt::If(e.into_inner(), one, two))
}

/// Two blocks in braces, each perhaps in a loop.
#[cycle(stmt)]
fn blocks(
    alloc: Global,
    words: &mut Words,
    params: &[u32],
    locals: u32,
    looped: (bool, bool),
    deep: u32,
) -> Result<(Seq<CoreStmt>, Seq<CoreStmt>), TextFault>
    ensures one { IfOk result (λ r. IsBody params.now locals looped.0 r.0) }
    ensures two { IfOk result (λ r. IsBody params.now locals looped.1 r.1) }
{
    if deep == 0 {
        return Err(TextFault::Malformed("too deep"));
    }
    let one = block(alloc, words, params, locals, looped.0, deep - 1)?;
    let two = block(alloc, words, params, locals, looped.1, deep - 1)?;
    Ok((one, two))
}

/// `break` or `continue`
fn leave(continues: bool, looped: bool) -> Result<CoreStmt, TextFault>
    ensures { (params : List ℕ) (locals : ℕ) → IfOk result (IsStmt params locals looped) }
{
    if !looped {
        return Err(TextFault::Malformed("no loop is left"));
    }
    if continues {
        Ok(CoreStmt::Continue)
    } else {
        Ok(CoreStmt::Break)
    }
}

fn value(alloc: Global, words: &mut Words, locals: u32) -> Result<Boxed<CoreExpr>, TextFault>
    ensures { IfOk result (IsExpr locals 1000) }
{
    expr(alloc, words, locals, 1000)
}

/// A place, as line and column.
fn place(words: &mut Words) -> Pos
    ensures { IsPlace result }
{
    let line = words.number();
    let col = words.number();
    Pos { line, col }
}

/// A statement without another one in it.
fn simple(alloc: Global, words: &mut Words, locals: u32, word: &str) -> Result<CoreStmt, TextFault>
    ensures { (params : List ℕ) (looped : Bool) → IfOk result (IsStmt params locals looped) }
{
    match word {
        "set" => set(alloc, words, locals),
        "store" => store(alloc, words, locals),
        "check" => check(alloc, words, locals),
        "get" => get(words, locals),
        "put" => put(alloc, words, locals),
        "alloc" => room(alloc, words, locals),
        "return" => back(alloc, words, locals),
        _ => Err(TextFault::Malformed("no such statement")),
    }
}

fn set(alloc: Global, words: &mut Words, locals: u32) -> Result<CoreStmt, TextFault>
    ensures { (params : List ℕ) (looped : Bool) → IfOk result (IsStmt params locals looped) }
{
    let x = local(words, locals)?;
    let e = value(alloc, words, locals)?;
    Ok(CoreStmt::Set(x, e.into_inner()))
}

fn store(alloc: Global, words: &mut Words, locals: u32) -> Result<CoreStmt, TextFault>
    ensures { (params : List ℕ) (looped : Bool) → IfOk result (IsStmt params locals looped) }
{
    let width = words.width();
    let a = value(alloc, words, locals)?;
    let e = value(alloc, words, locals)?;
    Ok(CoreStmt::Store(width, a.into_inner(), e.into_inner()))
}

fn check(alloc: Global, words: &mut Words, locals: u32) -> Result<CoreStmt, TextFault>
    ensures { (params : List ℕ) (looped : Bool) → IfOk result (IsStmt params locals looped) }
{
    let check = words.check();
    let at = place(words);
    let e = value(alloc, words, locals)?;
    Ok(CoreStmt::Check(check, at, e.into_inner()))
}

fn get(words: &mut Words, locals: u32) -> Result<CoreStmt, TextFault>
    ensures { (params : List ℕ) (looped : Bool) → IfOk result (IsStmt params locals looped) }
{
    let x = local(words, locals)?;
    Ok(CoreStmt::Get(x))
}

fn put(alloc: Global, words: &mut Words, locals: u32) -> Result<CoreStmt, TextFault>
    ensures { (params : List ℕ) (looped : Bool) → IfOk result (IsStmt params locals looped) }
{
    let e = value(alloc, words, locals)?;
    Ok(CoreStmt::Put(e.into_inner()))
}

/// `alloc LOCAL SIZE COUNT`
fn room(alloc: Global, words: &mut Words, locals: u32) -> Result<CoreStmt, TextFault>
    ensures { (params : List ℕ) (looped : Bool) → IfOk result (IsStmt params locals looped) }
{
    let x = local(words, locals)?;
    let size = words.number();
    let e = value(alloc, words, locals)?;
    Ok(CoreStmt::Alloc(x, e.into_inner(), size))
}

fn back(alloc: Global, words: &mut Words, locals: u32) -> Result<CoreStmt, TextFault>
    ensures { (params : List ℕ) (looped : Bool) → IfOk result (IsStmt params locals looped) }
{
    let e = value(alloc, words, locals)?;
    Ok(CoreStmt::Return(e.into_inner()))
}

/// `call TARGET FUNCTION LINE COL ( ARGUMENT .. )`, where a target may be `-`.
fn call(
    alloc: Global,
    words: &mut Words,
    params: &[u32],
    locals: u32,
) -> Result<CoreStmt, TextFault>
    ensures { (looped : Bool) → IfOk result (IsStmt params.now locals looped) }
{
    let target = target(words, locals)?;
    let callee = words.number();
    let at = place(words);
    let args = arguments(alloc, words, locals)?;
    if fits(params, callee, args.len()) {
        Ok(CoreStmt::Call(target, callee, args, at))
    } else {
        Err(TextFault::Malformed("a call that fits no function"))
    }
}

/// Whether there is such a function, with so many parameters, at most 255.
pub fn fits(params: &[u32], callee: u32, count: usize) -> bool
    ensures { IsTrue result → IsFitting params.now callee count }
{
    match params.get(callee as usize) {
        Some(wanted) => *wanted as usize == count && count <= 255,
        None => false,
    }
}

fn target(words: &mut Words, locals: u32) -> Result<Option<u32>, TextFault>
    ensures { IfOk result (λ target. IfSome target (λ t. t < locals)) }
{
    if words.eat("-") {
        return Ok(None);
    }
    let x = local(words, locals)?;
    Ok(Some(x))
}

fn arguments(alloc: Global, words: &mut Words, locals: u32) -> Result<Seq<CoreExpr>, TextFault>
    ensures { IfOk result (λ es. All (IsExpr locals 1000) es) }
{
    let mut args = Seq::new(alloc);
    words.expect("(");
    for _turn in 0..words.left() {
        if words.eat(")") {
            return Ok(args);
        }
        let e = value(alloc, words, locals)?;
        args.push(e.into_inner())?;
    }
    Err(TextFault::Malformed("arguments without their end"))
}
