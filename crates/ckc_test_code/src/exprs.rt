//! Expressions of a program's text.
ghost use Rattle.std.specs.Prelude.{◌≡◌, ◌<◌, IfOk};
ghost use Rattle.ckc_test_code.specs.code.Fine.{IsHeadOver, IsExpr};

use crate::fault::TextFault;
use crate::words::{Words, number_of, operation_of};
use ckc_base::{BinOp, Boxed, Width};
use ckc_core::CoreExpr;
use std::alloc::Global;

/// What an expression begins with.
enum Head {
    Number(u32),
    Local(u32),
    Load(Width),
    High(bool),
    Bin(BinOp),
}

fn beginning(words: &mut Words, locals: u32) -> Result<Head, TextFault>
    ensures { IfOk result (IsHeadOver locals) }
{
    let word = words.next();
    if let Some(op) = operation_of(word) {
        return Ok(Head::Bin(op));
    }
    match word {
        "high" => Ok(Head::High(true)),
        "highu" => Ok(Head::High(false)),
        "load" => Ok(Head::Load(words.width())),
        _ => leaf(word, locals),
    }
}

/// A local, as `x3`, or a number.
fn leaf(word: &str, locals: u32) -> Result<Head, TextFault>
    ensures { IfOk result (IsHeadOver locals) }
{
    if let Some(x) = local_of(word) {
        return if x < locals {
            Ok(Head::Local(x))
        } else {
            Err(TextFault::Malformed("no such local"))
        };
    }
    match number_of(word) {
        Some(n) => Ok(Head::Number(n)),
        None => Err(TextFault::Malformed("no such expression")),
    }
}

/// A local, as `x3`.
pub fn local_of(word: &str) -> Option<u32> {
    let digits = word.strip_prefix('x')?;
    digits.parse::<u32>().ok()
}

/// A local that is set.
pub fn local(words: &mut Words, locals: u32) -> Result<u32, TextFault>
    ensures { IfOk result (λ x. x < locals) }
{
    match local_of(words.next()) {
        Some(x) if x < locals => Ok(x),
        _ => Err(TextFault::Malformed("no such local")),
    }
}

fn boxed(alloc: Global, e: CoreExpr) -> Result<Boxed<CoreExpr>, TextFault>
    ensures { IfOk result (λ b. b ≡ e) }
{
    Ok(Boxed::new(alloc, e)?)
}

/// An expression over so many locals, at most so deep.
#[cycle(expr)]
pub fn expr(
    alloc: Global,
    words: &mut Words,
    locals: u32,
    deep: u32,
) -> Result<Boxed<CoreExpr>, TextFault>
    ensures { IfOk result (IsExpr locals deep) }
{
    if deep == 0 {
        return Err(TextFault::Malformed("an expression that is too deep"));
    }
    match beginning(words, locals)? {
        Head::Number(n) => boxed(alloc, CoreExpr::Const(n)),
        Head::Local(x) => boxed(alloc, CoreExpr::Local(x)),
        Head::Load(width) => {
            let a = expr(alloc, words, locals, deep - 1)?;
            boxed(alloc, CoreExpr::Load(width, a))
        }
        Head::High(signed) => {
            let (a, b) = pair(alloc, words, locals, deep - 1)?;
            boxed(alloc, CoreExpr::High(signed, a, b))
        }
        Head::Bin(op) => {
            let (a, b) = pair(alloc, words, locals, deep - 1)?;
            boxed(alloc, CoreExpr::Bin(op, a, b))
        }
    }
}

/// Two expressions.
#[cycle(expr)]
fn pair(
    alloc: Global,
    words: &mut Words,
    locals: u32,
    deep: u32,
) -> Result<(Boxed<CoreExpr>, Boxed<CoreExpr>), TextFault>
    ensures first { IfOk result (λ p. IsExpr locals deep p.0) }
    ensures second { IfOk result (λ p. IsExpr locals deep p.1) }
{
    let a = expr(alloc, words, locals, deep)?;
    let b = expr(alloc, words, locals, deep)?;
    Ok((a, b))
}
