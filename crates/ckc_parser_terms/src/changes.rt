ghost use Rattle.std.specs.Prelude.{◌≡◌, OnOk};
ghost use Rattle.ckc_syntax.specs.Spelled.{spelled};
ghost use Rattle.ckc_parser_values.specs.code.Acts as a;

use ckc_parser_grammar::{Operation, Setting, compound_op, increment_op, token_kind};
use ckc_parser_values::{Held, set_by_one};
use ckc_syntax::Token;
use std::alloc::{AllocError, Global};

/// The increment that a token is.
pub fn increment_of<'a>(token: Token<'a>) -> Operation
    ensures { result ≡ a.increment_of (spelled token.entry) }
{
    Operation {
        op: increment_op(token_kind(&token)),
        pos: token.pos,
    }
}

/// `++` or `--` before its operand.
#[inline(never)]
pub fn incremented<'a>(alloc: Global, held: &mut Held<'a>) -> Result<(), AllocError>
    ensures { OnOk result (held.new ≡ a.incremented held.old) }
{
    if held.tokens.is_empty() || held.exprs.is_empty() {
        return Err(AllocError);
    }
    let increment = increment_of(held.tokens.take_top());
    let operand = held.exprs.take_top();
    let whole = set_by_one(alloc, operand, increment, &mut held.copies)?;
    held.exprs.push(whole)
}

/// `++` or `--` behind its operand.
#[inline(never)]
pub fn some_increment<'a>(held: &mut Held<'a>) -> Result<(), AllocError>
    ensures { OnOk result (held.new ≡ a.some_increment held.old) }
{
    if held.tokens.is_empty() {
        return Err(AllocError);
    }
    let token = held.tokens.take_top();
    held.increments.push(Some(increment_of(token)))
}

/// No `++` and no `--`.
#[inline(never)]
pub fn no_increment<'a>(held: &mut Held<'a>) -> Result<(), AllocError>
    ensures { OnOk result (held.new ≡ a.no_increment held.old) }
{
    held.increments.push(None)
}

/// The arguments of a name that is called.
#[inline(never)]
pub fn some_call<'a>(held: &mut Held<'a>) -> Result<(), AllocError>
    ensures { OnOk result (held.new ≡ a.some_call held.old) }
{
    if held.expr_lists.is_empty() {
        return Err(AllocError);
    }
    let arguments = held.expr_lists.take_top();
    held.calls.push(Some(arguments))
}

/// A name that is not called.
#[inline(never)]
pub fn no_call<'a>(held: &mut Held<'a>) -> Result<(), AllocError>
    ensures { OnOk result (held.new ≡ a.no_call held.old) }
{
    held.calls.push(None)
}

/// `=` with its right side.
#[inline(never)]
pub fn set_to<'a>(held: &mut Held<'a>) -> Result<(), AllocError>
    ensures { OnOk result (held.new ≡ a.set_to held.old) }
{
    if held.tokens.is_empty() || held.exprs.is_empty() {
        return Err(AllocError);
    }
    let token = held.tokens.take_top();
    let value = held.exprs.take_top();
    held.settings.push(Some(Setting {
        op: None,
        pos: token.pos,
        value,
    }))
}

/// An operator with `=`, with its right side.
#[inline(never)]
pub fn set_by<'a>(held: &mut Held<'a>) -> Result<(), AllocError>
    ensures { OnOk result (held.new ≡ a.set_by held.old) }
{
    if held.tokens.is_empty() || held.exprs.is_empty() {
        return Err(AllocError);
    }
    let token = held.tokens.take_top();
    let value = held.exprs.take_top();
    held.settings.push(Some(Setting {
        op: Some(compound_op(token_kind(&token))),
        pos: token.pos,
        value,
    }))
}

/// Nothing is set.
#[inline(never)]
pub fn no_setting<'a>(held: &mut Held<'a>) -> Result<(), AllocError>
    ensures { OnOk result (held.new ≡ a.no_setting held.old) }
{
    held.settings.push(None)
}
