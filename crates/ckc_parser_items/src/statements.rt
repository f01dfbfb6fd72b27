ghost use Rattle.std.specs.Prelude.{◌≡◌, ◌∷◌, OnOk};
ghost use Rattle.ckc_parser_grammar.specs.code.Trees.{stmt_at};
ghost use Rattle.ckc_parser_values.specs.declared.held.Form.TheVariants as form;
ghost use Rattle.ckc_parser_values.specs.code.Acts as a;

use ckc_base::{Boxed, Pos};
use ckc_parser_grammar::{local_of, statement};
use ckc_parser_terms::{allocate, cast, increment_of, name_expr, no_increment, post_expr, skip};
use ckc_parser_values::{Form, Held, Stack, changed, mode_of, put_locals, stepped};
use ckc_syntax::{Act, Spelling};
use std::alloc::{AllocError, Global};
use std::mem::forget;

/// Puts a statement on top.
#[inline(always)]
fn put_statement<'a>(
    alloc: Global,
    held: &mut Held<'a>,
    act: Act<Spelling<'a>, ()>,
    pos: Pos,
) -> Result<(), AllocError>
    ensures { OnOk result
        (held.new ≡ (record held.old { stmts = stmt_at act.entry pos ∷ held.old.stmts })) }
{
    let whole = statement(alloc, act, pos)?;
    held.stmts.push(whole)
}

/// An operand that is changed, or a call.
#[inline(never)]
pub fn change_stmt<'a>(alloc: Global, held: &mut Held<'a>) -> Result<(), AllocError>
    ensures { OnOk result (held.new ≡ a.change_stmt held.old) }
{
    if held.exprs.is_empty() || held.increments.is_empty() || held.settings.is_empty() {
        return Err(AllocError);
    }
    let target = held.exprs.take_top();
    let increment = held.increments.take_top();
    let setting = held.settings.take_top();
    let whole = changed(alloc, target, increment, setting, &mut held.copies)?;
    held.stmts.push(whole)
}

/// `++` or `--` before its operand.
#[inline(never)]
pub fn step_stmt<'a>(alloc: Global, held: &mut Held<'a>) -> Result<(), AllocError>
    ensures { OnOk result (held.new ≡ a.step_stmt held.old) }
{
    if held.tokens.is_empty() || held.exprs.is_empty() || held.settings.is_empty() {
        return Err(AllocError);
    }
    let increment = increment_of(held.tokens.take_top());
    let target = held.exprs.take_top();
    let setting = held.settings.take_top();
    let whole = stepped(alloc, target, increment, setting, &mut held.copies)?;
    held.stmts.push(whole)
}

/// A cast that is set.
#[inline(never)]
fn cast_stmt<'a>(alloc: Global, held: &mut Held<'a>) -> Result<(), AllocError>
    ensures { OnOk result (held.new ≡ a.round_stmt_by form.Second held.old) }
{
    cast(alloc, held)?;
    no_increment(held)?;
    change_stmt(alloc, held)
}

/// What stands behind a `(` that begins a statement.
#[inline(never)]
pub fn round_stmt<'a>(alloc: Global, held: &mut Held<'a>) -> Result<(), AllocError>
    ensures { OnOk result (held.new ≡ a.round_stmt held.old) }
{
    if held.forms.is_empty() {
        return Err(AllocError);
    }
    match held.forms.take_top() {
        Form::First => skip(held),
        Form::Second => cast_stmt(alloc, held),
        Form::Third => Err(AllocError),
    }
}

/// A block with a mode.
#[inline(never)]
pub fn moded_block<'a>(alloc: Global, held: &mut Held<'a>) -> Result<(), AllocError>
    ensures { OnOk result (held.new ≡ a.moded_block held.old) }
{
    if held.tokens.is_empty() || held.forms.is_empty() || held.stmt_lists.is_empty() {
        return Err(AllocError);
    }
    let token = held.tokens.take_top();
    let mode = mode_of(held.forms.take_top());
    let list = held.stmt_lists.take_top().into_seq();
    put_statement(alloc, held, Act::Block(Some(mode), list), token.pos)
}

/// A block.
#[inline(never)]
pub fn block<'a>(alloc: Global, held: &mut Held<'a>) -> Result<(), AllocError>
    ensures { OnOk result (held.new ≡ a.block held.old) }
{
    if held.tokens.is_empty() || held.stmt_lists.is_empty() {
        return Err(AllocError);
    }
    let token = held.tokens.take_top();
    let list = held.stmt_lists.take_top().into_seq();
    put_statement(alloc, held, Act::Block(None, list), token.pos)
}

/// `;`.
#[inline(never)]
pub fn empty<'a>(alloc: Global, held: &mut Held<'a>) -> Result<(), AllocError>
    ensures { OnOk result (held.new ≡ a.empty held.old) }
{
    if held.tokens.is_empty() {
        return Err(AllocError);
    }
    let token = held.tokens.take_top();
    put_statement(alloc, held, Act::Empty, token.pos)
}

/// `if`.
#[inline(never)]
pub fn if_stmt<'a>(alloc: Global, held: &mut Held<'a>) -> Result<(), AllocError>
    ensures { OnOk result (held.new ≡ a.if_stmt held.old) }
{
    if held.tokens.is_empty()
        || held.exprs.is_empty()
        || held.stmts.is_empty()
        || held.parts.is_empty()
    {
        return Err(AllocError);
    }
    let token = held.tokens.take_top();
    let test = held.exprs.take_top();
    let body = held.stmts.take_top();
    let other = held.parts.take_top();
    put_statement(alloc, held, Act::If(test, body, other), token.pos)
}

/// `while`.
#[inline(never)]
pub fn while_stmt<'a>(alloc: Global, held: &mut Held<'a>) -> Result<(), AllocError>
    ensures { OnOk result (held.new ≡ a.while_stmt held.old) }
{
    if held.tokens.is_empty() || held.exprs.is_empty() || held.stmts.is_empty() {
        return Err(AllocError);
    }
    let token = held.tokens.take_top();
    let test = held.exprs.take_top();
    let body = held.stmts.take_top();
    put_statement(alloc, held, Act::While(test, body), token.pos)
}

/// `for`.
#[inline(never)]
pub fn for_stmt<'a>(alloc: Global, held: &mut Held<'a>) -> Result<(), AllocError>
    ensures { OnOk result (held.new ≡ a.for_stmt held.old) }
{
    if held.tokens.is_empty()
        || held.parts.is_short()
        || held.values.is_empty()
        || held.stmts.is_empty()
    {
        return Err(AllocError);
    }
    let token = held.tokens.take_top();
    let (first, step) = held.parts.take_two();
    let test = held.values.take_top();
    let body = held.stmts.take_top();
    put_statement(alloc, held, Act::For(first, test, step, body), token.pos)
}

/// `return`.
#[inline(never)]
pub fn return_stmt<'a>(alloc: Global, held: &mut Held<'a>) -> Result<(), AllocError>
    ensures { OnOk result (held.new ≡ a.return_stmt held.old) }
{
    if held.tokens.is_empty() || held.values.is_empty() {
        return Err(AllocError);
    }
    let token = held.tokens.take_top();
    let value = held.values.take_top();
    put_statement(alloc, held, Act::Return(value), token.pos)
}

/// `break`.
#[inline(never)]
pub fn break_stmt<'a>(alloc: Global, held: &mut Held<'a>) -> Result<(), AllocError>
    ensures { OnOk result (held.new ≡ a.break_stmt held.old) }
{
    if held.tokens.is_empty() {
        return Err(AllocError);
    }
    let token = held.tokens.take_top();
    put_statement(alloc, held, Act::Break, token.pos)
}

/// `continue`.
#[inline(never)]
pub fn continue_stmt<'a>(alloc: Global, held: &mut Held<'a>) -> Result<(), AllocError>
    ensures { OnOk result (held.new ≡ a.continue_stmt held.old) }
{
    if held.tokens.is_empty() {
        return Err(AllocError);
    }
    let token = held.tokens.take_top();
    put_statement(alloc, held, Act::Continue, token.pos)
}

/// `_Dynamic_check`.
#[inline(never)]
pub fn check<'a>(alloc: Global, held: &mut Held<'a>) -> Result<(), AllocError>
    ensures { OnOk result (held.new ≡ a.check held.old) }
{
    if held.tokens.is_empty() || held.exprs.is_empty() {
        return Err(AllocError);
    }
    let token = held.tokens.take_top();
    let test = held.exprs.take_top();
    put_statement(alloc, held, Act::Check(test), token.pos)
}

/// `_Bundled`.
#[inline(never)]
pub fn bundle<'a>(alloc: Global, held: &mut Held<'a>) -> Result<(), AllocError>
    ensures { OnOk result (held.new ≡ a.bundle held.old) }
{
    if held.tokens.is_empty() || held.stmt_lists.is_empty() {
        return Err(AllocError);
    }
    let token = held.tokens.take_top();
    let list = held.stmt_lists.take_top().into_seq();
    put_statement(alloc, held, Act::Bundle(list), token.pos)
}

/// No statements.
#[inline(never)]
pub fn new_stmts<'a>(alloc: Global, held: &mut Held<'a>) -> Result<(), AllocError>
    ensures { OnOk result (held.new ≡ a.new_stmts held.old) }
{
    held.stmt_lists.push(Stack::new(alloc))
}

/// One more statement in front.
#[inline(never)]
pub fn add_stmt<'a>(held: &mut Held<'a>) -> Result<(), AllocError>
    ensures { OnOk result (held.new ≡ a.add_stmt held.old) }
{
    if held.stmts.is_empty() {
        return Err(AllocError);
    }
    let item = held.stmts.take_top();
    held.stmt_lists.push_in(item.into_inner())
}

/// The statement below the top one in front.
#[inline(never)]
pub fn add_next_stmt<'a>(held: &mut Held<'a>) -> Result<(), AllocError>
    ensures { OnOk result (held.new ≡ a.add_next_stmt held.old) }
{
    if held.stmts.is_short() {
        return Err(AllocError);
    }
    let (first, item) = held.stmts.take_two();
    match held.stmt_lists.push_in(item.into_inner()) {
        Ok(()) => held.stmts.push(first),
        Err(e) => {
            forget(first);
            Err(e)
        }
    }
}

/// Locals in front, as statements.
#[inline(never)]
pub fn add_locals<'a>(alloc: Global, held: &mut Held<'a>) -> Result<(), AllocError>
    ensures { OnOk result (held.new ≡ a.add_locals held.old) }
{
    if held.decl_lists.is_empty() || held.stmt_lists.is_empty() {
        return Err(AllocError);
    }
    let decls = held.decl_lists.take_top();
    let list = held.stmt_lists.take_top();
    let whole = put_locals(alloc, decls, list)?;
    held.stmt_lists.push(whole)
}

/// A statement that may be left out.
#[inline(never)]
pub fn some_stmt<'a>(held: &mut Held<'a>) -> Result<(), AllocError>
    ensures { OnOk result (held.new ≡ a.some_stmt held.old) }
{
    if held.stmts.is_empty() {
        return Err(AllocError);
    }
    let item = held.stmts.take_top();
    held.parts.push(Some(item))
}

/// A statement that is left out.
#[inline(never)]
pub fn no_stmt_part<'a>(held: &mut Held<'a>) -> Result<(), AllocError>
    ensures { OnOk result (held.new ≡ a.no_stmt_part held.old) }
{
    held.parts.push(None)
}

/// A local as a statement.
#[inline(never)]
pub fn local_stmt<'a>(alloc: Global, held: &mut Held<'a>) -> Result<(), AllocError>
    ensures { OnOk result (held.new ≡ a.local_stmt held.old) }
{
    if held.decls.is_empty() {
        return Err(AllocError);
    }
    let item = held.decls.take_top();
    let whole = Boxed::new(alloc, local_of(item))?;
    held.stmts.push(whole)
}

/// A call as a statement.
#[inline(never)]
pub fn call_stmt<'a>(alloc: Global, held: &mut Held<'a>) -> Result<(), AllocError>
    ensures { OnOk result (held.new ≡ a.call_stmt held.old) }
{
    if held.exprs.is_empty() {
        return Err(AllocError);
    }
    let item = held.exprs.take_top();
    let pos = item.get().pos;
    put_statement(alloc, held, Act::Call(item), pos)
}

/// `calloc` as a name that is changed or called.
#[inline(never)]
pub fn change_named<'a>(alloc: Global, held: &mut Held<'a>) -> Result<(), AllocError>
    ensures { OnOk result (held.new ≡ a.named_stmt_by form.First held.old) }
{
    name_expr(alloc, held)?;
    post_expr(alloc, held)?;
    change_stmt(alloc, held)
}

/// A call of `calloc`, as a statement.
#[inline(never)]
pub fn call_calloc<'a>(alloc: Global, held: &mut Held<'a>) -> Result<(), AllocError>
    ensures { OnOk result (held.new ≡ a.named_stmt_by form.Second held.old) }
{
    allocate(alloc, held)?;
    call_stmt(alloc, held)
}

/// A statement that begins with `calloc`.
#[inline(never)]
pub fn named_stmt<'a>(alloc: Global, held: &mut Held<'a>) -> Result<(), AllocError>
    ensures { OnOk result (held.new ≡ a.named_stmt held.old) }
{
    if held.forms.is_empty() {
        return Err(AllocError);
    }
    match held.forms.take_top() {
        Form::First => change_named(alloc, held),
        Form::Second => call_calloc(alloc, held),
        Form::Third => Err(AllocError),
    }
}
