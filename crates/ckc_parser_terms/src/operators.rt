ghost use Rattle.std.specs.Prelude.{◌≡◌, OnOk};
ghost use Rattle.ckc_parser_values.specs.declared.held.Form.TheVariants as form;
ghost use Rattle.ckc_parser_values.specs.code.Acts as a;

use crate::changes::{no_call, no_increment, no_setting};
use crate::expressions::{mark, skip};
use ckc_parser_grammar::{Arms, Operation, Post, Step, binary_op, token_kind};
use ckc_parser_values::{Form, Held, Stack};
use ckc_syntax::{Spelling, TreeOp};
use std::alloc::{AllocError, Global};

/// No expressions.
#[inline(never)]
pub fn new_exprs<'a>(alloc: Global, held: &mut Held<'a>) -> Result<(), AllocError>
    ensures { OnOk result (held.new ≡ a.new_exprs held.old) }
{
    held.expr_lists.push(Stack::new(alloc))
}

/// One more expression in front.
#[inline(never)]
pub fn add_expr<'a>(held: &mut Held<'a>) -> Result<(), AllocError>
    ensures { OnOk result (held.new ≡ a.add_expr held.old) }
{
    if held.exprs.is_empty() {
        return Err(AllocError);
    }
    let item = held.exprs.take_top();
    held.expr_lists.push_in(item.into_inner())
}

/// Nothing behind an expression.
#[inline(never)]
pub fn no_posts<'a>(alloc: Global, held: &mut Held<'a>) -> Result<(), AllocError>
    ensures { OnOk result (held.new ≡ a.no_posts held.old) }
{
    held.posts.push(Stack::new(alloc))
}

/// One more behind an expression.
#[inline(never)]
pub fn add_post<'a>(held: &mut Held<'a>) -> Result<(), AllocError>
    ensures { OnOk result (held.new ≡ a.add_post held.old) }
{
    if held.one_post.is_empty() {
        return Err(AllocError);
    }
    let item = held.one_post.take_top();
    held.posts.push_in(item)
}

/// `[e]` behind an expression.
#[inline(never)]
pub fn index<'a>(held: &mut Held<'a>) -> Result<(), AllocError>
    ensures { OnOk result (held.new ≡ a.index held.old) }
{
    if held.tokens.is_empty() || held.exprs.is_empty() {
        return Err(AllocError);
    }
    let token = held.tokens.take_top();
    let index = held.exprs.take_top();
    held.one_post.push(Post::Index(index, token.pos))
}

/// A member behind an expression.
#[inline(never)]
pub fn dot<'a>(held: &mut Held<'a>) -> Result<(), AllocError>
    ensures { OnOk result (held.new ≡ a.dot held.old) }
{
    if held.tokens.is_short() {
        return Err(AllocError);
    }
    let (token, name) = held.tokens.take_two();
    held.one_post
        .push(Post::Dot(Spelling::new(name.text), name.pos, token.pos))
}

/// A member behind an expression.
#[inline(never)]
pub fn arrow<'a>(held: &mut Held<'a>) -> Result<(), AllocError>
    ensures { OnOk result (held.new ≡ a.arrow held.old) }
{
    if held.tokens.is_short() {
        return Err(AllocError);
    }
    let (token, name) = held.tokens.take_two();
    held.one_post
        .push(Post::Arrow(Spelling::new(name.text), name.pos, token.pos))
}

/// No operators.
#[inline(never)]
pub fn no_steps<'a>(alloc: Global, held: &mut Held<'a>) -> Result<(), AllocError>
    ensures { OnOk result (held.new ≡ a.no_steps held.old) }
{
    held.steps.push(Stack::new(alloc))
}

/// One more operator with its operand in front.
#[inline(never)]
pub fn add_step<'a>(held: &mut Held<'a>) -> Result<(), AllocError>
    ensures { OnOk result (held.new ≡ a.add_step held.old) }
{
    if held.operators.is_empty() || held.exprs.is_empty() {
        return Err(AllocError);
    }
    let operator = held.operators.take_top();
    let operand = held.exprs.take_top();
    held.steps.push_in(Step {
        op: operator.op,
        pos: operator.pos,
        operand,
    })
}

/// No `? :`.
#[inline(never)]
pub fn no_arms<'a>(held: &mut Held<'a>) -> Result<(), AllocError>
    ensures { OnOk result (held.new ≡ a.no_arms held.old) }
{
    held.arms.push(None)
}

/// The arms of `? :`.
#[inline(never)]
pub fn choose<'a>(held: &mut Held<'a>) -> Result<(), AllocError>
    ensures { OnOk result (held.new ≡ a.choose held.old) }
{
    if held.tokens.is_empty() || held.exprs.is_short() {
        return Err(AllocError);
    }
    let token = held.tokens.take_top();
    let (yes, no) = held.exprs.take_two();
    held.arms.push(Some(Arms {
        pos: token.pos,
        yes,
        no,
    }))
}

/// An operator at its token.
#[inline(never)]
pub fn put_operator<'a>(held: &mut Held<'a>, op: TreeOp) -> Result<(), AllocError>
    ensures { OnOk result (held.new ≡ a.put_operator op held.old) }
{
    if held.tokens.is_empty() {
        return Err(AllocError);
    }
    let token = held.tokens.take_top();
    held.operators.push(Operation { op, pos: token.pos })
}

/// `<`.
#[inline(never)]
pub fn less<'a>(held: &mut Held<'a>) -> Result<(), AllocError>
    ensures { OnOk result (held.new ≡ a.less held.old) }
{
    put_operator(held, TreeOp::Lt)
}

/// An operator but `<` and `>`.
#[inline(never)]
pub fn operator<'a>(held: &mut Held<'a>) -> Result<(), AllocError>
    ensures { OnOk result (held.new ≡ a.operator held.old) }
{
    if held.tokens.is_empty() {
        return Err(AllocError);
    }
    let token = held.tokens.take_top();
    held.operators.push(Operation {
        op: binary_op(token_kind(&token)),
        pos: token.pos,
    })
}

/// `>`, or `>>`.
#[inline(never)]
pub fn greater<'a>(held: &mut Held<'a>) -> Result<(), AllocError>
    ensures { OnOk result (held.new ≡ a.greater held.old) }
{
    if held.forms.is_empty() {
        return Err(AllocError);
    }
    match held.forms.take_top() {
        Form::First => put_operator(held, TreeOp::Gt),
        Form::Second => put_operator(held, TreeOp::Shr),
        Form::Third => put_operator(held, TreeOp::Gt),
    }
}

/// A name with nothing behind it, which is not set.
#[inline(never)]
pub fn bare<'a>(alloc: Global, held: &mut Held<'a>) -> Result<(), AllocError>
    ensures { OnOk result
        (held.new ≡ a.no_setting (a.no_call (a.no_increment (a.no_posts held.old)))) }
{
    no_posts(alloc, held)?;
    no_increment(held)?;
    no_call(held)?;
    no_setting(held)
}

/// `calloc <` where `<` is an operator.
#[inline(never)]
pub fn calloc_operand<'a>(alloc: Global, held: &mut Held<'a>) -> Result<(), AllocError>
    ensures { OnOk result (held.new ≡ a.calloc_less_by form.First held.old) }
{
    less(held)?;
    add_step(held)?;
    bare(alloc, held)?;
    mark(held, Form::First)
}

/// `calloc <` where a type follows.
#[inline(never)]
pub fn calloc_type<'a>(held: &mut Held<'a>) -> Result<(), AllocError>
    ensures { OnOk result (held.new ≡ a.calloc_less_by form.Second held.old) }
{
    skip(held)?;
    mark(held, Form::Second)
}

/// What stands behind `calloc <`.
#[inline(never)]
pub fn calloc_less<'a>(alloc: Global, held: &mut Held<'a>) -> Result<(), AllocError>
    ensures { OnOk result (held.new ≡ a.calloc_less held.old) }
{
    if held.forms.is_empty() {
        return Err(AllocError);
    }
    match held.forms.take_top() {
        Form::First => calloc_operand(alloc, held),
        Form::Second => calloc_type(held),
        Form::Third => Err(AllocError),
    }
}

/// An expression that may be left out.
#[inline(never)]
pub fn some_value<'a>(held: &mut Held<'a>) -> Result<(), AllocError>
    ensures { OnOk result (held.new ≡ a.some_value held.old) }
{
    if held.exprs.is_empty() {
        return Err(AllocError);
    }
    let item = held.exprs.take_top();
    held.values.push(Some(item))
}

/// An expression that is left out.
#[inline(never)]
pub fn no_value<'a>(held: &mut Held<'a>) -> Result<(), AllocError>
    ensures { OnOk result (held.new ≡ a.no_value held.old) }
{
    held.values.push(None)
}
