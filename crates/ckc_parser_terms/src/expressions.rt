ghost use Rattle.std.specs.Prelude.{◌≡◌, ◌∷◌, OnOk};
ghost use Rattle.ckc_parser_grammar.specs.code.Trees.{expr_at};
ghost use Rattle.ckc_parser_values.specs.code.Acts as a;

use ckc_base::Pos;
use ckc_parser_grammar::{expression, sign_op, token_kind};
use ckc_parser_values::{
    Form, Held, called_or_named, finished, literal_node, posted, with_increment,
};
use ckc_syntax::{Node, Spelling, string_bytes};
use std::alloc::{AllocError, Global};

/// Puts an expression on top.
#[inline(always)]
fn put_expression<'a>(
    alloc: Global,
    held: &mut Held<'a>,
    node: Node<Spelling<'a>, ()>,
    pos: Pos,
) -> Result<(), AllocError>
    ensures { OnOk result
        (held.new ≡ (record held.old { exprs = expr_at node.entry pos ∷ held.old.exprs })) }
{
    let whole = expression(alloc, node, pos)?;
    held.exprs.push(whole)
}

/// Takes a token away.
#[inline(never)]
pub fn skip<'a>(held: &mut Held<'a>) -> Result<(), AllocError>
    ensures { OnOk result (held.new ≡ a.skip held.old) }
{
    if held.tokens.is_empty() {
        return Err(AllocError);
    }
    held.tokens.take_top();
    Ok(())
}

/// Notes the form of a value.
#[inline(never)]
pub fn mark<'a>(held: &mut Held<'a>, form: Form) -> Result<(), AllocError>
    ensures { OnOk result (held.new ≡ a.mark form held.old) }
{
    held.forms.push(form)
}

/// A name as an expression, with its arguments if it is called.
#[inline(never)]
pub fn name_expr<'a>(alloc: Global, held: &mut Held<'a>) -> Result<(), AllocError>
    ensures { OnOk result (held.new ≡ a.name_expr held.old) }
{
    if held.tokens.is_empty() || held.calls.is_empty() {
        return Err(AllocError);
    }
    let token = held.tokens.take_top();
    let call = held.calls.take_top();
    let whole = called_or_named(alloc, token, call)?;
    held.exprs.push(whole)
}

/// What stands behind an expression is joined with it.
#[inline(never)]
pub fn post_expr<'a>(alloc: Global, held: &mut Held<'a>) -> Result<(), AllocError>
    ensures { OnOk result (held.new ≡ a.post_expr held.old) }
{
    if held.exprs.is_empty() || held.posts.is_empty() {
        return Err(AllocError);
    }
    let first = held.exprs.take_top();
    let posts = held.posts.take_top();
    let whole = posted(alloc, first, posts)?;
    held.exprs.push(whole)
}

/// An operand with what is behind it, `++` or `--`.
#[inline(never)]
pub fn increment_expr<'a>(alloc: Global, held: &mut Held<'a>) -> Result<(), AllocError>
    ensures { OnOk result (held.new ≡ a.increment_expr held.old) }
{
    if held.exprs.is_empty() || held.increments.is_empty() {
        return Err(AllocError);
    }
    let operand = held.exprs.take_top();
    let increment = held.increments.take_top();
    let whole = with_increment(alloc, operand, increment)?;
    held.exprs.push(whole)
}

/// Operands are joined, or the first is set.
#[inline(never)]
pub fn join_expr<'a>(alloc: Global, held: &mut Held<'a>) -> Result<(), AllocError>
    ensures { OnOk result (held.new ≡ a.join_expr held.old) }
{
    if held.exprs.is_empty()
        || held.steps.is_empty()
        || held.arms.is_empty()
        || held.settings.is_empty()
    {
        return Err(AllocError);
    }
    let first = held.exprs.take_top();
    let steps = held.steps.take_top().into_seq();
    let arms = held.arms.take_top();
    let setting = held.settings.take_top();
    let whole = finished(alloc, first, steps, arms, setting, &mut held.copies)?;
    held.exprs.push(whole)
}

/// A call of `calloc`.
#[inline(never)]
pub fn allocate<'a>(alloc: Global, held: &mut Held<'a>) -> Result<(), AllocError>
    ensures { OnOk result (held.new ≡ a.allocate held.old) }
{
    if held.tokens.is_empty() || held.types.is_short() || held.exprs.is_empty() {
        return Err(AllocError);
    }
    let token = held.tokens.take_top();
    let (element, sized) = held.types.take_two();
    let count = held.exprs.take_top();
    put_expression(
        alloc,
        held,
        Node::Calloc(element.into_inner(), count, sized.into_inner()),
        token.pos,
    )
}

/// A name with what goes on with it.
#[inline(never)]
pub fn named_chain<'a>(alloc: Global, held: &mut Held<'a>) -> Result<(), AllocError>
    ensures { OnOk result
        (held.new ≡ a.join_expr (a.increment_expr (a.post_expr (a.name_expr held.old)))) }
{
    name_expr(alloc, held)?;
    post_expr(alloc, held)?;
    increment_expr(alloc, held)?;
    join_expr(alloc, held)
}

/// A value that begins with `calloc`.
#[inline(never)]
pub fn named_value<'a>(alloc: Global, held: &mut Held<'a>) -> Result<(), AllocError>
    ensures { OnOk result (held.new ≡ a.named_value held.old) }
{
    if held.forms.is_empty() {
        return Err(AllocError);
    }
    match held.forms.take_top() {
        Form::First => named_chain(alloc, held),
        Form::Second => allocate(alloc, held),
        Form::Third => Err(AllocError),
    }
}

/// A sign before its operand.
#[inline(never)]
pub fn signed<'a>(alloc: Global, held: &mut Held<'a>) -> Result<(), AllocError>
    ensures { OnOk result (held.new ≡ a.signed held.old) }
{
    if held.tokens.is_empty() || held.exprs.is_empty() {
        return Err(AllocError);
    }
    let token = held.tokens.take_top();
    let operand = held.exprs.take_top();
    put_expression(
        alloc,
        held,
        Node::Un(sign_op(token_kind(&token)), operand),
        token.pos,
    )
}

/// A cast.
#[inline(never)]
pub fn cast<'a>(alloc: Global, held: &mut Held<'a>) -> Result<(), AllocError>
    ensures { OnOk result (held.new ≡ a.cast held.old) }
{
    if held.tokens.is_empty() || held.types.is_empty() || held.exprs.is_empty() {
        return Err(AllocError);
    }
    let token = held.tokens.take_top();
    let ctype = held.types.take_top();
    let operand = held.exprs.take_top();
    put_expression(
        alloc,
        held,
        Node::Cast(ctype.into_inner(), operand),
        token.pos,
    )
}

/// What stands behind a `(`.
#[inline(never)]
pub fn round<'a>(alloc: Global, held: &mut Held<'a>) -> Result<(), AllocError>
    ensures { OnOk result (held.new ≡ a.round held.old) }
{
    if held.forms.is_empty() {
        return Err(AllocError);
    }
    match held.forms.take_top() {
        Form::First => skip(held),
        Form::Second => cast(alloc, held),
        Form::Third => Err(AllocError),
    }
}

/// `sizeof` a type.
#[inline(never)]
pub fn size_of<'a>(alloc: Global, held: &mut Held<'a>) -> Result<(), AllocError>
    ensures { OnOk result (held.new ≡ a.size_of held.old) }
{
    if held.tokens.is_empty() || held.types.is_empty() {
        return Err(AllocError);
    }
    let token = held.tokens.take_top();
    let ctype = held.types.take_top();
    put_expression(alloc, held, Node::Size(ctype.into_inner()), token.pos)
}

/// A number or a character.
#[inline(never)]
pub fn constant<'a>(alloc: Global, held: &mut Held<'a>) -> Result<(), AllocError>
    ensures { OnOk result (held.new ≡ a.constant held.old) }
{
    if held.tokens.is_empty() {
        return Err(AllocError);
    }
    let token = held.tokens.take_top();
    put_expression(alloc, held, literal_node(token.kind), token.pos)
}

/// A string, by its bytes.
#[inline(never)]
pub fn string<'a>(alloc: Global, held: &mut Held<'a>) -> Result<(), AllocError>
    ensures { OnOk result (held.new ≡ a.string held.old) }
{
    if held.tokens.is_empty() {
        return Err(AllocError);
    }
    let token = held.tokens.take_top();
    let bytes = string_bytes(alloc, token.text)?;
    put_expression(alloc, held, Node::Text(bytes), token.pos)
}

/// `NULL`.
#[inline(never)]
pub fn null<'a>(alloc: Global, held: &mut Held<'a>) -> Result<(), AllocError>
    ensures { OnOk result (held.new ≡ a.null held.old) }
{
    if held.tokens.is_empty() {
        return Err(AllocError);
    }
    let token = held.tokens.take_top();
    put_expression(alloc, held, Node::Null, token.pos)
}

/// `EOF`, which is -1.
#[inline(never)]
pub fn end_of_file<'a>(alloc: Global, held: &mut Held<'a>) -> Result<(), AllocError>
    ensures { OnOk result (held.new ≡ a.end_of_file held.old) }
{
    if held.tokens.is_empty() {
        return Err(AllocError);
    }
    let token = held.tokens.take_top();
    put_expression(alloc, held, Node::Number(u32::MAX, false), token.pos)
}

/// A bounds cast that is tested.
#[inline(never)]
pub fn tested<'a>(alloc: Global, held: &mut Held<'a>) -> Result<(), AllocError>
    ensures { OnOk result (held.new ≡ a.tested held.old) }
{
    if held.tokens.is_empty()
        || held.types.is_empty()
        || held.exprs.is_empty()
        || held.bounds.is_empty()
    {
        return Err(AllocError);
    }
    let token = held.tokens.take_top();
    let ctype = held.types.take_top();
    let operand = held.exprs.take_top();
    let bounds = held.bounds.take_top();
    put_expression(
        alloc,
        held,
        Node::Tested(ctype.into_inner(), operand, bounds),
        token.pos,
    )
}

/// A bounds cast that is not tested.
#[inline(never)]
pub fn trusted<'a>(alloc: Global, held: &mut Held<'a>) -> Result<(), AllocError>
    ensures { OnOk result (held.new ≡ a.trusted held.old) }
{
    if held.tokens.is_empty()
        || held.types.is_empty()
        || held.exprs.is_empty()
        || held.bounds.is_empty()
    {
        return Err(AllocError);
    }
    let token = held.tokens.take_top();
    let ctype = held.types.take_top();
    let operand = held.exprs.take_top();
    let bounds = held.bounds.take_top();
    put_expression(
        alloc,
        held,
        Node::Trusted(ctype.into_inner(), operand, bounds),
        token.pos,
    )
}
