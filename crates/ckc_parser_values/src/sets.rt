//! What changes an operand. The operand of `x op= e` stands in the tree twice, so one of the two is a copy. Trees that
//! are left over where copies are too many are not dropped, since a deep one would be by recursion.

ghost use Rattle.std.specs.Prelude.{◌≡◌, None, IfOk};
ghost use Rattle.ckc_syntax.specs.Spelled.{spelled};
ghost use Rattle.ckc_syntax.specs.declared.tree.Node.TheVariants as node;
ghost use Rattle.ckc_parser_grammar.specs.code.Trees as trees;
ghost use Rattle.ckc_parser_grammar.specs.code.Values as v;

use crate::joins::chained;
use ckc_base::{Pos, Seq};
use ckc_parser_grammar::{
    Arms, Expression, Operation, Setting, Statement, Step, called, expression, statement,
};
use ckc_parser_stacks::{Budget, Stack, copied_expression};
use ckc_syntax::{Act, Expr, Node, Spelling, Token, TreeOp};
use std::alloc::{AllocError, Global};
use std::mem::forget;

/// A name, which is called if arguments stand after it.
pub fn called_or_named<'a>(
    alloc: Global,
    name: Token<'a>,
    call: Option<Stack<Expr<Spelling<'a>, ()>>>,
) -> Result<Expression<'a>, AllocError>
    ensures { IfOk result (λ e. e ≡ v.called_or_named (spelled name.entry) call.entry) }
{
    match call {
        None => expression(alloc, Node::Name(Spelling::new(name.text)), name.pos),
        Some(arguments) => { called(alloc, name, arguments.into_seq()) }
    }
}

/// The operator behind its operand that an increment is.
fn post_op(op: TreeOp) -> TreeOp
    ensures { result ≡ trees.post_op op }
{
    match op {
        TreeOp::Sub => TreeOp::PostDec,
        _ => TreeOp::PostInc,
    }
}

/// An operand with a `++` or `--` behind it, if one stands there.
pub fn with_increment<'a>(
    alloc: Global,
    operand: Expression<'a>,
    increment: Option<Operation>,
) -> Result<Expression<'a>, AllocError>
    ensures { IfOk result (λ e. e ≡ trees.with_increment operand.entry increment) }
{
    match increment {
        None => Ok(operand),
        Some(o) => expression(alloc, Node::Un(post_op(o.op), operand), o.pos),
    }
}

/// What sets a target to itself and 1.
fn setting_by_one<'a>(alloc: Global, increment: Operation) -> Result<Setting<'a>, AllocError>
    ensures { IfOk result (λ s. s ≡ trees.by_one increment) }
{
    let value = expression(alloc, Node::Number(1, false), increment.pos)?;
    Ok(Setting {
        op: Some(increment.op),
        pos: increment.pos,
        value,
    })
}

/// `x op e`, with a copy of x.
fn operated<'a>(
    alloc: Global,
    target: &Expr<Spelling<'a>, ()>,
    op: TreeOp,
    pos: Pos,
    value: Expression<'a>,
    budget: &mut Budget,
) -> Result<Expression<'a>, AllocError>
    ensures { IfOk result (λ e. e ≡ trees.expr_at (node.Bin op target.now value.entry) pos) }
{
    match copied_expression(alloc, target, budget) {
        Ok(copy) => expression(alloc, Node::Bin(op, copy, value), pos),
        Err(e) => {
            forget(value);
            Err(e)
        }
    }
}

/// A target with what it is set to.
#[derive(Drop)]
struct Pair<'a> {
    target: Expression<'a>,
    value: Expression<'a>,
}

/// A target with a value that is made of itself.
fn pair_by<'a>(
    alloc: Global,
    target: Expression<'a>,
    op: TreeOp,
    pos: Pos,
    value: Expression<'a>,
    budget: &mut Budget,
) -> Result<Pair<'a>, AllocError>
    ensures { IfOk result (λ p. (p.target ≡ target.entry)
        × (p.value ≡ trees.expr_at (node.Bin op target.entry value.entry) pos)) }
{
    match operated(alloc, target.get(), op, pos, value, budget) {
        Ok(value) => Ok(Pair { target, value }),
        Err(e) => {
            forget(target);
            Err(e)
        }
    }
}

/// `x op= e` within an expression.
fn set_by<'a>(
    alloc: Global,
    target: Expression<'a>,
    op: TreeOp,
    pos: Pos,
    value: Expression<'a>,
    budget: &mut Budget,
) -> Result<Expression<'a>, AllocError>
    ensures { IfOk result (λ e. e ≡ trees.set_by target.entry (op, pos) value.entry) }
{
    let Pair { target, value } = pair_by(alloc, target, op, pos, value, budget)?;
    expression(alloc, Node::Bin(TreeOp::Set, target, value), pos)
}

/// A target that is set within an expression.
fn set<'a>(
    alloc: Global,
    target: Expression<'a>,
    setting: Setting<'a>,
    budget: &mut Budget,
) -> Result<Expression<'a>, AllocError>
    ensures { IfOk result (λ e. e ≡ trees.set target.entry setting.entry) }
{
    let Setting { op, pos, value } = setting;
    match op {
        None => expression(alloc, Node::Bin(TreeOp::Set, target, value), pos),
        Some(op) => set_by(alloc, target, op, pos, value, budget),
    }
}

/// `x op= e` as a statement.
fn assigned_by<'a>(
    alloc: Global,
    target: Expression<'a>,
    op: TreeOp,
    pos: Pos,
    value: Expression<'a>,
    budget: &mut Budget,
) -> Result<Statement<'a>, AllocError>
    ensures { IfOk result (λ s. s ≡ trees.assigned_by target.entry (op, pos) value.entry) }
{
    let Pair { target, value } = pair_by(alloc, target, op, pos, value, budget)?;
    statement(alloc, Act::Assign(target, value), pos)
}

/// A target that is set as a statement.
fn assigned<'a>(
    alloc: Global,
    target: Expression<'a>,
    setting: Setting<'a>,
    budget: &mut Budget,
) -> Result<Statement<'a>, AllocError>
    ensures { IfOk result (λ s. s ≡ trees.assigned target.entry setting.entry) }
{
    let Setting { op, pos, value } = setting;
    match op {
        None => statement(alloc, Act::Assign(target, value), pos),
        Some(op) => assigned_by(alloc, target, op, pos, value, budget),
    }
}

/// An operand with a `++` or `--` before it, within an expression.
pub fn set_by_one<'a>(
    alloc: Global,
    target: Expression<'a>,
    increment: Operation,
    budget: &mut Budget,
) -> Result<Expression<'a>, AllocError>
    ensures { IfOk result (λ e. e ≡ trees.set target.entry (trees.by_one increment)) }
{
    let setting = setting_by_one(alloc, increment)?;
    set(alloc, target, setting, budget)
}

/// The same as a statement.
fn assigned_by_one<'a>(
    alloc: Global,
    target: Expression<'a>,
    increment: Operation,
    budget: &mut Budget,
) -> Result<Statement<'a>, AllocError>
    ensures { IfOk result (λ s. s ≡ trees.assigned target.entry (trees.by_one increment)) }
{
    let setting = setting_by_one(alloc, increment)?;
    assigned(alloc, target, setting, budget)
}

/// An operand as a statement, with nothing behind it, that is set or called.
fn called_or_stepped<'a>(
    alloc: Global,
    target: Expression<'a>,
    increment: Option<Operation>,
    budget: &mut Budget,
) -> Result<Statement<'a>, AllocError>
    ensures { IfOk result (λ s. s ≡ trees.changed target.entry increment None) }
{
    match increment {
        None => {
            let pos = target.get().pos;
            statement(alloc, Act::Call(target), pos)
        }
        Some(o) => assigned_by_one(alloc, target, o, budget),
    }
}

/// An operand as a statement, with its `++` or `--` and what it is set to.
pub fn changed<'a>(
    alloc: Global,
    target: Expression<'a>,
    increment: Option<Operation>,
    setting: Option<Setting<'a>>,
    budget: &mut Budget,
) -> Result<Statement<'a>, AllocError>
    ensures { IfOk result (λ s. s ≡ trees.changed target.entry increment setting.entry) }
{
    match setting {
        None => called_or_stepped(alloc, target, increment, budget),
        Some(setting) => {
            let target = with_increment(alloc, target, increment)?;
            assigned(alloc, target, setting, budget)
        }
    }
}

/// An operand as a statement, with a `++` or `--` before it and what it is set to.
pub fn stepped<'a>(
    alloc: Global,
    target: Expression<'a>,
    increment: Operation,
    setting: Option<Setting<'a>>,
    budget: &mut Budget,
) -> Result<Statement<'a>, AllocError>
    ensures { IfOk result (λ s. s ≡ trees.stepped target.entry increment setting.entry) }
{
    match setting {
        None => assigned_by_one(alloc, target, increment, budget),
        Some(setting) => match set_by_one(alloc, target, increment, budget) {
            Ok(target) => assigned(alloc, target, setting, budget),
            Err(e) => {
                forget(setting);
                Err(e)
            }
        },
    }
}

/// An operand with what goes on with it: operators and arms, or what it is set to.
pub fn finished<'a>(
    alloc: Global,
    first: Expression<'a>,
    steps: Seq<Step<'a>>,
    arms: Option<Arms<'a>>,
    setting: Option<Setting<'a>>,
    budget: &mut Budget,
) -> Result<Expression<'a>, AllocError>
    ensures { IfOk result
        (λ e. e ≡ v.finished first.entry steps.entry arms.entry setting.entry) }
{
    match setting {
        None => chained(alloc, first, steps, arms),
        Some(setting) => set(alloc, first, setting, budget),
    }
}
