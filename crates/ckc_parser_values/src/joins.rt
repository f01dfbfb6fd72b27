//! Operands that are joined by the operators between them.

ghost use Rattle.std.specs.Prelude.{◌≡◌, ◌∷◌, ◌≤◌, ◌<◌, [], None, IfOk};
ghost use Rattle.std.specs.Bool.{OnTrue};
ghost use Rattle.ckc_syntax.specs.declared.tree.Node.TheVariants as node;
ghost use Rattle.ckc_parser_grammar.specs.code.Trees.{expr_at, level, joined, picked};
ghost use Rattle.ckc_parser_grammar.specs.code.Values as v;

use ckc_base::Seq;
use ckc_parser_grammar::{Arms, Expression, Rest, Step, expression, whole};
use ckc_parser_stacks::Stack;
use ckc_syntax::{Node, TreeOp};
use std::alloc::{AllocError, Global};
use std::mem::forget;

/// How tight a binary operator is, from `||`.
fn tightness(op: TreeOp) -> u32
    ensures { result ≡ level op }
{
    match op {
        TreeOp::OrElse => 1,
        TreeOp::AndThen => 2,
        TreeOp::Or => 3,
        TreeOp::Xor => 4,
        TreeOp::And => 5,
        TreeOp::Eq => 6,
        TreeOp::Ne => 6,
        TreeOp::Lt => 7,
        TreeOp::Le => 7,
        TreeOp::Gt => 7,
        TreeOp::Ge => 7,
        TreeOp::Shl => 8,
        TreeOp::Shr => 8,
        TreeOp::Add => 9,
        TreeOp::Sub => 9,
        TreeOp::Mul => 10,
        TreeOp::Div => 10,
        TreeOp::Rem => 10,
        _ => 0,
    }
}

/// Whether an operator joins before the next one: it is not less tight.
fn joins_first(op: TreeOp, next: u32) -> bool
    ensures { OnTrue result ((0 < level op) × (level op ≤ 10) × (next ≤ level op)) }
{
    let own = tightness(op);
    0 < own && own <= 10 && next <= own
}

/// An operand joined with a step.
fn bin<'a>(
    alloc: Global,
    left: Expression<'a>,
    step: Step<'a>,
) -> Result<Expression<'a>, AllocError>
    ensures { IfOk result
        (λ e. e ≡ expr_at (node.Bin step.entry.op left.entry step.entry.operand) step.entry.pos) }
{
    let Step { op, pos, operand } = step;
    expression(alloc, Node::Bin(op, left, operand), pos)
}

/// Operands joined tightness by tightness.
fn by_passes<'a>(
    alloc: Global,
    first: Expression<'a>,
    steps: Stack<Step<'a>>,
) -> Result<Expression<'a>, AllocError>
    ensures { IfOk result (λ e. e ≡ joined first.entry steps.entry) }
{
    let steps = steps.into_seq();
    whole(alloc, first, Rest { steps, arms: None })
}

/// The same, after two steps were taken out.
fn by_passes_again<'a>(
    alloc: Global,
    first: Expression<'a>,
    step: Step<'a>,
    next: Step<'a>,
    rest: Stack<Step<'a>>,
) -> Result<Expression<'a>, AllocError>
    ensures { IfOk result
        (λ e. e ≡ joined first.entry (step.entry ∷ next.entry ∷ rest.entry)) }
{
    let mut steps = rest;
    steps.push(next)?;
    steps.push(step)?;
    by_passes(alloc, first, steps)
}

/// The last step.
fn join_last<'a>(
    alloc: Global,
    first: Expression<'a>,
    step: Step<'a>,
) -> Result<Expression<'a>, AllocError>
    ensures { IfOk result (λ e. e ≡ joined first.entry (step.entry ∷ [])) }
{
    if joins_first(step.op, 0) {
        let whole = bin(alloc, first, step)?;
        return Ok(whole);
    }
    let mut steps = Stack::new(alloc);
    steps.push(step)?;
    by_passes(alloc, first, steps)
}

/// Operands joined from the first step on, as long as no operator is tighter than the one before it.
#[tactic(auto, using(crate::proofs::Chains::ends_joined))]
fn join_from<'a>(
    alloc: Global,
    first: Expression<'a>,
    step: Step<'a>,
    steps: Stack<Step<'a>>,
) -> Result<Expression<'a>, AllocError>
    ensures { IfOk result (λ e. e ≡ joined first.entry (step.entry ∷ steps.entry)) }
{
    let mut operand = first;
    let mut last = step;
    let mut rest = steps;
    'steps: while let Some(next) = rest.pop() {
        if joins_first(last.op, tightness(next.op)) {
            operand = bin(alloc, operand, last)?;
            last = next;
        } else {
            return by_passes_again(alloc, operand, last, next, rest);
        }
    }
    join_last(alloc, operand, last)
}

/// Steps as a stack, the first on top.
#[tactic(auto, using(crate::proofs::Chains::next_put, crate::proofs::Chains::all_put))]
fn stack_of<'a>(alloc: Global, steps: Seq<Step<'a>>) -> Result<Stack<Step<'a>>, AllocError>
    ensures { IfOk result (λ all. all ≡ steps.entry) }
{
    let mut rest = steps;
    let mut all = Stack::new(alloc);
    'steps: while let Some(step) = rest.pop() {
        all.push(step)?;
    }
    Ok(all)
}

/// Operands joined by how tight the operators between them are.
#[tactic(auto, using(crate::proofs::Chains::alone))]
fn joined_by<'a>(
    alloc: Global,
    first: Expression<'a>,
    steps: Seq<Step<'a>>,
) -> Result<Expression<'a>, AllocError>
    ensures { IfOk result (λ e. e ≡ joined first.entry steps.entry) }
{
    let mut rest = stack_of(alloc, steps)?;
    match rest.pop() {
        None => Ok(first),
        Some(step) => join_from(alloc, first, step, rest),
    }
}

/// A condition with its arms.
fn pick<'a>(
    alloc: Global,
    condition: Expression<'a>,
    arms: Arms<'a>,
) -> Result<Expression<'a>, AllocError>
    ensures { IfOk result
        (λ e. e ≡ expr_at (node.Pick condition.entry arms.entry.yes arms.entry.no) arms.entry.pos) }
{
    let Arms { pos, yes, no } = arms;
    expression(alloc, Node::Pick(condition, yes, no), pos)
}

/// Operands with what goes on with them: operators and arms.
pub fn chained<'a>(
    alloc: Global,
    first: Expression<'a>,
    steps: Seq<Step<'a>>,
    arms: Option<Arms<'a>>,
) -> Result<Expression<'a>, AllocError>
    ensures { IfOk result (λ e. e ≡ v.whole first.entry steps.entry arms.entry) }
{
    match arms {
        None => joined_by(alloc, first, steps),
        Some(arms) => match joined_by(alloc, first, steps) {
            Ok(condition) => pick(alloc, condition, arms),
            Err(e) => {
                forget(arms);
                Err(e)
            }
        },
    }
}
