ghost use Rattle.std.specs.Prelude.{◌≡◌, ◌<◌, List, ◌∷◌, IfOk};
ghost use Rattle.std.specs.Bool.{OnTrue, OnFalse};
ghost use Rattle.ckc_syntax.specs.declared.tree.Node.TheVariants as node;
ghost use Rattle.ckc_parser_grammar.specs.code.Trees.{Step, attached, expr_at, level, joined, joined_at, joined_to, picked};
ghost use Rattle.ckc_parser_grammar.specs.code.Values.{whole};

use crate::parts::{Arms, Expression, Rest};
use ckc_base::{Boxed, Pos, Seq};
use ckc_grammar::Step;
use ckc_syntax::{Expr, Node, TreeOp};
use std::alloc::{AllocError, Global};

/// An operand with what goes on after it: the operands joined by how tight the operators between them are, and the
/// arms of `? :`.
pub fn whole<'a>(
    alloc: Global,
    first: Expression<'a>,
    rest: Rest<'a>,
) -> Result<Expression<'a>, AllocError>
    ensures { IfOk result (λ e. e ≡ whole first.entry rest.entry.steps rest.entry.arms) }
{
    let Rest { steps, arms } = rest;
    let joined = joined(alloc, first, steps)?;
    picked(alloc, joined, arms)
}

/// A condition with its arms, if it has some.
fn picked<'a>(
    alloc: Global,
    condition: Expression<'a>,
    arms: Option<Arms<'a>>,
) -> Result<Expression<'a>, AllocError>
    ensures { IfOk result (λ e. e ≡ picked condition.entry arms.entry) }
{
    match arms {
        None => Ok(condition),
        Some(Arms { pos, yes, no }) => Boxed::new(
            alloc,
            Expr {
                node: Node::Pick(condition, yes, no),
                pos,
                note: (),
            },
        ),
    }
}

/// Operands joined by how tight the operators between them are, from the tightest.
fn joined<'a>(
    alloc: Global,
    first: Expression<'a>,
    steps: Seq<Step<'a>>,
) -> Result<Expression<'a>, AllocError>
    ensures { IfOk result (λ e. e ≡ joined first.entry steps.entry) }
{
    let mut chain = Chain { first, steps };
    let mut tightness = 10;
    'passes: while goes_on(tightness, &chain) {
        chain = joined_at(alloc, tightness, chain)?;
        tightness -= 1;
    }
    let Chain { first, steps } = chain;
    Ok(first)
}

/// Whether something may be left to join: not after the last pass, nor if no operator is left.
fn goes_on<'a>(tightness: u32, chain: &Chain<'a>) -> bool
    ensures more { OnTrue result (0 < tightness) }
    ensures done { OnFalse result (joined_to tightness (chain.now.first, chain.now.steps)
        ≡ (chain.now.first, chain.now.steps)) }
{
    tightness > 0 && !chain.steps.is_empty()
}

/// An operand, and the operators with operands after it.
#[derive(Drop)]
pub struct Chain<'a> {
    pub first: Expression<'a>,
    pub steps: Seq<Step<'a>>,
}

/// Joins operands to the left at the operators that are as tight as this, and leaves the others.
fn joined_at<'a>(alloc: Global, tightness: u32, chain: Chain<'a>) -> Result<Chain<'a>, AllocError>
    ensures { IfOk result
        (λ c. (c.first, c.steps) ≡ joined_at tightness chain.entry.first chain.entry.steps) }
{
    let Chain { first, steps } = chain;
    let mut operand = first;
    let mut links = Seq::new(alloc);
    'steps: for step in steps.into_vec() {
        if level(step.op) == tightness {
            operand = join_last(alloc, tightness, operand, &mut links, step)?;
        } else {
            links.push(step)?;
        }
    }
    Ok(Chain {
        first: operand,
        steps: links,
    })
}

/// Joins the last operand of a chain with a step.
fn join_last<'a>(
    alloc: Global,
    tightness: u32,
    first: Expression<'a>,
    links: &mut Seq<Step<'a>>,
    step: Step<'a>,
) -> Result<Expression<'a>, AllocError>
    requires { level step.op ≡ tightness }
    ensures { IfOk result
        (λ f. (ss : List Step) → attached tightness f links.new ss
        ≡ attached tightness first.entry links.old (step.entry ∷ ss)) }
{
    let Step {
        op,
        pos,
        operand: right,
    } = step;
    match links.pop() {
        None => bin(alloc, op, pos, first, right),
        Some(last) => {
            let Step {
                op: before,
                pos: place,
                operand: left,
            } = last;
            let operand = bin(alloc, op, pos, left, right)?;
            links.push(Step {
                op: before,
                pos: place,
                operand,
            })?;
            Ok(first)
        }
    }
}

/// A binary operator with its operands.
fn bin<'a>(
    alloc: Global,
    op: TreeOp,
    pos: Pos,
    left: Expression<'a>,
    right: Expression<'a>,
) -> Result<Expression<'a>, AllocError>
    ensures { IfOk result (λ e. e ≡ expr_at (node.Bin op left.entry right.entry) pos) }
{
    Boxed::new(
        alloc,
        Expr {
            node: Node::Bin(op, left, right),
            pos,
            note: (),
        },
    )
}

/// How tight a binary operator is, from `||`.
fn level(op: TreeOp) -> u32
    ensures { result ≡ level op }
{
    match op {
        TreeOp::OrElse => 1,
        TreeOp::AndThen => 2,
        TreeOp::Or => 3,
        TreeOp::Xor => 4,
        TreeOp::And => 5,
        TreeOp::Eq => 6,
        TreeOp::Ne => 6,
        TreeOp::Lt => 7,
        TreeOp::Le => 7,
        TreeOp::Gt => 7,
        TreeOp::Ge => 7,
        TreeOp::Shl => 8,
        TreeOp::Shr => 8,
        TreeOp::Add => 9,
        TreeOp::Sub => 9,
        TreeOp::Mul => 10,
        TreeOp::Div => 10,
        TreeOp::Rem => 10,
        TreeOp::Minus => 0,
        TreeOp::Plus => 0,
        TreeOp::Not => 0,
        TreeOp::Flip => 0,
        TreeOp::Deref => 0,
        TreeOp::Address => 0,
        TreeOp::Set => 0,
        TreeOp::PostInc => 0,
        TreeOp::PostDec => 0,
    }
}
