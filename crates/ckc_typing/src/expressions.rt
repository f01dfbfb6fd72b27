//! Expressions and bounds with their types noted, or the first fault: the parts of an expression are judged from left
//! to right, and then itself.

ghost use Rattle.ckc_typed.specs.Expressions.{limits_typed, node_typed, expr_typed, exprs_typed, bounds_typed, value_typed};
ghost use Rattle.ckc_base.specs.Outcomes.{AnswersOutcome};

use crate::makers;
use ckc_base::{Boxed, Fault, Mode, Pos, Seq};
use ckc_syntax::{Expr, Limits, Name, Node};
use ckc_typed::{Note, Variable};
use ckc_typing_environment::scope::FileScope;
use std::alloc::Global;

#[cycle(expr)]
fn typed_limits(
    alloc: Global,
    globals: &FileScope,
    variables: &[Variable],
    mode: Mode,
    limits: &Limits<Name, ()>,
) -> Result<Limits<Name, Note>, Fault>
    ensures { AnswersOutcome result (limits_typed globals.now variables.now mode limits.now) }
{
    match limits {
        Limits::Count(e, at) => {
            let amount = boxed_expr(alloc, globals, variables, mode, e.get())?;
            Ok(Limits::Count(amount, *at))
        }
        Limits::ByteCount(e, at) => {
            let amount = boxed_expr(alloc, globals, variables, mode, e.get())?;
            Ok(Limits::ByteCount(amount, *at))
        }
        Limits::Between(e, f, at) => {
            let low = boxed_expr(alloc, globals, variables, mode, e.get())?;
            let high = boxed_expr(alloc, globals, variables, mode, f.get())?;
            Ok(Limits::Between(low, high, *at))
        }
        Limits::Unknown(pos) => Ok(Limits::Unknown(*pos)),
    }
}

#[cycle(expr)]
fn typed_node(
    alloc: Global,
    globals: &FileScope,
    variables: &[Variable],
    mode: Mode,
    node: &Node<Name, ()>,
    pos: Pos,
) -> Result<Expr<Name, Note>, Fault>
    ensures { AnswersOutcome result (node_typed globals.now variables.now mode node.now pos) }
{
    match node {
        Node::Number(n, unsigned) => Ok(makers::number(mode, pos, *n, *unsigned)),
        Node::Text(bytes) => makers::text(alloc, mode, pos, bytes),
        Node::Null => makers::null(alloc, mode, pos),
        Node::Name(n) => makers::name(alloc, globals, variables, mode, pos, *n),
        Node::Un(op, e) => {
            let e = boxed_expr(alloc, globals, variables, mode, e.get())?;
            makers::unary(alloc, globals, mode, pos, *op, e)
        }
        Node::Bin(op, e, f) => {
            let e = boxed_expr(alloc, globals, variables, mode, e.get())?;
            let f = boxed_expr(alloc, globals, variables, mode, f.get())?;
            makers::binary(alloc, mode, pos, *op, e, f)
        }
        Node::Pick(e, f, g) => {
            let e = boxed_expr(alloc, globals, variables, mode, e.get())?;
            let f = boxed_expr(alloc, globals, variables, mode, f.get())?;
            let g = boxed_expr(alloc, globals, variables, mode, g.get())?;
            makers::choice(mode, pos, e, f, g)
        }
        Node::Index(e, f) => {
            let e = boxed_expr(alloc, globals, variables, mode, e.get())?;
            let f = boxed_expr(alloc, globals, variables, mode, f.get())?;
            makers::index(alloc, mode, pos, e, f)
        }
        Node::Dot(e, n, at) => {
            let e = boxed_expr(alloc, globals, variables, mode, e.get())?;
            makers::dot(alloc, globals, mode, pos, e, *n, *at)
        }
        Node::Arrow(e, n, at) => {
            let e = boxed_expr(alloc, globals, variables, mode, e.get())?;
            makers::arrow(alloc, globals, mode, pos, e, *n, *at)
        }
        Node::Cast(w, e) => {
            let e = boxed_expr(alloc, globals, variables, mode, e.get())?;
            makers::cast(alloc, mode, pos, w, e)
        }
        Node::Size(w) => makers::sizeof(alloc, mode, pos, w),
        Node::Trusted(w, e, limits) => {
            let e = boxed_expr(alloc, globals, variables, mode, e.get())?;
            let limits = typed_bounds(alloc, globals, variables, mode, limits)?;
            makers::trusted(alloc, mode, pos, w, e, limits)
        }
        Node::Tested(w, e, limits) => {
            let e = boxed_expr(alloc, globals, variables, mode, e.get())?;
            let limits = typed_bounds(alloc, globals, variables, mode, limits)?;
            makers::tested(alloc, mode, pos, w, e, limits)
        }
        Node::Call(n, es) => {
            let args = typed_exprs(alloc, globals, variables, mode, es.as_slice())?;
            makers::call(alloc, globals, mode, pos, *n, args)
        }
        Node::Calloc(w, e, x) => {
            let e = boxed_expr(alloc, globals, variables, mode, e.get())?;
            makers::allocation(alloc, mode, pos, w, e, x)
        }
    }
}

/// An expression with its type noted.
#[cycle(expr)]
fn typed_expr(
    alloc: Global,
    globals: &FileScope,
    variables: &[Variable],
    mode: Mode,
    e: &Expr<Name, ()>,
) -> Result<Expr<Name, Note>, Fault>
    ensures { AnswersOutcome result (expr_typed globals.now variables.now mode e.now) }
{
    typed_node(alloc, globals, variables, mode, &e.node, e.pos)
}

/// An expression in a box of its own.
#[cycle(expr)]
pub fn boxed_expr(
    alloc: Global,
    globals: &FileScope,
    variables: &[Variable],
    mode: Mode,
    e: &Expr<Name, ()>,
) -> Result<Boxed<Expr<Name, Note>>, Fault>
    ensures { AnswersOutcome result (expr_typed globals.now variables.now mode e.now) }
{
    let typed = typed_expr(alloc, globals, variables, mode, e)?;
    let boxed = Boxed::new(alloc, typed)?;
    Ok(boxed)
}

/// Expressions from left to right.
#[cycle(expr)]
pub fn typed_exprs(
    alloc: Global,
    globals: &FileScope,
    variables: &[Variable],
    mode: Mode,
    es: &[Expr<Name, ()>],
) -> Result<Seq<Expr<Name, Note>>, Fault>
    ensures { AnswersOutcome result (exprs_typed globals.now variables.now mode es.now) }
{
    let mut all = Seq::new(alloc);
    for e in es {
        let typed = typed_expr(alloc, globals, variables, mode, e)?;
        all.push(typed)?;
    }
    Ok(all)
}

/// Bounds, if there are some.
#[cycle(expr)]
pub fn typed_bounds(
    alloc: Global,
    globals: &FileScope,
    variables: &[Variable],
    mode: Mode,
    bounds: &Option<Boxed<Limits<Name, ()>>>,
) -> Result<Option<Boxed<Limits<Name, Note>>>, Fault>
    ensures { AnswersOutcome result (bounds_typed globals.now variables.now mode bounds.now) }
{
    match bounds {
        None => Ok(None),
        Some(limits) => {
            let typed = typed_limits(alloc, globals, variables, mode, limits.get())?;
            let boxed = Boxed::new(alloc, typed)?;
            Ok(Some(boxed))
        }
    }
}

/// An expression, if there is one.
pub fn typed_value(
    alloc: Global,
    globals: &FileScope,
    variables: &[Variable],
    mode: Mode,
    value: &Option<Boxed<Expr<Name, ()>>>,
) -> Result<Option<Boxed<Expr<Name, Note>>>, Fault>
    ensures { AnswersOutcome result (value_typed globals.now variables.now mode value.now) }
{
    match value {
        None => Ok(None),
        Some(e) => {
            let typed = boxed_expr(alloc, globals, variables, mode, e.get())?;
            Ok(Some(typed))
        }
    }
}
