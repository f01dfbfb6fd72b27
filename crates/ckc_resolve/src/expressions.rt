//! Expressions and bounds with their names replaced by what they mean.

ghost use Rattle.ckc_base.specs.Outcomes.{AnswersOutcome};
ghost use Rattle.ckc_resolve.specs.Expressions.{limits_named, node_named, expr_named, exprs_named, bounds_named};

use crate::names::Names;
use crate::nodes;
use crate::scopes::Scopes;
use crate::types::named_type;
use ckc_base::{Boxed, Fault, Pos, Seq};
use ckc_syntax::{Expr, Limits, Name, Node, Spelling};
use std::alloc::Global;

#[cycle(expr)]
fn named_limits<'a>(
    alloc: Global,
    names: &Names<'a>,
    scopes: &Scopes<'a>,
    limits: &Limits<Spelling<'a>, ()>,
) -> Result<Limits<Name, ()>, Fault>
    ensures { AnswersOutcome result (limits_named names.now scopes.now limits.now) }
{
    match limits {
        Limits::Count(e, pos) => {
            let amount = boxed_expr(alloc, names, scopes, e.get())?;
            Ok(Limits::Count(amount, *pos))
        }
        Limits::ByteCount(e, pos) => {
            let amount = boxed_expr(alloc, names, scopes, e.get())?;
            Ok(Limits::ByteCount(amount, *pos))
        }
        Limits::Between(e, f, pos) => {
            let low = boxed_expr(alloc, names, scopes, e.get())?;
            let high = boxed_expr(alloc, names, scopes, f.get())?;
            Ok(Limits::Between(low, high, *pos))
        }
        Limits::Unknown(pos) => Ok(Limits::Unknown(*pos)),
    }
}

#[cycle(expr)]
fn named_node<'a>(
    alloc: Global,
    names: &Names<'a>,
    scopes: &Scopes<'a>,
    node: &Node<Spelling<'a>, ()>,
    pos: Pos,
) -> Result<Node<Name, ()>, Fault>
    ensures { AnswersOutcome result (node_named names.now scopes.now node.now pos) }
{
    match node {
        Node::Number(n, unsigned) => Ok(Node::Number(*n, *unsigned)),
        Node::Text(bytes) => nodes::text(alloc, bytes),
        Node::Null => Ok(Node::Null),
        Node::Name(n) => nodes::name(names, scopes, n, pos),
        Node::Un(op, e) => {
            let e = boxed_expr(alloc, names, scopes, e.get())?;
            Ok(Node::Un(*op, e))
        }
        Node::Bin(op, e, f) => {
            let e = boxed_expr(alloc, names, scopes, e.get())?;
            let f = boxed_expr(alloc, names, scopes, f.get())?;
            Ok(Node::Bin(*op, e, f))
        }
        Node::Pick(e, f, g) => {
            let e = boxed_expr(alloc, names, scopes, e.get())?;
            let f = boxed_expr(alloc, names, scopes, f.get())?;
            let g = boxed_expr(alloc, names, scopes, g.get())?;
            Ok(Node::Pick(e, f, g))
        }
        Node::Index(e, f) => {
            let e = boxed_expr(alloc, names, scopes, e.get())?;
            let f = boxed_expr(alloc, names, scopes, f.get())?;
            Ok(Node::Index(e, f))
        }
        Node::Dot(e, n, at) => {
            let e = boxed_expr(alloc, names, scopes, e.get())?;
            nodes::dot(names, e, n, *at)
        }
        Node::Arrow(e, n, at) => {
            let e = boxed_expr(alloc, names, scopes, e.get())?;
            nodes::arrow(names, e, n, *at)
        }
        Node::Cast(t, e) => {
            let t = named_type(alloc, names, t)?;
            let e = boxed_expr(alloc, names, scopes, e.get())?;
            Ok(Node::Cast(t, e))
        }
        Node::Size(t) => nodes::sizeof(alloc, names, t),
        Node::Trusted(t, e, limits) => {
            let t = named_type(alloc, names, t)?;
            let e = boxed_expr(alloc, names, scopes, e.get())?;
            let limits = named_bounds(alloc, names, scopes, limits)?;
            Ok(Node::Trusted(t, e, limits))
        }
        Node::Tested(t, e, limits) => {
            let t = named_type(alloc, names, t)?;
            let e = boxed_expr(alloc, names, scopes, e.get())?;
            let limits = named_bounds(alloc, names, scopes, limits)?;
            Ok(Node::Tested(t, e, limits))
        }
        Node::Call(n, es) => {
            let args = named_exprs(alloc, names, scopes, es.as_slice())?;
            nodes::call(names, scopes, n, pos, args)
        }
        Node::Calloc(t, e, u) => {
            let t = named_type(alloc, names, t)?;
            let e = boxed_expr(alloc, names, scopes, e.get())?;
            nodes::allocation(alloc, names, t, e, u)
        }
    }
}

/// An expression.
#[cycle(expr)]
fn named_expr<'a>(
    alloc: Global,
    names: &Names<'a>,
    scopes: &Scopes<'a>,
    e: &Expr<Spelling<'a>, ()>,
) -> Result<Expr<Name, ()>, Fault>
    ensures { AnswersOutcome result (expr_named names.now scopes.now e.now) }
{
    let node = named_node(alloc, names, scopes, &e.node, e.pos)?;
    Ok(Expr {
        node,
        pos: e.pos,
        note: (),
    })
}

/// An expression in a box of its own.
#[cycle(expr)]
pub fn boxed_expr<'a>(
    alloc: Global,
    names: &Names<'a>,
    scopes: &Scopes<'a>,
    e: &Expr<Spelling<'a>, ()>,
) -> Result<Boxed<Expr<Name, ()>>, Fault>
    ensures { AnswersOutcome result (expr_named names.now scopes.now e.now) }
{
    let named = named_expr(alloc, names, scopes, e)?;
    let boxed = Boxed::new(alloc, named)?;
    Ok(boxed)
}

/// Expressions from left to right.
#[cycle(expr)]
pub fn named_exprs<'a>(
    alloc: Global,
    names: &Names<'a>,
    scopes: &Scopes<'a>,
    es: &[Expr<Spelling<'a>, ()>],
) -> Result<Seq<Expr<Name, ()>>, Fault>
    ensures { AnswersOutcome result (exprs_named names.now scopes.now es.now) }
{
    let mut all = Seq::new(alloc);
    for e in es {
        let named = named_expr(alloc, names, scopes, e)?;
        all.push(named)?;
    }
    Ok(all)
}

/// Bounds, if there are some.
#[cycle(expr)]
pub fn named_bounds<'a>(
    alloc: Global,
    names: &Names<'a>,
    scopes: &Scopes<'a>,
    bounds: &Option<Boxed<Limits<Spelling<'a>, ()>>>,
) -> Result<Option<Boxed<Limits<Name, ()>>>, Fault>
    ensures { AnswersOutcome result (bounds_named names.now scopes.now bounds.now) }
{
    match bounds {
        None => Ok(None),
        Some(limits) => {
            let named = named_limits(alloc, names, scopes, limits.get())?;
            let boxed = Boxed::new(alloc, named)?;
            Ok(Some(boxed))
        }
    }
}
