//! Nodes of parts whose names are replaced.

ghost use Rattle.std.specs.Prelude.{Ok};
ghost use Rattle.ckc_syntax.specs.declared.tree.Node.TheVariants as node;
ghost use Rattle.ckc_base.specs.Outcomes.{AnswersOutcome, bind};
ghost use Rattle.ckc_resolve.specs.Meanings.{meaning_named, member_named};
ghost use Rattle.ckc_resolve.specs.Types.{type_named};

use crate::meanings::{named_meaning, named_member};
use crate::names::Names;
use crate::scopes::Scopes;
use crate::types::named_type;
use ckc_base::{Boxed, Bytes, Fault, Pos, Seq};
use ckc_syntax::{Expr, Name, Node, Spelling, TypeTree};
use std::alloc::Global;

/// A string literal.
pub fn text(alloc: Global, bytes: &Bytes) -> Result<Node<Name, ()>, Fault>
    ensures { AnswersOutcome result (Ok (node.Text bytes.now)) }
{
    let copy = Bytes::from_slice(alloc, bytes.as_slice())?;
    Ok(Node::Text(copy))
}

/// A name that is used.
pub fn name<'a>(
    names: &Names<'a>,
    scopes: &Scopes<'a>,
    s: &Spelling<'a>,
    pos: Pos,
) -> Result<Node<Name, ()>, Fault>
    ensures { AnswersOutcome result
        (bind (meaning_named names.now scopes.now s.now pos) (λ n. Ok (node.Name n))) }
{
    let n = named_meaning(names, scopes, s, pos)?;
    Ok(Node::Name(n))
}

/// `x.m`.
pub fn dot<'a>(
    names: &Names<'a>,
    e: Boxed<Expr<Name, ()>>,
    s: &Spelling<'a>,
    at: Pos,
) -> Result<Node<Name, ()>, Fault>
    ensures { AnswersOutcome result
        (bind (member_named names.now s.now at) (λ m. Ok (node.Dot e m at))) }
{
    let member = named_member(names, s, at)?;
    Ok(Node::Dot(e, member, at))
}

/// `p->m`.
pub fn arrow<'a>(
    names: &Names<'a>,
    e: Boxed<Expr<Name, ()>>,
    s: &Spelling<'a>,
    at: Pos,
) -> Result<Node<Name, ()>, Fault>
    ensures { AnswersOutcome result
        (bind (member_named names.now s.now at) (λ m. Ok (node.Arrow e m at))) }
{
    let member = named_member(names, s, at)?;
    Ok(Node::Arrow(e, member, at))
}

/// `sizeof(type)`.
pub fn sizeof<'a>(
    alloc: Global,
    names: &Names<'a>,
    t: &TypeTree<Spelling<'a>>,
) -> Result<Node<Name, ()>, Fault>
    ensures { AnswersOutcome result (bind (type_named names.now t.now) (λ u. Ok (node.Size u))) }
{
    let of = named_type(alloc, names, t)?;
    Ok(Node::Size(of))
}

/// A call of a function.
pub fn call<'a>(
    names: &Names<'a>,
    scopes: &Scopes<'a>,
    s: &Spelling<'a>,
    pos: Pos,
    args: Seq<Expr<Name, ()>>,
) -> Result<Node<Name, ()>, Fault>
    ensures { AnswersOutcome result
        (bind (meaning_named names.now scopes.now s.now pos) (λ n. Ok (node.Call n args))) }
{
    let called = named_meaning(names, scopes, s, pos)?;
    Ok(Node::Call(called, args))
}

/// `calloc<T>(e, sizeof(T))`.
pub fn allocation<'a>(
    alloc: Global,
    names: &Names<'a>,
    of: TypeTree<Name>,
    e: Boxed<Expr<Name, ()>>,
    t: &TypeTree<Spelling<'a>>,
) -> Result<Node<Name, ()>, Fault>
    ensures { AnswersOutcome result
        (bind (type_named names.now t.now) (λ u. Ok (node.Calloc of e u))) }
{
    let size = named_type(alloc, names, t)?;
    Ok(Node::Calloc(of, e, size))
}
