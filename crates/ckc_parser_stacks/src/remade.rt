//! An expression made again of copies of its parts.

ghost use Rattle.std.specs.Prelude.{◌≡◌, List, ◌∷◌, ◌++◌, length, OnOk, IfOk};
ghost use Rattle.ckc_syntax.specs.declared.tree.Expr.{Expr};
ghost use Rattle.ckc_syntax.specs.declared.tree.Limits.{out-Limits};
ghost use Rattle.ckc_syntax.specs.declared.tree.Node.TheVariants as node;
ghost use Rattle.ckc_parser_stacks.specs.code.Visits.{limits_parts, parts_of_node, parts_of_bounds, IsRemade};

use crate::stack::Stack;
use ckc_base::{Boxed, Bytes, Seq};
use ckc_syntax::{ExactClone, Expr, Limits, Node, TypeTree, copied_type};
use std::alloc::{AllocError, Global};

/// The upper two.
fn take_two<N: Drop>(
    made: &mut Stack<Boxed<Expr<N, ()>>>,
) -> Result<(Boxed<Expr<N, ()>>, Boxed<Expr<N, ()>>), AllocError>
    ensures { IfOk result (λ both. made.old ≡ both.0 ∷ both.1 ∷ made.new) }
{
    let first = made.take()?;
    let second = made.take()?;
    Ok((first, second))
}

/// The upper ones, as many as these.
fn take_all<N: Drop>(
    alloc: Global,
    many: usize,
    made: &mut Stack<Boxed<Expr<N, ()>>>,
) -> Result<Seq<Expr<N, ()>>, AllocError>
    ensures { IfOk result
        (λ all. (length all ≡ many) × (made.old ≡ all ++ made.new)) }
{
    let mut all = Seq::new(alloc);
    for _ in 0..many {
        let next = made.take()?;
        all.push(next.into_inner())?;
    }
    Ok(all)
}

/// A call with its arguments.
fn remade_call<N: ExactClone>(
    alloc: Global,
    name: &N,
    arguments: &Seq<Expr<N, ()>>,
    made: &mut Stack<Boxed<Expr<N, ()>>>,
) -> Result<Node<N, ()>, AllocError>
    ensures { (rest : List (Expr N (Unit {0}))) → made.old ≡ arguments.now ++ rest
        → IfOk result (λ n. (n ≡ node.Call name.now arguments.now) × (made.new ≡ rest)) }
{
    let name = name.exact_clone(alloc)?;
    let all = take_all(alloc, arguments.len(), made)?;
    Ok(Node::Call(name, all))
}

/// Bounds with their expressions.
fn remade_limits<N: Drop>(
    limits: &Limits<N, ()>,
    made: &mut Stack<Boxed<Expr<N, ()>>>,
) -> Result<Limits<N, ()>, AllocError>
    ensures { (rest : List (Expr N (Unit {0})))
        → made.old ≡ limits_parts (out-Limits N (Unit {0}) limits.now) ++ rest
        → IfOk result (λ l. (l ≡ limits.now) × (made.new ≡ rest)) }
{
    match limits {
        Limits::Count(_, pos) => {
            let e = made.take()?;
            Ok(Limits::Count(e, *pos))
        }
        Limits::ByteCount(_, pos) => {
            let e = made.take()?;
            Ok(Limits::ByteCount(e, *pos))
        }
        Limits::Between(_, _, pos) => {
            let (e, f) = take_two(made)?;
            Ok(Limits::Between(e, f, *pos))
        }
        Limits::Unknown(pos) => Ok(Limits::Unknown(*pos)),
    }
}

/// Bounds that may be left out.
fn remade_bounds<N: Drop>(
    alloc: Global,
    bounds: &Option<Boxed<Limits<N, ()>>>,
    made: &mut Stack<Boxed<Expr<N, ()>>>,
) -> Result<Option<Boxed<Limits<N, ()>>>, AllocError>
    ensures { (rest : List (Expr N (Unit {0}))) → made.old ≡ parts_of_bounds bounds.now ++ rest
        → IfOk result (λ b. (b ≡ bounds.now) × (made.new ≡ rest)) }
{
    match bounds {
        None => Ok(None),
        Some(limits) => {
            let copy = remade_limits(limits.get(), made)?;
            let boxed = Boxed::new(alloc, copy)?;
            Ok(Some(boxed))
        }
    }
}

/// A bounds cast that is tested.
fn remade_tested<N: ExactClone>(
    alloc: Global,
    ctype: &TypeTree<N>,
    bounds: &Option<Boxed<Limits<N, ()>>>,
    made: &mut Stack<Boxed<Expr<N, ()>>>,
) -> Result<Node<N, ()>, AllocError>
    ensures { (e : Expr N (Unit {0})) (rest : List (Expr N (Unit {0})))
        → made.old ≡ e ∷ (parts_of_bounds bounds.now ++ rest)
        → IfOk result (λ n. (n ≡ node.Tested ctype.now e bounds.now) × (made.new ≡ rest)) }
{
    let ctype = copied_type(alloc, ctype)?;
    let e = made.take()?;
    let bounds = remade_bounds(alloc, bounds, made)?;
    Ok(Node::Tested(ctype, e, bounds))
}

/// A bounds cast that is not tested.
fn remade_trusted<N: ExactClone>(
    alloc: Global,
    ctype: &TypeTree<N>,
    bounds: &Option<Boxed<Limits<N, ()>>>,
    made: &mut Stack<Boxed<Expr<N, ()>>>,
) -> Result<Node<N, ()>, AllocError>
    ensures { (e : Expr N (Unit {0})) (rest : List (Expr N (Unit {0})))
        → made.old ≡ e ∷ (parts_of_bounds bounds.now ++ rest)
        → IfOk result (λ n. (n ≡ node.Trusted ctype.now e bounds.now) × (made.new ≡ rest)) }
{
    let ctype = copied_type(alloc, ctype)?;
    let e = made.take()?;
    let bounds = remade_bounds(alloc, bounds, made)?;
    Ok(Node::Trusted(ctype, e, bounds))
}

/// What has no operand, or has a type.
fn remade_leaf<N: ExactClone>(
    alloc: Global,
    node: &Node<N, ()>,
    made: &mut Stack<Boxed<Expr<N, ()>>>,
) -> Result<Node<N, ()>, AllocError>
    ensures { (rest : List (Expr N (Unit {0}))) → made.old ≡ parts_of_node node.now ++ rest
        → IfOk result (λ n. (n ≡ node.now) × (made.new ≡ rest)) }
{
    match node {
        Node::Number(n, unsigned) => Ok(Node::Number(*n, *unsigned)),
        Node::Text(bytes) => {
            let copy = Bytes::from_slice(alloc, bytes.as_slice())?;
            Ok(Node::Text(copy))
        }
        Node::Null => Ok(Node::Null),
        Node::Name(n) => {
            let n = n.exact_clone(alloc)?;
            Ok(Node::Name(n))
        }
        Node::Size(t) => {
            let t = copied_type(alloc, t)?;
            Ok(Node::Size(t))
        }
        Node::Calloc(t, _, u) => {
            let t = copied_type(alloc, t)?;
            let u = copied_type(alloc, u)?;
            let e = made.take()?;
            Ok(Node::Calloc(t, e, u))
        }
        _ => Err(AllocError),
    }
}

/// What has one operand.
fn remade_one<N: ExactClone>(
    alloc: Global,
    node: &Node<N, ()>,
    made: &mut Stack<Boxed<Expr<N, ()>>>,
) -> Result<Node<N, ()>, AllocError>
    ensures { (rest : List (Expr N (Unit {0}))) → made.old ≡ parts_of_node node.now ++ rest
        → IfOk result (λ n. (n ≡ node.now) × (made.new ≡ rest)) }
{
    match node {
        Node::Dot(_, n, pos) => {
            let n = n.exact_clone(alloc)?;
            let e = made.take()?;
            Ok(Node::Dot(e, n, *pos))
        }
        Node::Arrow(_, n, pos) => {
            let n = n.exact_clone(alloc)?;
            let e = made.take()?;
            Ok(Node::Arrow(e, n, *pos))
        }
        Node::Cast(t, _) => {
            let t = copied_type(alloc, t)?;
            let e = made.take()?;
            Ok(Node::Cast(t, e))
        }
        _ => remade_leaf(alloc, node, made),
    }
}

/// An expression without its place.
fn remade_node<N: ExactClone>(
    alloc: Global,
    node: &Node<N, ()>,
    made: &mut Stack<Boxed<Expr<N, ()>>>,
) -> Result<Node<N, ()>, AllocError>
    ensures { (rest : List (Expr N (Unit {0}))) → made.old ≡ parts_of_node node.now ++ rest
        → IfOk result (λ n. (n ≡ node.now) × (made.new ≡ rest)) }
{
    match node {
        Node::Un(op, _) => {
            let e = made.take()?;
            Ok(Node::Un(*op, e))
        }
        Node::Bin(op, _, _) => {
            let (e, f) = take_two(made)?;
            Ok(Node::Bin(*op, e, f))
        }
        Node::Pick(_, _, _) => {
            let (e, f) = take_two(made)?;
            let g = made.take()?;
            Ok(Node::Pick(e, f, g))
        }
        Node::Index(_, _) => {
            let (e, f) = take_two(made)?;
            Ok(Node::Index(e, f))
        }
        Node::Trusted(t, _, bounds) => remade_trusted(alloc, t, bounds, made),
        Node::Tested(t, _, bounds) => remade_tested(alloc, t, bounds, made),
        Node::Call(n, es) => remade_call(alloc, n, es, made),
        _ => remade_one(alloc, node, made),
    }
}

/// An expression, in place of the copies of its parts.
#[tactic(auto, using(crate::proofs::Visiting::is_remade))]
pub fn remade<N: ExactClone>(
    alloc: Global,
    e: &Expr<N, ()>,
    made: &mut Stack<Boxed<Expr<N, ()>>>,
) -> Result<(), AllocError>
    ensures { OnOk result (IsRemade e.now made.old made.new) }
{
    let node = remade_node(alloc, &e.node, made)?;
    let whole = Boxed::new(
        alloc,
        Expr {
            node,
            pos: e.pos,
            note: (),
        },
    )?;
    made.push(whole)
}
