ghost use Rattle.std.specs.Prelude.{◌≡◌, List, ◌∷◌, ◌++◌, map, drop, length, OnOk, IfOk};
ghost use Rattle.std.specs.Borrow.{Bor};
ghost use Rattle.ckc_syntax.specs.declared.tree.Expr.{Expr};
ghost use Rattle.ckc_parser_stacks.specs.code.Visits.{parts_of, parts_of_node, parts_of_bounds};

use crate::stack::Stack;
use ckc_base::Boxed;
use ckc_syntax::{Expr, Limits, Node};
use std::alloc::AllocError;

/// Puts the expressions in bounds on top.
pub fn push_bounds<'e, N, A>(
    work: &mut Stack<&'e Expr<N, A>>,
    bounds: &'e Option<Boxed<Limits<N, A>>>,
) -> Result<(), AllocError>
    ensures { OnOk result
        (map (λ b. b.now) work.new ≡ parts_of_bounds bounds.now ++ map (λ b. b.now) work.old) }
{
    match bounds {
        None => Ok(()),
        Some(limits) => match limits.get() {
            Limits::Count(e, _) => work.push(e.get()),
            Limits::ByteCount(e, _) => work.push(e.get()),
            Limits::Between(e, f, _) => push_two(work, e, f),
            Limits::Unknown(_) => Ok(()),
        },
    }
}

/// Puts two expressions on top.
fn push_two<'e, N, A>(
    work: &mut Stack<&'e Expr<N, A>>,
    first: &'e Boxed<Expr<N, A>>,
    second: &'e Boxed<Expr<N, A>>,
) -> Result<(), AllocError>
    ensures { OnOk result
        (map (λ b. b.now) work.new ≡ first.now ∷ second.now ∷ map (λ b. b.now) work.old) }
{
    work.push(second.get())?;
    work.push(first.get())
}

/// Puts three expressions on top.
fn push_three<'e, N, A>(
    work: &mut Stack<&'e Expr<N, A>>,
    first: &'e Boxed<Expr<N, A>>,
    second: &'e Boxed<Expr<N, A>>,
    third: &'e Boxed<Expr<N, A>>,
) -> Result<(), AllocError>
    ensures { OnOk result (map (λ b. b.now) work.new
        ≡ first.now ∷ second.now ∷ third.now ∷ map (λ b. b.now) work.old) }
{
    work.push(third.get())?;
    push_two(work, first, second)
}

/// Puts an expression with bounds on top.
fn push_bounded<'e, N, A>(
    work: &mut Stack<&'e Expr<N, A>>,
    first: &'e Boxed<Expr<N, A>>,
    bounds: &'e Option<Boxed<Limits<N, A>>>,
) -> Result<(), AllocError>
    ensures { OnOk result (map (λ b. b.now) work.new
        ≡ first.now ∷ (parts_of_bounds bounds.now ++ map (λ b. b.now) work.old)) }
{
    push_bounds(work, bounds)?;
    work.push(first.get())
}

/// Puts a list of expressions on top.
fn push_all<'e, N, A>(
    work: &mut Stack<&'e Expr<N, A>>,
    all: &'e [Expr<N, A>],
) -> Result<(), AllocError>
    ensures { OnOk result
        (map (λ b. b.now) work.new ≡ all.now ++ map (λ b. b.now) work.old) }
{
    let mut left = all.len();
    'all: while left > 0 {
        left -= 1;
        work.push(&all[left])?;
    }
    Ok(())
}

/// Puts what an expression is made of on top.
pub fn push_parts<'e, N, A>(
    work: &mut Stack<&'e Expr<N, A>>,
    node: &'e Node<N, A>,
) -> Result<(), AllocError>
    ensures { OnOk result
        (map (λ b. b.now) work.new ≡ parts_of_node node.now ++ map (λ b. b.now) work.old) }
{
    match node {
        Node::Number(_, _) => Ok(()),
        Node::Text(_) => Ok(()),
        Node::Null => Ok(()),
        Node::Name(_) => Ok(()),
        Node::Un(_, e) => work.push(e.get()),
        Node::Bin(_, e, f) => push_two(work, e, f),
        Node::Pick(e, f, g) => push_three(work, e, f, g),
        Node::Index(e, f) => push_two(work, e, f),
        Node::Dot(e, _, _) => work.push(e.get()),
        Node::Arrow(e, _, _) => work.push(e.get()),
        Node::Cast(_, e) => work.push(e.get()),
        Node::Size(_) => Ok(()),
        Node::Trusted(_, e, bounds) => push_bounded(work, e, bounds),
        Node::Tested(_, e, bounds) => push_bounded(work, e, bounds),
        Node::Call(_, es) => push_all(work, es.as_slice()),
        Node::Calloc(_, e, _) => work.push(e.get()),
    }
}
