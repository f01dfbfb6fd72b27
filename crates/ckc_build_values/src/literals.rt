//! How many string literals expressions have.

ghost use Rattle.std.specs.Prelude.{◌≡◌, ◌+◌, IfOk, map};
ghost use Rattle.std.specs.Option.{option_map};
ghost use Rattle.ckc_build_values.specs.Expressions.{part_of, part_of_node, part_of_limits, all_literals, literals_if, literals_of, literals_of_limits};

use ckc_base::{Boxed, sum};
use ckc_syntax::{Expr, Limits, Name, Node};
use ckc_typed::Note;
use std::alloc::AllocError;

#[cycle(literals)]
fn in_node(node: &Node<Name, Note>, before: u32) -> Result<u32, AllocError>
    ensures { IfOk result (λ n. n ≡ before + (part_of_node node.now).literals) }
{
    match node {
        Node::Text(_) => sum(before, 1),
        Node::Un(_, e) | Node::Dot(e, _, _) | Node::Arrow(e, _, _) => in_expr(e.get(), before),
        Node::Cast(_, e) | Node::Calloc(_, e, _) => in_expr(e.get(), before),
        Node::Bin(_, e, f) | Node::Index(e, f) => {
            let n = in_expr(e.get(), before)?;
            in_expr(f.get(), n)
        }
        Node::Pick(e, f, g) => {
            let n = in_expr(e.get(), before)?;
            let m = in_expr(f.get(), n)?;
            in_expr(g.get(), m)
        }
        Node::Trusted(_, e, l) | Node::Tested(_, e, l) => {
            let n = in_expr(e.get(), before)?;
            in_bounds(l, n)
        }
        Node::Call(_, es) => in_exprs(es.as_slice(), before),
        Node::Number(_, _) | Node::Null | Node::Name(_) | Node::Size(_) => Ok(before),
    }
}

/// A number, and one more for each string literal in an expression.
#[cycle(literals)]
pub fn in_expr(e: &Expr<Name, Note>, before: u32) -> Result<u32, AllocError>
    ensures { IfOk result (λ n. n ≡ before + literals_of e.now) }
{
    in_node(&e.node, before)
}

/// A number, and one more for each string literal in expressions.
#[cycle(literals)]
pub fn in_exprs(es: &[Expr<Name, Note>], before: u32) -> Result<u32, AllocError>
    ensures { IfOk result (λ n. n ≡ before + all_literals (map part_of es.now)) }
{
    let mut n = before;
    for e in es {
        n = in_expr(e, n)?;
    }
    Ok(n)
}

#[cycle(literals)]
fn in_limits(l: &Limits<Name, Note>, before: u32) -> Result<u32, AllocError>
    ensures { IfOk result (λ n. n ≡ before + literals_of_limits l.now) }
{
    match l {
        Limits::Count(e, _) | Limits::ByteCount(e, _) => in_expr(e.get(), before),
        Limits::Between(e, f, _) => {
            let n = in_expr(e.get(), before)?;
            in_expr(f.get(), n)
        }
        Limits::Unknown(_) => Ok(before),
    }
}

/// A number, and one more for each string literal in bounds.
#[cycle(literals)]
pub fn in_bounds(l: &Option<Boxed<Limits<Name, Note>>>, before: u32) -> Result<u32, AllocError>
    ensures { IfOk result (λ n. n ≡ before + literals_if (option_map part_of_limits l.now)) }
{
    match l {
        None => Ok(before),
        Some(l) => in_limits(l.get(), before),
    }
}
