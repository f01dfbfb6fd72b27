//! A copy of an expression without recursion: its expressions are listed, each before its parts, and from the end of
//! the list each is made again of its parts, which then stand on a stack.

ghost use Rattle.std.specs.Prelude.{◌≡◌, [], ◌∷◌, map, IfOk};
ghost use Rattle.ckc_syntax.specs.declared.tree.Expr.{Expr};
ghost use Rattle.ckc_parser_stacks.specs.code.Visits.{Visits};

use crate::parts::push_parts;
use crate::remade::remade;
use crate::stack::Stack;
use ckc_base::{Boxed, Seq};
use ckc_syntax::{ExactClone, Expr, Node, TypeTree};
use std::alloc::{AllocError, Global};
use std::marker::Model;
use std::mem::forget;

/// How much may be copied of the trees of one text: this many expressions, pointers in types and bytes of strings.
/// `++` with n others before its operand has more than 2 to the power n expressions.
const MOST_COPIED: usize = 1_000_000;

/// What is left of it. Contracts do not see it, since past it the answer is want of memory.
#[derive(Drop)]
pub struct Budget {
    left: usize,
}

impl Model for Budget {
    ghost Value = { Unit {0} };

    ghost view = { λ b. tt };
}

impl Budget {
    /// All of it is left.
    pub fn new() -> Budget {
        Budget { left: MOST_COPIED }
    }
}

/// Takes from what is left, if there is enough.
fn spend(budget: &mut Budget, amount: usize) -> Result<(), AllocError> {
    let Some(left) = budget.left.checked_sub(amount) else {
        return Err(AllocError);
    };
    budget.left = left;
    Ok(())
}

/// How many pointers a type has, if they are not too many.
fn pointers_in<N>(ctype: &TypeTree<N>) -> usize {
    let mut rest = ctype;
    for count in 0..MOST_COPIED {
        rest = match rest {
            TypeTree::Raw(inner, _) => inner.get(),
            TypeTree::One(inner) => inner.get(),
            TypeTree::Arr(inner) => inner.get(),
            TypeTree::Nt(inner) => inner.get(),
            _ => return count,
        };
    }
    MOST_COPIED
}

/// How much is copied with an expression, its parts apart.
fn weight<N, A>(node: &Node<N, A>) -> usize {
    match node {
        Node::Text(bytes) => bytes.len().saturating_add(1),
        Node::Cast(ctype, _) => pointers_in(ctype).saturating_add(1),
        Node::Size(ctype) => pointers_in(ctype).saturating_add(1),
        Node::Trusted(ctype, _, _) => pointers_in(ctype).saturating_add(1),
        Node::Tested(ctype, _, _) => pointers_in(ctype).saturating_add(1),
        Node::Calloc(element, _, sized) => pointers_in(element)
            .saturating_add(pointers_in(sized))
            .saturating_add(1),
        _ => 1,
    }
}

/// The expressions in an expression, each before its parts.
#[tactic(auto, using(crate::proofs::Visiting::begins, crate::proofs::Visiting::next_visit, crate::proofs::Visiting::all_visited))]
fn visited<'e, N, A>(
    alloc: Global,
    e: &'e Expr<N, A>,
    budget: &mut Budget,
) -> Result<Seq<&'e Expr<N, A>>, AllocError>
    ensures { IfOk result (λ all. Visits (e.now ∷ []) (map (λ b. b.now) all)) }
{
    let mut work = Stack::new(alloc);
    let mut all = Seq::new(alloc);
    work.push(e)?;
    for _ in 0..u64::MAX {
        let Some(next) = work.pop() else {
            return Ok(all);
        };
        spend(budget, weight(&next.node))?;
        push_parts(&mut work, &next.node)?;
        all.push(next)?;
    }
    Err(AllocError)
}

/// The expression whose expressions these are.
#[tactic(auto, using(crate::proofs::Visiting::starts, crate::proofs::Visiting::next_made, crate::proofs::Visiting::made_again))]
fn rebuilt<'e, N: ExactClone>(
    alloc: Global,
    all: Seq<&'e Expr<N, ()>>,
) -> Result<Boxed<Expr<N, ()>>, AllocError>
    ensures { (e : Expr N (Unit {0})) → Visits (e ∷ []) (map (λ b. b.now) all.entry)
        → IfOk result (λ copy. copy ≡ e) }
{
    let mut rest = all;
    let mut made = Stack::new(alloc);
    'rest: while let Some(next) = rest.pop() {
        match remade(alloc, next, &mut made) {
            Ok(()) => {}
            Err(e) => {
                forget(made);
                return Err(e);
            }
        }
    }
    let copy = made.take()?;
    Ok(copy)
}

/// An expression once more.
pub fn copied_expression<N: ExactClone>(
    alloc: Global,
    e: &Expr<N, ()>,
    budget: &mut Budget,
) -> Result<Boxed<Expr<N, ()>>, AllocError>
    ensures { IfOk result (λ copy. copy ≡ e.now) }
{
    let all = visited(alloc, e, budget)?;
    rebuilt(alloc, all)
}
