//! Bounds casts of pointers to one element.

ghost use Rattle.std.specs.Prelude.{◌≡◌};
ghost use Rattle.ckc_source.specs.Code.{expr_of as source_of};
ghost use Rattle.ckc_checks_operands.specs.Cases.{is_one, is_own, is_absent, is_fixed_end, are_single, is_single_count, is_single, casts_one};

use crate::numbers::{is_this, number};
use ckc_source::{Base, Count, End, ExprTree, Limits, Variable};

/// Whether an expression is the number 1.
#[tactic(auto, using(crate::proofs::Numeric::one_by))]
fn is_one(e: &ExprTree) -> bool
    ensures { result ≡ is_one (source_of e.now) }
{
    is_this(1, number(e))
}

/// Whether limits are counted from the pointer itself.
pub fn is_own(base: Base) -> bool
    ensures { result ≡ is_own base }
{
    match base {
        Base::Own => true,
        Base::Local(_) | Base::Fixed(_) => false,
    }
}

fn is_absent(variable: Option<Variable>) -> bool
    ensures { result ≡ is_absent variable }
{
    match variable {
        None => true,
        Some(_) => false,
    }
}

/// Whether an end of limits lies so many elements after the pointer itself.
pub fn is_fixed_end(e: End, add: i32) -> bool
    ensures { result ≡ is_fixed_end e add }
{
    is_own(e.base) && (is_absent(e.variable) && e.add == add)
}

/// Whether limits are those of one element of a size.
fn are_single(size: u32, limits: &Limits) -> bool
    ensures { result ≡ are_single size limits.now }
{
    limits.to.size == size && (is_fixed_end(limits.lower, 0) && is_fixed_end(limits.upper, 1))
}

fn is_single_count(count: Count) -> bool
    ensures { result ≡ is_single_count count }
{
    match count {
        Count::Fixed(n) => n == 1,
        Count::Member(_, _, _) => false,
    }
}

/// Whether an expression is a pointer to one element of a size, or null.
fn is_single(size: u32, e: &ExprTree) -> bool
    ensures { result ≡ is_single size (source_of e.now) }
{
    match e {
        ExprTree::Number(n) => *n == 0,
        ExprTree::Limited(_, limits) => are_single(size, limits.get()),
        ExprTree::Member(to, count, _, _, _) => to.get().size == size && is_single_count(*count),
        ExprTree::Address(bytes, _, _, _) => *bytes == size,
        ExprTree::Tested(same, _, _, _, k) => *same == size && is_one(k.get()),
        ExprTree::Trusted(to, _, _, k) => to.get().size == size && is_one(k.get()),
        ExprTree::Local(_)
        | ExprTree::Array(_, _)
        | ExprTree::Load(_, _, _, _)
        | ExprTree::Moved(_, _, _)
        | ExprTree::Added(_, _, _)
        | ExprTree::Binary(_, _, _, _, _)
        | ExprTree::And(_, _)
        | ExprTree::Or(_, _)
        | ExprTree::Choice(_, _, _)
        | ExprTree::Narrow(_)
        | ExprTree::Bare(_) => false,
    }
}

/// Whether a bounds cast goes from a pointer to one element to one element of the same size.
pub fn casts_one(size: u32, p: &ExprTree, k: &ExprTree) -> bool
    ensures { result ≡ casts_one size (source_of p.now) (source_of k.now) }
{
    is_one(k) && is_single(size, p)
}
