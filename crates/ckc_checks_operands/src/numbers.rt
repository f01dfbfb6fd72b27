//! Numbers that stand in expressions.

ghost use Rattle.std.specs.Prelude.{◌≡◌};
ghost use Rattle.ckc_source.specs.Code.{expr_of as source_of};
ghost use Rattle.ckc_checks_operands.specs.code.Operands.{number_of, is_this, is_number};

use ckc_source::ExprTree;

/// The number that an expression is.
pub fn number(e: &ExprTree) -> Option<u32>
    ensures { result ≡ number_of (source_of e.now) }
{
    match e {
        ExprTree::Number(n) => Some(*n),
        _ => None,
    }
}

/// Whether there is a number, and it is so much.
pub fn is_this(k: u32, number: Option<u32>) -> bool
    ensures { result ≡ is_this k number }
{
    match number {
        Some(n) => n == k,
        None => false,
    }
}

/// Whether an expression is a number.
#[tactic(auto, using(crate::proofs::Numeric::is_some, crate::proofs::Numeric::is_none))]
pub fn is_number(e: &ExprTree) -> bool
    ensures { result ≡ is_number (source_of e.now) }
{
    match number(e) {
        Some(_) => true,
        None => false,
    }
}
