//! Facts about comparisons, and what tells and ends them.
ghost use Rattle.std.specs.Prelude.{◌≡◌, ◌==◌, not};
ghost use Rattle.ckc_base.specs.Words.{applied};
ghost use Rattle.ckc_tac.specs.Operations.{operation_of};
ghost use Rattle.ckc_flow.specs.Live.{is_register as is_register_of};
ghost use Rattle.ckc_passes_known.specs.Known.{always as always_of, changes as changes_of, fact_of, not_negative as not_negative_of};
ghost use Rattle.ckc_passes_known.specs.code.Marks.{same_comparison, same_fact, same_operand, tells as tells_of};

use ckc_base::{BinOp, apply};
use ckc_tac::{Comparison, Operand, TacOp};

/// That a comparison of two operands holds, or that it does not.
#[derive(Clone, Copy)]
pub struct Fact {
    pub comparison: Comparison,
    pub a: Operand,
    pub b: Operand,
    pub holds: bool,
}

/// The fact that a comparison holds, or does not.
pub fn claim(comparison: Comparison, a: Operand, b: Operand, holds: bool) -> Fact
    ensures { result ≡ fact_of comparison a b holds }
{
    match comparison {
        Comparison::LtS => stated(Comparison::LtS, a, b, holds),
        Comparison::LtU => stated(Comparison::LtU, a, b, holds),
        Comparison::Eq => stated(Comparison::Eq, a, b, holds),
        Comparison::Ne => stated(Comparison::Eq, a, b, !holds),
    }
}

/// The comparison as it is, with whether it holds.
fn stated(comparison: Comparison, a: Operand, b: Operand, holds: bool) -> Fact
    ensures { result ≡ record { comparison = comparison; a = a; b = b; holds = holds } }
{
    Fact {
        comparison,
        a,
        b,
        holds,
    }
}

/// Whether two facts are the same.
pub fn is_same(one: Fact, other: Fact) -> bool
    ensures { result ≡ same_fact one other }
{
    is_same_comparison(one.comparison, other.comparison)
        && is_same_operand(one.a, other.a)
        && is_same_operand(one.b, other.b)
        && one.holds == other.holds
}

fn is_same_comparison(c: Comparison, d: Comparison) -> bool
    ensures { result ≡ same_comparison c d }
{
    match (c, d) {
        (Comparison::LtS, Comparison::LtS) => true,
        (Comparison::LtU, Comparison::LtU) => true,
        (Comparison::Eq, Comparison::Eq) => true,
        (Comparison::Ne, Comparison::Ne) => true,
        _ => false,
    }
}

fn is_same_operand(a: Operand, b: Operand) -> bool
    ensures { result ≡ same_operand a b }
{
    match (a, b) {
        (Operand::Register(r), Operand::Register(q)) => r == q,
        (Operand::Number(m), Operand::Number(n)) => m == n,
        (Operand::Register(_), Operand::Number(_)) => false,
        (Operand::Number(_), Operand::Register(_)) => false,
    }
}

/// Whether a comparison holds, if that can be said without a fact.
pub fn always(comparison: Comparison, a: Operand, b: Operand) -> Option<bool>
    ensures { result ≡ always_of comparison a b }
{
    match (a, b) {
        (Operand::Number(m), Operand::Number(n)) => Some(compares(comparison, m, n)),
        (Operand::Register(r), Operand::Register(q)) => {
            if r == q {
                Some(compares(comparison, 0, 0))
            } else {
                None
            }
        }
        (Operand::Register(_), Operand::Number(_)) => None,
        (Operand::Number(_), Operand::Register(_)) => None,
    }
}

fn compares(comparison: Comparison, m: u32, n: u32) -> bool
    ensures { result ≡ not (applied (operation_of comparison) m n == 0) }
{
    apply(operation(comparison), m, n) != 0
}

fn operation(comparison: Comparison) -> BinOp
    ensures { result ≡ operation_of comparison }
{
    match comparison {
        Comparison::LtS => BinOp::LtS,
        Comparison::LtU => BinOp::LtU,
        Comparison::Eq => BinOp::Eq,
        Comparison::Ne => BinOp::Ne,
    }
}

/// Whether the register that is written, if there is one, is an operand of a fact.
pub fn is_changed(target: Option<u32>, fact: Fact) -> bool
    ensures { result ≡ changes_of target fact }
{
    match target {
        Some(t) => is_register(t, fact.a) || is_register(t, fact.b),
        None => false,
    }
}

fn is_register(r: u32, a: Operand) -> bool
    ensures { result ≡ is_register_of r a }
{
    match a {
        Operand::Register(q) => q == r,
        Operand::Number(_) => false,
    }
}

/// Whether an operation tells a fact.
pub fn is_told(op: &TacOp, fact: Fact) -> bool
    ensures { result ≡ tells_of op.now fact }
{
    match op {
        TacOp::Check(_, _, comparison, a, b) => is_same(claim(*comparison, *a, *b, true), fact),
        TacOp::Const(t, n) => *n < 0x8000_0000 && is_same(not_negative(*t), fact),
        _ => false,
    }
}

/// That a register is not negative as a signed word.
pub fn not_negative(r: u32) -> Fact
    ensures { result ≡ not_negative_of r }
{
    stated(
        Comparison::LtS,
        Operand::Register(r),
        Operand::Number(0),
        false,
    )
}
