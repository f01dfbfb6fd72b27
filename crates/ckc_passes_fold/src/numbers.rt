//! The numbers that operations give their targets.
ghost use Rattle.std.specs.Prelude.{◌≡◌, ◌*ℤ◌, get_or, None};
ghost use Rattle.ckc_base.specs.Words.{applied, word_of};
ghost use Rattle.ckc_base.specs.Products.{high_product};
ghost use Rattle.std.specs.Int.{int_shr};
ghost use Rattle.ckc_passes.specs.Values.{computed};
ghost use Rattle.ckc_passes_fold.specs.code.Tables.{number_given, number_of};

use ckc_base::{BinOp, apply};
use ckc_tac::{Operand, TacOp};

/// The number that an operation gives its target, if that is known.
pub fn given(op: &TacOp, known: &[Option<u32>]) -> Option<u32>
    ensures { result ≡ number_given known.now op.now }
{
    match op {
        TacOp::Const(_, n) => Some(*n),
        TacOp::Copy(_, a) => known_at(*a, known),
        TacOp::Bin(op, _, a, b) => combined(*op, number(*a, known), number(*b, known)),
        TacOp::High(signed, _, a, b) => upper(*signed, number(*a, known), number(*b, known)),
        _ => None,
    }
}

fn number(a: Operand, known: &[Option<u32>]) -> Option<u32>
    ensures { result ≡ number_of known.now a }
{
    match a {
        Operand::Register(r) => known_at(r, known),
        Operand::Number(n) => Some(n),
    }
}

fn known_at(r: u32, known: &[Option<u32>]) -> Option<u32>
    ensures { result ≡ get_or known.now r None }
{
    match known.get(r as usize) {
        Some(number) => *number,
        None => None,
    }
}

fn combined(op: BinOp, a: Option<u32>, b: Option<u32>) -> Option<u32>
    ensures { result ≡ computed (applied op) a b }
{
    match a {
        Some(x) => match b {
            Some(y) => Some(apply(op, x, y)),
            None => None,
        },
        None => None,
    }
}

fn upper(signed: bool, a: Option<u32>, b: Option<u32>) -> Option<u32>
    ensures { result ≡ computed (high_product signed) a b }
{
    match a {
        Some(x) => match b {
            Some(y) => Some(upper_word(signed, x, y)),
            None => None,
        },
        None => None,
    }
}

fn upper_word(signed: bool, a: u32, b: u32) -> u32
    ensures { result ≡ high_product signed a b }
{
    if signed {
        upper_half(product(a.cast_signed(), b.cast_signed()))
    } else {
        (u64::from(a) * u64::from(b) >> 32) as u32
    }
}

fn product(a: i32, b: i32) -> i64
    ensures { result ≡ a *ℤ b }
{
    i64::from(a) * i64::from(b)
}

fn upper_half(product: i64) -> u32
    ensures { result ≡ word_of (int_shr product 32) }
{
    ((product >> 32) as i32).cast_unsigned()
}
