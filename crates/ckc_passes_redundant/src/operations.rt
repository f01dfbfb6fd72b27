//! Operations on two words, and their numbers.
ghost use Rattle.std.specs.Prelude.{◌≡◌, ◌*ℤ◌};
ghost use Rattle.std.specs.Int.{int_shr};
ghost use Rattle.ckc_base.specs.Words.{word_of};
ghost use Rattle.ckc_base.specs.Products.{high_product};
ghost use Rattle.ckc_tac.specs.Operations.{operation_of};
ghost use Rattle.ckc_passes_redundant.specs.declared.operations.Operation.TheVariants.{Whole};
ghost use Rattle.ckc_passes_redundant.specs.code.Operations.{binary_number, operation_number, result_by};

use ckc_base::{BinOp, apply};
use ckc_tac::Comparison;

/// An operation on two words, or the upper half of their product, signed if the flag says so.
#[derive(Clone, Copy)]
pub enum Operation {
    Whole(BinOp),
    Half(bool),
}

/// The operation of a comparison.
pub fn comparing(comparison: Comparison) -> Operation
    ensures { result ≡ Whole (operation_of comparison) }
{
    match comparison {
        Comparison::LtS => Operation::Whole(BinOp::LtS),
        Comparison::LtU => Operation::Whole(BinOp::LtU),
        Comparison::Eq => Operation::Whole(BinOp::Eq),
        Comparison::Ne => Operation::Whole(BinOp::Ne),
    }
}

/// The number of an operation: no two have the same.
pub fn number(operation: Operation) -> u32
    ensures { result ≡ operation_number operation }
{
    match operation {
        Operation::Whole(op) => number_of(op),
        Operation::Half(false) => 17,
        Operation::Half(true) => 18,
    }
}

fn number_of(op: BinOp) -> u32
    ensures { result ≡ binary_number op }
{
    match op {
        BinOp::Add => 0,
        BinOp::Sub => 1,
        BinOp::Mul => 2,
        BinOp::DivS => 3,
        BinOp::DivU => 4,
        BinOp::RemS => 5,
        BinOp::RemU => 6,
        BinOp::And => 7,
        BinOp::Or => 8,
        BinOp::Xor => 9,
        BinOp::Shl => 10,
        BinOp::ShrS => 11,
        BinOp::ShrU => 12,
        BinOp::LtS => 13,
        BinOp::LtU => 14,
        BinOp::Eq => 15,
        BinOp::Ne => 16,
    }
}

/// What an operation gives for two words.
pub fn compute(operation: Operation, a: u32, b: u32) -> u32
    ensures { result ≡ result_by operation a b }
{
    match operation {
        Operation::Whole(op) => apply(op, a, b),
        Operation::Half(is_signed) => upper(is_signed, a, b),
    }
}

fn upper(is_signed: bool, a: u32, b: u32) -> u32
    ensures { result ≡ high_product is_signed a b }
{
    if is_signed {
        upper_half(product(a.cast_signed(), b.cast_signed()))
    } else {
        (u64::from(a) * u64::from(b) >> 32) as u32
    }
}

fn product(a: i32, b: i32) -> i64
    ensures { result ≡ a *ℤ b }
{
    i64::from(a) * i64::from(b)
}

fn upper_half(product: i64) -> u32
    ensures { result ≡ word_of (int_shr product 32) }
{
    ((product >> 32) as i32).cast_unsigned()
}
