//! Arithmetic on integers and addresses.

ghost use Rattle.std.specs.Prelude.{◌≡◌, pos, negsuc, ◌≤ℤ◌, ◌<ℤ◌, ◌^◌};
ghost use Rattle.ckc_source.specs.Words.{exact, as_address, elements_behind, computed};

use ckc_base::{BinOp, apply};
use ckc_source::operators::operator;
use ckc_source::{Integer, Operation};

/// The integer that a word of the type stands for.
pub fn exact(form: Integer, word: u32) -> i64
    ensures value { result ≡ exact form word }
    ensures low { negsuc 2147483647 ≤ℤ result }
    ensures high { result <ℤ pos 4294967296 }
{
    match form {
        Integer::Int => i64::from(word.cast_signed()),
        Integer::Unsigned => i64::from(word),
        Integer::Char => i64::from(word),
    }
}

/// An integer as an address, if it is one.
pub fn as_address(z: i128) -> Option<u32>
    ensures { result ≡ as_address z }
{
    if z < 0 {
        return None;
    }
    let n = z.cast_unsigned();
    if n < 0x1_0000_0000 {
        Some(n as u32)
    } else {
        None
    }
}

/// So many elements of a size after an address, exactly.
pub fn elements_behind(a: u32, size: u32, count: i64) -> i128
    ensures { result ≡ elements_behind a size count }
{
    i128::from(a) + i128::from(size) * i128::from(count)
}

/// What an operation gives.
pub fn computed(operation: Operation, is_signed: bool, a: u32, b: u32) -> u32
    ensures { result ≡ computed operation is_signed a b }
{
    let op = operator(operation, is_signed);
    match operation {
        Operation::Le => apply(BinOp::Eq, apply(op, b, a), 0),
        Operation::Gt => apply(op, b, a),
        Operation::Ge => apply(BinOp::Eq, apply(op, a, b), 0),
        _ => apply(op, a, b),
    }
}
