//! The operations on words that the binary operators are.

ghost use Rattle.std.specs.Prelude.{◌≡◌, if◌then◌else◌};
ghost use Rattle.ckc_source.specs.Words.{operator, divides};

use crate::expr::Operation;
use ckc_base::BinOp;

/// The first if the flag says so, and else the second.
pub fn chosen(first: bool, one: BinOp, two: BinOp) -> BinOp
    ensures { result ≡ (if first then one else two) }
{
    if first { one } else { two }
}

/// The operation on words, by whether the operands are signed.
pub fn operator(operation: Operation, is_signed: bool) -> BinOp
    ensures { result ≡ operator operation is_signed }
{
    match operation {
        Operation::Add => BinOp::Add,
        Operation::Sub => BinOp::Sub,
        Operation::Mul => BinOp::Mul,
        Operation::Div => chosen(is_signed, BinOp::DivS, BinOp::DivU),
        Operation::Rem => chosen(is_signed, BinOp::RemS, BinOp::RemU),
        Operation::And => BinOp::And,
        Operation::Or => BinOp::Or,
        Operation::Xor => BinOp::Xor,
        Operation::Shl => BinOp::Shl,
        Operation::Shr => chosen(is_signed, BinOp::ShrS, BinOp::ShrU),
        Operation::Lt => chosen(is_signed, BinOp::LtS, BinOp::LtU),
        Operation::Le => chosen(is_signed, BinOp::LtS, BinOp::LtU),
        Operation::Gt => chosen(is_signed, BinOp::LtS, BinOp::LtU),
        Operation::Ge => chosen(is_signed, BinOp::LtS, BinOp::LtU),
        Operation::Eq => BinOp::Eq,
        Operation::Ne => BinOp::Ne,
    }
}

/// Whether an operation has a divisor.
pub fn divides(operation: Operation) -> bool
    ensures { result ≡ divides operation }
{
    matches!(operation, Operation::Div | Operation::Rem)
}
