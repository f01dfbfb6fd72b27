ghost use Rattle.std.specs.Prelude.{◌≡◌};
ghost use Rattle.ckc_parser_grammar.specs.code.Kinds.{sign_op, increment_op, compound_op, binary_op};

use crate::kind::Kind;
use ckc_syntax::TreeOp;

/// The operator that a sign before an operand is.
pub fn sign_op(kind: Kind) -> TreeOp
    ensures { result ≡ sign_op kind }
{
    match kind {
        Kind::Plus => TreeOp::Plus,
        Kind::Exclamation => TreeOp::Not,
        Kind::Tilde => TreeOp::Flip,
        Kind::Star => TreeOp::Deref,
        Kind::Ampersand => TreeOp::Address,
        _ => TreeOp::Minus,
    }
}

/// The operator of `++` or `--`.
pub fn increment_op(kind: Kind) -> TreeOp
    ensures { result ≡ increment_op kind }
{
    match kind {
        Kind::MinusMinus => TreeOp::Sub,
        _ => TreeOp::Add,
    }
}

/// The operator of an operator with `=`.
pub fn compound_op(kind: Kind) -> TreeOp
    ensures { result ≡ compound_op kind }
{
    match kind {
        Kind::MinusEquals => TreeOp::Sub,
        Kind::StarEquals => TreeOp::Mul,
        Kind::SlashEquals => TreeOp::Div,
        Kind::PercentEquals => TreeOp::Rem,
        Kind::AmpersandEquals => TreeOp::And,
        Kind::BarEquals => TreeOp::Or,
        Kind::CaretEquals => TreeOp::Xor,
        _ => TreeOp::Add,
    }
}

/// The binary operator that a token is.
pub fn binary_op(kind: Kind) -> TreeOp
    ensures { result ≡ binary_op kind }
{
    match kind {
        Kind::BarBar => TreeOp::OrElse,
        Kind::AndAnd => TreeOp::AndThen,
        Kind::Bar => TreeOp::Or,
        Kind::Caret => TreeOp::Xor,
        Kind::Ampersand => TreeOp::And,
        Kind::EqualsEquals => TreeOp::Eq,
        Kind::NotEquals => TreeOp::Ne,
        Kind::LessEquals => TreeOp::Le,
        Kind::GreaterEquals => TreeOp::Ge,
        Kind::ShiftLeft => TreeOp::Shl,
        Kind::Plus => TreeOp::Add,
        Kind::Minus => TreeOp::Sub,
        Kind::Star => TreeOp::Mul,
        Kind::Slash => TreeOp::Div,
        Kind::Percent => TreeOp::Rem,
        _ => TreeOp::Minus,
    }
}
