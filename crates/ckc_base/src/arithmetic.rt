ghost use Rattle.std.specs.Prelude.{◌≡◌, ◌+◌, IfOk};
ghost use Rattle.ckc_base.specs.Words.{applied};

use std::alloc::AllocError;

/// Whether a scope is checked (Checked C specification 0.9, section 3, on checked scopes).
#[derive(Clone, Copy)]
pub enum Mode {
    Checked,
    Unchecked,
}

/// How many bytes a load or store moves.
#[derive(Clone, Copy)]
pub enum Width {
    Byte,
    Word,
}

/// An operation on two words. `S` reads them as signed, `U` as unsigned. Comparisons give 1 or 0, and shift
/// counts are taken modulo 32.
#[derive(Clone, Copy)]
pub enum BinOp {
    Add,
    Sub,
    Mul,
    DivS,
    DivU,
    RemS,
    RemU,
    And,
    Or,
    Xor,
    Shl,
    ShrS,
    ShrU,
    LtS,
    LtU,
    Eq,
    Ne,
}

/// The operation on two words. Division by zero and of the least signed number by -1 give what RISC-V's
/// instructions give (RISC-V unprivileged ISA manual, "M" extension, table of division by zero and overflow).
pub fn apply(op: BinOp, a: u32, b: u32) -> u32
    ensures { result ≡ applied op a b }
{
    match op {
        BinOp::Add => a.wrapping_add(b),
        BinOp::Sub => a.wrapping_sub(b),
        BinOp::Mul => a.wrapping_mul(b),
        BinOp::DivS => divide_signed(a, b),
        BinOp::DivU => divide_unsigned(a, b),
        BinOp::RemS => remainder_signed(a, b),
        BinOp::RemU => remainder_unsigned(a, b),
        BinOp::And => a & b,
        BinOp::Or => a | b,
        BinOp::Xor => a ^ b,
        BinOp::Shl => a.wrapping_shl(b),
        BinOp::ShrS => a.cast_signed().wrapping_shr(b).cast_unsigned(),
        BinOp::ShrU => a.wrapping_shr(b),
        BinOp::LtS => u32::from(a.cast_signed() < b.cast_signed()),
        BinOp::LtU => u32::from(a < b),
        BinOp::Eq => u32::from(a == b),
        BinOp::Ne => u32::from(a != b),
    }
}

fn divide_signed(a: u32, b: u32) -> u32
    ensures { result ≡ applied BinOp.DivS a b }
{
    if b == 0 {
        return u32::MAX;
    }
    a.cast_signed()
        .wrapping_div(b.cast_signed())
        .cast_unsigned()
}

fn divide_unsigned(a: u32, b: u32) -> u32
    ensures { result ≡ applied BinOp.DivU a b }
{
    if b == 0 { u32::MAX } else { a / b }
}

fn remainder_signed(a: u32, b: u32) -> u32
    ensures { result ≡ applied BinOp.RemS a b }
{
    if b == 0 {
        return a;
    }
    a.cast_signed()
        .wrapping_rem(b.cast_signed())
        .cast_unsigned()
}

fn remainder_unsigned(a: u32, b: u32) -> u32
    ensures { result ≡ applied BinOp.RemU a b }
{
    if b == 0 { a } else { a % b }
}

/// A sum; one past 2^32 - 1 is taken for want of memory.
pub fn sum(a: u32, b: u32) -> Result<u32, AllocError>
    ensures { IfOk result (λ n. n ≡ a + b) }
{
    match a.checked_add(b) {
        Some(n) => Ok(n),
        None => Err(AllocError),
    }
}
