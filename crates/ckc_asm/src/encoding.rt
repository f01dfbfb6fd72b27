//! The word of an item with its number.
ghost use Rattle.std.specs.Prelude.{◌≡◌, ℕ, ◌^◌, ◌<◌, pos, MatchOption};
ghost use Rattle.ckc_rv.specs.Table.{Decodes, IsSigned};
ghost use Rattle.ckc_asm.specs.declared.items.Form.TheVariants as form;
ghost use Rattle.ckc_asm.specs.Program.{IsWordOf};

use crate::items::Form;
use ckc_rv::{Instr, encode, in_range};

/// The word of an item with this number or distance, if one has it.
pub fn word_of(form: &Form, value: i64) -> Option<u32>
    ensures { MatchOption result ((word : ℕ) → IsWordOf form.now value word → ⊥)
        (λ word. IsWordOf form.now value word) }
{
    match *form {
        Form::Lui(rd) => match natural(value) {
            Some(n) => encoded(Instr::Lui(rd, n)),
            None => None,
        },
        Form::Auipc(rd) => match natural(value) {
            Some(n) => encoded(Instr::Auipc(rd, n)),
            None => None,
        },
        Form::Jal(rd) => match small(value) {
            Some(z) => encoded(Instr::Jal(rd, z)),
            None => None,
        },
        Form::Jalr(rd, rs1) => match small(value) {
            Some(z) => encoded(Instr::Jalr(rd, rs1, z)),
            None => None,
        },
        Form::Branch(op, rs1, rs2) => match small(value) {
            Some(z) => encoded(Instr::Branch(op, rs1, rs2, z)),
            None => None,
        },
        Form::Load(op, rd, rs1) => match small(value) {
            Some(z) => encoded(Instr::Load(op, rd, rs1, z)),
            None => None,
        },
        Form::Store(op, rs1, rs2) => match small(value) {
            Some(z) => encoded(Instr::Store(op, rs1, rs2, z)),
            None => None,
        },
        Form::Imm(op, rd, rs1) => match small(value) {
            Some(z) => encoded(Instr::Imm(op, rd, rs1, z)),
            None => None,
        },
        Form::Reg(op, rd, rs1, rs2) => encoded(Instr::Reg(op, rd, rs1, rs2)),
        Form::Fence => fence_word(value),
        Form::Ecall => encoded(Instr::Ecall),
        Form::Ebreak => encoded(Instr::Ebreak),
        Form::Word => natural(value),
        Form::Nothing | Form::Entry | Form::Data(_) => None,
    }
}

fn fence_word(value: i64) -> Option<u32>
    ensures { MatchOption result ((word : ℕ) → IsWordOf form.Fence value word → ⊥)
        (λ word. IsWordOf form.Fence value word) }
{
    if 0 <= value && value < 256 {
        encoded(Instr::Fence(value as u8))
    } else {
        None
    }
}

/// The word of an instruction in range.
fn encoded(i: Instr) -> Option<u32>
    ensures { MatchOption result ((word : ℕ) → Decodes word i → ⊥) (λ word. Decodes word i) }
{
    if in_range(&i) { Some(encode(&i)) } else { None }
}

/// A number of at most 32 bits, without a sign.
fn natural(value: i64) -> Option<u32>
    ensures { MatchOption result ((n : ℕ) → value ≡ pos n → n < 2 ^ 32 → ⊥)
        (λ n. (value ≡ pos n) × (n < 2 ^ 32)) }
{
    if 0 <= value && value < 0x1_0000_0000 {
        Some(value as u32)
    } else {
        None
    }
}

/// A number of at most 21 bits, with a sign, as every offset and immediate is.
fn small(value: i64) -> Option<i32>
    ensures { MatchOption result (IsSigned (2 ^ 20) value → ⊥) (λ z. z ≡ value) }
{
    if -0x10_0000 <= value && value < 0x10_0000 {
        Some(value as i32)
    } else {
        None
    }
}
