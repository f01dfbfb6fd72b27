ghost use Rattle.std.specs.Prelude.{◌≡◌, ◌↔◌, ℕ, ◌*◌, ◌^◌, ◌<◌, IfSome};
ghost use Rattle.ckc_rv.specs.Table.{Decodes, InRange};
ghost use Rattle.ckc_rv.specs.code.Decoded.{decoded, decoded_jalr, decoded_branch, decoded_load, decoded_store, decoded_imm, decoded_reg, decoded_fence, decoded_system, signed_from, i_immediate, s_immediate, b_offset, j_offset, imm_of, rd_of, rs1_of, rs2_of, funct3_of};

use crate::instructions::Instr;
use ckc_rv_operations::{BranchOp, ImmOp, LoadOp, RegOp, StoreOp};

/// The instruction of a word, or None if the table has no row with the word (RISC-V unprivileged ISA manual,
/// RV32/64G instruction set listings). A FENCE has rd, rs1 and the bits 31 to 28 zero.
pub fn decode(word: u32) -> Option<Instr>
    ensures found { (i : Instr) → (result ≡ Some i) ↔ Decodes word i }
    ensures none { (result ≡ None) ↔ ((i : Instr) → ¬ Decodes word i) }
    ensures fits { IfSome result (λ i. InRange i) }
    ensures computed { result ≡ decoded word }
{
    row_of(word)
}

/// Splits by opcode. The law of `decoded` is applied once, in `decode`.
#[tactic(auto, using(crate::proofs::Rows::decoded_by), unfolding(crate::specs::code::Decoded::by_opcode))]
fn row_of(word: u32) -> Option<Instr>
    ensures { result ≡ decoded word }
{
    match word % 0x80 {
        0x37 => Some(Instr::Lui(rd(word), word >> 12)),
        0x17 => Some(Instr::Auipc(rd(word), word >> 12)),
        0x6F => Some(Instr::Jal(rd(word), jump_offset(word))),
        0x67 => decode_jalr(word),
        0x63 => decode_branch(word),
        0x03 => decode_load(word),
        0x23 => decode_store(word),
        0x13 => decode_imm(word),
        0x33 => decode_reg(word),
        0x0F => decode_fence(word),
        0x73 => decode_system(word),
        _ => None,
    }
}

fn decode_jalr(word: u32) -> Option<Instr>
    ensures { result ≡ decoded_jalr word }
{
    match funct3(word) {
        0 => Some(Instr::Jalr(rd(word), rs1(word), immediate(word))),
        _ => None,
    }
}

fn decode_branch(word: u32) -> Option<Instr>
    ensures { result ≡ decoded_branch word }
{
    let op = BranchOp::of_funct3(funct3(word))?;
    Some(Instr::Branch(op, rs1(word), rs2(word), branch_offset(word)))
}

fn decode_load(word: u32) -> Option<Instr>
    ensures { result ≡ decoded_load word }
{
    let op = LoadOp::of_funct3(funct3(word))?;
    Some(Instr::Load(op, rd(word), rs1(word), immediate(word)))
}

fn decode_store(word: u32) -> Option<Instr>
    ensures { result ≡ decoded_store word }
{
    let op = StoreOp::of_funct3(funct3(word))?;
    Some(Instr::Store(op, rs1(word), rs2(word), store_offset(word)))
}

fn decode_imm(word: u32) -> Option<Instr>
    ensures { result ≡ decoded_imm word }
{
    let op = ImmOp::of_codes(funct3(word), word >> 25)?;
    Some(Instr::Imm(op, rd(word), rs1(word), operand(op, word)))
}

fn decode_reg(word: u32) -> Option<Instr>
    ensures { result ≡ decoded_reg word }
{
    let op = RegOp::of_codes(funct3(word), word >> 25)?;
    Some(Instr::Reg(op, rd(word), rs1(word), rs2(word)))
}

pub(crate) fn decode_fence(word: u32) -> Option<Instr>
    ensures { result ≡ decoded_fence word }
{
    if word >> 28 == 0 && (word >> 7) % 0x2000 == 0 {
        Some(Instr::Fence((word >> 20) as u8))
    } else {
        None
    }
}

fn decode_system(word: u32) -> Option<Instr>
    ensures { result ≡ decoded_system word }
{
    match word {
        0x0000_0073 => Some(Instr::Ecall),
        0x0010_0073 => Some(Instr::Ebreak),
        _ => None,
    }
}

pub(crate) fn rd(word: u32) -> u8
    ensures { result ≡ rd_of word }
{
    ((word >> 7) % 32) as u8
}

pub(crate) fn rs1(word: u32) -> u8
    ensures { result ≡ rs1_of word }
{
    ((word >> 15) % 32) as u8
}

pub(crate) fn rs2(word: u32) -> u8
    ensures { result ≡ rs2_of word }
{
    ((word >> 20) % 32) as u8
}

pub(crate) fn funct3(word: u32) -> u32
    ensures value { result ≡ funct3_of word }
    ensures below { result < 8 }
{
    (word >> 12) % 8
}

/// The number whose lowest bits, of which the highest is the sign, are these.
fn sign_extended(bits: u32, half: u32) -> i32
    requires { (bits < 2 * half) × (half < 2 ^ 30) }
    ensures { result ≡ signed_from half bits }
{
    if bits < half {
        bits as i32
    } else {
        bits as i32 - 2 * half as i32
    }
}

pub(crate) fn immediate(word: u32) -> i32
    ensures { result ≡ i_immediate word }
{
    word.cast_signed() >> 20
}

/// The second operand of an operation with an immediate: the immediate, or the count of a shift.
pub(crate) fn operand(op: ImmOp, word: u32) -> i32
    ensures { result ≡ imm_of op word }
{
    match op {
        ImmOp::Slli => i32::from(rs2(word)),
        ImmOp::Srli => i32::from(rs2(word)),
        ImmOp::Srai => i32::from(rs2(word)),
        _ => immediate(word),
    }
}

pub(crate) fn store_offset(word: u32) -> i32
    ensures { result ≡ s_immediate word }
{
    sign_extended(((word >> 25) << 5) + (word >> 7) % 32, 0x800)
}

pub(crate) fn branch_offset(word: u32) -> i32
    ensures { result ≡ b_offset word }
{
    let upper = word >> 25;
    let lower = (word >> 7) % 32;
    let bits = ((upper >> 6) << 12)
        + ((lower % 2) << 11)
        + ((upper % 64) << 5)
        + ((lower >> 1) << 1);
    sign_extended(bits, 0x1000)
}

pub(crate) fn jump_offset(word: u32) -> i32
    ensures { result ≡ j_offset word }
{
    let bits = ((word >> 31) << 20)
        + (((word >> 12) % 0x100) << 12)
        + (((word >> 20) % 2) << 11)
        + (((word >> 21) % 0x400) << 1);
    sign_extended(bits, 0x10_0000)
}
