//! What a word does, with its fields taken where they are used: the simulator's way to an outcome, in one jump for the
//! codes of the word. Each function is inlined into the run, so that each case has its operation as a constant. Each
//! takes the pc and the registers, whether it needs them or not.
ghost use Rattle.std.specs.Prelude.{◌≡◌, IfSome};
ghost use Rattle.ckc_rv.specs.code.Decoded.{decoded_jalr, decoded_branch, decoded_load, decoded_store, decoded_imm, decoded_reg, decoded_fence, decoded_system, funct3_of};
ghost use Rattle.ckc_rv_operations.specs.code.Codes.{base_op, product_op};
ghost use Rattle.ckc_rv.specs.Outcomes.{effect_if, outcome_of, NamesRegister};
ghost use Rattle.ckc_rv.specs.code.Outcomes.{branch_effect, load_effect, store_effect, imm_effect, reg_effect};

use crate::decoding::{
    branch_offset, decode_fence, funct3, immediate, jump_offset, operand, rd, rs1, rs2,
    store_offset,
};
use crate::effects::{computed, displaced, going_on, jump, register, register_form, taken};
use crate::registers::{Outcome, Regs};
use ckc_rv_operations::{BranchOp, ImmOp, LoadOp, RegOp, StoreOp};

/// What the word's instruction does at pc, or None if the word is no instruction (RISC-V unprivileged ISA manual,
/// RV32I and "M"): `decode` and then `effect`, without the instruction between.
#[inline(always)]
pub fn word_effect(word: u32, pc: u32, regs: &Regs) -> Option<Outcome>
    ensures effect { result ≡ outcome_of word pc regs.now.x }
    ensures register { IfSome result NamesRegister }
{
    outcome_at(word, pc, regs)
}

/// Splits by opcode.
#[inline(always)]
#[tactic(auto, using(crate::proofs::Rows::decoded_by), unfolding(crate::specs::code::Decoded::by_opcode))]
fn outcome_at(word: u32, pc: u32, regs: &Regs) -> Option<Outcome>
    ensures { result ≡ outcome_of word pc regs.now.x }
{
    match word % 0x80 {
        0x37 => Some(going_on(rd(word), (word >> 12) << 12, pc)),
        0x17 => Some(going_on(rd(word), pc.wrapping_add((word >> 12) << 12), pc)),
        0x6F => Some(jump(
            rd(word),
            pc.wrapping_add(4),
            displaced(pc, jump_offset(word)),
        )),
        0x67 => jalr_outcome(word, pc, regs),
        0x63 => branch_outcome(word, pc, regs),
        0x03 => load_outcome(word, pc, regs),
        0x23 => store_outcome(word, pc, regs),
        0x13 => imm_outcome(word, pc, regs),
        0x33 => reg_outcome(word, pc, regs),
        0x0F => fence_outcome(word, pc, regs),
        0x73 => system_outcome(word, pc, regs),
        _ => None,
    }
}

#[inline(always)]
fn jalr_outcome(word: u32, pc: u32, regs: &Regs) -> Option<Outcome>
    ensures { result ≡ effect_if (decoded_jalr word) pc regs.now.x }
{
    if funct3(word) == 0 {
        let target = displaced(register(regs, rs1(word)), immediate(word));
        Some(jump(rd(word), pc.wrapping_add(4), target - target % 2))
    } else {
        None
    }
}

#[inline(always)]
fn branch_outcome(word: u32, pc: u32, regs: &Regs) -> Option<Outcome>
    ensures { result ≡ effect_if (decoded_branch word) pc regs.now.x }
{
    match funct3(word) {
        0 => Some(branch(BranchOp::Beq, word, pc, regs)),
        1 => Some(branch(BranchOp::Bne, word, pc, regs)),
        4 => Some(branch(BranchOp::Blt, word, pc, regs)),
        5 => Some(branch(BranchOp::Bge, word, pc, regs)),
        6 => Some(branch(BranchOp::Bltu, word, pc, regs)),
        7 => Some(branch(BranchOp::Bgeu, word, pc, regs)),
        _ => None,
    }
}

#[inline(always)]
fn branch(op: BranchOp, word: u32, pc: u32, regs: &Regs) -> Outcome
    ensures { result ≡ branch_effect op word pc regs.now.x }
{
    if taken(op, register(regs, rs1(word)), register(regs, rs2(word))) {
        jump(0, 0, displaced(pc, branch_offset(word)))
    } else {
        going_on(0, 0, pc)
    }
}

#[inline(always)]
fn load_outcome(word: u32, pc: u32, regs: &Regs) -> Option<Outcome>
    ensures { result ≡ effect_if (decoded_load word) pc regs.now.x }
{
    match funct3(word) {
        0 => Some(load(LoadOp::Lb, word, pc, regs)),
        1 => Some(load(LoadOp::Lh, word, pc, regs)),
        2 => Some(load(LoadOp::Lw, word, pc, regs)),
        4 => Some(load(LoadOp::Lbu, word, pc, regs)),
        5 => Some(load(LoadOp::Lhu, word, pc, regs)),
        _ => None,
    }
}

#[inline(always)]
fn load(op: LoadOp, word: u32, _pc: u32, regs: &Regs) -> Outcome
    ensures { result ≡ load_effect op word _pc regs.now.x }
{
    Outcome::Load(
        op,
        rd(word),
        displaced(register(regs, rs1(word)), immediate(word)),
    )
}

#[inline(always)]
fn store_outcome(word: u32, pc: u32, regs: &Regs) -> Option<Outcome>
    ensures { result ≡ effect_if (decoded_store word) pc regs.now.x }
{
    match funct3(word) {
        0 => Some(store(StoreOp::Sb, word, pc, regs)),
        1 => Some(store(StoreOp::Sh, word, pc, regs)),
        2 => Some(store(StoreOp::Sw, word, pc, regs)),
        _ => None,
    }
}

#[inline(always)]
fn store(op: StoreOp, word: u32, _pc: u32, regs: &Regs) -> Outcome
    ensures { result ≡ store_effect op word _pc regs.now.x }
{
    let address = displaced(register(regs, rs1(word)), store_offset(word));
    Outcome::Store(op, address, register(regs, rs2(word)))
}

#[inline(always)]
fn imm_outcome(word: u32, pc: u32, regs: &Regs) -> Option<Outcome>
    ensures { result ≡ effect_if (decoded_imm word) pc regs.now.x }
{
    match funct3(word) {
        0 => Some(imm(ImmOp::Addi, word, pc, regs)),
        1 => match word >> 25 {
            0 => Some(imm(ImmOp::Slli, word, pc, regs)),
            _ => None,
        },
        2 => Some(imm(ImmOp::Slti, word, pc, regs)),
        3 => Some(imm(ImmOp::Sltiu, word, pc, regs)),
        4 => Some(imm(ImmOp::Xori, word, pc, regs)),
        5 => match word >> 25 {
            0 => Some(imm(ImmOp::Srli, word, pc, regs)),
            0x20 => Some(imm(ImmOp::Srai, word, pc, regs)),
            _ => None,
        },
        6 => Some(imm(ImmOp::Ori, word, pc, regs)),
        _ => Some(imm(ImmOp::Andi, word, pc, regs)),
    }
}

#[inline(always)]
fn imm(op: ImmOp, word: u32, pc: u32, regs: &Regs) -> Outcome
    ensures { result ≡ imm_effect op word pc regs.now.x }
{
    let operand = operand(op, word).cast_unsigned();
    let value = computed(register_form(op), register(regs, rs1(word)), operand);
    going_on(rd(word), value, pc)
}

#[inline(always)]
fn reg_outcome(word: u32, pc: u32, regs: &Regs) -> Option<Outcome>
    ensures { result ≡ effect_if (decoded_reg word) pc regs.now.x }
{
    match word >> 25 {
        0 => Some(base_outcome(word, pc, regs)),
        1 => Some(product_outcome(word, pc, regs)),
        0x20 => match funct3(word) {
            0 => Some(reg(RegOp::Sub, word, pc, regs)),
            5 => Some(reg(RegOp::Sra, word, pc, regs)),
            _ => None,
        },
        _ => None,
    }
}

#[inline(always)]
fn base_outcome(word: u32, pc: u32, regs: &Regs) -> Outcome
    ensures { result ≡ reg_effect (base_op (funct3_of word)) word pc regs.now.x }
{
    match funct3(word) {
        0 => reg(RegOp::Add, word, pc, regs),
        1 => reg(RegOp::Sll, word, pc, regs),
        2 => reg(RegOp::Slt, word, pc, regs),
        3 => reg(RegOp::Sltu, word, pc, regs),
        4 => reg(RegOp::Xor, word, pc, regs),
        5 => reg(RegOp::Srl, word, pc, regs),
        6 => reg(RegOp::Or, word, pc, regs),
        _ => reg(RegOp::And, word, pc, regs),
    }
}

#[inline(always)]
fn product_outcome(word: u32, pc: u32, regs: &Regs) -> Outcome
    ensures { result ≡ reg_effect (product_op (funct3_of word)) word pc regs.now.x }
{
    match funct3(word) {
        0 => reg(RegOp::Mul, word, pc, regs),
        1 => reg(RegOp::Mulh, word, pc, regs),
        2 => reg(RegOp::Mulhsu, word, pc, regs),
        3 => reg(RegOp::Mulhu, word, pc, regs),
        4 => reg(RegOp::Div, word, pc, regs),
        5 => reg(RegOp::Divu, word, pc, regs),
        6 => reg(RegOp::Rem, word, pc, regs),
        _ => reg(RegOp::Remu, word, pc, regs),
    }
}

#[inline(always)]
fn reg(op: RegOp, word: u32, pc: u32, regs: &Regs) -> Outcome
    ensures { result ≡ reg_effect op word pc regs.now.x }
{
    let value = computed(op, register(regs, rs1(word)), register(regs, rs2(word)));
    going_on(rd(word), value, pc)
}

#[inline(always)]
fn fence_outcome(word: u32, pc: u32, _regs: &Regs) -> Option<Outcome>
    ensures { result ≡ effect_if (decoded_fence word) pc _regs.now.x }
{
    match decode_fence(word) {
        Some(_) => Some(going_on(0, 0, pc)),
        None => None,
    }
}

#[inline(always)]
fn system_outcome(word: u32, _pc: u32, _regs: &Regs) -> Option<Outcome>
    ensures { result ≡ effect_if (decoded_system word) _pc _regs.now.x }
{
    match word {
        0x0000_0073 => Some(Outcome::Call),
        0x0010_0073 => Some(Outcome::Break),
        _ => None,
    }
}
