ghost use Rattle.std.specs.Prelude.{◌≡◌, ◌<◌, ◌%◌, ◌^◌, int_lt, slice_index, ◌*ℤ◌, pos};
ghost use Rattle.ckc_base.specs.Words.{signed, word_of};
ghost use Rattle.ckc_rv.specs.Table.{InRange};
ghost use Rattle.ckc_rv.specs.Effects.{effect_of, reg_value, reg_form, is_taken, moved, jumps, writes, upper_half};

use crate::instructions::Instr;
use crate::registers::{Outcome, Regs};
use ckc_base::{BinOp, apply};
use ckc_rv_operations::{BranchOp, ImmOp, RegOp};

/// What an instruction in range does at pc (RISC-V unprivileged ISA manual, RV32I and "M"): the register that it
/// writes and the next pc, or the access to memory. Addresses are taken modulo 2^32.
pub fn effect(i: &Instr, pc: u32, regs: &Regs) -> Outcome
    requires { InRange i.now }
    ensures { result ≡ effect_of i.now pc regs.now.x }
{
    match *i {
        Instr::Lui(rd, upper) => going_on(rd, upper << 12, pc),
        Instr::Auipc(rd, upper) => going_on(rd, pc.wrapping_add(upper << 12), pc),
        Instr::Jal(rd, offset) => jump(rd, pc.wrapping_add(4), displaced(pc, offset)),
        Instr::Jalr(rd, rs1, offset) => {
            let target = displaced(register(regs, rs1), offset);
            jump(rd, pc.wrapping_add(4), target - target % 2)
        }
        Instr::Branch(op, rs1, rs2, offset) => {
            if taken(op, register(regs, rs1), register(regs, rs2)) {
                jump(0, 0, displaced(pc, offset))
            } else {
                going_on(0, 0, pc)
            }
        }
        Instr::Load(op, rd, rs1, offset) => {
            Outcome::Load(op, rd, displaced(register(regs, rs1), offset))
        }
        Instr::Store(op, rs1, rs2, offset) => {
            let address = displaced(register(regs, rs1), offset);
            Outcome::Store(op, address, register(regs, rs2))
        }
        Instr::Imm(op, rd, rs1, immediate) => {
            let operand = immediate.cast_unsigned();
            going_on(
                rd,
                computed(register_form(op), register(regs, rs1), operand),
                pc,
            )
        }
        Instr::Reg(op, rd, rs1, rs2) => {
            going_on(
                rd,
                computed(op, register(regs, rs1), register(regs, rs2)),
                pc,
            )
        }
        Instr::Fence(_) => going_on(0, 0, pc),
        Instr::Ecall => Outcome::Call,
        Instr::Ebreak => Outcome::Break,
    }
}

pub(crate) fn register(regs: &Regs, r: u8) -> u32
    requires { r < 32 }
    ensures { result ≡ slice_index regs.now.x r }
{
    regs.x[usize::from(r)]
}

pub(crate) fn displaced(address: u32, offset: i32) -> u32
    ensures { result ≡ moved address offset }
{
    address.wrapping_add(offset.cast_unsigned())
}

pub(crate) fn going_on(rd: u8, value: u32, pc: u32) -> Outcome
    ensures { result ≡ writes rd value pc }
{
    Outcome::Next(rd, value, pc.wrapping_add(4))
}

pub(crate) fn jump(rd: u8, value: u32, target: u32) -> Outcome
    ensures { result ≡ jumps rd value target }
{
    if target % 4 == 0 {
        Outcome::Next(rd, value, target)
    } else {
        Outcome::BadTarget
    }
}

pub(crate) fn taken(op: BranchOp, a: u32, b: u32) -> bool
    ensures { result ≡ is_taken op a b }
{
    match op {
        BranchOp::Beq => a == b,
        BranchOp::Bne => a != b,
        BranchOp::Blt => a.cast_signed() < b.cast_signed(),
        BranchOp::Bge => a.cast_signed() >= b.cast_signed(),
        BranchOp::Bltu => a < b,
        BranchOp::Bgeu => a >= b,
    }
}

pub(crate) fn register_form(op: ImmOp) -> RegOp
    ensures { result ≡ reg_form op }
{
    match op {
        ImmOp::Addi => RegOp::Add,
        ImmOp::Slti => RegOp::Slt,
        ImmOp::Sltiu => RegOp::Sltu,
        ImmOp::Xori => RegOp::Xor,
        ImmOp::Ori => RegOp::Or,
        ImmOp::Andi => RegOp::And,
        ImmOp::Slli => RegOp::Sll,
        ImmOp::Srli => RegOp::Srl,
        ImmOp::Srai => RegOp::Sra,
    }
}

// Inlined, so that the simulator needs no jump for the operation after the one for the opcode.
#[inline(always)]
pub(crate) fn computed(op: RegOp, a: u32, b: u32) -> u32
    ensures { result ≡ reg_value op a b }
{
    match op {
        RegOp::Add => apply(BinOp::Add, a, b),
        RegOp::Sub => apply(BinOp::Sub, a, b),
        RegOp::Sll => apply(BinOp::Shl, a, b),
        RegOp::Slt => apply(BinOp::LtS, a, b),
        RegOp::Sltu => apply(BinOp::LtU, a, b),
        RegOp::Xor => apply(BinOp::Xor, a, b),
        RegOp::Srl => apply(BinOp::ShrU, a, b),
        RegOp::Sra => apply(BinOp::ShrS, a, b),
        RegOp::Or => apply(BinOp::Or, a, b),
        RegOp::And => apply(BinOp::And, a, b),
        RegOp::Mul => apply(BinOp::Mul, a, b),
        RegOp::Mulh => upper(product(a.cast_signed(), b.cast_signed())),
        RegOp::Mulhsu => upper(i64::from(a.cast_signed()) * i64::from(b)),
        RegOp::Mulhu => (u64::from(a) * u64::from(b) >> 32) as u32,
        RegOp::Div => apply(BinOp::DivS, a, b),
        RegOp::Divu => apply(BinOp::DivU, a, b),
        RegOp::Rem => apply(BinOp::RemS, a, b),
        RegOp::Remu => apply(BinOp::RemU, a, b),
    }
}

fn product(a: i32, b: i32) -> i64
    ensures { result ≡ a *ℤ b }
{
    i64::from(a) * i64::from(b)
}

fn upper(product: i64) -> u32
    ensures { result ≡ upper_half product }
{
    ((product >> 32) as i32).cast_unsigned()
}
