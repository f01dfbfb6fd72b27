ghost use Rattle.std.specs.Prelude.{◌↔◌, ℕ, ◌<◌, ◌^◌, IsTrue};
ghost use Rattle.ckc_rv.specs.Table.{InRange, IsSigned, IsOffset, IsImmediate, Decodes};

use crate::instructions::Instr;
use ckc_rv_operations::ImmOp;

/// Whether each field of the instruction fits its bits: exactly then some word is the instruction's (RISC-V
/// unprivileged ISA manual, RV32I, base instruction formats).
pub fn in_range(i: &Instr) -> bool
    ensures fits { IsTrue result ↔ InRange i.now }
    ensures decodes { IsTrue result ↔ ((word : ℕ) × Decodes word i.now) }
{
    match *i {
        Instr::Lui(rd, upper) => rd < 32 && upper < 0x10_0000,
        Instr::Auipc(rd, upper) => rd < 32 && upper < 0x10_0000,
        Instr::Jal(rd, offset) => rd < 32 && is_offset(offset, 0x10_0000),
        Instr::Jalr(rd, rs1, offset) => rd < 32 && rs1 < 32 && is_signed(offset, 0x800),
        Instr::Branch(_, rs1, rs2, offset) => rs1 < 32 && rs2 < 32 && is_offset(offset, 0x1000),
        Instr::Load(_, rd, rs1, offset) => rd < 32 && rs1 < 32 && is_signed(offset, 0x800),
        Instr::Store(_, rs1, rs2, offset) => rs1 < 32 && rs2 < 32 && is_signed(offset, 0x800),
        Instr::Imm(op, rd, rs1, immediate) => rd < 32 && rs1 < 32 && is_immediate(op, immediate),
        Instr::Reg(_, rd, rs1, rs2) => rd < 32 && rs1 < 32 && rs2 < 32,
        Instr::Fence(_sets) => true,
        Instr::Ecall => true,
        Instr::Ebreak => true,
    }
}

/// Whether the number lies from -half to half - 1.
fn is_signed(z: i32, half: u32) -> bool
    requires { half < 2 ^ 31 }
    ensures { IsTrue result ↔ IsSigned half z }
{
    let half = half as i32;
    -half <= z && z < half
}

fn is_offset(z: i32, half: u32) -> bool
    requires { half < 2 ^ 31 }
    ensures { IsTrue result ↔ IsOffset half z }
{
    is_signed(z, half) && z.cast_unsigned() % 2 == 0
}

fn is_immediate(op: ImmOp, z: i32) -> bool
    ensures { IsTrue result ↔ IsImmediate op z }
{
    match op {
        ImmOp::Slli => 0 <= z && z < 32,
        ImmOp::Srli => 0 <= z && z < 32,
        ImmOp::Srai => 0 <= z && z < 32,
        _ => is_signed(z, 0x800),
    }
}
