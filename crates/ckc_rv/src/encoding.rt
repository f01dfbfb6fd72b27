ghost use Rattle.std.specs.Prelude.{◌≡◌, ◌+◌, ◌*◌, ◌/◌, ◌%◌, ◌^◌, ◌<◌};
ghost use Rattle.ckc_rv.specs.Table.{InRange, Decodes, row_word, r_word, i_word, s_word, b_word, u_word, j_word, low_bits, imm_bits};

use crate::instructions::Instr;
use ckc_rv_operations::ImmOp;

/// The word of an instruction in range (RISC-V unprivileged ISA manual, RV32/64G instruction set listings).
pub fn encode(i: &Instr) -> u32
    requires { InRange i.now }
    ensures decodes { Decodes result i.now }
    ensures row { result ≡ row_word i.now }
{
    match *i {
        Instr::Lui(rd, upper) => u_format(upper, rd, 0x37),
        Instr::Auipc(rd, upper) => u_format(upper, rd, 0x17),
        Instr::Jal(rd, offset) => j_format(lowest_21(offset), rd, 0x6F),
        Instr::Jalr(rd, rs1, offset) => i_format(lowest_12(offset), rs1, 0, rd, 0x67),
        Instr::Branch(op, rs1, rs2, offset) => {
            b_format(lowest_13(offset), rs2, rs1, op.funct3(), 0x63)
        }
        Instr::Load(op, rd, rs1, offset) => {
            i_format(lowest_12(offset), rs1, op.funct3(), rd, 0x03)
        }
        Instr::Store(op, rs1, rs2, offset) => {
            s_format(lowest_12(offset), rs2, rs1, op.funct3(), 0x23)
        }
        Instr::Imm(op, rd, rs1, immediate) => {
            i_format(immediate_bits(op, immediate), rs1, op.funct3(), rd, 0x13)
        }
        Instr::Reg(op, rd, rs1, rs2) => r_format(op.funct7(), rs2, rs1, op.funct3(), rd, 0x33),
        Instr::Fence(sets) => i_format(u32::from(sets), 0, 0, 0, 0x0F),
        Instr::Ecall => 0x0000_0073,
        Instr::Ebreak => 0x0010_0073,
    }
}

fn r_format(funct7: u32, rs2: u8, rs1: u8, funct3: u32, rd: u8, opcode: u32) -> u32
    requires codes { (funct7 < 2 ^ 7) × (funct3 < 2 ^ 3) × (opcode < 2 ^ 7) }
    requires registers { (rs2 < 32) × (rs1 < 32) × (rd < 32) }
    ensures { result ≡ r_word funct7 rs2 rs1 funct3 rd opcode }
{
    (funct7 << 25)
        + (u32::from(rs2) << 20)
        + (u32::from(rs1) << 15)
        + (funct3 << 12)
        + (u32::from(rd) << 7)
        + opcode
}

fn i_format(immediate: u32, rs1: u8, funct3: u32, rd: u8, opcode: u32) -> u32
    requires codes { (immediate < 2 ^ 12) × (funct3 < 2 ^ 3) × (opcode < 2 ^ 7) }
    requires registers { (rs1 < 32) × (rd < 32) }
    ensures { result ≡ i_word immediate rs1 funct3 rd opcode }
{
    (immediate << 20) + (u32::from(rs1) << 15) + (funct3 << 12) + (u32::from(rd) << 7) + opcode
}

fn s_format(immediate: u32, rs2: u8, rs1: u8, funct3: u32, opcode: u32) -> u32
    requires codes { (immediate < 2 ^ 12) × (funct3 < 2 ^ 3) × (opcode < 2 ^ 7) }
    requires registers { (rs2 < 32) × (rs1 < 32) }
    ensures { result ≡ s_word immediate rs2 rs1 funct3 opcode }
{
    r_format(
        immediate >> 5,
        rs2,
        rs1,
        funct3,
        (immediate % 32) as u8,
        opcode,
    )
}

fn b_format(offset: u32, rs2: u8, rs1: u8, funct3: u32, opcode: u32) -> u32
    requires codes { (offset < 2 ^ 13) × (offset % 2 ≡ 0) × (funct3 < 2 ^ 3) × (opcode < 2 ^ 7) }
    requires registers { (rs2 < 32) × (rs1 < 32) }
    ensures { result ≡ b_word offset rs2 rs1 funct3 opcode }
{
    let upper = ((offset >> 12) << 6) + (offset >> 5) % 64;
    let lower = offset % 32 + (offset >> 11) % 2;
    r_format(upper, rs2, rs1, funct3, lower as u8, opcode)
}

fn u_format(upper: u32, rd: u8, opcode: u32) -> u32
    requires codes { (upper < 2 ^ 20) × (opcode < 2 ^ 7) }
    requires register { rd < 32 }
    ensures { result ≡ u_word upper rd opcode }
{
    (upper << 12) + (u32::from(rd) << 7) + opcode
}

fn j_format(offset: u32, rd: u8, opcode: u32) -> u32
    requires codes { (offset < 2 ^ 21) × (opcode < 2 ^ 7) }
    requires register { rd < 32 }
    ensures { result ≡ j_word offset rd opcode }
{
    let upper = ((offset >> 20) << 19)
        + (((offset >> 1) % 0x400) << 9)
        + (((offset >> 11) % 2) << 8)
        + (offset >> 12) % 0x100;
    u_format(upper, rd, opcode)
}

fn lowest_12(z: i32) -> u32
    ensures { result ≡ low_bits 12 z }
{
    z.cast_unsigned() % 0x1000
}

fn lowest_13(z: i32) -> u32
    ensures { result ≡ low_bits 13 z }
{
    z.cast_unsigned() % 0x2000
}

fn lowest_21(z: i32) -> u32
    ensures { result ≡ low_bits 21 z }
{
    z.cast_unsigned() % 0x20_0000
}

fn immediate_bits(op: ImmOp, z: i32) -> u32
    ensures { result ≡ imm_bits op z }
{
    match op {
        ImmOp::Srai => (0x20 << 5) + z.cast_unsigned() % 32,
        _ => lowest_12(z),
    }
}
