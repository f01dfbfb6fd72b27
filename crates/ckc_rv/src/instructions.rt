use ckc_rv_operations::{BranchOp, ImmOp, LoadOp, RegOp, StoreOp};

/// An instruction. Its fields are in the order rd, rs1, rs2, immediate; a store has rs1, which holds the
/// address, then rs2, which holds the value. Offsets count bytes. The immediate of `Lui` and `Auipc` is the
/// word's upper 20 bits as a number below 2^20, and that of `Fence` the bits 27 to 20.
#[derive(Clone, Copy, Debug)]
pub enum Instr {
    Lui(u8, u32),
    Auipc(u8, u32),
    Jal(u8, i32),
    Jalr(u8, u8, i32),
    Branch(BranchOp, u8, u8, i32),
    Load(LoadOp, u8, u8, i32),
    Store(StoreOp, u8, u8, i32),
    Imm(ImmOp, u8, u8, i32),
    Reg(RegOp, u8, u8, u8),
    Fence(u8),
    Ecall,
    Ebreak,
}
