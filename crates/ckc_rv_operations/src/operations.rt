/// A conditional branch (RISC-V unprivileged ISA manual, RV32I, conditional branches).
#[derive(Clone, Copy, Debug)]
pub enum BranchOp {
    Beq,
    Bne,
    Blt,
    Bge,
    Bltu,
    Bgeu,
}

/// A load (RISC-V unprivileged ISA manual, RV32I, load and store instructions).
#[derive(Clone, Copy, Debug)]
pub enum LoadOp {
    Lb,
    Lh,
    Lw,
    Lbu,
    Lhu,
}

/// A store (RISC-V unprivileged ISA manual, RV32I, load and store instructions).
#[derive(Clone, Copy, Debug)]
pub enum StoreOp {
    Sb,
    Sh,
    Sw,
}

/// An operation on a register and an immediate (RISC-V unprivileged ISA manual, RV32I, integer
/// register-immediate instructions).
#[derive(Clone, Copy, Debug)]
pub enum ImmOp {
    Addi,
    Slti,
    Sltiu,
    Xori,
    Ori,
    Andi,
    Slli,
    Srli,
    Srai,
}

/// An operation on two registers (RISC-V unprivileged ISA manual, RV32I, integer register-register
/// operations, and the "M" extension).
#[derive(Clone, Copy, Debug)]
pub enum RegOp {
    Add,
    Sub,
    Sll,
    Slt,
    Sltu,
    Xor,
    Srl,
    Sra,
    Or,
    And,
    Mul,
    Mulh,
    Mulhsu,
    Mulhu,
    Div,
    Divu,
    Rem,
    Remu,
}
