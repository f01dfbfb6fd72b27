//! The names of the instructions.
ghost use Rattle.std.specs.Prelude.{◌≡◌, ◌≤◌, length};
ghost use Rattle.ckc_asm.specs.Names.{branch_name, load_name, store_name, imm_name, reg_name};

use ckc_rv::{BranchOp, ImmOp, LoadOp, RegOp, StoreOp};

/// The name of a branch.
pub fn branch_name(op: BranchOp) -> &'static str
    ensures text { result.now ≡ branch_name op }
    ensures length { length result.now ≤ 6 }
{
    match op {
        BranchOp::Beq => "beq",
        BranchOp::Bne => "bne",
        BranchOp::Blt => "blt",
        BranchOp::Bge => "bge",
        BranchOp::Bltu => "bltu",
        BranchOp::Bgeu => "bgeu",
    }
}

/// The name of a load.
pub fn load_name(op: LoadOp) -> &'static str
    ensures text { result.now ≡ load_name op }
    ensures length { length result.now ≤ 6 }
{
    match op {
        LoadOp::Lb => "lb",
        LoadOp::Lh => "lh",
        LoadOp::Lw => "lw",
        LoadOp::Lbu => "lbu",
        LoadOp::Lhu => "lhu",
    }
}

/// The name of a store.
pub fn store_name(op: StoreOp) -> &'static str
    ensures text { result.now ≡ store_name op }
    ensures length { length result.now ≤ 6 }
{
    match op {
        StoreOp::Sb => "sb",
        StoreOp::Sh => "sh",
        StoreOp::Sw => "sw",
    }
}

/// The name of an operation with an immediate.
pub fn imm_name(op: ImmOp) -> &'static str
    ensures text { result.now ≡ imm_name op }
    ensures length { length result.now ≤ 6 }
{
    match op {
        ImmOp::Addi => "addi",
        ImmOp::Slti => "slti",
        ImmOp::Sltiu => "sltiu",
        ImmOp::Xori => "xori",
        ImmOp::Ori => "ori",
        ImmOp::Andi => "andi",
        ImmOp::Slli => "slli",
        ImmOp::Srli => "srli",
        ImmOp::Srai => "srai",
    }
}

/// The name of an operation on registers.
pub fn reg_name(op: RegOp) -> &'static str
    ensures text { result.now ≡ reg_name op }
    ensures length { length result.now ≤ 6 }
{
    match op {
        RegOp::Add => "add",
        RegOp::Sub => "sub",
        RegOp::Sll => "sll",
        RegOp::Slt => "slt",
        RegOp::Sltu => "sltu",
        RegOp::Xor => "xor",
        RegOp::Srl => "srl",
        RegOp::Sra => "sra",
        RegOp::Or => "or",
        RegOp::And => "and",
        RegOp::Mul => "mul",
        RegOp::Mulh => "mulh",
        RegOp::Mulhsu => "mulhsu",
        RegOp::Mulhu => "mulhu",
        RegOp::Div => "div",
        RegOp::Divu => "divu",
        RegOp::Rem => "rem",
        RegOp::Remu => "remu",
    }
}
