//! The codes of the operations, and the operations of codes.

ghost use Rattle.std.specs.Prelude.{◌≡◌, ◌<◌};
ghost use Rattle.ckc_rv_operations.specs.Codes.{branch_funct3, load_funct3, store_funct3, imm_funct3, reg_funct3, reg_funct7, branch_op, load_op, store_op, imm_op, reg_op};
ghost use Rattle.ckc_rv_operations.specs.code.Codes.{shift_left_op, shift_right_op, base_op, product_op, other_op};

use crate::operations::{BranchOp, ImmOp, LoadOp, RegOp, StoreOp};

impl BranchOp {
    /// The bits 14 to 12 of a word with the operation.
    pub fn funct3(self) -> u32
        ensures { result ≡ branch_funct3 self }
    {
        match self {
            BranchOp::Beq => 0,
            BranchOp::Bne => 1,
            BranchOp::Blt => 4,
            BranchOp::Bge => 5,
            BranchOp::Bltu => 6,
            BranchOp::Bgeu => 7,
        }
    }

    /// The operation of these bits 14 to 12, if there is one.
    pub fn of_funct3(funct3: u32) -> Option<BranchOp>
        ensures { result ≡ branch_op funct3 }
    {
        match funct3 {
            0 => Some(BranchOp::Beq),
            1 => Some(BranchOp::Bne),
            4 => Some(BranchOp::Blt),
            5 => Some(BranchOp::Bge),
            6 => Some(BranchOp::Bltu),
            7 => Some(BranchOp::Bgeu),
            _ => None,
        }
    }
}

impl LoadOp {
    /// The bits 14 to 12 of a word with the operation.
    pub fn funct3(self) -> u32
        ensures { result ≡ load_funct3 self }
    {
        match self {
            LoadOp::Lb => 0,
            LoadOp::Lh => 1,
            LoadOp::Lw => 2,
            LoadOp::Lbu => 4,
            LoadOp::Lhu => 5,
        }
    }

    /// The operation of these bits 14 to 12, if there is one.
    pub fn of_funct3(funct3: u32) -> Option<LoadOp>
        ensures { result ≡ load_op funct3 }
    {
        match funct3 {
            0 => Some(LoadOp::Lb),
            1 => Some(LoadOp::Lh),
            2 => Some(LoadOp::Lw),
            4 => Some(LoadOp::Lbu),
            5 => Some(LoadOp::Lhu),
            _ => None,
        }
    }
}

impl StoreOp {
    /// The bits 14 to 12 of a word with the operation.
    pub fn funct3(self) -> u32
        ensures { result ≡ store_funct3 self }
    {
        match self {
            StoreOp::Sb => 0,
            StoreOp::Sh => 1,
            StoreOp::Sw => 2,
        }
    }

    /// The operation of these bits 14 to 12, if there is one.
    pub fn of_funct3(funct3: u32) -> Option<StoreOp>
        ensures { result ≡ store_op funct3 }
    {
        match funct3 {
            0 => Some(StoreOp::Sb),
            1 => Some(StoreOp::Sh),
            2 => Some(StoreOp::Sw),
            _ => None,
        }
    }
}

impl ImmOp {
    /// The bits 14 to 12 of a word with the operation.
    pub fn funct3(self) -> u32
        ensures { result ≡ imm_funct3 self }
    {
        match self {
            ImmOp::Addi => 0,
            ImmOp::Slti => 2,
            ImmOp::Sltiu => 3,
            ImmOp::Xori => 4,
            ImmOp::Ori => 6,
            ImmOp::Andi => 7,
            ImmOp::Slli => 1,
            ImmOp::Srli => 5,
            ImmOp::Srai => 5,
        }
    }

    /// The operation of these bits 14 to 12 and 31 to 25, if there is one. Shifts alone look at funct7.
    pub fn of_codes(funct3: u32, funct7: u32) -> Option<ImmOp>
        requires { funct3 < 8 }
        ensures { result ≡ imm_op funct3 funct7 }
    {
        match funct3 {
            0 => Some(ImmOp::Addi),
            1 => shift_left_of(funct7),
            2 => Some(ImmOp::Slti),
            3 => Some(ImmOp::Sltiu),
            4 => Some(ImmOp::Xori),
            5 => shift_right_of(funct7),
            6 => Some(ImmOp::Ori),
            _ => Some(ImmOp::Andi),
        }
    }
}

fn shift_left_of(funct7: u32) -> Option<ImmOp>
    ensures { result ≡ shift_left_op funct7 }
{
    match funct7 {
        0 => Some(ImmOp::Slli),
        _ => None,
    }
}

fn shift_right_of(funct7: u32) -> Option<ImmOp>
    ensures { result ≡ shift_right_op funct7 }
{
    match funct7 {
        0 => Some(ImmOp::Srli),
        0x20 => Some(ImmOp::Srai),
        _ => None,
    }
}

impl RegOp {
    /// The bits 14 to 12 of a word with the operation.
    pub fn funct3(self) -> u32
        ensures { result ≡ reg_funct3 self }
    {
        match self {
            RegOp::Add => 0,
            RegOp::Sub => 0,
            RegOp::Sll => 1,
            RegOp::Slt => 2,
            RegOp::Sltu => 3,
            RegOp::Xor => 4,
            RegOp::Srl => 5,
            RegOp::Sra => 5,
            RegOp::Or => 6,
            RegOp::And => 7,
            RegOp::Mul => 0,
            RegOp::Mulh => 1,
            RegOp::Mulhsu => 2,
            RegOp::Mulhu => 3,
            RegOp::Div => 4,
            RegOp::Divu => 5,
            RegOp::Rem => 6,
            RegOp::Remu => 7,
        }
    }

    /// The bits 31 to 25 of a word with the operation.
    pub fn funct7(self) -> u32
        ensures { result ≡ reg_funct7 self }
    {
        match self {
            RegOp::Sub => 0x20,
            RegOp::Sra => 0x20,
            RegOp::Mul => 1,
            RegOp::Mulh => 1,
            RegOp::Mulhsu => 1,
            RegOp::Mulhu => 1,
            RegOp::Div => 1,
            RegOp::Divu => 1,
            RegOp::Rem => 1,
            RegOp::Remu => 1,
            _ => 0,
        }
    }

    /// The operation of these bits 14 to 12 and 31 to 25, if there is one.
    pub fn of_codes(funct3: u32, funct7: u32) -> Option<RegOp>
        requires { funct3 < 8 }
        ensures { result ≡ reg_op funct3 funct7 }
    {
        match funct7 {
            0 => Some(base_of(funct3)),
            1 => Some(product_of(funct3)),
            0x20 => other_of(funct3),
            _ => None,
        }
    }
}

fn base_of(funct3: u32) -> RegOp
    requires { funct3 < 8 }
    ensures { result ≡ base_op funct3 }
{
    match funct3 {
        0 => RegOp::Add,
        1 => RegOp::Sll,
        2 => RegOp::Slt,
        3 => RegOp::Sltu,
        4 => RegOp::Xor,
        5 => RegOp::Srl,
        6 => RegOp::Or,
        _ => RegOp::And,
    }
}

fn product_of(funct3: u32) -> RegOp
    requires { funct3 < 8 }
    ensures { result ≡ product_op funct3 }
{
    match funct3 {
        0 => RegOp::Mul,
        1 => RegOp::Mulh,
        2 => RegOp::Mulhsu,
        3 => RegOp::Mulhu,
        4 => RegOp::Div,
        5 => RegOp::Divu,
        6 => RegOp::Rem,
        _ => RegOp::Remu,
    }
}

fn other_of(funct3: u32) -> Option<RegOp>
    ensures { result ≡ other_op funct3 }
{
    match funct3 {
        0 => Some(RegOp::Sub),
        5 => Some(RegOp::Sra),
        _ => None,
    }
}
