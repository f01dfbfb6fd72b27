//! What the first word of an item names.
ghost use Rattle.std.specs.Prelude.{◌≡◌, bytes_eq};
ghost use Rattle.std.specs.List.{find};
ghost use Rattle.ckc_asm.specs.Items.{kind_name};
ghost use Rattle.ckc_asm.specs.code.Found.{kind_of};

use crate::items::Kind;
use crate::names::{branch_name, imm_name, load_name, reg_name, store_name};
use ckc_rv::{BranchOp, ImmOp, LoadOp, RegOp, StoreOp};

/// Each kind, those first that are met most.
const KINDS: [Kind; 51] = [
    Kind::Imm(ImmOp::Addi),
    Kind::Imm(ImmOp::Slti),
    Kind::Imm(ImmOp::Sltiu),
    Kind::Imm(ImmOp::Xori),
    Kind::Imm(ImmOp::Ori),
    Kind::Imm(ImmOp::Andi),
    Kind::Imm(ImmOp::Slli),
    Kind::Imm(ImmOp::Srli),
    Kind::Imm(ImmOp::Srai),
    Kind::Load(LoadOp::Lw),
    Kind::Load(LoadOp::Lb),
    Kind::Load(LoadOp::Lh),
    Kind::Load(LoadOp::Lbu),
    Kind::Load(LoadOp::Lhu),
    Kind::Store(StoreOp::Sw),
    Kind::Store(StoreOp::Sb),
    Kind::Store(StoreOp::Sh),
    Kind::Branch(BranchOp::Beq),
    Kind::Branch(BranchOp::Bne),
    Kind::Branch(BranchOp::Blt),
    Kind::Branch(BranchOp::Bge),
    Kind::Branch(BranchOp::Bltu),
    Kind::Branch(BranchOp::Bgeu),
    Kind::Jal,
    Kind::Jalr,
    Kind::Lui,
    Kind::Auipc,
    Kind::Reg(RegOp::Add),
    Kind::Reg(RegOp::Sub),
    Kind::Reg(RegOp::Sll),
    Kind::Reg(RegOp::Slt),
    Kind::Reg(RegOp::Sltu),
    Kind::Reg(RegOp::Xor),
    Kind::Reg(RegOp::Srl),
    Kind::Reg(RegOp::Sra),
    Kind::Reg(RegOp::Or),
    Kind::Reg(RegOp::And),
    Kind::Reg(RegOp::Mul),
    Kind::Reg(RegOp::Mulh),
    Kind::Reg(RegOp::Mulhsu),
    Kind::Reg(RegOp::Mulhu),
    Kind::Reg(RegOp::Div),
    Kind::Reg(RegOp::Divu),
    Kind::Reg(RegOp::Rem),
    Kind::Reg(RegOp::Remu),
    Kind::Fence,
    Kind::Ecall,
    Kind::Ebreak,
    Kind::Word,
    Kind::Entry,
    Kind::Data,
];

/// The kind that a word names.
#[tactic(auto, unfolding(crate::specs::code::Found::kind_of))]
pub fn kind_of(name: &[u8]) -> Option<Kind>
    ensures { result ≡ kind_of name.now }
{
    find(&KINDS, name)
}

fn find(kinds: &[Kind], name: &[u8]) -> Option<Kind>
    ensures { result ≡ find (λ k. bytes_eq (kind_name k) name.now) kinds.now }
{
    for kind in kinds {
        if kind_name(*kind).as_bytes() == name {
            return Some(*kind);
        }
    }
    None
}

fn kind_name(kind: Kind) -> &'static str
    ensures { result.now ≡ kind_name kind }
{
    match kind {
        Kind::Lui => "lui",
        Kind::Auipc => "auipc",
        Kind::Jal => "jal",
        Kind::Jalr => "jalr",
        Kind::Branch(op) => branch_name(op),
        Kind::Load(op) => load_name(op),
        Kind::Store(op) => store_name(op),
        Kind::Imm(op) => imm_name(op),
        Kind::Reg(op) => reg_name(op),
        Kind::Fence => "fence",
        Kind::Ecall => "ecall",
        Kind::Ebreak => "ebreak",
        Kind::Word => ".word",
        Kind::Entry => ".entry",
        Kind::Data => ".data",
    }
}
