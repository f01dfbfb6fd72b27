use ckc_base::{Bytes, Seq};
use ckc_rv::{BranchOp, Instr};

/// A line of labelled code: a label, which takes no place, an instruction, a jump (`Jal`) or branch to a label, or
/// a jump to a label at any distance. `Far` is an AUIPC and a JALR through x26. The first field of `Jump` and `Far`
/// is the register of the link.
#[derive(Clone, Copy)]
pub enum Line {
    Label(u32),
    Plain(Instr),
    Jump(u8, u32),
    Branch(BranchOp, u8, u8, u32),
    Far(u8, u32),
}

/// Labelled code, the label at which it starts, and the initial bytes of the data region.
#[derive(Drop)]
pub struct Labelled {
    pub lines: Seq<Line>,
    pub start: u32,
    pub initial: Bytes,
}
