ghost use Rattle.std.specs.Prelude.{◌≡◌, ◌<◌, ◌≤◌, [], ◌∷◌, ◌++◌, length};

use ckc_rv::{BranchOp, ImmOp, LoadOp, RegOp, StoreOp};
use std::marker::Model;

/// What the first word of an item names.
#[derive(Clone, Copy)]
pub enum Kind {
    Lui,
    Auipc,
    Jal,
    Jalr,
    Branch(BranchOp),
    Load(LoadOp),
    Store(StoreOp),
    Imm(ImmOp),
    Reg(RegOp),
    Fence,
    Ecall,
    Ebreak,
    Word,
    Entry,
    Data,
}

/// An item without its number or label: an instruction with its registers, in the order of `Instr`, or a directive.
#[derive(Drop)]
pub enum Form {
    Nothing,
    Lui(u8),
    Auipc(u8),
    Jal(u8),
    Jalr(u8, u8),
    Branch(BranchOp, u8, u8),
    Load(LoadOp, u8, u8),
    Store(StoreOp, u8, u8),
    Imm(ImmOp, u8, u8),
    Reg(RegOp, u8, u8, u8),
    Fence,
    Ecall,
    Ebreak,
    Word,
    Entry,
    Data(Sixteen),
}

/// The number or label of an item. A label is given by its word.
#[derive(Clone, Copy)]
pub enum Operand {
    Nothing,
    Number(i64),
    Named,
}

/// An item of a line.
#[derive(Drop)]
pub struct Item {
    pub form: Form,
    pub operand: Operand,
}

/// At most 16 bytes.
#[derive(Drop)]
pub struct Sixteen {
    room: [u8; 16],
    len: usize,
}

impl Model for Sixteen {
    ghost use Rattle.std.specs.Prelude.{List, ℕ, take, ◌≤◌};

    ghost Value = { List ℕ };

    ghost view = { λ s. take s.len s.room };

    ghost invariant = { λ s. s.len ≤ 16 };
}

impl Sixteen {
    /// No bytes.
    pub fn new() -> Sixteen
        ensures { result ≡ [] }
    {
        Sixteen {
            room: [0; 16],
            len: 0,
        }
    }

    /// Adds a byte.
    pub fn push(&mut self, byte: u8)
        requires { length self.old < 16 }
        ensures { self.new ≡ self.old ++ byte ∷ [] }
    {
        self.room[self.len] = byte;
        self.len += 1;
    }

    /// The bytes.
    pub fn as_slice(&self) -> &[u8]
        ensures bytes { result.now ≡ self.now }
        ensures few { length result.now ≤ 16 }
    {
        &self.room[..self.len]
    }
}
