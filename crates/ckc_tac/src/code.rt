use ckc_base::{BinOp, Bytes, Check, Pos, Seq, Width};

/// A program: the first bytes of the data region, which are followed by zeros, its functions, and the number of
/// `main`.
#[derive(Drop)]
pub struct Tac {
    pub initial: Bytes,
    pub funcs: Seq<TacFunc>,
    pub main: u32,
}

/// A function: its registers are numbered from 0, and the first of them are its parameters. It begins with block 0.
#[derive(Drop)]
pub struct TacFunc {
    pub params: u32,
    pub regs: u32,
    pub blocks: Seq<TacBlock>,
}

/// Operations that come one after another, and where control goes from there.
#[derive(Drop)]
pub struct TacBlock {
    pub ops: Seq<TacOp>,
    pub end: TacEnd,
}

/// What an operation reads: a register, or a number of the code.
#[derive(Clone, Copy)]
pub enum Operand {
    Register(u32),
    Number(u32),
}

/// An operation. A register that is written comes first, then what is read.
///
/// - `High` is the upper word of a product, signed if the flag says so.
/// - `Load` and `Store` have an address, then an offset, and `Store` then the value.
/// - `Check` stops unless a comparison of its two operands holds.
/// - `Call` has the number of the function, the registers of the arguments, and the place at which a call too deep
///   stops.
/// - `Alloc` has the count of elements and the size of one.
#[derive(Drop)]
pub enum TacOp {
    Const(u32, u32),
    Copy(u32, u32),
    Bin(BinOp, u32, Operand, Operand),
    High(bool, u32, Operand, Operand),
    Load(Width, u32, Operand, u32),
    Store(Width, Operand, u32, Operand),
    Check(Check, Pos, Comparison, Operand, Operand),
    Call(Option<u32>, u32, Seq<u32>, Pos),
    Get(u32),
    Put(Operand),
    Alloc(u32, Operand, u32),
}

/// A comparison of two words: less by their signed or unsigned values, equal, or unequal.
#[derive(Clone, Copy)]
pub enum Comparison {
    LtS,
    LtU,
    Eq,
    Ne,
}

/// The end of a block: control goes to a block, or to the first of two if a comparison of two operands holds, else
/// to the second, or back to the caller with a value.
#[derive(Clone, Copy)]
pub enum TacEnd {
    Jump(u32),
    Branch(Comparison, Operand, Operand, u32, u32),
    Return(Operand),
}
