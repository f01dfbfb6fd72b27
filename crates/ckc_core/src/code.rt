use ckc_base::{BinOp, Boxed, Bytes, Check, Pos, Seq, Width};

/// A program: the first bytes of the data region, which are followed by zeros, its functions, and the number of
/// `main`.
#[derive(Drop)]
pub struct Core {
    pub initial: Bytes,
    pub funcs: Seq<CoreFunc>,
    pub main: u32,
}

/// A function: its locals are numbered from 0, and the first of them are its parameters. It gives 0 if its
/// body comes to its end.
#[derive(Drop)]
pub struct CoreFunc {
    pub params: u32,
    pub locals: u32,
    pub body: Seq<CoreStmt>,
}

/// An expression. It gives a word and changes nothing. `High` is the upper word of a product, signed if the
/// flag says so.
#[derive(Drop)]
pub enum CoreExpr {
    Const(u32),
    Local(u32),
    Load(Width, Boxed<CoreExpr>),
    Bin(BinOp, Boxed<CoreExpr>, Boxed<CoreExpr>),
    High(bool, Boxed<CoreExpr>, Boxed<CoreExpr>),
}

/// A statement. What is written comes first: the local that is set, the local for the result of a call, the local
/// that gets a byte or the place of a block.
///
/// - `Store` has the address, then the value.
/// - `Check` stops if its expression is zero.
/// - `Call` has the number of the function and the place at which a call too deep stops.
/// - `Alloc` has the count of elements and the size of one.
/// - `Loop` has the body and the step. It goes on until a `Break` in the body; `Continue` goes to the step.
#[derive(Drop)]
pub enum CoreStmt {
    Set(u32, CoreExpr),
    Store(Width, CoreExpr, CoreExpr),
    Check(Check, Pos, CoreExpr),
    Call(Option<u32>, u32, Seq<CoreExpr>, Pos),
    Get(u32),
    Put(CoreExpr),
    Alloc(u32, CoreExpr, u32),
    If(CoreExpr, Seq<CoreStmt>, Seq<CoreStmt>),
    Loop(Seq<CoreStmt>, Seq<CoreStmt>),
    Break,
    Continue,
    Return(CoreExpr),
}
