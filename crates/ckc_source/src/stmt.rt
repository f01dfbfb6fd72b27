//! Statements. Each that is a step has the place and the mode of it.

use crate::expr::{Access, ExprTree, Pointee};
use ckc_base::{Boxed, Mode, Pos, Seq, Width};

/// Where a step stands: its place, and whether its scope is checked.
#[derive(Clone, Copy)]
pub struct Spot {
    pub at: Pos,
    pub mode: Mode,
}

/// What an assignment writes: nothing, if a call is a statement; a local; or memory, through a pointer at an index.
/// A value that is written to a `char` is converted to its lowest byte.
#[derive(Drop)]
pub enum TargetTree {
    Nothing,
    Local(u32, Width),
    Memory(Width, Access, Boxed<ExprTree>, Boxed<ExprTree>),
}

/// What is assigned: the value of an expression, or a fresh block of so many elements (`calloc`).
#[derive(Drop)]
pub enum RightTree {
    Value(Boxed<ExprTree>),
    Fresh(Boxed<Pointee>, Boxed<ExprTree>),
}

/// One assignment.
#[derive(Drop)]
pub struct Assign {
    pub target: TargetTree,
    pub right: RightTree,
}

/// Where the result of a call goes: a local, or a static at its address.
#[derive(Clone, Copy)]
pub enum Kept {
    Local(u32, Width),
    Static(u32, Width),
}

/// A statement. Blocks are taken apart, and a declaration is an assignment.
///
/// - `Assign` is one assignment or declaration, `Bundle` several at once (Checked C specification 0.9, section 3, on
///   bundled blocks).
/// - `Get` is an assignment of `getchar()`, `Put` one of `putchar` of an expression.
/// - `Call` has where the result goes, the number of the function and the arguments.
/// - `Loop` has the condition, the body and what is done after each turn of it.
/// - `Check` is `_Dynamic_check`.
#[derive(Drop)]
pub enum StmtTree {
    Assign(Spot, Boxed<Assign>),
    Bundle(Spot, Seq<Assign>),
    Get(Spot, Boxed<TargetTree>),
    Put(Spot, Boxed<TargetTree>, Boxed<ExprTree>),
    Call(Spot, Option<Kept>, u32, Seq<ExprTree>),
    If(Spot, Boxed<ExprTree>, Seq<StmtTree>, Seq<StmtTree>),
    Loop(Spot, Boxed<ExprTree>, Seq<StmtTree>, Seq<StmtTree>),
    Break,
    Continue,
    Return(Spot, Boxed<ExprTree>),
    Check(Spot, Boxed<ExprTree>),
}
