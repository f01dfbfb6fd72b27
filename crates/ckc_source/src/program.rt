//! A program: its static objects, its structures, and its functions.

use crate::expr::Limits;
use crate::stmt::{Spot, StmtTree};
use ckc_base::{Bytes, Seq};
use ckc_types::CType;

/// A static object or a string literal: its address, the type and the size of an element, how many there are, whether
/// they are a null-terminated array, whether pointers with known limits may point into it, and its first bytes, which
/// are followed by zeros.
#[derive(Drop)]
pub struct Object {
    pub at: u32,
    pub element: CType,
    pub size: u32,
    pub count: u32,
    pub terminated: bool,
    pub is_run: bool,
    pub initial: Bytes,
}

/// A member that pointers with known limits may point to: it takes no part in bounds and has no declared bounds.
#[derive(Drop)]
pub struct MemberRun {
    pub offset: u32,
    pub ctype: CType,
}

/// The members of a structure that pointers with known limits may point to.
#[derive(Drop)]
pub struct Shape {
    pub runs: Seq<MemberRun>,
}

/// A parameter of checked code that unchecked code may pass a `T *` for: its number, and the limits that it is read with
/// (Checked C specification 0.9, section 6, on bounds-safe interfaces).
#[derive(Drop)]
pub struct Interface {
    pub param: u32,
    pub limits: Limits,
}

/// A function: where the step of falling off its end stands, how many parameters and how many locals it has, its
/// parameters first among them, its body, the limits of its result, if it is a pointer with known limits, and its
/// interfaces, if its body is checked.
#[derive(Drop)]
pub struct FunctionTree {
    pub end: Spot,
    pub params: u32,
    pub locals: u32,
    pub body: Seq<StmtTree>,
    pub result: Option<Limits>,
    pub interfaces: Seq<Interface>,
}

/// A program: its objects in the order of their addresses, its structures by the numbers of their tags, its functions,
/// and the number of `main`.
#[derive(Drop)]
pub struct Program {
    pub objects: Seq<Object>,
    pub shapes: Seq<Shape>,
    pub functions: Seq<FunctionTree>,
    pub main: u32,
}
