//! Expressions, with all that their evaluation needs of types and bounds.

use ckc_base::{Boxed, Pos, Width};
use ckc_types::CType;

/// The type of an integer (ISO C11, 6.2.5): how many bytes it has, and how a word of it is read.
#[derive(Clone, Copy)]
pub enum Integer {
    Int,
    Unsigned,
    Char,
}

/// An operation on two integers, or a comparison of two addresses (ISO C11, 6.5.5 to 6.5.12).
#[derive(Clone, Copy)]
pub enum Operation {
    Add,
    Sub,
    Mul,
    Div,
    Rem,
    And,
    Or,
    Xor,
    Shl,
    Shr,
    Lt,
    Le,
    Gt,
    Ge,
    Eq,
    Ne,
}

/// How an access is judged (Checked C specification 0.9, section 3, on dynamic checks): as that of a named static,
/// which has no checks; or by the kind of the pointer that it goes through: `T *`, `_Ptr`, `_Array_ptr` and
/// `_Nt_array_ptr`.
#[derive(Clone, Copy)]
pub enum Through {
    Named,
    Raw,
    One,
    Array,
    Terminated,
}

/// An access to an element, or to a member of it: how it is judged and at which place it stops, the size of an
/// element, the type of the index, and how many bytes the member lies after the element's begin.
#[derive(Clone, Copy)]
pub struct Access {
    pub through: Through,
    pub at: Pos,
    pub size: u32,
    pub index: Integer,
    pub offset: u32,
}

/// Pointer arithmetic: whether the pointer is checked and at which place it stops, the size of an element, the type
/// of the index, and whether the index is subtracted.
#[derive(Clone, Copy)]
pub struct Shift {
    pub checked: bool,
    pub at: Pos,
    pub size: u32,
    pub index: Integer,
    pub back: bool,
}

/// What a checked pointer points to: the type of an element, its size, and whether the elements must be those of a
/// null-terminated array.
#[derive(Drop)]
pub struct Pointee {
    pub element: CType,
    pub size: u32,
    pub terminated: bool,
}

/// An integer local and its type.
#[derive(Clone, Copy)]
pub struct Variable {
    pub local: u32,
    pub form: Integer,
}

/// Where limits are counted from: the pointer that they belong to, another local pointer, or a fixed address.
#[derive(Clone, Copy)]
pub enum Base {
    Own,
    Local(u32),
    Fixed(u32),
}

/// An end of limits: so many elements after its base as the variable, if there is one, and the number say
/// (Checked C specification 0.9, section 3, on bounds expressions).
#[derive(Clone, Copy)]
pub struct End {
    pub base: Base,
    pub variable: Option<Variable>,
    pub add: i32,
}

/// The limits of a local pointer or of a result: its range is from one end to the other.
#[derive(Drop)]
pub struct Limits {
    pub to: Pointee,
    pub lower: End,
    pub upper: End,
}

/// How many elements a pointer in memory has: a number of them, or as many as an integer member of the same
/// structure says, which lies so many bytes after the begin of the structure, and a number more.
#[derive(Clone, Copy)]
pub enum Count {
    Fixed(i32),
    Member(u32, Integer, i32),
}

/// An expression. Parts are evaluated from left to right.
///
/// - `Number` is an integer; null is the number 0.
/// - `Local` is a local with no known limits, `Limited` a pointer with limits.
/// - `Array` is a named array or a string literal: its address, and how many bytes its upper bound lies after it.
/// - `Load` and `Member` read memory through a pointer at an index: a value with no known limits, or a pointer of
///   which the count of elements is known.
/// - `Address` is the address of so many bytes there, with the checks of an access.
/// - `Moved` has the pointer before the index, `Added` the index before the pointer.
/// - `Binary` reads its operands as signed if the flag says so.
/// - `Narrow` is the conversion to `char`. `Bare` is the conversion of a pointer to another type: it has no range.
/// - `Tested` and `Trusted` are the two bounds casts to a count of elements.
#[derive(Drop)]
pub enum ExprTree {
    Number(u32),
    Local(u32),
    Limited(u32, Boxed<Limits>),
    Array(u32, u32),
    Load(Width, Access, Boxed<ExprTree>, Boxed<ExprTree>),
    Member(Boxed<Pointee>, Count, Access, Boxed<ExprTree>, Boxed<ExprTree>),
    Address(u32, Access, Boxed<ExprTree>, Boxed<ExprTree>),
    Moved(Shift, Boxed<ExprTree>, Boxed<ExprTree>),
    Added(Shift, Boxed<ExprTree>, Boxed<ExprTree>),
    Binary(Operation, bool, Pos, Boxed<ExprTree>, Boxed<ExprTree>),
    And(Boxed<ExprTree>, Boxed<ExprTree>),
    Or(Boxed<ExprTree>, Boxed<ExprTree>),
    Choice(Boxed<ExprTree>, Boxed<ExprTree>, Boxed<ExprTree>),
    Narrow(Boxed<ExprTree>),
    Bare(Boxed<ExprTree>),
    Tested(u32, Integer, Pos, Boxed<ExprTree>, Boxed<ExprTree>),
    Trusted(Boxed<Pointee>, Integer, Boxed<ExprTree>, Boxed<ExprTree>),
}
