use ckc_base::Seq;
use ckc_syntax::Name;
use ckc_types::{CType, Kind, Structs};

/// What the whole text sees (ISO C11, 6.2.1, file scope): the structures by the numbers of their tags, the objects of
/// file scope, and the functions, with `getchar` and `putchar`.
#[derive(Drop)]
pub struct Globals {
    pub structs: Structs,
    pub objects: Seq<Object>,
    pub functions: Seq<Signature>,
}

/// An object of file scope: the type of its elements, and the kind of pointer that its use gives if it is an array.
#[derive(Drop)]
pub struct Object {
    pub name: Name,
    pub element: CType,
    pub array: Option<Kind>,
}

/// The type of a function: that of its result, and its parameters.
#[derive(Drop)]
pub struct Signature {
    pub name: Name,
    pub result: CType,
    pub params: Seq<Parameter>,
}

/// A parameter as its function's callers see it: its type, which for an interface is an `_Array_ptr`, and whether it is
/// an interface (Checked C specification 0.9, section 6, on bounds-safe interfaces).
#[derive(Drop)]
pub struct Parameter {
    pub ctype: CType,
    pub is_interface: bool,
}

/// A parameter or local of a function, or a member if bounds name it.
#[derive(Drop)]
pub struct Variable {
    pub name: Name,
    pub ctype: CType,
}

/// An amount of elements or bytes in bounds: a variable, if there is one, and a number that is added to it.
#[derive(Clone, Copy)]
pub struct Amount {
    pub variable: Option<Name>,
    pub number: i64,
}

/// The value of a constant: a word, and whether it is read as `unsigned` or as `int`.
#[derive(Clone, Copy)]
pub struct Constant {
    pub word: u32,
    pub unsigned: bool,
}
