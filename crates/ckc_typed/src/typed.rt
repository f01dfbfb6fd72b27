use crate::types::copied;
use ckc_base::{Bytes, Mode, Seq};
use ckc_linear::Form;
use ckc_syntax::{ExactClone, Name, Tree};
use ckc_types::{CType, Kind, Structs};
use std::alloc::{AllocError, Global};

/// Where a checked pointer may be used (Checked C specification 0.9, section 3, on bounds): nothing is known, any
/// range will do, as for null, or from one form up to another.
#[derive(Clone, Copy)]
pub enum Range {
    Missing,
    Any,
    Known(Form, Form),
}

/// What is noted at a statement or an expression: its type, the mode of the scope that it stands in, and the range
/// of its value. A statement has the type `void`; it and an expression that is no pointer have no range.
#[derive(Drop)]
pub struct Note {
    pub ctype: CType,
    pub mode: Mode,
    pub range: Range,
}

impl ExactClone for Note {
    fn exact_clone(&self, alloc: Global) -> Result<Note, AllocError> {
        let ctype = copied(alloc, &self.ctype)?;
        Ok(Note {
            ctype,
            mode: self.mode,
            range: self.range,
        })
    }
}

/// An object that lives as long as the program: its address, the type of its elements, the kind of pointer that its use
/// gives if it is an array, how many elements there are, whether the last one stays zero, and the bytes that it begins
/// with. A string literal is one too.
#[derive(Drop)]
pub struct StaticObject {
    pub at: u32,
    pub element: CType,
    pub array: Option<Kind>,
    pub count: u32,
    pub terminated: bool,
    pub initial: Bytes,
}

/// A typed text: its tree, its structures by the numbers of their tags, its static objects, and the number of the
/// function `main`.
#[derive(Drop)]
pub struct Typed {
    pub tree: Tree<Name, Note>,
    pub layout: Structs,
    pub statics: Seq<StaticObject>,
    pub main: u32,
}
