//! What the expressions of a function are judged by.

ghost use Rattle.std.specs.Prelude.{◌<◌, length};

use ckc_base::Seq;
use ckc_linear::Form;
use ckc_typed::StaticObject;
use ckc_types::{CType, Structs};

/// The declared bounds of a pointer: unknown, or from a form up to another. An integer and an unchecked pointer have
/// none, which is as good as unknown ones.
#[derive(Clone, Copy)]
pub enum Bounds {
    Unknown,
    Known(Form, Form),
}

/// A parameter or local of a function: its type and its declared bounds.
#[derive(Drop)]
pub struct Local {
    pub ctype: CType,
    pub bounds: Bounds,
}

/// What a function's head says of bounds: its parameters as callers see them, which of them are interfaces, the type of
/// its result, and the declared bounds of the result, in which `Base::Value(0)` is the result itself.
pub struct HeadBounds {
    pub params: Seq<Local>,
    pub interfaces: Seq<bool>,
    pub result: CType,
    pub bounds: Bounds,
}

impl Drop for HeadBounds {
    fn drop(self) {
        let HeadBounds {
            params: _params,
            interfaces: _interfaces,
            result: _result,
            bounds: _bounds,
        } = self;
    }
}

/// What expressions are judged by: the structures and the static objects of a text by their numbers, of each object of
/// file scope the bounds that are written, in which `Base::Value(0)` is its value, the heads of the functions by their
/// numbers, and the variables of one function by theirs: its parameters and locals, then its fresh variables, fewer than
/// 1,024 in all. In facts and forms local k is variable k + 1.
pub struct Frame {
    pub structs: Structs,
    pub statics: Seq<StaticObject>,
    pub objects: Seq<Option<Bounds>>,
    pub heads: Seq<HeadBounds>,
    pub locals: Seq<Local>,
    ghost few: { length locals < 1024 },
}

impl Drop for Frame {
    fn drop(self) {
        let Frame {
            structs: _structs,
            statics: _statics,
            objects: _objects,
            heads: _heads,
            locals: _locals,
        } = self;
    }
}
