use ckc_base::{Boxed, Seq};

/// The kinds of pointers: `T *`, `_Ptr<T>`, `_Array_ptr<T>` and `_Nt_array_ptr<T>` (Checked C specification 0.9,
/// section 2).
#[derive(Clone, Copy, PartialEq, Eq)]
pub enum Kind {
    Raw,
    One,
    Arr,
    Nt,
}

/// A type. A structure is given by the number of its tag.
pub enum CType {
    Int,
    Unsigned,
    Char,
    Void,
    Struct(u32),
    Pointer(Kind, Boxed<CType>),
}

// Written out, so that an exit over which a type lives has one call, and a loop, so that a long chain of pointers
// does not run out of stack.
impl Drop for CType {
    fn drop(mut self) {
        loop {
            match self {
                CType::Int => return,
                CType::Unsigned => return,
                CType::Char => return,
                CType::Void => return,
                CType::Struct(_tag) => return,
                CType::Pointer(_kind, to) => self = to.into_inner(),
            }
        }
    }
}

/// How many elements a member points to: no bounds are written, `bounds(unknown)` is, `Fixed(c)` is `count(c)`,
/// `Named(m, c)` is `count(m + c)` for the member m of the same structure, and `NoForm` is what is none of these and
/// is refused when bounds are judged.
#[derive(Clone, Copy)]
pub enum MemberBounds {
    Nothing,
    Unknown,
    Fixed(i64),
    Named(u32, i64),
    NoForm,
}

/// A member: the number of its spelling, its type and its bounds.
#[derive(Drop)]
pub struct MemberShape {
    pub name: u32,
    pub ctype: CType,
    pub bounds: MemberBounds,
}

/// The members of a structure, in order.
#[derive(Drop)]
pub struct StructShape {
    pub members: Seq<MemberShape>,
}

/// The structures of a text, each at the number of its tag.
#[derive(Drop)]
pub struct Structs {
    pub shapes: Seq<StructShape>,
}
