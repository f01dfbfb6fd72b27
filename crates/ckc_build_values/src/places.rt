//! Where accesses go.

ghost use Rattle.std.specs.Prelude.{◌≡◌, IfOk};
ghost use Rattle.ckc_source.specs.Code.{expr_of};
ghost use Rattle.ckc_build_values.specs.Places.{place_of, object_place, nowhere, name_place, element_place, target_place, behind, member_place, read_at, address_at};

use crate::kinds::{pointee_of, size_behind, through, width_of};
use crate::members::{member_number, offset_of};
use crate::names::address_of;
use ckc_base::{Boxed, Pos, sum};
use ckc_source::{Access, Count, ExprTree, Integer, Through};
use ckc_syntax::Name;
use ckc_typed::Typed;
use ckc_typed::constants::size_of;
use ckc_types::{CType, Structs};
use std::alloc::{AllocError, Global};

/// A place: the access, the pointer that it goes through, and the index.
#[derive(Drop)]
pub struct Placed {
    pub access: Access,
    pub pointer: Boxed<ExprTree>,
    pub index: Boxed<ExprTree>,
}

/// An object by its name.
pub fn object_place(
    alloc: Global,
    typed: &Typed,
    t: &CType,
    at: Pos,
    k: u32,
) -> Result<Placed, AllocError>
    ensures { IfOk result (λ w. place_of w ≡ object_place typed.now t.now at k) }
{
    let pointer = Boxed::new(alloc, ExprTree::Number(address_of(typed, k)))?;
    let index = Boxed::new(alloc, ExprTree::Number(0))?;
    Ok(Placed {
        access: Access {
            through: Through::Named,
            at,
            size: size_of(&typed.layout, t),
            index: Integer::Int,
            offset: 0,
        },
        pointer,
        index,
    })
}

/// What has no place.
pub fn nowhere(alloc: Global, at: Pos) -> Result<Placed, AllocError>
    ensures { IfOk result (λ w. place_of w ≡ nowhere at) }
{
    let pointer = Boxed::new(alloc, ExprTree::Number(0))?;
    let index = Boxed::new(alloc, ExprTree::Number(0))?;
    Ok(Placed {
        access: Access {
            through: Through::Named,
            at,
            size: 0,
            index: Integer::Int,
            offset: 0,
        },
        pointer,
        index,
    })
}

/// The place of a name.
pub fn name_place(
    alloc: Global,
    typed: &Typed,
    t: &CType,
    at: Pos,
    n: Name,
) -> Result<Placed, AllocError>
    ensures { IfOk result (λ w. place_of w ≡ name_place typed.now t.now at n) }
{
    match n {
        Name::Static(k) => object_place(alloc, typed, t, at, k),
        Name::Local(_) | Name::Function(_) | Name::Tag(_) | Name::Member(_) => nowhere(alloc, at),
        Name::Getchar | Name::Putchar => nowhere(alloc, at),
    }
}

/// The element with an index, through a pointer of a type.
pub fn element_place(
    structs: &Structs,
    t: &CType,
    at: Pos,
    index: Integer,
    e: Boxed<ExprTree>,
    f: Boxed<ExprTree>,
) -> Placed
    ensures { place_of result ≡ element_place structs.now t.now at index (expr_of e) (expr_of f) }
{
    Placed {
        access: Access {
            through: through(t),
            at,
            size: size_behind(structs, t),
            index,
            offset: 0,
        },
        pointer: e,
        index: f,
    }
}

/// What a pointer of a type points to.
pub fn target_place(
    alloc: Global,
    structs: &Structs,
    t: &CType,
    at: Pos,
    e: Boxed<ExprTree>,
) -> Result<Placed, AllocError>
    ensures { IfOk result (λ w. place_of w ≡ target_place structs.now t.now at (expr_of e)) }
{
    let zero = Boxed::new(alloc, ExprTree::Number(0))?;
    Ok(element_place(structs, t, at, Integer::Int, e, zero))
}

fn moved(access: Access, offset: u32) -> Access
    ensures { result ≡ record access { offset = offset } }
{
    Access { offset, ..access }
}

/// A member of the structure at a place.
pub fn member_place(structs: &Structs, tag: u32, n: Name, w: Placed) -> Result<Placed, AllocError>
    ensures { IfOk result (λ q. place_of q ≡ member_place structs.now tag n (place_of w)) }
{
    let Placed {
        access,
        pointer,
        index,
    } = w;
    let offset = sum(access.offset, offset_of(structs, tag, member_number(n)))?;
    Ok(Placed {
        access: moved(access, offset),
        pointer,
        index,
    })
}

/// What is read at a place.
pub fn read_at(
    alloc: Global,
    structs: &Structs,
    t: &CType,
    count: Option<Count>,
    w: Placed,
) -> Result<ExprTree, AllocError>
    ensures { IfOk result (λ e. expr_of e ≡ read_at structs.now t.now count (place_of w)) }
{
    let Placed {
        access,
        pointer,
        index,
    } = w;
    match count {
        Some(n) => {
            let to = pointee_of(alloc, structs, t)?;
            let to = Boxed::new(alloc, to)?;
            Ok(ExprTree::Member(to, n, access, pointer, index))
        }
        None => Ok(ExprTree::Load(width_of(t), access, pointer, index)),
    }
}

/// The address of what is at a place.
pub fn address_at(structs: &Structs, t: &CType, w: Placed) -> ExprTree
    ensures { expr_of result ≡ address_at structs.now t.now (place_of w) }
{
    let Placed {
        access,
        pointer,
        index,
    } = w;
    ExprTree::Address(size_of(structs, t), access, pointer, index)
}
