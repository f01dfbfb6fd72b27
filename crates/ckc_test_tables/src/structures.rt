//! Structures, and whether they have a layout.
ghost use Rattle.std.specs.Prelude.{◌≡◌, IsTrue, IsSome, slice_get};
ghost use Rattle.std.specs.List.{All, Contains};
ghost use Rattle.ckc_types.specs.declared.types.MemberShape.{MemberShape};
ghost use Rattle.ckc_types.specs.Scalars.{IsScalar};
ghost use Rattle.ckc_types.specs.Layout.{members_of};
ghost use Rattle.ckc_types.specs.LaidOut.{IsStruct, IsLaidOut, HasMember};

use crate::layouts::pointer;
use ckc_base::Seq;
use ckc_test_trials::Page;
use ckc_types::{CType, Kind, MemberBounds, MemberShape, StructShape, Structs};

/// Two structures: the first has an `unsigned`, one more and a `char`, the second a member for each letter, named from 5
/// up, as often as is said.
pub fn structs_of(letters: &str, times: u32, page: &mut Page) -> Structs {
    let mut structs = Structs {
        shapes: Seq::new(page.alloc()),
    };
    add(&mut structs, b"uuc", 1, page);
    add(&mut structs, letters.as_bytes(), times, page);
    structs
}

fn add(structs: &mut Structs, letters: &[u8], times: u32, page: &mut Page) {
    let mut members = Seq::new(page.alloc());
    let mut name: u32 = 5;
    for _ in 0..times {
        for letter in letters {
            add_member(&mut members, name, *letter, page);
            name = name.wrapping_add(1);
        }
    }
    if structs.shapes.push(StructShape { members }).is_err() {
        page.lacks_memory();
    }
}

/// `c` is `char`, `u` is `unsigned`, `i` is `int` and `p` is a pointer.
fn add_member(members: &mut Seq<MemberShape>, name: u32, letter: u8, page: &mut Page) {
    let ctype = match letter {
        b'c' => CType::Char,
        b'u' => CType::Unsigned,
        b'i' => CType::Int,
        b'p' => pointer(Kind::Nt, CType::Char, page),
        _ => {
            page.refuse("an unknown letter");
            CType::Void
        }
    };
    let bounds = MemberBounds::Nothing;
    if members
        .push(MemberShape {
            name,
            ctype,
            bounds,
        })
        .is_err()
    {
        page.lacks_memory();
    }
}

fn members_of(structs: &Structs, tag: u32) -> &[MemberShape]
    requires { IsSome (slice_get structs.now.shapes tag) }
    ensures { result.now ≡ members_of structs.now tag }
{
    structs.shapes.as_slice()[tag as usize].members.as_slice()
}

fn is_scalar(t: &CType) -> bool
    ensures { IsTrue result → IsScalar t.now }
{
    match t {
        CType::Int | CType::Unsigned | CType::Char | CType::Pointer(_, _) => true,
        CType::Void | CType::Struct(_) => false,
    }
}

fn are_scalars(members: &[MemberShape]) -> bool
    ensures { IsTrue result → All (λ m. IsScalar m.ctype) members.now }
{
    for m in members {
        if !is_scalar(&m.ctype) {
            return false;
        }
    }
    true
}

fn has_name(members: &[MemberShape], name: u32) -> bool
    ensures { IsTrue result → (m : MemberShape) × Contains members.now m × (m.name ≡ name) }
{
    for m in members {
        if m.name == name {
            return true;
        }
    }
    false
}

fn is_struct(structs: &Structs, tag: u32) -> bool
    ensures { IsTrue result → IsStruct structs.now tag }
{
    match structs.shapes.get(tag as usize) {
        None => false,
        Some(shape) => {
            !shape.members.is_empty()
                && shape.members.len() <= 16_384
                && are_scalars(shape.members.as_slice())
        }
    }
}

/// Whether there is a structure with the tag that has a layout and a member with the name.
pub fn has_member(structs: &Structs, tag: u32, name: u32) -> bool
    ensures { IsTrue result → HasMember structs.now tag name }
{
    is_struct(structs, tag) && has_name(members_of(structs, tag), name)
}

/// Whether a type has a layout.
pub fn is_laid_out(structs: &Structs, t: &CType) -> bool
    ensures { IsTrue result → IsLaidOut structs.now t.now }
{
    match t {
        CType::Struct(tag) => is_struct(structs, *tag),
        _ => is_scalar(t),
    }
}
