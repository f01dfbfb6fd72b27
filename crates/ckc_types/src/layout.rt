//! How types lie in memory (RISC-V ELF psABI, ILP32: `char` has one byte, `int`, `unsigned` and pointers have four).

ghost use Rattle.std.specs.Prelude.{◌≡◌, ◌*◌, ◌≤◌, length, IsSome, slice_get};
ghost use Rattle.ckc_types.specs.Scalars.{scalar_size, scalar_align};
ghost use Rattle.ckc_types.specs.Layout.{size, align, offset, struct_align, end_of, members_of};
ghost use Rattle.ckc_types.specs.LaidOut.{IsLaidOut, HasMember};

use crate::{CType, MemberShape, Structs};

/// The size of a type in bytes.
pub fn size(structs: &Structs, t: &CType) -> u32
    requires { IsLaidOut structs.now t.now }
    ensures { result ≡ size structs.now t.now }
{
    match t {
        CType::Struct(tag) => {
            let members = members_of(structs, *tag);
            end_of(members).next_multiple_of(struct_align(members))
        }
        _ => scalar_size(t),
    }
}

/// The alignment of a type: each address of a value of it is a multiple.
pub fn align(structs: &Structs, t: &CType) -> u32
    requires { IsLaidOut structs.now t.now }
    ensures { result ≡ align structs.now t.now }
{
    match t {
        CType::Struct(tag) => struct_align(members_of(structs, *tag)),
        _ => scalar_align(t),
    }
}

/// How many bytes lie before a member in its structure. The member is given by the number of its spelling.
pub fn offset(structs: &Structs, shape: u32, member: u32) -> u32
    requires { HasMember structs.now shape member }
    ensures { result ≡ offset structs.now shape member }
{
    let mut end: u32 = 0;
    for m in members_of(structs, shape) {
        let start = end.next_multiple_of(scalar_align(&m.ctype));
        if m.name == member {
            return start;
        }
        end = start + scalar_size(&m.ctype);
    }
    // Not reached: the structure has the member.
    end
}

fn scalar_size(t: &CType) -> u32
    ensures { result ≡ scalar_size t.now }
{
    match t {
        CType::Char => 1,
        CType::Int | CType::Unsigned | CType::Pointer(_, _) => 4,
        CType::Void | CType::Struct(_) => 0,
    }
}

fn scalar_align(t: &CType) -> u32
    ensures { result ≡ scalar_align t.now }
{
    match t {
        CType::Char | CType::Void | CType::Struct(_) => 1,
        CType::Pointer(_, _) | CType::Int | CType::Unsigned => 4,
    }
}

fn members_of(structs: &Structs, tag: u32) -> &[MemberShape]
    requires { IsSome (slice_get structs.now.shapes tag) }
    ensures { result.now ≡ members_of structs.now tag }
{
    structs.shapes.as_slice()[tag as usize].members.as_slice()
}

/// The greatest alignment of the members.
fn struct_align(members: &[MemberShape]) -> u32
    ensures greatest { result ≡ struct_align members.now }
    ensures positive { 1 ≤ result }
    ensures small { result ≤ 4 }
{
    let mut greatest: u32 = 1;
    for m in members {
        greatest = greatest.max(scalar_align(&m.ctype));
    }
    greatest
}

/// Where the last member ends.
fn end_of(members: &[MemberShape]) -> u32
    requires { length members.now ≤ 16384 }
    ensures end { result ≡ end_of 0 members.now }
    ensures small { result ≤ 8 * length members.now }
{
    let mut end: u32 = 0;
    for m in members {
        end = end.next_multiple_of(scalar_align(&m.ctype)) + scalar_size(&m.ctype);
    }
    end
}
