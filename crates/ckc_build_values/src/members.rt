//! Members of structures.

ghost use Rattle.std.specs.Prelude.{◌≡◌, ◌==◌, nat_lt, IfOk};
ghost use Rattle.std.specs.Option.{option_copied};
ghost use Rattle.std.specs.List.{list_any};
ghost use Rattle.ckc_types.specs.declared.types.CType.TheVariants as ctype;
ghost use Rattle.ckc_typed.specs.Constants.{size_of};
ghost use Rattle.ckc_typed.specs.Layouts.{member_number};
ghost use Rattle.ckc_build_values.specs.Members.{has_member, offset_of, member_named, integer_in_member, count_by, count_of_member};

use crate::kinds::{count_by_kind, integer_of};
use crate::numbers::elements;
use ckc_source::{Count, Integer};
use ckc_syntax::Name;
use ckc_typed::constants::{members_of, size_of};
use ckc_typed::lookups::same_name;
use ckc_types::{CType, MemberBounds, MemberShape, Structs, offset};
use std::alloc::AllocError;

fn has_size(structs: &Structs, tag: u32) -> bool
    ensures { result ≡ nat_lt 0 (size_of structs.now (ctype.Struct tag)) }
{
    size_of(structs, &CType::Struct(tag)) > 0
}

fn is_among(members: &[MemberShape], k: u32) -> bool
    ensures { result ≡ list_any (λ m. m.name == k) members.now }
{
    members.iter().any(|m| m.name == k)
}

fn has_member(structs: &Structs, tag: u32, k: u32) -> bool
    ensures { result ≡ has_member structs.now tag k }
{
    has_size(structs, tag) && is_among(members_of(structs, tag), k)
}

/// How many bytes lie before a member in its structure, 0 if there is no such member.
pub fn offset_of(structs: &Structs, tag: u32, k: u32) -> u32
    ensures { result ≡ offset_of structs.now tag k }
{
    if has_member(structs, tag, k) {
        offset(structs, tag, k)
    } else {
        0
    }
}

/// The number of a member.
pub fn member_number(n: Name) -> u32
    ensures { result ≡ member_number n }
{
    match n {
        Name::Member(k) => k,
        Name::Local(_) | Name::Static(_) | Name::Function(_) | Name::Tag(_) => 0,
        Name::Getchar | Name::Putchar => 0,
    }
}

fn member_named(structs: &Structs, tag: u32, n: Name) -> Option<&MemberShape>
    ensures { option_copied result ≡ member_named structs.now tag n }
{
    members_of(structs, tag)
        .iter()
        .find(|m| same_name(n, Name::Member(m.name)))
}

fn integer_in_member(m: Option<&MemberShape>) -> Integer
    ensures { result ≡ integer_in_member (option_copied m.entry) }
{
    match m {
        Some(m) => integer_of(&m.ctype),
        None => Integer::Int,
    }
}

fn count_by(
    structs: &Structs,
    tag: u32,
    t: &CType,
    bounds: MemberBounds,
) -> Result<Option<Count>, AllocError>
    ensures { IfOk result (λ n. n ≡ count_by structs.now tag t.now bounds) }
{
    match bounds {
        MemberBounds::Nothing => Ok(count_by_kind(t)),
        MemberBounds::Unknown | MemberBounds::NoForm => Ok(None),
        MemberBounds::Fixed(c) => {
            let c = elements(c)?;
            Ok(Some(Count::Fixed(c)))
        }
        MemberBounds::Named(k, c) => {
            let c = elements(c)?;
            let form = integer_in_member(member_named(structs, tag, Name::Member(k)));
            Ok(Some(Count::Member(offset_of(structs, tag, k), form, c)))
        }
    }
}

/// How many elements a member points to, if it is a pointer of which that is known.
pub fn count_of_member(structs: &Structs, tag: u32, n: Name) -> Result<Option<Count>, AllocError>
    ensures { IfOk result (λ c. c ≡ count_of_member structs.now tag n) }
{
    match member_named(structs, tag, n) {
        None => Ok(None),
        Some(m) => count_by(structs, tag, &m.ctype, m.bounds),
    }
}
