//! What names stand for among variables and members, and what types they have.

ghost use Rattle.std.specs.Prelude.{◌≡◌, IfOk, find};
ghost use Rattle.std.specs.Option.{option_copied};
ghost use Rattle.ckc_syntax.specs.declared.tree.Name.TheVariants as name;
ghost use Rattle.ckc_typed.specs.Environment.{same_name, variable_named, is_member_named, member_type};
ghost use Rattle.ckc_typed.specs.Operands.{dot_type, arrow_type};

use crate::Variable;
use crate::constants::members_of;
use crate::types::copied;
use ckc_syntax::Name;
use ckc_types::{CType, MemberShape, Structs};
use std::alloc::{AllocError, Global};

/// Whether two names are the same.
pub fn same_name(a: Name, b: Name) -> bool
    ensures { result ≡ same_name a b }
{
    match (a, b) {
        (Name::Local(j), Name::Local(k)) => j == k,
        (Name::Static(j), Name::Static(k)) => j == k,
        (Name::Function(j), Name::Function(k)) => j == k,
        (Name::Tag(j), Name::Tag(k)) => j == k,
        (Name::Member(j), Name::Member(k)) => j == k,
        (Name::Getchar, Name::Getchar) => true,
        (Name::Putchar, Name::Putchar) => true,
        _ => false,
    }
}

fn is_local(n: Name, k: u32) -> bool
    ensures { result ≡ same_name n (name.Local k) }
{
    match n {
        Name::Local(j) => j == k,
        Name::Static(_) | Name::Function(_) | Name::Tag(_) | Name::Member(_) => false,
        Name::Getchar | Name::Putchar => false,
    }
}

/// The variable of a local, of which the walk compares nothing but the number.
fn local_named(variables: &[Variable], k: u32) -> Option<&Variable>
    ensures { option_copied result ≡ variable_named variables.now (name.Local k) }
{
    variables.iter().find(|v| is_local(v.name, k))
}

/// The variable with a name, if there is one.
pub fn variable_named(variables: &[Variable], n: Name) -> Option<&Variable>
    ensures { option_copied result ≡ variable_named variables.now n }
{
    match n {
        Name::Local(k) => local_named(variables, k),
        _ => variables.iter().find(|v| same_name(v.name, n)),
    }
}

fn is_member_named(n: Name, k: u32) -> bool
    ensures { result ≡ is_member_named n k }
{
    same_name(n, Name::Member(k))
}

fn member_named(members: &[MemberShape], n: Name) -> Option<&MemberShape>
    ensures { option_copied result ≡ find (λ m. is_member_named n m.name) members.now }
{
    members.iter().find(|m| is_member_named(n, m.name))
}

fn member_type(
    alloc: Global,
    structs: &Structs,
    tag: u32,
    n: Name,
) -> Result<Option<CType>, AllocError>
    ensures { IfOk result (λ t. t ≡ member_type structs.now tag n) }
{
    match member_named(members_of(structs, tag), n) {
        None => Ok(None),
        Some(m) => {
            let found = copied(alloc, &m.ctype)?;
            Ok(Some(found))
        }
    }
}

/// The type of `x.m`, by that of `x`.
pub fn dot_type(
    alloc: Global,
    structs: &Structs,
    t: &CType,
    n: Name,
) -> Result<Option<CType>, AllocError>
    ensures { IfOk result (λ r. r ≡ dot_type structs.now t.now n) }
{
    match t {
        CType::Struct(tag) => member_type(alloc, structs, *tag, n),
        CType::Int | CType::Unsigned | CType::Char | CType::Void => Ok(None),
        CType::Pointer(_, _) => Ok(None),
    }
}

/// The type of `p->m`, by that of `p`.
pub fn arrow_type(
    alloc: Global,
    structs: &Structs,
    t: &CType,
    n: Name,
) -> Result<Option<CType>, AllocError>
    ensures { IfOk result (λ r. r ≡ arrow_type structs.now t.now n) }
{
    match t {
        CType::Pointer(_, to) => dot_type(alloc, structs, to.get(), n),
        CType::Int | CType::Unsigned | CType::Char | CType::Void => Ok(None),
        CType::Struct(_) => Ok(None),
    }
}
