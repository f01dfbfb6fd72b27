//! Whether types have unchecked pointers and arrays in them, and where.

ghost use Rattle.std.specs.Prelude.{◌≡◌, flat_map};
ghost use Rattle.ckc_typed.specs.Raw.{has_raw, stars, brackets, raws_of_decl, raws_of_param, raws_of_head};
ghost use Rattle.ckc_typed.specs.Scoped.{names_function, is_raw_head, is_raw_item, is_raw_function, is_some_place};
ghost use Rattle.ckc_scopes.specs.code.Verdict.{first};

use ckc_base::Pos;
use ckc_syntax::{Decl, Head, Item, Length, Name, TypeTree};
use ckc_typed::Note;
use ckc_typed::interfaces::is_interface;
use ckc_types::{CType, Kind};

/// Whether an unchecked pointer stands anywhere in a type.
pub fn has_raw(t: &CType) -> bool
    ensures { result ≡ has_raw t.now }
{
    let mut rest = t;
    'pointers: loop {
        match rest {
            CType::Int | CType::Unsigned | CType::Char => return false,
            CType::Void | CType::Struct(_) => return false,
            CType::Pointer(Kind::Raw, _) => return true,
            CType::Pointer(Kind::One | Kind::Arr | Kind::Nt, to) => rest = to.get(),
        }
    }
}

/// The first `*` of a written type, an inner type's before its own.
#[tactic(auto, using(crate::proofs::Verdicts::first_append))]
pub fn first_star<N>(t: &TypeTree<N>) -> Option<Pos>
    ensures { result ≡ first (stars t.now) }
{
    let mut found = None;
    let mut rest = t;
    'pointers: loop {
        match rest {
            TypeTree::Int | TypeTree::Unsigned | TypeTree::Char | TypeTree::Void => return found,
            TypeTree::Struct(_, _) => return found,
            TypeTree::Raw(inner, pos) => {
                found = Some(*pos);
                rest = inner.get();
            }
            TypeTree::One(inner) | TypeTree::Arr(inner) | TypeTree::Nt(inner) => rest = inner.get(),
        }
    }
}

fn bracket(length: Length) -> Option<Pos>
    ensures { result ≡ first (brackets length) }
{
    match length {
        Length::Raw(_, pos) => Some(pos),
        Length::Plain | Length::Checked(_) | Length::Nt(_) => None,
    }
}

/// The first unchecked pointer or array that a declaration writes.
#[tactic(auto, using(crate::proofs::Verdicts::first_append))]
pub fn first_raw<N, A>(decl: &Decl<N, A>) -> Option<Pos>
    ensures { result ≡ first (raws_of_decl decl.now) }
{
    first_star(&decl.ctype).or(bracket(decl.length))
}

/// The first unchecked pointer or array that a parameter writes, if it is no interface.
pub fn first_raw_of_param<N, A>(param: &Decl<N, A>) -> Option<Pos>
    ensures { result ≡ first (raws_of_param param.now) }
{
    if is_interface(param) {
        None
    } else {
        first_raw(param)
    }
}

fn first_of_params<N, A>(params: &[Decl<N, A>]) -> Option<Pos>
    ensures { result ≡ first (flat_map raws_of_param params.now) }
{
    for param in params {
        if let Some(pos) = first_raw_of_param(param) {
            return Some(pos);
        }
    }
    None
}

fn is_raw_head(head: &Head<Name, Note>, function: u32) -> bool
    ensures { result ≡ is_raw_head function head.now }
{
    match head.name {
        Name::Function(k) => k == function && has_raw_types(head),
        _ => false,
    }
}

#[tactic(auto, using(crate::proofs::Verdicts::first_append))]
fn has_raw_types<N, A>(head: &Head<N, A>) -> bool
    ensures { result ≡ is_some_place (raws_of_head head.now) }
{
    first_star(&head.result)
        .or(first_of_params(head.params.as_slice()))
        .is_some()
}

fn is_raw_item(item: &Item<Name, Note>, function: u32) -> bool
    ensures { result ≡ is_raw_item function item.now }
{
    match item {
        Item::Proto(head) | Item::Function(head, _) => is_raw_head(head.get(), function),
        Item::Directive(_) | Item::Tag(_, _) | Item::Struct(_, _, _) | Item::Static(_) => false,
    }
}

/// Whether the head of the function with a number has an unchecked pointer or array in a type of its.
pub fn is_raw_function(items: &[Item<Name, Note>], function: u32) -> bool
    ensures { result ≡ is_raw_function items.now function }
{
    items.iter().any(|item| is_raw_item(item, function))
}
