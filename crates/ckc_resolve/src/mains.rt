//! The function with which a program begins.

ghost use Rattle.std.specs.Prelude.{◌≡◌};
ghost use Rattle.std.specs.List.{list_any};
ghost use Rattle.ckc_base.specs.Outcomes.{AnswersOutcome};
ghost use Rattle.ckc_resolve.specs.Main.{is_int, is_main, main_named};

use crate::names::Names;
use crate::refusals::NO_MAIN;
use ckc_base::{Fault, START, refused};
use ckc_syntax::{Item, Spelling, TypeTree};

fn is_int<'a>(t: &TypeTree<Spelling<'a>>) -> bool
    ensures { result ≡ is_int t.now }
{
    match t {
        TypeTree::Int => true,
        TypeTree::Unsigned | TypeTree::Char | TypeTree::Void | TypeTree::Struct(_, _) => false,
        TypeTree::Raw(_, _) | TypeTree::One(_) | TypeTree::Arr(_) | TypeTree::Nt(_) => false,
    }
}

fn is_main<'a>(item: &Item<Spelling<'a>, ()>) -> bool
    ensures { result ≡ is_main item.now }
{
    match item {
        Item::Function(head, _) => {
            let head = head.get();
            head.name.as_str() == "main"
                && is_int(&head.result)
                && head.params.is_empty()
                && head.bounds.is_none()
        }
        Item::Directive(_) | Item::Tag(_, _) | Item::Struct(_, _, _) => false,
        Item::Static(_) | Item::Proto(_) => false,
    }
}

/// Whether some item is a function `int main(void)`.
fn has_main<'a>(items: &[Item<Spelling<'a>, ()>]) -> bool
    ensures { result ≡ list_any is_main items.now }
{
    for item in items {
        if is_main(item) {
            return true;
        }
    }
    false
}

/// The number of the function `main`.
pub fn main_number<'a>(names: &Names<'a>, items: &[Item<Spelling<'a>, ()>]) -> Result<u32, Fault>
    ensures { AnswersOutcome result (main_named names.now items.now) }
{
    if !has_main(items) {
        return Err(refused(NO_MAIN, START));
    }
    Ok(names.functions.number(&Spelling::new("main")))
}
