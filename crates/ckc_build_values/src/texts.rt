//! A typed text, with what a look-up of bounds needs.

ghost use Rattle.std.specs.Prelude.{◌≡◌};
ghost use Rattle.std.specs.List.{list_any};
ghost use Rattle.std.specs.Option.{option_copied};
ghost use Rattle.ckc_build_values.specs.Names.{limits_declared};
ghost use Rattle.ckc_build_values.specs.Bounded.{is_bounded};

use crate::names::limits_by_walk;
use ckc_syntax::{Item, Limits, Name};
use ckc_typed::{Note, Typed};
use ckc_types::Structs;
use std::marker::Model;

/// A typed text, and whether one of its static objects is declared with bounds: if none is, nothing has to be walked
/// through to know that. A contract sees the text alone.
#[derive(Drop)]
pub struct Text<'a> {
    typed: &'a Typed,
    some_bounded: bool,
}

impl<'a> Model for Text<'a> {
    ghost use Rattle.std.specs.Prelude.{◌≡◌};
    ghost use Rattle.std.specs.List.{list_any};
    ghost use Rattle.ckc_typed.specs.declared.typed.Typed.{Typed};

    ghost Value = { Typed };

    ghost use Rattle.ckc_typed.specs.contracts.typed.Typed as row_of_typed;

    ghost coded = { row_of_typed.the_row.coded };

    ghost use Rattle.ckc_build_values.specs.Bounded.{is_bounded};

    ghost view = { λ s. s.typed.now };

    ghost invariant = { λ s. s.some_bounded ≡ list_any is_bounded s.typed.now.tree.items };
}

fn is_bounded(item: &Item<Name, Note>) -> bool
    ensures { result ≡ is_bounded item.now }
{
    match item {
        Item::Static(d) => d.get().bounds.is_some(),
        Item::Directive(_) | Item::Tag(_, _) | Item::Struct(_, _, _) => false,
        Item::Proto(_) | Item::Function(_, _) => false,
    }
}

fn some_bounded(items: &[Item<Name, Note>]) -> bool
    ensures { result ≡ list_any is_bounded items.now }
{
    items.iter().any(|i| is_bounded(i))
}

impl<'a> Text<'a> {
    /// A typed text, which is walked through once.
    pub fn new(typed: &'a Typed) -> Text<'a>
        ensures { result ≡ typed.now }
    {
        Text {
            typed,
            some_bounded: some_bounded(typed.tree.items.as_slice()),
        }
    }

    /// The typed text.
    pub fn get(&self) -> &'a Typed
        ensures { result.now ≡ self.now }
    {
        self.typed
    }

    /// The structures by the numbers of their tags.
    pub fn layout(&self) -> &'a Structs
        ensures { result.now ≡ self.now.layout }
    {
        &self.typed.layout
    }

    /// The bounds that a static object is declared with.
    pub(crate) fn limits_declared(&self, n: Name) -> Option<&'a Limits<Name, Note>>
        ensures { option_copied result ≡ limits_declared self.now n }
    {
        if self.some_bounded {
            limits_by_walk(self.typed, n)
        } else {
            None
        }
    }
}
