//! A whole text.

ghost use Rattle.ckc_base.specs.Phases.{Exact};
ghost use Rattle.ckc_base.specs.Outcomes.{AnswersOutcome};
ghost use Rattle.ckc_typed.specs.Texts.{text_typed, laid_out};
ghost use Rattle.ckc_typing.specs.Phase.{typing};

use crate::items::{all_typed, globals_of};
use crate::placing::placed;
use ckc_base::{Fault, Seq};
use ckc_syntax::{Item, Name, NamedText, Tree};
use ckc_typed::{Note, StaticObject, Typed};
use ckc_types::Structs;
use ckc_typing_statics::blocks;
use std::alloc::Global;
use std::mem::forget;

/// The tree with the type and the mode of each statement and expression, its structures and its static objects; or its
/// first error in walk order (E401 to E407, and E206 last).
pub fn type_of(alloc: Global, text: NamedText) -> Result<Typed, Fault>
    ensures exact { Exact typing text result }
{
    let made = typed_text(alloc, &text.tree, text.main);
    forget(text);
    made
}

fn typed_text(alloc: Global, tree: &Tree<Name, ()>, main: u32) -> Result<Typed, Fault>
    ensures { AnswersOutcome result (text_typed tree.now main) }
{
    let globals = globals_of(alloc, tree.items.as_slice())?;
    let items = all_typed(alloc, &globals, tree.items.as_slice())?;
    let statics = laid_out(alloc, &globals.structs, items.as_slice())?;
    Ok(Typed {
        tree: Tree { items },
        layout: globals.structs,
        statics,
        main,
    })
}

fn laid_out(
    alloc: Global,
    structs: &Structs,
    items: &[Item<Name, Note>],
) -> Result<Seq<StaticObject>, Fault>
    ensures { AnswersOutcome result (laid_out structs.now items.now) }
{
    let unplaced = blocks(alloc, structs, items)?;
    placed(alloc, structs, unplaced.as_slice())
}
