ghost use Rattle.std.specs.Prelude.{Ok};
ghost use Rattle.ckc_base.specs.Outcomes.{AnswersOutcome};
ghost use Rattle.ckc_base.specs.Phases.{Exact};
ghost use Rattle.ckc_resolve.specs.Scoping.{names_of};
ghost use Rattle.ckc_resolve.specs.Phase.{text_named, naming};

use crate::items::named_items;
use crate::mains::main_number;
use crate::names::Names;
use ckc_base::Fault;
use ckc_syntax::{NamedText, Spelling, Tree};
use std::alloc::Global;
use std::mem::forget;

/// The tree with each name replaced by the declaration that it means, and the number of its function `main`; or the
/// first error of the names in walk order (E301 to E304).
pub fn resolve<'a>(alloc: Global, tree: Tree<Spelling<'a>, ()>) -> Result<NamedText, Fault>
    ensures exact { Exact naming tree.entry result }
{
    let made = resolved(alloc, &tree);
    forget(tree);
    made
}

fn resolved<'a>(alloc: Global, tree: &Tree<Spelling<'a>, ()>) -> Result<NamedText, Fault>
    ensures { AnswersOutcome result (text_named tree.now) }
{
    let names = names_of(alloc, tree)?;
    let items = named_items(alloc, &names, tree.items.as_slice())?;
    let main = main_number(&names, tree.items.as_slice())?;
    Ok(NamedText {
        tree: Tree { items },
        main,
    })
}

/// The names that the whole text sees.
fn names_of<'a>(alloc: Global, tree: &Tree<Spelling<'a>, ()>) -> Result<Names<'a>, Fault>
    ensures { AnswersOutcome result (Ok (names_of tree.now)) }
{
    let mut names = Names::new(alloc);
    for item in tree.items.as_slice() {
        names.note(item)?;
    }
    Ok(names)
}
