ghost use Rattle.std.specs.Prelude.{◌≡◌, [], get_or, map, IfOk};
ghost use Rattle.ckc_base.specs.Phases.{Exact};
ghost use Rattle.ckc_syntax.specs.Spelled.{spelled};
ghost use Rattle.ckc_parser.specs.Phase.{parsing};

use ckc_base::{Fault, Pos, Seq};
use ckc_parser_items::build;
use ckc_parser_trace::recognise;
use ckc_parser_values::Held;
use ckc_syntax::{Item, Spelling, Token, Tree};
use std::alloc::{AllocError, Global};

/// The items that are left when a whole text is built.
fn text_of<'a>(held: Held<'a>) -> Result<Seq<Item<Spelling<'a>, ()>>, AllocError>
    ensures { IfOk result (λ items. items ≡ get_or held.entry.items 0 []) }
{
    let mut held = held;
    let list = held.items.take()?;
    Ok(list.into_seq())
}

/// The tree that the tokens of a text derive, which is the only one; or E120 at the first token that no
/// continuation admits, and at `end`, the place just past the text, where the tokens run out.
#[tactic(auto, using(crate::proofs::Built::built_answer, crate::proofs::Built::refused_answer, crate::proofs::Built::memory_answer, crate::proofs::Built::counted))]
pub fn parse<'a>(
    alloc: Global,
    tokens: &'a [Token<'a>],
    end: Pos,
) -> Result<Tree<Spelling<'a>, ()>, Fault>
    ensures exact { Exact parsing (record { list = map spelled tokens.now; end = end }) result }
{
    match recognise(alloc, tokens, end) {
        Err(fault) => Err(fault),
        Ok(trace) => match build(alloc, tokens, trace) {
            Err(_) => Err(Fault::Memory),
            Ok(held) => match text_of(held) {
                Err(_) => Err(Fault::Memory),
                Ok(items) => Ok(Tree { items }),
            },
        },
    }
}
