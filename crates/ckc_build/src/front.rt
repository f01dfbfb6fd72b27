//! From a text to the text with its types and the ranges of its pointers, phase by phase.
ghost use Rattle.std.specs.Prelude.{IfOk};
ghost use Rattle.ckc_base.specs.Phases.{Exact};
ghost use Rattle.ckc_blame.specs.Blamed.{IsBlamed, IsNeverStuck};
ghost use Rattle.ckc_blame.specs.Checked.{WhollyChecked};
ghost use Rattle.ckc_build_wellformed.specs.ckc_blame_steps.specs.Unchecked.{AreStoresBlamed};
ghost use Rattle.ckc_syntax_limits.specs.Phase.{limiting};
ghost use Rattle.ckc_build_elaborate.specs.Elaborated.{elaborated};
ghost use Rattle.ckc_build.specs.Meanings.{judging};

use crate::laws::{unchecked_code_is_to_blame, unchecked_stores_are_to_blame};
use ckc_base::Fault;
use ckc_bounds::bounds;
use ckc_lexer::{end_of, lex};
use ckc_parser::parse;
use ckc_plain::resolve_plainly;
use ckc_scopes::scopes;
use ckc_syntax::{Spelling, Tree};
use ckc_syntax_limits::fits;
use ckc_typed::Typed;
use ckc_typing::type_of;
use std::alloc::Global;
use std::mem::forget;

/// The text with its types and the ranges of its pointers, or the first error of the text.
pub fn judge(alloc: Global, text: &[u8]) -> Result<Typed, Fault>
    // Ok of exactly the text with its types and ranges, a refusal for exactly its first error, both ways.
    ensures exact { Exact judging text.now result }
    // If the meaning of the text is stuck, unchecked code is to blame,
    ensures blamed { IfOk result (λ p. IsBlamed (elaborated p)) }
    // more exactly, a store through an unchecked pointer or the step that is stuck,
    ensures stores { IfOk result (λ p. AreStoresBlamed (elaborated p)) }
    // and the meaning of a text that is wholly checked is never stuck.
    ensures checked { IfOk result (λ p. WhollyChecked p → IsNeverStuck (elaborated p)) }
{
    unchecked_code_is_to_blame();
    unchecked_stores_are_to_blame();
    judged(alloc, text)
}

/// The phases, one after another.
fn judged(alloc: Global, text: &[u8]) -> Result<Typed, Fault>
    ensures exact { Exact judging text.now result }
{
    // The tokens are left to the end of the process, as the trees are that the next phase has read.
    let tokens = lex(alloc, text)?.into_vec().leak();
    let tree = parse(alloc, tokens, end_of(text))?;
    let small = limited(tree)?;
    let named = resolve_plainly(alloc, small)?;
    let typed = type_of(alloc, named)?;
    let scoped = scopes(typed)?;
    bounds(alloc, scoped)
}

/// The tree, if it keeps the limits of a text. One that does not may nest deeper than the host's stack reaches, so it is
/// not taken apart, but left to the end of the process.
fn limited<'a>(tree: Tree<Spelling<'a>, ()>) -> Result<Tree<Spelling<'a>, ()>, Fault>
    ensures exact { Exact limiting tree.entry result }
{
    match fits(&tree) {
        Ok(()) => Ok(tree),
        Err(fault) => {
            forget(tree);
            Err(fault)
        }
    }
}
