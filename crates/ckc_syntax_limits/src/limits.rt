ghost use Rattle.std.specs.Prelude.{◌≡◌, List, IfErr};
ghost use Rattle.ckc_base.specs.declared.fault.Fault.TheVariants.{Memory};
ghost use Rattle.ckc_base.specs.Phases.{Exact, viewed};
ghost use Rattle.ckc_syntax_limits.specs.Depth.{depth_of_item};
ghost use Rattle.ckc_syntax_limits.specs.Codes.{too_deep};
ghost use Rattle.ckc_syntax_limits.specs.Phase.{limiting};
ghost use Rattle.ckc_syntax_limits.specs.Small.{faults_of, faults_of_item, faults_of_function, faults_of_marks, over};
ghost use Rattle.ckc_syntax_limits.specs.code.Small.{Judges};
ghost use Rattle.ckc_syntax_limits.specs.code.Tally.{tallied, nothing};
ghost use Rattle.ckc_syntax_limits.specs.Marks.{Mark};

use crate::depth::item_within;
use crate::tally::{Tally, item_tally};
use ckc_base::{Fault, Pos, Refusal, START};
use ckc_syntax::{Item, Tree};

/// How deep statements and expressions may stand in one another.
const DEPTH: u32 = 64;

/// How many nodes, and how many locals with its parameters, a function may have.
const NODES: u32 = 1_000;

const LOCALS: u32 = 255;

/// How many nodes, functions, objects and string literals a text may have.
const ALL_NODES: u32 = 16_384;

const FUNCTIONS: u32 = 512;

const STATICS: u32 = 1_024;

const TEXTS: u32 = 1_024;

/// E202: statements and expressions stand in one another more than 64 deep.
pub const TOO_DEEP: u16 = 202;

/// E203: a function has over 1,000 nodes, or a text over 16,384.
pub const TOO_MANY_NODES: u16 = 203;

/// E204: a function has over 255 locals with its parameters.
pub const TOO_MANY_LOCALS: u16 = 204;

/// E205: a text has over 512 functions, 1,024 objects or 1,024 string literals.
pub const TOO_MANY_ITEMS: u16 = 205;

/// Whether a tree keeps the limits of a text, or the first refusal: item by item in the order of the text
/// E202, then for a function E203 and E204, each at the declared name or tag; then for the whole text E203 and
/// E205, at 1:1. It takes no memory.
pub fn fits<N, A>(tree: &Tree<N, A>) -> Result<(), Fault>
    // Ok if the tree is small, a refusal for exactly the first limit that is broken, both ways.
    ensures exact { Exact limiting tree.now (viewed (λ _. tree.now) result) }
    // It takes no memory.
    ensures no_memory { IfErr result (λ e. ¬ (e ≡ Memory)) }
{
    judged(tree)?;
    Ok(())
}

fn judged<N, A>(tree: &Tree<N, A>) -> Result<(), Refusal>
    ensures { Judges result (faults_of tree.now) }
{
    let mut whole = Tally::none();
    for item in tree.items.as_slice() {
        item_fits(item)?;
        whole = item_tally(item, whole);
    }
    whole_fits(whole)
}

fn item_fits<N, A>(item: &Item<N, A>) -> Result<(), Refusal>
    ensures { Judges result (faults_of_item item.now) }
{
    match item {
        Item::Directive(_) | Item::Tag(_, _) => Ok(()),
        Item::Struct(_, _, pos) => depth_fits(item, *pos),
        Item::Static(decl) => depth_fits(item, decl.get().pos),
        Item::Proto(head) => depth_fits(item, head.get().pos),
        Item::Function(head, _) => {
            depth_fits(item, head.get().pos)?;
            function_fits(item_tally(item, Tally::none()), head.get().pos)
        }
    }
}

fn depth_fits<N, A>(item: &Item<N, A>, pos: Pos) -> Result<(), Refusal>
    ensures { Judges result (over 64 (depth_of_item item.now) too_deep pos) }
{
    if !item_within(item, DEPTH) {
        return Err(Refusal {
            code: TOO_DEEP,
            pos,
        });
    }
    Ok(())
}

/// Judges the counts of a function, of which `ms` are the marks.
fn function_fits(tally: Tally, pos: Pos) -> Result<(), Refusal>
    ensures { (ms : List Mark) → tally ≡ tallied nothing ms
        → Judges result (faults_of_function ms pos) }
{
    at_most(NODES, tally.nodes, TOO_MANY_NODES, pos)?;
    at_most(LOCALS, tally.locals, TOO_MANY_LOCALS, pos)
}

/// Judges the counts of a text, of which `ms` are the marks.
fn whole_fits(tally: Tally) -> Result<(), Refusal>
    ensures { (ms : List Mark) → tally ≡ tallied nothing ms → Judges result (faults_of_marks ms) }
{
    at_most(ALL_NODES, tally.nodes, TOO_MANY_NODES, START)?;
    at_most(FUNCTIONS, tally.functions, TOO_MANY_ITEMS, START)?;
    at_most(STATICS, tally.statics, TOO_MANY_ITEMS, START)?;
    at_most(TEXTS, tally.texts, TOO_MANY_ITEMS, START)
}

/// Judges a number.
fn at_most(limit: u32, number: u32, code: u16, pos: Pos) -> Result<(), Refusal>
    ensures { Judges result (over limit number code pos) }
{
    if number > limit {
        return Err(Refusal { code, pos });
    }
    Ok(())
}
