//! The phase, and the limits and all phases up to it.

ghost use Rattle.std.specs.Prelude.{◌≡◌, [], ◌∷◌, ◌++◌, IfOk, OnOk};
ghost use Rattle.ckc_base.specs.Outcomes.{AnswersOutcome};
ghost use Rattle.ckc_plain_barred.specs.Integers.{known_of, known_in};
ghost use Rattle.ckc_base.specs.Phases.{Exact};
ghost use Rattle.ckc_plain_bodies.specs.Statements.{body_plain, item_plain};
ghost use Rattle.ckc_plain.specs.Phase.{unless_some, text_plain, plaining, relimiting, resolving};
ghost use Rattle.ckc_plain_bodies.specs.code.Statements.{items_plain};
ghost use Rattle.ckc_plain_barred.specs.Barred.{barred};
ghost use Rattle.ckc_syntax_limits.specs.Phase.{limiting};

use ckc_base::{Boxed, Fault, Seq, refused};
use ckc_plain_barred::{Integers, first_in_items, known_of, locals_of};
use ckc_plain_bodies::stmt_alone;
use ckc_resolve::resolve;
use ckc_syntax::{Head, Item, Name, NamedText, Spelling, Stmt, Tree};
use ckc_syntax_limits::fits;
use std::alloc::{AllocError, Global};
use std::mem::{forget, replace};

/// E408: an effect stands where it may not, or cannot be taken out of its expression.
pub const MISPLACED_EFFECT: u16 = 408;

/// The body of a function.
fn plain_body(
    alloc: Global,
    known: &mut Integers,
    head: &Head<Name, ()>,
    body: &Stmt<Name, ()>,
) -> Result<Boxed<Stmt<Name, ()>>, AllocError>
    ensures made { IfOk result (λ b. b ≡ body_plain (known_in known.old head.now body.now) body.now) }
    ensures kept { OnOk result (known.new ≡ known.old) }
{
    let locals = locals_of(alloc, head, body)?;
    let mut next = count(locals.len())?;
    let outer = replace(&mut known.locals, locals);
    let made = stmt_alone(alloc, known, body, &mut next)?;
    known.locals = outer;
    Ok(made)
}

/// A number of locals. One that does not fit is taken for want of memory.
fn count(n: usize) -> Result<u32, AllocError>
    ensures { IfOk result (λ k. k ≡ n) }
{
    if n > 4_294_967_295 {
        return Err(AllocError);
    }
    Ok(n as u32)
}

/// An item. Only the body of a function is made anew.
fn plain_item(
    alloc: Global,
    known: &mut Integers,
    item: &mut Item<Name, ()>,
) -> Result<(), AllocError>
    ensures made { OnOk result (item.new ≡ item_plain known.old item.old) }
    ensures kept { OnOk result (known.new ≡ known.old) }
{
    if let Item::Function(head, body) = item {
        let made = plain_body(alloc, known, head.get(), body.get())?;
        *body = made;
    }
    Ok(())
}

fn no_items(alloc: Global) -> Seq<Item<Name, ()>>
    ensures { result ≡ [] }
{
    Seq::new(alloc)
}

/// Adds an item at the end.
fn add_item(all: &mut Seq<Item<Name, ()>>, item: Item<Name, ()>) -> Result<(), AllocError>
    ensures { OnOk result (all.new ≡ all.old ++ item ∷ []) }
{
    all.push(item)
}

fn plain_items(
    alloc: Global,
    known: &mut Integers,
    items: Seq<Item<Name, ()>>,
) -> Result<Seq<Item<Name, ()>>, AllocError>
    ensures { IfOk result (λ made. made ≡ items_plain known.old items) }
{
    let mut all = no_items(alloc);
    for mut item in items.into_vec() {
        plain_item(alloc, known, &mut item)?;
        add_item(&mut all, item)?;
    }
    Ok(all)
}

/// E408 at the first effect that is refused.
fn judged(alloc: Global, known: &mut Integers, tree: &Tree<Name, ()>) -> Result<(), Fault>
    ensures answers { known.old ≡ known_of tree.now
        → AnswersOutcome result (unless_some (barred tree.now)) }
    ensures kept { OnOk result (known.new ≡ known.old) }
{
    match first_in_items(alloc, known, tree.items.as_slice())? {
        Some(pos) => Err(refused(MISPLACED_EFFECT, pos)),
        None => Ok(()),
    }
}

/// The text without effects in its expressions: calls, assignments and increments within expressions become statements
/// of their own. Or E408 at the first effect in walk order that stands where it may not, or cannot be taken out.
pub fn plain(alloc: Global, named: NamedText) -> Result<NamedText, Fault>
    ensures exact { Exact plaining named result }
{
    plained(alloc, named)
}

fn plained(alloc: Global, named: NamedText) -> Result<NamedText, Fault>
    ensures { AnswersOutcome result (text_plain named) }
{
    let mut known = known_of(alloc, &named.tree)?;
    judged(alloc, &mut known, &named.tree)?;
    let NamedText { tree, main } = named;
    let Tree { items } = tree;
    let items = plain_items(alloc, &mut known, items)?;
    Ok(NamedText {
        tree: Tree { items },
        main,
    })
}

/// The text, if its tree keeps the limits of a text (E202 to E205). One that does not is left to the end of the process.
#[tactic(auto, using(crate::proofs::Relimiting::limits_broken))]
pub fn limited(named: NamedText) -> Result<NamedText, Fault>
    ensures exact { Exact relimiting named result }
{
    match fits(&named.tree) {
        Ok(()) => Ok(named),
        Err(fault) => {
            forget(named);
            Err(fault)
        }
    }
}

/// All phases from a tree of spellings to the plain tree within the limits: names (E301 to E304), effects (E408), and
/// the limits again (E202 to E205).
pub fn resolve_plainly<'a>(alloc: Global, tree: Tree<Spelling<'a>, ()>) -> Result<NamedText, Fault>
    ensures exact { Exact resolving tree.entry result }
{
    let named = resolve(alloc, tree)?;
    let made = plain(alloc, named)?;
    limited(made)
}
