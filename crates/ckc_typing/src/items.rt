//! The items of a text with their types.

ghost use Rattle.std.specs.Prelude.{◌≡◌, IfOk, Ok, map};
ghost use Rattle.ckc_base.specs.declared.arithmetic.Mode.TheVariants as mode;
ghost use Rattle.ckc_syntax.specs.declared.tree.Item.TheVariants as item;
ghost use Rattle.ckc_base.specs.Outcomes.{bind};
ghost use Rattle.ckc_typed.specs.Types.{type_written};
ghost use Rattle.ckc_typed.specs.Environment.{variable_declared, variables_of};
ghost use Rattle.ckc_typed.specs.Statements.{body_mode};
ghost use Rattle.ckc_typed.specs.Declarations.{bares_typed, static_typed};
ghost use Rattle.ckc_typed.specs.Texts.{result_allowed, head_with, head_typed, function_typed, item_typed, items_typed, globals_of};
ghost use Rattle.ckc_typed.specs.Walk.{head_mode};
ghost use Rattle.ckc_base.specs.Outcomes.{AnswersOutcome};

use crate::declarations::{typed_bares, typed_static};
use crate::expressions::typed_bounds;
use crate::statements::{Frame, boxed_stmt};
use ckc_base::{Boxed, Fault, Mode, Seq, refused};
use ckc_syntax::{Decl, Head, Item, Limits, Name, Stmt, copied_type};
use ckc_typed::codes::BAD_OPERANDS;
use ckc_typed::modes::{body_mode, head_mode, pragma_after};
use ckc_typed::types::{is_scalar_type, is_void, type_written};
use ckc_typed::{Globals, Note};
use ckc_typing_environment::environment::{
    objects_of, params_of, signatures_of, variables_declared,
};
use ckc_typing_environment::locals::variables_of;
use ckc_typing_environment::scope::FileScope;
use ckc_typing_statics::layouts::structs_of;
use std::alloc::{AllocError, Global};

/// Judges that a function may give a result of its type.
fn result_allowed(alloc: Global, h: &Head<Name, ()>) -> Result<(), Fault>
    ensures { AnswersOutcome result (result_allowed h.now) }
{
    let t = type_written(alloc, &h.result)?;
    if !is_void(&t) && !is_scalar_type(&t) {
        return Err(refused(BAD_OPERANDS, h.pos));
    }
    Ok(())
}

fn head_with(
    alloc: Global,
    h: &Head<Name, ()>,
    params: Seq<Decl<Name, Note>>,
    bounds: Option<Boxed<Limits<Name, Note>>>,
) -> Result<Head<Name, Note>, AllocError>
    ensures { IfOk result (λ n. n ≡ head_with h.now params bounds) }
{
    let copy = copied_type(alloc, &h.result)?;
    Ok(Head {
        mode: h.mode,
        result: copy,
        name: h.name,
        params,
        bounds,
        pos: h.pos,
    })
}

/// The head, if a function may give a result of its type.
fn made_head(
    alloc: Global,
    h: &Head<Name, ()>,
    params: Seq<Decl<Name, Note>>,
    bounds: Option<Boxed<Limits<Name, Note>>>,
) -> Result<Head<Name, Note>, Fault>
    ensures { AnswersOutcome result
        (bind (result_allowed h.now) (λ u. Ok (head_with h.now params bounds))) }
{
    result_allowed(alloc, h)?;
    let made = head_with(alloc, h, params, bounds)?;
    Ok(made)
}

fn typed_head(
    alloc: Global,
    globals: &FileScope,
    pragma: Mode,
    h: &Head<Name, ()>,
) -> Result<Head<Name, Note>, Fault>
    ensures { AnswersOutcome result (head_typed globals.now pragma h.now) }
{
    let mode = head_mode(pragma, h);
    let seen = params_of(alloc, Mode::Checked, h)?;
    let params = typed_bares(alloc, globals, seen.as_slice(), mode, h.params.as_slice())?;
    let bounds = typed_bounds(alloc, globals, seen.as_slice(), mode, &h.bounds)?;
    made_head(alloc, h, params, bounds)
}

fn typed_function(
    alloc: Global,
    globals: &FileScope,
    pragma: Mode,
    h: &Head<Name, ()>,
    body: &Stmt<Name, ()>,
) -> Result<Item<Name, Note>, Fault>
    ensures { AnswersOutcome result (function_typed globals.now pragma h.now body.now) }
{
    let head = boxed_head(alloc, globals, pragma, h)?;
    let frame = frame_of(alloc, pragma, h, body)?;
    let typed = boxed_stmt(alloc, globals, &frame, head_mode(pragma, h), false, body)?;
    Ok(Item::Function(head, typed))
}

fn boxed_head(
    alloc: Global,
    globals: &FileScope,
    pragma: Mode,
    h: &Head<Name, ()>,
) -> Result<Boxed<Head<Name, Note>>, Fault>
    ensures { AnswersOutcome result (head_typed globals.now pragma h.now) }
{
    let typed = typed_head(alloc, globals, pragma, h)?;
    let boxed = Boxed::new(alloc, typed)?;
    Ok(boxed)
}

fn frame_of(
    alloc: Global,
    pragma: Mode,
    h: &Head<Name, ()>,
    body: &Stmt<Name, ()>,
) -> Result<Frame, AllocError>
    ensures variables { IfOk result (λ f. f.variables
        ≡ variables_of (body_mode (head_mode pragma h.now) body.now) h.now body.now) }
    ensures result_type { IfOk result (λ f. f.result ≡ type_written h.now.result) }
{
    let variables = variables_of(alloc, body_mode(head_mode(pragma, h), body), h, body)?;
    let result = type_written(alloc, &h.result)?;
    Ok(Frame { variables, result })
}

fn typed_struct(
    alloc: Global,
    globals: &FileScope,
    pragma: Mode,
    members: &[Decl<Name, ()>],
) -> Result<Seq<Decl<Name, Note>>, Fault>
    ensures { AnswersOutcome result
        (bares_typed globals.now (map variable_declared members.now) pragma members.now) }
{
    let seen = variables_declared(alloc, members)?;
    typed_bares(alloc, globals, seen.as_slice(), pragma, members)
}

fn typed_object(
    alloc: Global,
    globals: &FileScope,
    pragma: Mode,
    d: &Decl<Name, ()>,
) -> Result<Item<Name, Note>, Fault>
    ensures { AnswersOutcome result
        (bind (static_typed globals.now pragma d.now) (λ n. Ok (item.Static n))) }
{
    let typed = typed_static(alloc, globals, pragma, d)?;
    let boxed = Boxed::new(alloc, typed)?;
    Ok(Item::Static(boxed))
}

fn typed_item(
    alloc: Global,
    globals: &FileScope,
    pragma: Mode,
    item: &Item<Name, ()>,
) -> Result<Item<Name, Note>, Fault>
    ensures { AnswersOutcome result (item_typed globals.now pragma item.now) }
{
    match item {
        Item::Directive(d) => Ok(Item::Directive(*d)),
        Item::Tag(n, pos) => Ok(Item::Tag(*n, *pos)),
        Item::Struct(n, members, pos) => {
            let typed = typed_struct(alloc, globals, pragma, members.as_slice())?;
            Ok(Item::Struct(*n, typed, *pos))
        }
        Item::Static(d) => typed_object(alloc, globals, pragma, d.get()),
        Item::Proto(h) => {
            let typed = boxed_head(alloc, globals, pragma, h.get())?;
            Ok(Item::Proto(typed))
        }
        Item::Function(h, body) => typed_function(alloc, globals, pragma, h.get(), body.get()),
    }
}

/// The items, from the first to the last.
fn typed_items(
    alloc: Global,
    globals: &FileScope,
    items: &[Item<Name, ()>],
) -> Result<Seq<Item<Name, Note>>, Fault>
    ensures { AnswersOutcome result (items_typed globals.now mode.Unchecked items.now) }
{
    let mut all = Seq::new(alloc);
    let mut pragma = Mode::Unchecked;
    for item in items {
        let typed = typed_item(alloc, globals, pragma, item)?;
        all.push(typed)?;
        pragma = pragma_after(pragma, item);
    }
    Ok(all)
}

/// The items of a text that sees all this.
pub fn all_typed(
    alloc: Global,
    globals: &Globals,
    items: &[Item<Name, ()>],
) -> Result<Seq<Item<Name, Note>>, Fault>
    ensures { AnswersOutcome result (items_typed globals.now mode.Unchecked items.now) }
{
    typed_items(alloc, &FileScope::new(globals), items)
}

/// What the whole text sees.
pub fn globals_of(alloc: Global, items: &[Item<Name, ()>]) -> Result<Globals, AllocError>
    ensures { IfOk result (λ g. g ≡ globals_of items.now) }
{
    let structs = structs_of(alloc, items)?;
    let objects = objects_of(alloc, items)?;
    let functions = signatures_of(alloc, items)?;
    Ok(Globals {
        structs,
        objects,
        functions,
    })
}
