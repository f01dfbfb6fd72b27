//! The items of a text.

ghost use Rattle.std.specs.Prelude.{◌≡◌, IfOk, OnOk, Ok};
ghost use Rattle.ckc_base.specs.Outcomes.{AnswersOutcome, bind};
ghost use Rattle.ckc_syntax.specs.declared.tree.Item.TheVariants as item;
ghost use Rattle.ckc_bounds.specs.Declarations.{member_holder};
ghost use Rattle.ckc_bounds.specs.code.Declarations.{text_of};
ghost use Rattle.ckc_bounds.specs.Texts.{members_judged, outside, object_judged, head_kept, function_judged, item_judged, items_judged};
ghost use Rattle.ckc_bounds_statements.specs.Walks.{here};

use crate::bodies::judge_body;
use crate::declared::{clear, head_fits, member_holder, members_fit};
use crate::heads::set_types;
use ckc_base::{Boxed, Fault, Pos, Seq};
use ckc_bounds_points::{Frame, Work, entry};
use ckc_bounds_statements::{Walk, bounds_there, judge_init};
use ckc_syntax::{Decl, Head, Item, Name, Stmt, boxed_head, copied_decls, decl_with};
use ckc_typed::Note;
use std::alloc::{AllocError, Global};

fn judge_struct(
    alloc: Global,
    frame: &mut Frame,
    n: Name,
    ms: &[Decl<Name, Note>],
    at: Pos,
) -> Result<Item<Name, Note>, Fault>
    ensures judged { AnswersOutcome result
        (bind (members_judged (text_of frame.old) (member_holder n) ms.now)
        (λ u. Ok (item.Struct n ms.now at))) }
    ensures kept { OnOk result (text_of frame.new ≡ text_of frame.old) }
{
    clear(alloc, frame);
    members_fit(alloc, frame, member_holder(n), ms)?;
    let members = copied_decls(alloc, ms)?;
    Ok(Item::Struct(n, members, at))
}

fn outside(alloc: Global, frame: &Frame) -> Result<Walk, AllocError>
    ensures { IfOk result (λ w. here w ≡ outside frame.now) }
{
    let at = entry(alloc, frame)?;
    Ok(Walk {
        seen: Seq::new(alloc),
        at,
        next: 0,
        counting: false,
    })
}

fn judge_decl(alloc: Global, frame: &Frame, d: &Decl<Name, Note>) -> Result<Decl<Name, Note>, Fault>
    ensures { AnswersOutcome result (object_judged frame.now d.now) }
{
    bounds_there(alloc, frame, d)?;
    let mut walk = outside(alloc, frame)?;
    let mut work = Work::new(alloc);
    let init = judge_init(&mut work, frame, &d.init, &mut walk)?;
    let judged = decl_with(alloc, d, init)?;
    Ok(judged)
}

fn judge_object(
    alloc: Global,
    frame: &mut Frame,
    d: &Decl<Name, Note>,
) -> Result<Item<Name, Note>, Fault>
    ensures judged { AnswersOutcome result
        (bind (object_judged (text_of frame.old) d.now) (λ e. Ok (item.Static e))) }
    ensures kept { OnOk result (text_of frame.new ≡ text_of frame.old) }
{
    clear(alloc, frame);
    let judged = judge_decl(alloc, frame, d)?;
    let boxed = Boxed::new(alloc, judged)?;
    Ok(Item::Static(boxed))
}

fn judge_head(
    alloc: Global,
    frame: &mut Frame,
    h: &Head<Name, Note>,
) -> Result<Boxed<Head<Name, Note>>, Fault>
    ensures judged { AnswersOutcome result (head_kept (text_of frame.old) h.now) }
    ensures kept { OnOk result (text_of frame.new ≡ text_of frame.old) }
{
    set_types(alloc, frame, h)?;
    head_fits(alloc, frame, h)?;
    let copy = boxed_head(alloc, h)?;
    Ok(copy)
}

fn judge_proto(
    alloc: Global,
    frame: &mut Frame,
    h: &Head<Name, Note>,
) -> Result<Item<Name, Note>, Fault>
    ensures judged { AnswersOutcome result
        (bind (head_kept (text_of frame.old) h.now) (λ g. Ok (item.Proto g))) }
    ensures kept { OnOk result (text_of frame.new ≡ text_of frame.old) }
{
    let head = judge_head(alloc, frame, h)?;
    Ok(Item::Proto(head))
}

fn judge_function(
    alloc: Global,
    frame: &mut Frame,
    h: &Head<Name, Note>,
    body: &Stmt<Name, Note>,
) -> Result<Item<Name, Note>, Fault>
    ensures judged { AnswersOutcome result (function_judged (text_of frame.old) h.now body.now) }
    ensures kept { OnOk result (text_of frame.new ≡ text_of frame.old) }
{
    let head = judge_head(alloc, frame, h)?;
    let judged = judge_body(alloc, frame, h, body)?;
    let boxed = Boxed::new(alloc, judged)?;
    Ok(Item::Function(head, boxed))
}

fn judge_item(
    alloc: Global,
    frame: &mut Frame,
    item: &Item<Name, Note>,
) -> Result<Item<Name, Note>, Fault>
    ensures judged { AnswersOutcome result (item_judged (text_of frame.old) item.now) }
    ensures kept { OnOk result (text_of frame.new ≡ text_of frame.old) }
{
    match item {
        Item::Directive(d) => Ok(Item::Directive(*d)),
        Item::Tag(n, at) => Ok(Item::Tag(*n, *at)),
        Item::Struct(n, ms, at) => judge_struct(alloc, frame, *n, ms.as_slice(), *at),
        Item::Static(d) => judge_object(alloc, frame, d.get()),
        Item::Proto(h) => judge_proto(alloc, frame, h.get()),
        Item::Function(h, body) => judge_function(alloc, frame, h.get(), body.get()),
    }
}

/// Judges the items of a text, from the first to the last, and notes the ranges in them.
pub fn judge_items(
    alloc: Global,
    frame: &mut Frame,
    items: &[Item<Name, Note>],
) -> Result<Seq<Item<Name, Note>>, Fault>
    ensures judged { AnswersOutcome result (items_judged (text_of frame.old) items.now) }
    ensures kept { OnOk result (text_of frame.new ≡ text_of frame.old) }
{
    let mut all = Seq::new(alloc);
    for item in items {
        let judged = judge_item(alloc, frame, item)?;
        all.push(judged)?;
    }
    Ok(all)
}
