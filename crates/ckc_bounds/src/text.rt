//! A whole text.

ghost use Rattle.std.specs.Prelude.{◌≡◌, IfOk};
ghost use Rattle.ckc_base.specs.Phases.{Exact};
ghost use Rattle.ckc_base.specs.Outcomes.{AnswersOutcome};
ghost use Rattle.ckc_bounds.specs.code.Declarations.{text_of};
ghost use Rattle.ckc_bounds.specs.Frames.{text_frame};
ghost use Rattle.ckc_bounds.specs.Texts.{text_judged};
ghost use Rattle.ckc_bounds.specs.Phase.{bounding};

use crate::declared::clear;
use crate::heads::{heads_of, objects_of};
use crate::items::judge_items;
use ckc_base::{Fault, Seq};
use ckc_bounds_points::Frame;
use ckc_syntax::{Item, Name, Tree};
use ckc_typed::{Note, StaticObject, Typed};
use ckc_types::Structs;
use core::mem::replace;
use std::alloc::{AllocError, Global};
use std::mem::forget;

fn text_frame(
    alloc: Global,
    structs: Structs,
    statics: Seq<StaticObject>,
    items: &[Item<Name, Note>],
) -> Result<Frame, AllocError>
    ensures { IfOk result (λ r. r ≡ text_frame structs statics items.now) }
{
    let mut frame = Frame {
        structs,
        statics,
        objects: Seq::new(alloc),
        heads: Seq::new(alloc),
        locals: Seq::new(alloc),
    };
    clear(alloc, &mut frame);
    let objects = objects_of(alloc, &frame, items)?;
    let heads = heads_of(alloc, &mut frame, items)?;
    clear(alloc, &mut frame);
    frame.objects = objects;
    frame.heads = heads;
    Ok(frame)
}

fn judge_text(alloc: Global, p: Typed) -> Result<Typed, Fault>
    ensures { AnswersOutcome result (text_judged p) }
{
    let Typed {
        tree,
        layout,
        statics,
        main,
    } = p;
    let mut frame = text_frame(alloc, layout, statics, tree.items.as_slice())?;
    let judged = judge_items(alloc, &mut frame, tree.items.as_slice());
    forget(tree);
    let items = judged?;
    let layout = replace(
        &mut frame.structs,
        Structs {
            shapes: Seq::new(alloc),
        },
    );
    let statics = replace(&mut frame.statics, Seq::new(alloc));
    Ok(Typed {
        tree: Tree { items },
        layout,
        statics,
        main,
    })
}

/// The typed text with the range of each pointer in it noted (Checked C specification 0.9, section 3, on bounds); or its
/// first error in walk order: E601 to E607.
pub fn bounds(alloc: Global, p: Typed) -> Result<Typed, Fault>
    // Ok of exactly the text with its ranges, a refusal for exactly its first error, both ways.
    ensures exact { Exact bounding p result }
{
    judge_text(alloc, p)
}
