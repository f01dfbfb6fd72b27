//! The heads of the functions and the objects of a text.

ghost use Rattle.std.specs.Prelude.{◌≡◌, [], map, IfOk, OnOk};
ghost use Rattle.ckc_base.specs.declared.arithmetic.Mode.TheVariants.{Checked};
ghost use Rattle.ckc_typed.specs.Interfaces.{is_interface, seen_params};
ghost use Rattle.ckc_bounds.specs.Declarations.{all_made, params_frame, head_bounds, is_function_at, with_head, with_item, heads_from, object_bounds, with_object, objects_of};
ghost use Rattle.ckc_bounds.specs.code.Declarations.{text_of};

use crate::declared::{clear, known_bounds, known_result, set_locals};
use crate::locals::{Turn, add_params};
use ckc_base::{Mode, Seq};
use ckc_bounds_declared::Holder;
use ckc_bounds_points::{Bounds, Frame, HeadBounds, Local};
use ckc_syntax::{Decl, Head, Item, Name};
use ckc_typed::Note;
use ckc_typed::interfaces::is_interface;
use ckc_typed::types::type_written;
use std::alloc::{AllocError, Global};

/// The parameters of a function as its callers see them, as its locals, by their types alone or with their bounds.
fn params_made(
    alloc: Global,
    frame: &Frame,
    bounded: bool,
    h: &Head<Name, Note>,
) -> Result<Seq<Local>, AllocError>
    ensures { IfOk result (λ r. r ≡ all_made frame.now bounded (seen_params Checked h.now)) }
{
    let mut all = Seq::new(alloc);
    let ds = h.params.as_slice();
    add_params(alloc, frame, Turn::Counts, Mode::Checked, ds, &mut all)?;
    add_params(
        alloc,
        frame,
        Turn::Places(bounded),
        Mode::Checked,
        ds,
        &mut all,
    )?;
    Ok(all)
}

/// Makes the parameters of a function the locals of a frame, by their types alone.
pub fn set_types(alloc: Global, frame: &mut Frame, h: &Head<Name, Note>) -> Result<(), AllocError>
    ensures { OnOk result (frame.new ≡ params_frame (text_of frame.old) h.now) }
{
    clear(alloc, frame);
    let bare = params_made(alloc, frame, false, h)?;
    set_locals(frame, bare)
}

/// Which parameters are interfaces.
fn interfaces_in(alloc: Global, ds: &[Decl<Name, Note>]) -> Result<Seq<bool>, AllocError>
    ensures { IfOk result (λ r. r ≡ map is_interface ds.now) }
{
    let mut all = Seq::new(alloc);
    for d in ds {
        all.push(is_interface(d))?;
    }
    Ok(all)
}

/// What a head says of bounds, in a frame with its parameters as the locals.
fn head_in(alloc: Global, frame: &Frame, h: &Head<Name, Note>) -> Result<HeadBounds, AllocError>
    ensures { (text : Frame) → frame.now ≡ params_frame text h.now
        → IfOk result (λ r. r ≡ head_bounds text h.now) }
{
    let params = params_made(alloc, frame, true, h)?;
    let interfaces = interfaces_in(alloc, h.params.as_slice())?;
    let t = type_written(alloc, &h.result)?;
    let bounds = known_result(alloc, frame, h)?;
    Ok(HeadBounds {
        params,
        interfaces,
        result: t,
        bounds,
    })
}

/// What a head says of bounds.
pub fn head_bounds(
    alloc: Global,
    frame: &mut Frame,
    h: &Head<Name, Note>,
) -> Result<HeadBounds, AllocError>
    ensures bounds { IfOk result (λ r. r ≡ head_bounds (text_of frame.old) h.now) }
    ensures kept { OnOk result (text_of frame.new ≡ text_of frame.old) }
{
    set_types(alloc, frame, h)?;
    head_in(alloc, frame, h)
}

fn is_function_at(name: Name, n: usize) -> bool
    ensures { result ≡ is_function_at name n }
{
    match name {
        Name::Function(k) => k as usize == n,
        _ => false,
    }
}

/// Adds the head of a function that has the next number.
fn add_head(
    alloc: Global,
    frame: &mut Frame,
    h: &Head<Name, Note>,
    heads: &mut Seq<HeadBounds>,
) -> Result<(), AllocError>
    ensures heads { OnOk result (heads.new ≡ with_head (text_of frame.old) heads.old h.now) }
    ensures kept { OnOk result (text_of frame.new ≡ text_of frame.old) }
{
    if is_function_at(h.name, heads.len()) {
        let bounds = head_bounds(alloc, frame, h)?;
        heads.push(bounds)?;
    }
    Ok(())
}

fn add_item(
    alloc: Global,
    frame: &mut Frame,
    item: &Item<Name, Note>,
    heads: &mut Seq<HeadBounds>,
) -> Result<(), AllocError>
    ensures heads { OnOk result (heads.new ≡ with_item (text_of frame.old) heads.old item.now) }
    ensures kept { OnOk result (text_of frame.new ≡ text_of frame.old) }
{
    match item {
        Item::Proto(h) | Item::Function(h, _) => add_head(alloc, frame, h.get(), heads),
        Item::Directive(_) | Item::Tag(_, _) | Item::Struct(_, _, _) => Ok(()),
        Item::Static(_) => Ok(()),
    }
}

/// The heads of the functions of a text, by their numbers.
pub fn heads_of(
    alloc: Global,
    frame: &mut Frame,
    items: &[Item<Name, Note>],
) -> Result<Seq<HeadBounds>, AllocError>
    ensures heads { IfOk result (λ r. r ≡ heads_from (text_of frame.old) [] items.now) }
    ensures kept { OnOk result (text_of frame.new ≡ text_of frame.old) }
{
    let mut heads = Seq::new(alloc);
    for item in items {
        add_item(alloc, frame, item, &mut heads)?;
    }
    Ok(heads)
}

fn object_bounds(
    alloc: Global,
    frame: &Frame,
    d: &Decl<Name, Note>,
) -> Result<Option<Bounds>, AllocError>
    ensures { IfOk result (λ r. r ≡ object_bounds frame.now d.now) }
{
    match &d.bounds {
        None => Ok(None),
        Some(_) => {
            let bounds = known_bounds(alloc, frame, Holder::Static, d)?;
            Ok(Some(bounds))
        }
    }
}

/// The bounds that are written at the objects of file scope of a text, by their numbers.
pub fn objects_of(
    alloc: Global,
    frame: &Frame,
    items: &[Item<Name, Note>],
) -> Result<Seq<Option<Bounds>>, AllocError>
    ensures { IfOk result (λ r. r ≡ objects_of frame.now items.now) }
{
    let mut all = Seq::new(alloc);
    for item in items {
        match item {
            Item::Static(d) => {
                let bounds = object_bounds(alloc, frame, d.get())?;
                all.push(bounds)?;
            }
            _ => {}
        }
    }
    Ok(all)
}
