//! The places of pointers.

ghost use Rattle.std.specs.Prelude.{◌≡◌, IfOk, map, slice_get};
ghost use Rattle.std.specs.Option.{option_map};
ghost use Rattle.ckc_typed.specs.Operands.{is_raw_kind};
ghost use Rattle.ckc_typed.specs.Types.{kind_of};
ghost use Rattle.ckc_bounds_points.specs.Shown.{known};
ghost use Rattle.ckc_bounds_views.specs.Places.{named_place, is_array, own_place, values_there, values_after};
ghost use Rattle.ckc_bounds_views.specs.Views.{view, view_of_limits, view_of_node};

use crate::forms::form;
use ckc_base::Boxed;
use ckc_bounds_points::{Frame, Work, base_form, difference_of_forms, sum_of_forms};
use ckc_linear::{Base, Facts, Form};
use ckc_syntax::{Expr, Limits, Name, Node, TreeOp};
use ckc_typed::Note;
use ckc_typed::operands::same_element;
use ckc_typed::types::{is_pointer, kind_of};
use ckc_types::{CType, Kind};
use std::alloc::AllocError;

fn is_array(frame: &Frame, k: u32) -> bool
    ensures { result ≡ is_array (slice_get frame.now.statics k) }
{
    match frame.statics.get(k as usize) {
        Some(object) => object.array.is_some(),
        None => false,
    }
}

/// The place of a local or a static array that is named.
fn named_place(frame: &Frame, name: Name) -> Option<Form>
    ensures { result ≡ named_place frame.now name }
{
    match name {
        Name::Local(k) => Some(base_form(Base::Local(k))),
        Name::Static(k) => {
            if is_array(frame, k) {
                Some(base_form(Base::Array(k)))
            } else {
                None
            }
        }
        _ => None,
    }
}

/// Whether a pointer may stand for itself: it is no local, no static array and not null.
fn stands_alone(frame: &Frame, node: &Node<Name, Note>) -> bool
    ensures { result ≡ (view_of_node frame.now node.now).stands_alone }
{
    match node {
        Node::Name(n) => named_place(frame, *n).is_none(),
        Node::Null => false,
        Node::Number(_, _) | Node::Text(_) | Node::Size(_) | Node::Un(_, _) | Node::Bin(_, _, _) =>
            true,
        Node::Index(_, _) | Node::Cast(_, _) | Node::Pick(_, _, _) | Node::Dot(_, _, _) => true,
        Node::Arrow(_, _, _) | Node::Trusted(_, _, _) | Node::Tested(_, _, _) => true,
        Node::Call(_, _) | Node::Calloc(_, _, _) => true,
    }
}

#[cycle(values)]
fn values_of_limits(frame: &Frame, limits: &Limits<Name, Note>) -> u32
    ensures { result ≡ (view_of_limits frame.now limits.now).values }
{
    match limits {
        Limits::Count(e, _) => values(frame, e.get()),
        Limits::ByteCount(e, _) => values(frame, e.get()),
        Limits::Between(e, f, _) => values(frame, e.get()).saturating_add(values(frame, f.get())),
        Limits::Unknown(_) => 0,
    }
}

#[cycle(values)]
fn values_of_bounds(frame: &Frame, bounds: &Option<Boxed<Limits<Name, Note>>>) -> u32
    ensures { result ≡ values_there (option_map (view_of_limits frame.now) bounds.now) }
{
    match bounds {
        Some(limits) => values_of_limits(frame, limits.get()),
        None => 0,
    }
}

#[cycle(values)]
fn values_of_all(frame: &Frame, es: &[Expr<Name, Note>]) -> u32
    ensures { result ≡ values_after 0 (map (view frame.now) es.now) }
{
    let mut n = 0u32;
    for e in es {
        n = n.saturating_add(values(frame, e));
    }
    n
}

/// How many pointers in the parts of a node may stand for themselves.
#[cycle(values)]
pub fn values_of_node(frame: &Frame, node: &Node<Name, Note>) -> u32
    ensures { result ≡ (view_of_node frame.now node.now).values }
{
    match node {
        Node::Un(_, e) | Node::Dot(e, _, _) | Node::Arrow(e, _, _) => values(frame, e.get()),
        Node::Cast(_, e) | Node::Calloc(_, e, _) => values(frame, e.get()),
        Node::Bin(_, e, f) => values(frame, e.get()).saturating_add(values(frame, f.get())),
        Node::Index(e, f) => values(frame, e.get()).saturating_add(values(frame, f.get())),
        Node::Pick(e, f, g) => values(frame, e.get())
            .saturating_add(values(frame, f.get()))
            .saturating_add(values(frame, g.get())),
        Node::Trusted(_, e, l) => values(frame, e.get()).saturating_add(values_of_bounds(frame, l)),
        Node::Tested(_, e, l) => values(frame, e.get()).saturating_add(values_of_bounds(frame, l)),
        Node::Call(_, es) => values_of_all(frame, es.as_slice()),
        Node::Number(_, _) | Node::Text(_) | Node::Null | Node::Size(_) | Node::Name(_) => 0,
    }
}

/// How many pointers in an expression may stand for themselves, it among them.
#[cycle(values)]
pub fn values(frame: &Frame, e: &Expr<Name, Note>) -> u32
    ensures { result ≡ (view frame.now e.now).values }
{
    let n = values_of_node(frame, &e.node);
    if is_pointer(&e.note.ctype) && stands_alone(frame, &e.node) {
        n.saturating_add(1)
    } else {
        n
    }
}

/// Whether a kind is that of an unchecked pointer.
pub fn is_raw_kind(kind: Option<Kind>) -> bool
    ensures { result ≡ is_raw_kind kind }
{
    match kind {
        Some(Kind::Raw) => true,
        Some(Kind::One | Kind::Arr | Kind::Nt) | None => false,
    }
}

/// Whether a type is an unchecked pointer.
pub fn is_raw(t: &CType) -> bool
    ensures { result ≡ is_raw_kind (kind_of t.now) }
{
    is_raw_kind(kind_of(t))
}

#[cycle(place)]
fn place_of_node(
    work: &mut Work,
    frame: &Frame,
    facts: &Facts,
    node: &Node<Name, Note>,
    t: &CType,
    first: u32,
) -> Result<Option<Form>, AllocError>
    ensures { IfOk result (λ f.
        f ≡ (view_of_node frame.now node.now).place t.now first (known facts.now)) }
{
    match node {
        Node::Name(n) => Ok(named_place(frame, *n)),
        Node::Un(TreeOp::Address, e) => target(work, frame, facts, e.get(), first),
        Node::Bin(op, e, f) => {
            if is_raw(t) {
                return Ok(None);
            }
            match op {
                TreeOp::Add => {
                    if is_pointer(&e.get().note.ctype) {
                        let p = place(work, frame, facts, e.get(), first)?;
                        let k = form(work, frame, facts, f.get())?;
                        Ok(sum_of_forms(p, k))
                    } else {
                        let k = form(work, frame, facts, e.get())?;
                        let behind = first.saturating_add(values(frame, e.get()));
                        let p = place(work, frame, facts, f.get(), behind)?;
                        Ok(sum_of_forms(p, k))
                    }
                }
                TreeOp::Sub => {
                    let p = place(work, frame, facts, e.get(), first)?;
                    let k = form(work, frame, facts, f.get())?;
                    Ok(difference_of_forms(p, k))
                }
                _ => Ok(None),
            }
        }
        Node::Cast(_, e) => {
            if same_element(t, &e.get().note.ctype) {
                place(work, frame, facts, e.get(), first)
            } else {
                Ok(None)
            }
        }
        Node::Number(_, _) | Node::Text(_) | Node::Null | Node::Size(_) | Node::Un(_, _) => Ok(
            None,
        ),
        Node::Pick(_, _, _) | Node::Index(_, _) | Node::Dot(_, _, _) | Node::Arrow(_, _, _) => Ok(
            None,
        ),
        Node::Trusted(_, _, _) | Node::Tested(_, _, _) => Ok(None),
        Node::Call(_, _) | Node::Calloc(_, _, _) => Ok(None),
    }
}

fn own_place(frame: &Frame, node: &Node<Name, Note>, first: u32) -> Option<Form>
    ensures { result ≡ own_place (view_of_node frame.now node.now) first }
{
    if stands_alone(frame, node) {
        Some(base_form(Base::Value(first.saturating_add(values_of_node(frame, node)))))
    } else {
        None
    }
}

/// The place of a pointer, by the number of the first value in it: of `p + 1` one element after p. One that has no
/// place by its parts stands for itself.
#[cycle(place)]
pub fn place(
    work: &mut Work,
    frame: &Frame,
    facts: &Facts,
    e: &Expr<Name, Note>,
    first: u32,
) -> Result<Option<Form>, AllocError>
    ensures { IfOk result (λ f. f ≡ (view frame.now e.now).place first (known facts.now)) }
{
    if !is_pointer(&e.note.ctype) {
        return Ok(None);
    }
    let named = place_of_node(work, frame, facts, &e.node, &e.note.ctype, first)?;
    match named {
        Some(f) => Ok(Some(f)),
        None => Ok(own_place(frame, &e.node, first)),
    }
}

/// The place of what a node reads, by the number of the first value in it.
#[cycle(place)]
pub fn target_of_node(
    work: &mut Work,
    frame: &Frame,
    facts: &Facts,
    node: &Node<Name, Note>,
    first: u32,
) -> Result<Option<Form>, AllocError>
    ensures { IfOk result
        (λ f. f ≡ (view_of_node frame.now node.now).target first (known facts.now)) }
{
    match node {
        Node::Un(TreeOp::Deref, e) => place(work, frame, facts, e.get(), first),
        Node::Index(e, f) => {
            if is_raw(&e.get().note.ctype) {
                return Ok(None);
            }
            let p = place(work, frame, facts, e.get(), first)?;
            let k = form(work, frame, facts, f.get())?;
            Ok(sum_of_forms(p, k))
        }
        Node::Number(_, _) | Node::Text(_) | Node::Null | Node::Size(_) | Node::Un(_, _) => Ok(
            None,
        ),
        Node::Name(_) | Node::Bin(_, _, _) | Node::Cast(_, _) | Node::Pick(_, _, _) => Ok(None),
        Node::Dot(_, _, _) | Node::Arrow(_, _, _) | Node::Trusted(_, _, _) => Ok(None),
        Node::Tested(_, _, _) | Node::Call(_, _) | Node::Calloc(_, _, _) => Ok(None),
    }
}

/// The place of what `*p` and `p[e]` read, by the number of the first value in them.
#[cycle(place)]
pub fn target(
    work: &mut Work,
    frame: &Frame,
    facts: &Facts,
    e: &Expr<Name, Note>,
    first: u32,
) -> Result<Option<Form>, AllocError>
    ensures { IfOk result (λ f. f ≡ (view frame.now e.now).target first (known facts.now)) }
{
    target_of_node(work, frame, facts, &e.node, first)
}
