//! Declared bounds: which forms they may have, and what they stand for.

ghost use Rattle.std.specs.Prelude.{◌≡◌, IfOk, slice_get};
ghost use Rattle.std.specs.Option.{option_copied};
ghost use Rattle.ckc_base.specs.Outcomes.{AnswersOutcome};
ghost use Rattle.ckc_syntax.specs.declared.tree.Limits.{out-Limits};
ghost use Rattle.ckc_syntax.specs.declared.tree.Node.{out-Node};
ghost use Rattle.ckc_bounds_points.specs.Frames.{local_at};
ghost use Rattle.ckc_typed.specs.Types.{element_of};
ghost use Rattle.ckc_typed.specs.Constants.{size_of};
ghost use Rattle.ckc_typed.specs.Amounts.{number_in};
ghost use Rattle.ckc_bounds_points.specs.Forms.{elements};
ghost use Rattle.ckc_bounds_declared.specs.Written.{own, is_integer_member, member_variable, variable_for, amount_with, amount_form, counted, is_checked, local_base, is_element, array_base, named_base, named_pieces, negative_amount, sum_pieces, node_pieces, bound_with, bound, known_between, takes_ends, bounds_written, takes_bounds, bounds_by_type, place_of_limits, bounds_taken, bounds_declared};

use ckc_base::{Boxed, Fault, Pos, refused};
use ckc_bounds_points::codes::BAD_LIMITS;
use ckc_bounds_points::{
    Bounds, Frame, base_form, constant_form, elements, is_within, local_at, moved_form,
    sum_of_forms, variable,
};
use ckc_linear::{Base, Form};
use ckc_syntax::{Expr, Length, Limits, Name, Node, TreeOp};
use ckc_typed::amounts::{amount, fixed, negative_in, sum_amount, variable_in};
use ckc_typed::constants::{members_of, size_of};
use ckc_typed::operands::same_element;
use ckc_typed::types::{element_of, is_integer, kind_of, kind_of_array, same_type};
use ckc_typed::{Amount, Note};
use ckc_types::{CType, Kind, Structs};
use std::alloc::{AllocError, Global};

/// What bounds are declared of: a parameter or local by its number, the result of a function, an object of file scope, or
/// a member of the structure with a tag.
#[derive(Clone, Copy)]
pub enum Holder {
    Local(u32),
    Result,
    Static,
    Member(u32),
}

/// An end of bounds: the pointer or array that is named, and the amount after it, if it has a form.
#[derive(Clone, Copy)]
struct Pieces {
    pub name: Name,
    pub by: Option<Amount>,
}

fn own(holder: Holder) -> Base
    ensures { result ≡ own holder }
{
    match holder {
        Holder::Local(k) => Base::Local(k),
        Holder::Result | Holder::Static | Holder::Member(_) => Base::Value(0),
    }
}

fn is_integer_member(structs: &Structs, tag: u32, m: u32) -> bool
    ensures { result ≡ is_integer_member structs.now tag m }
{
    members_of(structs, tag)
        .iter()
        .any(|member| member.name == m && is_integer(&member.ctype))
}

fn member_variable(structs: &Structs, tag: u32, name: Name) -> Option<Form>
    ensures { result ≡ member_variable structs.now tag name }
{
    match name {
        Name::Member(m) => {
            if is_integer_member(structs, tag, m) && m < u32::MAX {
                Some(Form {
                    base: None,
                    var: m + 1,
                    add: 0,
                })
            } else {
                None
            }
        }
        _ => None,
    }
}

fn variable_for(frame: &Frame, holder: Holder, name: Name) -> Option<Form>
    ensures { result ≡ variable_for frame.now holder name }
{
    match holder {
        Holder::Local(_) | Holder::Result => variable(frame, name),
        Holder::Static => None,
        Holder::Member(tag) => member_variable(&frame.structs, tag, name),
    }
}

fn amount_with(frame: &Frame, holder: Holder, name: Option<Name>, c: i64) -> Option<Form>
    ensures { result ≡ amount_with frame.now holder name c }
{
    match name {
        Some(n) => moved_form(variable_for(frame, holder, n), c),
        None => Some(constant_form(c)),
    }
}

/// The form of an amount, if it has one.
fn amount_form(frame: &Frame, holder: Holder, amount: Option<Amount>) -> Option<Form>
    ensures { result ≡ amount_form frame.now holder amount }
{
    match amount {
        Some(a) => {
            if is_within(1 << 24, a.number) {
                amount_with(frame, holder, a.variable, a.number)
            } else {
                None
            }
        }
        None => None,
    }
}

fn counted(base: Base, amount: Option<Form>) -> Option<Bounds>
    ensures { result ≡ counted base amount }
{
    match amount {
        Some(f) => Some(Bounds::Known(
            base_form(base),
            Form {
                base: Some(base),
                ..f
            },
        )),
        None => None,
    }
}

fn is_checked(kind: Option<Kind>) -> bool
    ensures { result ≡ is_checked kind }
{
    match kind {
        Some(Kind::One | Kind::Arr | Kind::Nt) => true,
        Some(Kind::Raw) | None => false,
    }
}

fn local_base(frame: &Frame, t: &CType, k: u32) -> Option<Form>
    ensures { result ≡ local_base t.now k (local_at frame.now k) }
{
    match local_at(frame, k) {
        Some(local) => {
            if is_checked(kind_of(&local.ctype)) && same_element(t, &local.ctype) {
                Some(base_form(Base::Local(k)))
            } else {
                None
            }
        }
        None => None,
    }
}

fn is_element(t: &CType, element: &CType) -> bool
    ensures { result ≡ is_element t.now element.now }
{
    match t {
        CType::Pointer(_, to) => same_type(to.get(), element),
        CType::Int | CType::Unsigned | CType::Char | CType::Void | CType::Struct(_) => false,
    }
}

fn array_base(frame: &Frame, t: &CType, k: u32) -> Option<Form>
    ensures { result ≡ array_base t.now k (slice_get frame.now.statics k) }
{
    match frame.statics.get(k as usize) {
        Some(object) => {
            if is_checked(object.array) && is_element(t, &object.element) {
                Some(base_form(Base::Array(k)))
            } else {
                None
            }
        }
        None => None,
    }
}

/// The local checked pointer or static checked array that is named, if it has the element type of `t`.
fn named_base(frame: &Frame, t: &CType, name: Name) -> Option<Form>
    ensures { result ≡ named_base frame.now t.now name }
{
    match name {
        Name::Local(k) => local_base(frame, t, k),
        Name::Static(k) => array_base(frame, t, k),
        _ => None,
    }
}

fn named_pieces(name: Option<Name>, by: Option<Amount>) -> Option<Pieces>
    ensures { result ≡ named_pieces name by }
{
    match name {
        Some(n) => Some(Pieces { name: n, by }),
        None => None,
    }
}

fn negative_amount(c: Option<i64>) -> Option<Amount>
    ensures { result ≡ negative_amount c }
{
    match c {
        Some(c) => Some(fixed(c)),
        None => None,
    }
}

fn sum_pieces(
    alloc: Global,
    structs: &Structs,
    op: TreeOp,
    e: &Expr<Name, Note>,
    k: &Expr<Name, Note>,
) -> Result<Option<Pieces>, AllocError>
    ensures { IfOk result
        (λ p. p ≡ sum_pieces structs.now op (out-Node Name Note e.now.node) k.now) }
{
    match (op, &e.node) {
        (TreeOp::Add, Node::Name(n)) => {
            let by = amount(alloc, structs, k)?;
            Ok(Some(Pieces { name: *n, by }))
        }
        (TreeOp::Sub, Node::Name(n)) => {
            let c = negative_in(alloc, structs, k)?;
            Ok(Some(Pieces {
                name: *n,
                by: negative_amount(c),
            }))
        }
        (TreeOp::Add, Node::Bin(TreeOp::Add, p, x)) => {
            let by = sum_amount(alloc, structs, TreeOp::Add, x.get(), k)?;
            Ok(named_pieces(variable_in(p.get()), by))
        }
        (TreeOp::Sub, Node::Bin(TreeOp::Add, p, x)) => {
            let by = sum_amount(alloc, structs, TreeOp::Sub, x.get(), k)?;
            Ok(named_pieces(variable_in(p.get()), by))
        }
        _ => Ok(None),
    }
}

fn pieces_of(
    alloc: Global,
    structs: &Structs,
    e: &Expr<Name, Note>,
) -> Result<Option<Pieces>, AllocError>
    ensures { IfOk result (λ p. p ≡ node_pieces structs.now (out-Node Name Note e.now.node)) }
{
    match &e.node {
        Node::Name(n) => Ok(Some(Pieces {
            name: *n,
            by: Some(fixed(0)),
        })),
        Node::Bin(op, f, k) => sum_pieces(alloc, structs, *op, f.get(), k.get()),
        _ => Ok(None),
    }
}

fn bound(
    alloc: Global,
    frame: &Frame,
    holder: Holder,
    t: &CType,
    e: &Expr<Name, Note>,
) -> Result<Option<Form>, AllocError>
    ensures { IfOk result (λ f. f ≡ bound frame.now holder t.now e.now) }
{
    let parts = pieces_of(alloc, &frame.structs, e)?;
    match parts {
        Some(p) => Ok(sum_of_forms(
            named_base(frame, t, p.name),
            amount_form(frame, holder, p.by),
        )),
        None => Ok(None),
    }
}

fn known_between(low: Option<Form>, high: Option<Form>) -> Option<Bounds>
    ensures { result ≡ known_between low high }
{
    match (low, high) {
        (Some(f), Some(g)) => Some(Bounds::Known(f, g)),
        (Some(_), None) => None,
        (None, _) => None,
    }
}

fn takes_ends(holder: Holder) -> bool
    ensures { result ≡ takes_ends holder }
{
    match holder {
        Holder::Local(_) | Holder::Result => true,
        Holder::Static | Holder::Member(_) => false,
    }
}

fn element_size(alloc: Global, structs: &Structs, t: &CType) -> Result<u32, AllocError>
    ensures { IfOk result (λ n. n ≡ size_of structs.now (element_of t.now)) }
{
    let element = element_of(alloc, t)?;
    Ok(size_of(structs, &element))
}

fn bounds_written(
    alloc: Global,
    frame: &Frame,
    holder: Holder,
    t: &CType,
    limits: &Limits<Name, Note>,
) -> Result<Option<Bounds>, AllocError>
    ensures { IfOk result
        (λ b. b ≡ bounds_written frame.now holder t.now (out-Limits Name Note limits.now)) }
{
    match limits {
        Limits::Count(e, _) => {
            let a = amount(alloc, &frame.structs, e.get())?;
            Ok(counted(own(holder), amount_form(frame, holder, a)))
        }
        Limits::ByteCount(e, _) => {
            let a = amount(alloc, &frame.structs, e.get())?;
            let size = element_size(alloc, &frame.structs, t)?;
            Ok(counted(own(holder), elements(size, amount_form(frame, holder, a))))
        }
        Limits::Between(e, f, _) => {
            if !takes_ends(holder) {
                return Ok(None);
            }
            let low = bound(alloc, frame, holder, t, e.get())?;
            let high = bound(alloc, frame, holder, t, f.get())?;
            Ok(known_between(low, high))
        }
        Limits::Unknown(_) => Ok(Some(Bounds::Unknown)),
    }
}

fn takes_bounds(t: &CType, length: Length) -> bool
    ensures { result ≡ takes_bounds t.now length }
{
    match kind_of(t) {
        Some(Kind::Arr | Kind::Nt) => kind_of_array(length).is_none(),
        Some(Kind::Raw | Kind::One) | None => false,
    }
}

/// The bounds of a pointer if none are written, by its type.
pub fn bounds_by_type(base: Base, t: &CType) -> Bounds
    ensures { result ≡ bounds_by_type base t.now }
{
    match kind_of(t) {
        Some(Kind::One) => Bounds::Known(
            base_form(base),
            Form {
                base: Some(base),
                var: 0,
                add: 1,
            },
        ),
        Some(Kind::Nt) => Bounds::Known(base_form(base), base_form(base)),
        Some(Kind::Raw | Kind::Arr) | None => Bounds::Unknown,
    }
}

fn place_of_limits(limits: &Limits<Name, Note>) -> Pos
    ensures { result ≡ place_of_limits limits.now }
{
    match limits {
        Limits::Count(_, at) => *at,
        Limits::ByteCount(_, at) => *at,
        Limits::Between(_, _, at) => *at,
        Limits::Unknown(at) => *at,
    }
}

fn bounds_taken(
    alloc: Global,
    frame: &Frame,
    holder: Holder,
    t: &CType,
    length: Length,
    limits: &Limits<Name, Note>,
) -> Result<Option<Bounds>, AllocError>
    ensures { IfOk result (λ b. b ≡ bounds_taken frame.now holder t.now length limits.now) }
{
    if takes_bounds(t, length) {
        return bounds_written(alloc, frame, holder, t, limits);
    }
    Ok(None)
}

/// What a declaration's bounds are, or E603 at their first token if they have no such form. If none are given, the
/// bounds of its type.
pub fn bounds_given(
    alloc: Global,
    frame: &Frame,
    holder: Holder,
    t: &CType,
    length: Length,
    limits: Option<&Limits<Name, Note>>,
) -> Result<Bounds, Fault>
    ensures { AnswersOutcome result
        (bounds_declared frame.now holder t.now length (option_copied limits.entry)) }
{
    match limits {
        Some(l) => {
            let taken = bounds_taken(alloc, frame, holder, t, length, l)?;
            match taken {
                Some(bounds) => Ok(bounds),
                None => Err(refused(BAD_LIMITS, place_of_limits(l))),
            }
        }
        None => Ok(bounds_by_type(own(holder), t)),
    }
}

/// The same, by the bounds that are written.
pub fn bounds_declared(
    alloc: Global,
    frame: &Frame,
    holder: Holder,
    t: &CType,
    length: Length,
    limits: &Option<Boxed<Limits<Name, Note>>>,
) -> Result<Bounds, Fault>
    ensures { AnswersOutcome result (bounds_declared frame.now holder t.now length limits.now) }
{
    match limits {
        Some(l) => bounds_given(alloc, frame, holder, t, length, Some(l.get())),
        None => bounds_given(alloc, frame, holder, t, length, None),
    }
}
