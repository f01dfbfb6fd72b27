//! The faults of expressions themselves, their parts aside.

ghost use Rattle.std.specs.Prelude.{◌≡◌, slice_get, IfOk};
ghost use Rattle.ckc_typed.specs.Types.{kind_of};
ghost use Rattle.ckc_bounds_extents.specs.ckc_bounds_points.specs.Flow.{state};
ghost use Rattle.ckc_bounds_extents.specs.ckc_bounds_views.specs.Judged.{is_multiple_of, counts_bytes, is_counted_kind, is_missing, fault_if, access_fault, is_declared_object, member_has_none};
ghost use Rattle.ckc_bounds_extents.specs.ckc_bounds_views.specs.Views.{view, view_of_node};

use crate::arguments::call_fault;
use ckc_base::{Pos, Refusal};
use ckc_bounds_extents::bounds_points::codes::{BOUNDS_ADDRESS, UNKNOWN_BOUNDS};
use ckc_bounds_extents::bounds_points::{Frame, Point, Work};
use ckc_bounds_extents::bounds_ranges::has_no_address;
use ckc_bounds_extents::bounds_views::{Member, member_of_node, number};
use ckc_bounds_extents::range;
use ckc_syntax::{Expr, Name, Node, TreeOp};
use ckc_typed::amounts::is_multiple;
use ckc_typed::constants::value_of;
use ckc_typed::types::{is_integer, kind_of};
use ckc_typed::{Constant, Note, Range};
use ckc_types::{CType, Kind, Structs};
use std::alloc::{AllocError, Global};

fn is_multiple_of(size: u32, c: Option<Constant>) -> bool
    ensures { result ≡ is_multiple_of size c }
{
    match c {
        Some(c) => is_multiple(value_of(c), size),
        None => false,
    }
}

/// Whether a bounds cast may count so many bytes, by the size of an element.
pub fn counts_bytes(
    alloc: Global,
    frame: &Frame,
    size: u32,
    e: &Expr<Name, Note>,
) -> Result<bool, AllocError>
    ensures { IfOk result (λ b. b ≡ counts_bytes size (view frame.now e.now)) }
{
    if !is_integer(&e.note.ctype) {
        return Ok(false);
    }
    if size == 1 {
        return Ok(true);
    }
    let c = number(alloc, frame, e)?;
    Ok(is_multiple_of(size, c))
}

fn is_counted(t: &CType) -> bool
    ensures { result ≡ is_counted_kind (kind_of t.now) }
{
    match kind_of(t) {
        Some(Kind::Arr | Kind::Nt) => true,
        Some(Kind::Raw | Kind::One) | None => false,
    }
}

fn is_missing(range: Range) -> bool
    ensures { result ≡ is_missing range }
{
    match range {
        Range::Missing => true,
        Range::Any | Range::Known(_, _) => false,
    }
}

fn fault_if(broken: bool, code: u16, pos: Pos) -> Option<Refusal>
    ensures { result ≡ fault_if broken code pos }
{
    if broken {
        Some(Refusal { code, pos })
    } else {
        None
    }
}

fn access_fault(
    work: &mut Work,
    frame: &Frame,
    at: &Point,
    e: &Expr<Name, Note>,
    pos: Pos,
    first_fresh: u32,
) -> Result<Option<Refusal>, AllocError>
    ensures { IfOk result
        (λ r. r ≡ access_fault (view frame.now e.now) pos first_fresh (state at.now)) }
{
    if !is_counted(&e.note.ctype) {
        return Ok(None);
    }
    let found = range(work, frame, at, e, 0, first_fresh)?;
    Ok(fault_if(is_missing(found), UNKNOWN_BOUNDS, pos))
}

fn is_declared_object(frame: &Frame, k: u32) -> bool
    ensures { result ≡ is_declared_object (slice_get frame.now.objects k) }
{
    match frame.objects.get(k as usize) {
        Some(Some(_)) => true,
        Some(None) => false,
        None => false,
    }
}

fn member_has_none(structs: &Structs, member: Option<Member>) -> bool
    ensures { result ≡ member_has_none structs.now member }
{
    match member {
        Some(m) => has_no_address(structs, m.tag, m.number),
        None => false,
    }
}

/// Whether what a node reads has no address (E606).
fn has_none(frame: &Frame, node: &Node<Name, Note>) -> bool
    ensures { result ≡ (view_of_node frame.now node.now).no_address }
{
    match node {
        Node::Name(n) => match n {
            Name::Static(k) => is_declared_object(frame, *k),
            _ => false,
        },
        Node::Dot(_, _, _) => member_has_none(&frame.structs, member_of_node(frame, node)),
        Node::Arrow(_, _, _) => member_has_none(&frame.structs, member_of_node(frame, node)),
        Node::Number(_, _) | Node::Text(_) | Node::Null | Node::Size(_) | Node::Un(_, _) => false,
        Node::Index(_, _) | Node::Bin(_, _, _) | Node::Cast(_, _) | Node::Pick(_, _, _) => false,
        Node::Trusted(_, _, _) | Node::Tested(_, _, _) => false,
        Node::Call(_, _) | Node::Calloc(_, _, _) => false,
    }
}

/// The fault of a node itself.
pub fn fault_of_node(
    work: &mut Work,
    frame: &Frame,
    at: &Point,
    node: &Node<Name, Note>,
    pos: Pos,
    first_fresh: u32,
) -> Result<Option<Refusal>, AllocError>
    ensures { IfOk result (λ r.
        r ≡ (view_of_node frame.now node.now).fault pos first_fresh (state at.now)) }
{
    match node {
        Node::Un(TreeOp::Deref, e) => access_fault(work, frame, at, e.get(), pos, first_fresh),
        Node::Un(TreeOp::Address, e) => {
            Ok(fault_if(has_none(frame, &e.get().node), BOUNDS_ADDRESS, pos))
        }
        Node::Index(e, _) => access_fault(work, frame, at, e.get(), pos, first_fresh),
        Node::Arrow(e, _, _) => access_fault(work, frame, at, e.get(), pos, first_fresh),
        Node::Tested(_, e, _) => access_fault(work, frame, at, e.get(), pos, first_fresh),
        Node::Call(n, es) => call_fault(work, frame, at, *n, es.as_slice(), first_fresh),
        Node::Number(_, _) | Node::Text(_) | Node::Null | Node::Size(_) => Ok(None),
        Node::Un(_, _) | Node::Name(_) | Node::Bin(_, _, _) | Node::Cast(_, _) => Ok(None),
        Node::Pick(_, _, _) | Node::Dot(_, _, _) | Node::Trusted(_, _, _) => Ok(None),
        Node::Calloc(_, _, _) => Ok(None),
    }
}

/// The fault of a node itself if it is the operand of `&`: in `&*p` and `&p[k]` there is no access.
pub fn operand_fault_of_node(
    work: &mut Work,
    frame: &Frame,
    at: &Point,
    node: &Node<Name, Note>,
    pos: Pos,
    first_fresh: u32,
) -> Result<Option<Refusal>, AllocError>
    ensures { IfOk result (λ r.
        r ≡ (view_of_node frame.now node.now).operand_fault pos first_fresh (state at.now)) }
{
    match node {
        Node::Un(TreeOp::Deref, _) => Ok(None),
        Node::Index(_, _) => Ok(None),
        Node::Un(_, _) => fault_of_node(work, frame, at, node, pos, first_fresh),
        _ => fault_of_node(work, frame, at, node, pos, first_fresh),
    }
}
