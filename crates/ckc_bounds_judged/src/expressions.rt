//! Expressions with the range of each pointer noted, or their first fault: the parts from left to right, and then the
//! expression itself.

ghost use Rattle.std.specs.Prelude.{◌≡◌, Bool, true, false, not, map, if◌then◌else◌, Ok, IfOk};
ghost use Rattle.std.specs.Option.{option_map};
ghost use Rattle.ckc_base.specs.Outcomes.{AnswersOutcome, bind};
ghost use Rattle.ckc_syntax.specs.declared.tree.Node.TheVariants as node;
ghost use Rattle.ckc_bounds_extents.specs.ckc_bounds_points.specs.Flow.{state};
ghost use Rattle.ckc_bounds_extents.specs.ckc_bounds_views.specs.Judged.{noted_range, expr_made, by_fault, there_judged, all_judged};
ghost use Rattle.ckc_bounds_extents.specs.ckc_bounds_views.specs.Conditions.{right_point};
ghost use Rattle.ckc_bounds_extents.specs.ckc_bounds_views.specs.Views.{view, view_of_limits, view_of_node};

use crate::faults::{counts_bytes, fault_of_node, operand_fault_of_node};
use ckc_base::{Boxed, Bytes, Fault, Refusal, Seq, refused};
use ckc_bounds_extents::bounds_points::codes::BAD_LIMITS;
use ckc_bounds_extents::bounds_points::{Frame, Point, Work};
use ckc_bounds_extents::bounds_views::right_point;
use ckc_bounds_extents::{element_size, fresh_behind, range};
use ckc_syntax::{Expr, Limits, Name, Node, TreeOp, copied_type};
use ckc_typed::types::{copied as copied_ctype, is_integer, is_pointer};
use ckc_typed::{Note, Range};
use ckc_types::CType;
use std::alloc::{AllocError, Global};

fn noted_range(alloc: Global, note: &Note, range: Range) -> Result<Note, AllocError>
    ensures { IfOk result (λ n. n ≡ noted_range note.now range) }
{
    let ctype = copied_ctype(alloc, &note.ctype)?;
    if is_pointer(&note.ctype) {
        Ok(Note {
            ctype,
            mode: note.mode,
            range,
        })
    } else {
        Ok(Note {
            ctype,
            mode: note.mode,
            range: note.range,
        })
    }
}

/// The expression of a judged node, unless it has a fault of its own.
fn made(
    work: &mut Work,
    frame: &Frame,
    at: &Point,
    e: &Expr<Name, Note>,
    first_fresh: u32,
    fault: Option<Refusal>,
    node: Node<Name, Note>,
) -> Result<Expr<Name, Note>, Fault>
    ensures { AnswersOutcome result (by_fault fault
        (Ok (expr_made e.now.pos e.now.note
        ((view frame.now e.now).range 0 first_fresh (state at.now)) node))) }
{
    match fault {
        Some(r) => Err(Fault::Refused(r)),
        None => {
            let found = range(work, frame, at, e, 0, first_fresh)?;
            let note = noted_range(work.alloc, &e.note, found)?;
            Ok(Expr {
                node,
                pos: e.pos,
                note,
            })
        }
    }
}

#[cycle(judge_as)]
fn judge_limits(
    work: &mut Work,
    frame: &Frame,
    at: &Point,
    limits: &Limits<Name, Note>,
    size: u32,
    first_fresh: u32,
) -> Result<Limits<Name, Note>, Fault>
    ensures { AnswersOutcome result
        ((view_of_limits frame.now limits.now).judged size first_fresh (state at.now)) }
{
    match limits {
        Limits::Count(e, pos) => {
            let amount = boxed(work, frame, at, e.get(), first_fresh)?;
            if is_integer(&e.get().note.ctype) {
                Ok(Limits::Count(amount, *pos))
            } else {
                Err(refused(BAD_LIMITS, *pos))
            }
        }
        Limits::ByteCount(e, pos) => {
            let amount = boxed(work, frame, at, e.get(), first_fresh)?;
            if counts_bytes(work.alloc, frame, size, e.get())? {
                Ok(Limits::ByteCount(amount, *pos))
            } else {
                Err(refused(BAD_LIMITS, *pos))
            }
        }
        Limits::Between(e, f, pos) => {
            let _low = boxed(work, frame, at, e.get(), first_fresh)?;
            let next = fresh_behind(work, frame, at, e.get(), first_fresh)?;
            let _high = boxed(work, frame, at, f.get(), next)?;
            Err(refused(BAD_LIMITS, *pos))
        }
        Limits::Unknown(pos) => Err(refused(BAD_LIMITS, *pos)),
    }
}

#[cycle(judge_as)]
fn judge_bounds(
    work: &mut Work,
    frame: &Frame,
    at: &Point,
    bounds: &Option<Boxed<Limits<Name, Note>>>,
    size: u32,
    first_fresh: u32,
) -> Result<Option<Boxed<Limits<Name, Note>>>, Fault>
    ensures { AnswersOutcome result
        (there_judged (option_map (view_of_limits frame.now) bounds.now)
        size first_fresh (state at.now)) }
{
    match bounds {
        None => Ok(None),
        Some(limits) => {
            let judged = judge_limits(work, frame, at, limits.get(), size, first_fresh)?;
            let boxed = Boxed::new(work.alloc, judged)?;
            Ok(Some(boxed))
        }
    }
}

#[cycle(judge_as)]
fn judge_all(
    work: &mut Work,
    frame: &Frame,
    at: &Point,
    es: &[Expr<Name, Note>],
    first_fresh: u32,
) -> Result<Seq<Expr<Name, Note>>, Fault>
    ensures { AnswersOutcome result
        (all_judged (map (view frame.now) es.now) first_fresh (state at.now)) }
{
    let mut all = Seq::new(work.alloc);
    let mut next = first_fresh;
    for e in es {
        let judged = judge_as(work, frame, at, e, false, next)?;
        all.push(judged)?;
        next = fresh_behind(work, frame, at, e, next)?;
    }
    Ok(all)
}

#[cycle(judge_as)]
fn judge_call(
    work: &mut Work,
    frame: &Frame,
    at: &Point,
    name: Name,
    es: &Seq<Expr<Name, Note>>,
    first_fresh: u32,
) -> Result<Node<Name, Note>, Fault>
    ensures { AnswersOutcome result
        (bind (all_judged (map (view frame.now) es.now) first_fresh (state at.now))
        (λ args. Ok (node.Call name args))) }
{
    let args = judge_all(work, frame, at, es.as_slice(), first_fresh)?;
    Ok(Node::Call(name, args))
}

#[cycle(judge_as)]
fn judge_node(
    work: &mut Work,
    frame: &Frame,
    at: &Point,
    node: &Node<Name, Note>,
    t: &CType,
    first_fresh: u32,
) -> Result<Node<Name, Note>, Fault>
    ensures { AnswersOutcome result
        ((view_of_node frame.now node.now).judged t.now first_fresh (state at.now)) }
{
    match node {
        Node::Number(n, unsigned) => Ok(Node::Number(*n, *unsigned)),
        Node::Text(bytes) => {
            let copy = Bytes::from_slice(work.alloc, bytes.as_slice())?;
            Ok(Node::Text(copy))
        }
        Node::Null => Ok(Node::Null),
        Node::Name(n) => Ok(Node::Name(*n)),
        Node::Un(TreeOp::Address, e) => {
            let judged = judge_as(work, frame, at, e.get(), true, first_fresh)?;
            let e = Boxed::new(work.alloc, judged)?;
            Ok(Node::Un(TreeOp::Address, e))
        }
        Node::Un(op, e) => {
            let e = boxed(work, frame, at, e.get(), first_fresh)?;
            Ok(Node::Un(*op, e))
        }
        Node::Bin(op, e, f) => {
            let next = fresh_behind(work, frame, at, e.get(), first_fresh)?;
            let right = right_point(work, frame, *op, e.get(), at)?;
            let e = boxed(work, frame, at, e.get(), first_fresh)?;
            let f = boxed(work, frame, &right, f.get(), next)?;
            Ok(Node::Bin(*op, e, f))
        }
        Node::Pick(e, f, g) => {
            let next = fresh_behind(work, frame, at, e.get(), first_fresh)?;
            let last = fresh_behind(work, frame, at, f.get(), next)?;
            let e = boxed(work, frame, at, e.get(), first_fresh)?;
            let f = boxed(work, frame, at, f.get(), next)?;
            let g = boxed(work, frame, at, g.get(), last)?;
            Ok(Node::Pick(e, f, g))
        }
        Node::Index(e, f) => {
            let next = fresh_behind(work, frame, at, e.get(), first_fresh)?;
            let e = boxed(work, frame, at, e.get(), first_fresh)?;
            let f = boxed(work, frame, at, f.get(), next)?;
            Ok(Node::Index(e, f))
        }
        Node::Dot(e, n, pos) => {
            let e = boxed(work, frame, at, e.get(), first_fresh)?;
            Ok(Node::Dot(e, *n, *pos))
        }
        Node::Arrow(e, n, pos) => {
            let e = boxed(work, frame, at, e.get(), first_fresh)?;
            Ok(Node::Arrow(e, *n, *pos))
        }
        Node::Cast(w, e) => {
            let e = boxed(work, frame, at, e.get(), first_fresh)?;
            let w = copied_type(work.alloc, w)?;
            Ok(Node::Cast(w, e))
        }
        Node::Size(w) => {
            let w = copied_type(work.alloc, w)?;
            Ok(Node::Size(w))
        }
        Node::Trusted(w, e, l) => {
            let next = fresh_behind(work, frame, at, e.get(), first_fresh)?;
            let e = boxed(work, frame, at, e.get(), first_fresh)?;
            let l = judge_bounds(work, frame, at, l, element_size(&frame.structs, t), next)?;
            let w = copied_type(work.alloc, w)?;
            Ok(Node::Trusted(w, e, l))
        }
        Node::Tested(w, e, l) => {
            let next = fresh_behind(work, frame, at, e.get(), first_fresh)?;
            let e = boxed(work, frame, at, e.get(), first_fresh)?;
            let l = judge_bounds(work, frame, at, l, element_size(&frame.structs, t), next)?;
            let w = copied_type(work.alloc, w)?;
            Ok(Node::Tested(w, e, l))
        }
        Node::Call(n, es) => judge_call(work, frame, at, *n, es, first_fresh),
        Node::Calloc(w, e, x) => {
            let e = boxed(work, frame, at, e.get(), first_fresh)?;
            let w = copied_type(work.alloc, w)?;
            let x = copied_type(work.alloc, x)?;
            Ok(Node::Calloc(w, e, x))
        }
    }
}

#[cycle(judge_as)]
fn boxed(
    work: &mut Work,
    frame: &Frame,
    at: &Point,
    e: &Expr<Name, Note>,
    first_fresh: u32,
) -> Result<Boxed<Expr<Name, Note>>, Fault>
    ensures { AnswersOutcome result ((view frame.now e.now).judged first_fresh (state at.now)) }
{
    let judged = judge_as(work, frame, at, e, false, first_fresh)?;
    let boxed = Boxed::new(work.alloc, judged)?;
    Ok(boxed)
}

/// An expression, or the operand of `&`, in which `*` and `[` are no access.
#[cycle(judge_as)]
fn judge_as(
    work: &mut Work,
    frame: &Frame,
    at: &Point,
    e: &Expr<Name, Note>,
    operand: bool,
    first_fresh: u32,
) -> Result<Expr<Name, Note>, Fault>
    ensures { let v = view frame.now e.now in AnswersOutcome result
        (if operand then v.operand first_fresh (state at.now)
        else v.judged first_fresh (state at.now)) }
{
    let node = judge_node(work, frame, at, &e.node, &e.note.ctype, first_fresh)?;
    if operand {
        let fault = operand_fault_of_node(work, frame, at, &e.node, e.pos, first_fresh)?;
        made(work, frame, at, e, first_fresh, fault, node)
    } else {
        let fault = fault_of_node(work, frame, at, &e.node, e.pos, first_fresh)?;
        made(work, frame, at, e, first_fresh, fault, node)
    }
}

/// An expression with the range of each pointer in it noted, or its first fault, by its first fresh variable and the
/// point: E601, E602 of an argument, E603 of the amount of a bounds cast, E606.
pub fn judge(
    work: &mut Work,
    frame: &Frame,
    at: &Point,
    e: &Expr<Name, Note>,
    first_fresh: u32,
) -> Result<Expr<Name, Note>, Fault>
    ensures { AnswersOutcome result ((view frame.now e.now).judged first_fresh (state at.now)) }
{
    judge_as(work, frame, at, e, false, first_fresh)
}
