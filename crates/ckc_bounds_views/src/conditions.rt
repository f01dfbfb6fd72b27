//! What conditions make known on their two sides.

ghost use Rattle.std.specs.Prelude.{◌≡◌, IfOk, OnOk};
ghost use Rattle.ckc_typed.specs.Types.{kind_of};
ghost use Rattle.ckc_bounds_points.specs.Shown.{known};
ghost use Rattle.ckc_bounds_points.specs.Frames.{local_at};
ghost use Rattle.ckc_bounds_points.specs.Flow.{state};
ghost use Rattle.ckc_bounds_views.specs.Conditions.{is_upper_of, is_upper, widened_by, read_place, widening, widening_side, said, opposite, holding, is_comparison, constant_operand, operand, compares_unsigned, nonzero_side, comparison_side, right_point};
ghost use Rattle.ckc_bounds_views.specs.Views.{view, view_of_node};

use crate::forms::number;
use crate::places::target_of_node;
use ckc_base::Seq;
use ckc_bounds_points::{
    Bounds, Frame, Local, Point, Work, add_less, add_most, constant_form, copied, local_at,
    same_form, variable,
};
use ckc_linear::{Base, Facts, Form};
use ckc_syntax::{Expr, Name, Node, TreeOp};
use ckc_typed::Note;
use ckc_typed::constants::value_of;
use ckc_typed::types::{is_unsigned, kind_of};
use ckc_types::Kind;
use std::alloc::{AllocError, Global};

fn is_upper_of(bounds: &Bounds, f: &Form) -> bool
    ensures { result ≡ is_upper_of bounds.now f.now }
{
    match bounds {
        Bounds::Known(_, high) => same_form(high, f),
        Bounds::Unknown => false,
    }
}

fn is_upper(f: &Form, local: &Local) -> bool
    ensures { result ≡ is_upper f.now (Some local.now) }
{
    match kind_of(&local.ctype) {
        Some(Kind::Nt) => is_upper_of(&local.bounds, f),
        Some(Kind::Raw | Kind::One | Kind::Arr) | None => false,
    }
}

/// The local `_Nt_array_ptr` whose declared upper bound is a place.
fn widened_by(frame: &Frame, place: Option<Form>) -> Option<u32>
    ensures { result ≡ widened_by frame.now place }
{
    match place {
        Some(f) => match f.base {
            Some(Base::Local(k)) => match local_at(frame, k) {
                Some(local) => { if is_upper(&f, local) { Some(k) } else { None } }
                None => None,
            },
            Some(Base::Array(_)) | Some(Base::Value(_)) | None => None,
        },
        None => None,
    }
}

/// Widens the local `_Nt_array_ptr` that is read through at its upper bound.
fn widen(
    frame: &Frame,
    behind: Option<Kind>,
    place: Option<Form>,
    at: &mut Point,
) -> Result<(), AllocError>
    ensures { OnOk result (state at.new ≡ widening frame.now behind place (state at.old)) }
{
    match behind {
        Some(Kind::Nt) => {}
        Some(Kind::Raw | Kind::One | Kind::Arr) | None => return Ok(()),
    }
    match widened_by(frame, place) {
        Some(k) => {
            if at.reached {
                return at.widened.push(k);
            }
            Ok(())
        }
        None => Ok(()),
    }
}

/// The kind of the pointer that a node reads through.
pub fn behind(frame: &Frame, node: &Node<Name, Note>) -> Option<Kind>
    ensures { result ≡ (view_of_node frame.now node.now).behind }
{
    match node {
        Node::Un(TreeOp::Deref, e) => kind_of(&e.get().note.ctype),
        Node::Index(e, _) => kind_of(&e.get().note.ctype),
        Node::Number(_, _) | Node::Text(_) | Node::Null | Node::Size(_) | Node::Un(_, _) => None,
        Node::Name(_) | Node::Bin(_, _, _) | Node::Cast(_, _) | Node::Pick(_, _, _) => None,
        Node::Dot(_, _, _) | Node::Arrow(_, _, _) | Node::Trusted(_, _, _) => None,
        Node::Tested(_, _, _) | Node::Call(_, _) | Node::Calloc(_, _, _) => None,
    }
}

/// Goes to a side of a condition that reads through a pointer.
fn read_side(
    work: &mut Work,
    frame: &Frame,
    node: &Node<Name, Note>,
    side: bool,
    at: &mut Point,
) -> Result<(), AllocError>
    ensures { let v = view_of_node frame.now node.now in
        OnOk result (state at.new
        ≡ widening_side frame.now v.behind (v.target 0) side (state at.old)) }
{
    if side {
        let place = target_of_node(work, frame, &at.facts, node, 0)?;
        widen(frame, behind(frame, node), place, at)
    } else {
        Ok(())
    }
}

/// Adds what a comparison says that holds.
fn say(op: TreeOp, x: Form, y: Form, facts: &mut Facts) -> Result<(), AllocError>
    ensures { OnOk result (known facts.new ≡ said op x y (known facts.old)) }
{
    match op {
        TreeOp::Lt => add_less(x, y, facts),
        TreeOp::Le => add_most(x, y, facts),
        TreeOp::Gt => add_less(y, x, facts),
        TreeOp::Ge => add_most(y, x, facts),
        TreeOp::Eq => {
            add_most(x, y, facts)?;
            add_most(y, x, facts)
        }
        _ => Ok(()),
    }
}

fn opposite(op: TreeOp) -> TreeOp
    ensures { result ≡ opposite op }
{
    match op {
        TreeOp::Lt => TreeOp::Ge,
        TreeOp::Le => TreeOp::Gt,
        TreeOp::Gt => TreeOp::Le,
        TreeOp::Ge => TreeOp::Lt,
        TreeOp::Eq => TreeOp::Ne,
        TreeOp::Ne => TreeOp::Eq,
        other => other,
    }
}

fn holding(op: TreeOp, side: bool) -> TreeOp
    ensures { result ≡ holding op side }
{
    if side { op } else { opposite(op) }
}

fn is_comparison(op: TreeOp) -> bool
    ensures { result ≡ is_comparison op }
{
    match op {
        TreeOp::Lt | TreeOp::Le | TreeOp::Gt | TreeOp::Ge | TreeOp::Eq | TreeOp::Ne => true,
        _ => false,
    }
}

fn constant_operand(unsigned: bool, n: i64) -> Option<Form>
    ensures { result ≡ constant_operand unsigned n }
{
    if unsigned && n < 0 {
        None
    } else {
        Some(constant_form(n))
    }
}

fn variable_of_node(frame: &Frame, node: &Node<Name, Note>) -> Option<Form>
    ensures { result ≡ (view_of_node frame.now node.now).variable }
{
    match node {
        Node::Name(n) => variable(frame, *n),
        Node::Number(_, _) | Node::Text(_) | Node::Null | Node::Size(_) | Node::Un(_, _) => None,
        Node::Index(_, _) | Node::Bin(_, _, _) | Node::Cast(_, _) | Node::Pick(_, _, _) => None,
        Node::Dot(_, _, _) | Node::Arrow(_, _, _) | Node::Trusted(_, _, _) => None,
        Node::Tested(_, _, _) | Node::Call(_, _) | Node::Calloc(_, _, _) => None,
    }
}

/// The form of an operand of a comparison that gives facts.
fn operand(
    alloc: Global,
    frame: &Frame,
    unsigned: bool,
    e: &Expr<Name, Note>,
) -> Result<Option<Form>, AllocError>
    ensures { IfOk result (λ f. f ≡ operand unsigned (view frame.now e.now)) }
{
    let c = number(alloc, frame, e)?;
    match c {
        Some(c) => Ok(constant_operand(unsigned, value_of(c))),
        None => {
            if unsigned && !is_unsigned(&e.note.ctype) {
                Ok(None)
            } else {
                Ok(variable_of_node(frame, &e.node))
            }
        }
    }
}

fn is_zero(frame: &Frame, node: &Node<Name, Note>) -> bool
    ensures { result ≡ (view_of_node frame.now node.now).is_zero }
{
    match node {
        Node::Number(n, _) => *n == 0,
        Node::Text(_) | Node::Null | Node::Size(_) | Node::Un(_, _) | Node::Name(_) => false,
        Node::Index(_, _) | Node::Bin(_, _, _) | Node::Cast(_, _) | Node::Pick(_, _, _) => false,
        Node::Dot(_, _, _) | Node::Arrow(_, _, _) | Node::Trusted(_, _, _) => false,
        Node::Tested(_, _, _) | Node::Call(_, _) | Node::Calloc(_, _, _) => false,
    }
}

/// Goes to a side of a comparison that gives no facts: `e != 0` widens as e does.
fn nonzero_side(
    work: &mut Work,
    frame: &Frame,
    op: TreeOp,
    e: &Expr<Name, Note>,
    f: &Expr<Name, Note>,
    side: bool,
    at: &mut Point,
) -> Result<(), AllocError>
    ensures { OnOk result (state at.new
        ≡ nonzero_side frame.now op (view frame.now e.now) (view frame.now f.now) side
        (state at.old)) }
{
    match op {
        TreeOp::Ne => {
            if is_zero(frame, &f.node) {
                return read_side(work, frame, &e.node, side, at);
            }
            Ok(())
        }
        _ => Ok(()),
    }
}

/// Goes to a side of an operation other than `&&` and `||`.
fn comparison_side(
    work: &mut Work,
    frame: &Frame,
    op: TreeOp,
    e: &Expr<Name, Note>,
    f: &Expr<Name, Note>,
    side: bool,
    at: &mut Point,
) -> Result<(), AllocError>
    ensures { OnOk result (state at.new
        ≡ comparison_side frame.now op (view frame.now e.now) (view frame.now f.now) side
        (state at.old)) }
{
    if !is_comparison(op) {
        return Ok(());
    }
    let unsigned = is_unsigned(&e.note.ctype) || is_unsigned(&f.note.ctype);
    let x = operand(work.alloc, frame, unsigned, e)?;
    let y = operand(work.alloc, frame, unsigned, f)?;
    match (x, y) {
        (Some(x), Some(y)) => {
            if at.reached {
                return say(holding(op, side), x, y, &mut at.facts);
            }
            Ok(())
        }
        _ => nonzero_side(work, frame, op, e, f, side, at),
    }
}

/// Puts the widened locals back to what they were.
pub fn narrow(alloc: Global, wide: &[u32], at: &mut Point) -> Result<(), AllocError>
    ensures { OnOk result (state at.new ≡ record (state at.old) { widened = wide.now }) }
{
    at.widened = Seq::from_slice(alloc, wide)?;
    Ok(())
}

/// The point at which the right operand of an operator is judged: after `&&` and `||` a side of the left one.
pub fn right_point(
    work: &mut Work,
    frame: &Frame,
    op: TreeOp,
    e: &Expr<Name, Note>,
    at: &Point,
) -> Result<Point, AllocError>
    ensures { IfOk result (λ p. state p ≡ right_point op (view frame.now e.now) (state at.now)) }
{
    let mut right = copied(work.alloc, at)?;
    match op {
        TreeOp::AndThen => {
            to_side(work, frame, e, true, &mut right)?;
            Ok(right)
        }
        TreeOp::OrElse => {
            to_side(work, frame, e, false, &mut right)?;
            narrow(work.alloc, at.widened.as_slice(), &mut right)?;
            Ok(right)
        }
        _ => Ok(right),
    }
}

#[cycle(side)]
fn side_of_node(
    work: &mut Work,
    frame: &Frame,
    node: &Node<Name, Note>,
    side: bool,
    at: &mut Point,
) -> Result<(), AllocError>
    ensures { OnOk result
        (state at.new ≡ (view_of_node frame.now node.now).side side (state at.old)) }
{
    match node {
        Node::Un(TreeOp::Not, e) => to_side(work, frame, e.get(), !side, at),
        Node::Bin(TreeOp::AndThen, e, f) => {
            if !side {
                return Ok(());
            }
            to_side(work, frame, e.get(), true, at)?;
            to_side(work, frame, f.get(), true, at)
        }
        Node::Bin(TreeOp::OrElse, e, f) => {
            if side {
                return Ok(());
            }
            let wide = Seq::from_slice(work.alloc, at.widened.as_slice())?;
            to_side(work, frame, e.get(), false, at)?;
            narrow(work.alloc, wide.as_slice(), at)?;
            to_side(work, frame, f.get(), false, at)?;
            narrow(work.alloc, wide.as_slice(), at)
        }
        Node::Bin(op, e, f) => comparison_side(work, frame, *op, e.get(), f.get(), side, at),
        _ => read_side(work, frame, node, side, at),
    }
}

/// Goes to the true or to the false side of a condition.
#[cycle(side)]
pub fn to_side(
    work: &mut Work,
    frame: &Frame,
    e: &Expr<Name, Note>,
    side: bool,
    at: &mut Point,
) -> Result<(), AllocError>
    ensures { OnOk result (state at.new ≡ (view frame.now e.now).side side (state at.old)) }
{
    side_of_node(work, frame, &e.node, side, at)
}
