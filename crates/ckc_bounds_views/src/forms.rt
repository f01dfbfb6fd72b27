//! The integers that expressions stand for.

ghost use Rattle.std.specs.Prelude.{◌≡◌, IfOk};
ghost use Rattle.ckc_bounds_points.specs.Shown.{known};
ghost use Rattle.ckc_bounds_views.specs.Integers.{sum_step, difference_step, step_of};
ghost use Rattle.ckc_bounds_views.specs.Views.{view, view_of_node};

use ckc_bounds_points::{Frame, Work, constant_form, in_type, moved_form, variable};
use ckc_linear::{Facts, Form};
use ckc_syntax::{Expr, Name, Node, TreeOp};
use ckc_typed::amounts::negative_value;
use ckc_typed::constants::{negated, size_of, value_of};
use ckc_typed::types::{is_integer, type_written};
use ckc_typed::{Constant, Note};
use ckc_types::CType;
use std::alloc::{AllocError, Global};

/// Which operand a sum moves, and by which number.
#[derive(Clone, Copy)]
pub struct Step {
    pub left: bool,
    pub by: i64,
}

#[cycle(number)]
fn number_of_node(
    alloc: Global,
    frame: &Frame,
    node: &Node<Name, Note>,
) -> Result<Option<Constant>, AllocError>
    ensures { IfOk result (λ c. c ≡ (view_of_node frame.now node.now).number) }
{
    match node {
        Node::Number(n, unsigned) => Ok(Some(Constant {
            word: *n,
            unsigned: *unsigned,
        })),
        Node::Size(t) => {
            let written = type_written(alloc, t)?;
            Ok(Some(Constant {
                word: size_of(&frame.structs, &written),
                unsigned: true,
            }))
        }
        Node::Un(op, e) => {
            let c = number(alloc, frame, e.get())?;
            Ok(negated(*op, c))
        }
        Node::Text(_) | Node::Null | Node::Name(_) | Node::Bin(_, _, _) => Ok(None),
        Node::Pick(_, _, _) | Node::Index(_, _) | Node::Dot(_, _, _) | Node::Arrow(_, _, _) => Ok(
            None,
        ),
        Node::Cast(_, _) | Node::Trusted(_, _, _) | Node::Tested(_, _, _) => Ok(None),
        Node::Call(_, _) | Node::Calloc(_, _, _) => Ok(None),
    }
}

/// The constant that an expression is.
#[cycle(number)]
pub fn number(
    alloc: Global,
    frame: &Frame,
    e: &Expr<Name, Note>,
) -> Result<Option<Constant>, AllocError>
    ensures { IfOk result (λ c. c ≡ (view frame.now e.now).number) }
{
    number_of_node(alloc, frame, &e.node)
}

fn sum_step(c: Option<Constant>, d: Option<Constant>) -> Option<Step>
    ensures { result ≡ sum_step c d }
{
    match (c, d) {
        (_, Some(d)) => Some(Step {
            left: true,
            by: value_of(d),
        }),
        (Some(c), None) => Some(Step {
            left: false,
            by: value_of(c),
        }),
        (None, None) => None,
    }
}

fn difference_step(d: Option<Constant>) -> Option<Step>
    ensures { result ≡ difference_step d }
{
    match d {
        Some(d) => Some(Step {
            left: true,
            by: negative_value(d),
        }),
        None => None,
    }
}

fn step_of(
    alloc: Global,
    frame: &Frame,
    op: TreeOp,
    e: &Expr<Name, Note>,
    f: &Expr<Name, Note>,
) -> Result<Option<Step>, AllocError>
    ensures { IfOk result
        (λ s. s ≡ step_of op (view frame.now e.now).number (view frame.now f.now).number) }
{
    match op {
        TreeOp::Add => {
            let c = number(alloc, frame, e)?;
            let d = number(alloc, frame, f)?;
            Ok(sum_step(c, d))
        }
        TreeOp::Sub => {
            let d = number(alloc, frame, f)?;
            Ok(difference_step(d))
        }
        _ => Ok(None),
    }
}

#[cycle(form)]
fn linear(
    work: &mut Work,
    frame: &Frame,
    facts: &Facts,
    node: &Node<Name, Note>,
    t: &CType,
) -> Result<Option<Form>, AllocError>
    ensures { IfOk result
        (λ f. f ≡ (view_of_node frame.now node.now).linear t.now (known facts.now)) }
{
    match node {
        Node::Name(n) => Ok(variable(frame, *n)),
        Node::Bin(op, e, f) => {
            let step = step_of(work.alloc, frame, *op, e.get(), f.get())?;
            match step {
                Some(Step { left: true, by }) => {
                    let x = form(work, frame, facts, e.get())?;
                    in_type(work, facts, t, moved_form(x, by))
                }
                Some(Step { left: false, by }) => {
                    let x = form(work, frame, facts, f.get())?;
                    in_type(work, facts, t, moved_form(x, by))
                }
                None => Ok(None),
            }
        }
        Node::Cast(_, e) => {
            let x = form(work, frame, facts, e.get())?;
            in_type(work, facts, t, x)
        }
        Node::Number(_, _) | Node::Text(_) | Node::Null | Node::Size(_) | Node::Un(_, _) => Ok(
            None,
        ),
        Node::Pick(_, _, _) | Node::Index(_, _) | Node::Dot(_, _, _) | Node::Arrow(_, _, _) => Ok(
            None,
        ),
        Node::Trusted(_, _, _) | Node::Tested(_, _, _) => Ok(None),
        Node::Call(_, _) | Node::Calloc(_, _, _) => Ok(None),
    }
}

/// The integer form of an expression under facts: a constant and a local are themselves, and `e + c`, `c + e`, `e - c`
/// and a conversion have the form of their parts if the exact result is shown to lie in the type.
#[cycle(form)]
pub fn form(
    work: &mut Work,
    frame: &Frame,
    facts: &Facts,
    e: &Expr<Name, Note>,
) -> Result<Option<Form>, AllocError>
    ensures { IfOk result (λ f. f ≡ (view frame.now e.now).form (known facts.now)) }
{
    if !is_integer(&e.note.ctype) {
        return Ok(None);
    }
    let c = number(work.alloc, frame, e)?;
    match c {
        Some(c) => Ok(Some(constant_form(value_of(c)))),
        None => linear(work, frame, facts, &e.node, &e.note.ctype),
    }
}
