//! Expressions without the effects in them.

ghost use Rattle.ckc_plain_bodies.specs.Expressions.{bounds_plain, limits_plain, expr_kept, expr_plain, exprs_plain, whole_plain, maybe_plain, if_true, if_false, truth_at};
ghost use Rattle.ckc_plain_bodies.specs.Taken.{expr_at, block_at};
ghost use Rattle.ckc_plain_bodies.specs.code.Parts.{bounded_node, chosen_by, start_by, choice_by, choice_at, choose_by, second_by, right_by};
ghost use Rattle.ckc_plain_bodies.specs.code.Steps.{Steps};
ghost use Rattle.std.specs.Prelude.{◌≡◌, ◌+◌, IfOk};

use crate::boxes::{Inner, add_at_end, add_expr, if_else, in_box, no_exprs, stmt_in_box};
use crate::pending::Pending;
use crate::taken::{
    add_fresh, assign_at, binary_at, block_at, call_taken, expr_at, local_at, number_at, set_taken,
    step_taken, stmt_at,
};
use ckc_base::{Boxed, Bytes, Pos, Seq};
use ckc_plain_barred::{
    Form, Integer, Integers, Work, form_of, is_call, result_of, stays, work_of,
};
use ckc_syntax::{Act, Expr, Limits, Name, Node, Stmt, TreeOp, TypeTree, copied_type};
use std::alloc::{AllocError, Global};

/// A string literal.
fn text_at(alloc: Global, bytes: &Bytes, pos: Pos) -> Result<Expr<Name, ()>, AllocError>
    ensures { IfOk result (λ e. e ≡ expr_at (Node.Text bytes.now) pos) }
{
    let copy = Bytes::from_slice(alloc, bytes.as_slice())?;
    Ok(expr_at(Node::Text(copy), pos))
}

/// `sizeof` of a type.
fn size_at(alloc: Global, t: &TypeTree<Name>, pos: Pos) -> Result<Expr<Name, ()>, AllocError>
    ensures { IfOk result (λ e. e ≡ expr_at (Node.Size t.now) pos) }
{
    let t = copied_type(alloc, t)?;
    Ok(expr_at(Node::Size(t), pos))
}

fn cast_at(
    alloc: Global,
    t: &TypeTree<Name>,
    e: Boxed<Expr<Name, ()>>,
    pos: Pos,
) -> Result<Expr<Name, ()>, AllocError>
    ensures { IfOk result (λ a. a ≡ expr_at (Node.Cast t.now e) pos) }
{
    let t = copied_type(alloc, t)?;
    Ok(expr_at(Node::Cast(t, e), pos))
}

fn calloc_at(
    alloc: Global,
    t: &TypeTree<Name>,
    e: Boxed<Expr<Name, ()>>,
    u: &TypeTree<Name>,
    pos: Pos,
) -> Result<Expr<Name, ()>, AllocError>
    ensures { IfOk result (λ a. a ≡ expr_at (Node.Calloc t.now e u.now) pos) }
{
    let t = copied_type(alloc, t)?;
    let u = copied_type(alloc, u)?;
    Ok(expr_at(Node::Calloc(t, e, u), pos))
}

/// A cast with bounds that it may state: with tests, or trusted.
fn bounded_at(
    alloc: Global,
    tested: bool,
    t: &TypeTree<Name>,
    e: Boxed<Expr<Name, ()>>,
    bounds: Option<Boxed<Limits<Name, ()>>>,
    pos: Pos,
) -> Result<Expr<Name, ()>, AllocError>
    ensures { IfOk result (λ a. a ≡ expr_at (bounded_node tested t.now e bounds) pos) }
{
    let t = copied_type(alloc, t)?;
    if tested {
        return Ok(expr_at(Node::Tested(t, e, bounds), pos));
    }
    Ok(expr_at(Node::Trusted(t, e, bounds), pos))
}

/// `t = b != 0;`
fn truth_at(
    alloc: Global,
    k: u32,
    b: Expr<Name, ()>,
    pos: Pos,
) -> Result<Stmt<Name, ()>, AllocError>
    ensures { IfOk result (λ s. s ≡ truth_at k b pos) }
{
    let truth = binary_at(alloc, TreeOp::Ne, b, number_at(0, pos), pos)?;
    assign_at(alloc, local_at(k, pos), truth, pos)
}

/// `if (a) { prelude of b; t = b != 0; }`
fn if_true(
    alloc: Global,
    condition: Boxed<Expr<Name, ()>>,
    block: Pending,
    pos: Pos,
) -> Result<Stmt<Name, ()>, AllocError>
    ensures { IfOk result (λ s. s ≡ if_true condition (block_at block.stmts pos) pos) }
{
    let then = stmt_in_box(alloc, block_at(block.into_stmts(), pos))?;
    Ok(stmt_at(Act::If(condition, then, None), pos))
}

/// `if (a) ; else { prelude of b; t = b != 0; }`
fn if_false(
    alloc: Global,
    condition: Boxed<Expr<Name, ()>>,
    block: Pending,
    pos: Pos,
) -> Result<Stmt<Name, ()>, AllocError>
    ensures { IfOk result (λ s. s ≡ if_false condition (block_at block.stmts pos) pos) }
{
    let stmt = stmt_in_box(alloc, stmt_at(Act::Empty, pos))?;
    let then = Inner { stmt };
    let otherwise = stmt_in_box(alloc, block_at(block.into_stmts(), pos))?;
    Ok(if_else(condition, then, Inner { stmt: otherwise }, pos))
}

/// The `if` of `&&` or of `||`, with the statements of a block.
fn chosen(
    alloc: Global,
    all: bool,
    a: Expr<Name, ()>,
    block: Pending,
    pos: Pos,
) -> Result<Stmt<Name, ()>, AllocError>
    ensures { IfOk result (λ s. s ≡ chosen_by all a (block_at block.stmts pos) pos) }
{
    let condition = in_box(alloc, a)?;
    if all {
        return if_true(alloc, condition, block, pos);
    }
    if_false(alloc, condition, block, pos)
}

/// What `&&` gives at first if all is true, and `||` if not.
fn start_of(all: bool) -> u32
    ensures { result ≡ start_by all }
{
    if all {
        return 0;
    }
    1
}

/// `&&` or `||`, whose right operand has effects that are pending on their own: a fresh local takes its place.
fn choice_taken(
    alloc: Global,
    all: bool,
    pos: Pos,
    a: Expr<Name, ()>,
    b: Expr<Name, ()>,
    inner: Pending,
    pending: &mut Pending,
) -> Result<Expr<Name, ()>, AllocError>
    ensures { Steps result pending.new (choice_by all pos a b inner pending.old) }
{
    let k = pending.next;
    let next = inner.next;
    let mut block = inner;
    let truth = truth_at(alloc, k, b, pos)?;
    add_at_end(&mut block.stmts, truth)?;
    let start = number_at(start_of(all), pos);
    let name = add_fresh(alloc, Integer::Int, start, pos, pending)?;
    let made = chosen(alloc, all, a, block, pos)?;
    add_at_end(&mut pending.stmts, made)?;
    pending.next = next;
    Ok(name)
}

/// `&&` or `||`, by what its right operand leaves pending.
fn choice(
    alloc: Global,
    op: TreeOp,
    all: bool,
    pos: Pos,
    a: Expr<Name, ()>,
    b: Expr<Name, ()>,
    inner: Pending,
    pending: &mut Pending,
) -> Result<Expr<Name, ()>, AllocError>
    ensures { Steps result pending.new (choice_at op all pos a b inner pending.old) }
{
    if inner.stmts.is_empty() {
        return binary_at(alloc, op, a, b, pos);
    }
    choice_taken(alloc, all, pos, a, b, inner, pending)
}

/// The number after the next one. That none is left is taken for want of memory.
fn number_after(next: u32) -> Result<u32, AllocError>
    ensures { IfOk result (λ n. n ≡ next + 1) }
{
    if next == u32::MAX {
        return Err(AllocError);
    }
    Ok(next + 1)
}

/// An expression without the effects in its parts.
#[cycle(plain)]
fn kept(
    alloc: Global,
    known: &Integers,
    e: &Expr<Name, ()>,
    pending: &mut Pending,
) -> Result<Expr<Name, ()>, AllocError>
    ensures { Steps result pending.new (expr_kept known.now e.now pending.old) }
{
    match &e.node {
        Node::Number(n, unsigned) => Ok(expr_at(Node::Number(*n, *unsigned), e.pos)),
        Node::Text(bytes) => text_at(alloc, bytes, e.pos),
        Node::Null => Ok(expr_at(Node::Null, e.pos)),
        Node::Name(n) => Ok(expr_at(Node::Name(*n), e.pos)),
        Node::Un(op, x) => {
            let x = boxed_expr(alloc, known, x.get(), pending)?;
            Ok(expr_at(Node::Un(*op, x), e.pos))
        }
        Node::Bin(op, x, f) => {
            let a = plain_expr(alloc, known, x.get(), pending)?;
            second_expr(alloc, known, work_of(*op), *op, f.get(), a, e.pos, pending)
        }
        Node::Pick(x, f, g) => {
            let x = boxed_expr(alloc, known, x.get(), pending)?;
            let f = boxed_expr(alloc, known, f.get(), pending)?;
            let g = boxed_expr(alloc, known, g.get(), pending)?;
            Ok(expr_at(Node::Pick(x, f, g), e.pos))
        }
        Node::Index(x, f) => {
            let x = boxed_expr(alloc, known, x.get(), pending)?;
            let f = boxed_expr(alloc, known, f.get(), pending)?;
            Ok(expr_at(Node::Index(x, f), e.pos))
        }
        Node::Dot(x, n, at) => {
            let x = boxed_expr(alloc, known, x.get(), pending)?;
            Ok(expr_at(Node::Dot(x, *n, *at), e.pos))
        }
        Node::Arrow(x, n, at) => {
            let x = boxed_expr(alloc, known, x.get(), pending)?;
            Ok(expr_at(Node::Arrow(x, *n, *at), e.pos))
        }
        Node::Cast(t, x) => {
            let x = boxed_expr(alloc, known, x.get(), pending)?;
            cast_at(alloc, t, x, e.pos)
        }
        Node::Size(t) => size_at(alloc, t, e.pos),
        Node::Trusted(t, x, limits) => {
            let x = boxed_expr(alloc, known, x.get(), pending)?;
            let limits = plain_bounds(alloc, known, limits, pending)?;
            bounded_at(alloc, false, t, x, limits, e.pos)
        }
        Node::Tested(t, x, limits) => {
            let x = boxed_expr(alloc, known, x.get(), pending)?;
            let limits = plain_bounds(alloc, known, limits, pending)?;
            bounded_at(alloc, true, t, x, limits, e.pos)
        }
        Node::Call(n, es) => {
            let args = plain_exprs(alloc, known, es.as_slice(), pending)?;
            Ok(expr_at(Node::Call(*n, args), e.pos))
        }
        Node::Calloc(t, x, u) => {
            let x = boxed_expr(alloc, known, x.get(), pending)?;
            calloc_at(alloc, t, x, u, e.pos)
        }
    }
}

/// `&&` or `||` after its left operand.
#[cycle(plain)]
fn choice_expr(
    alloc: Global,
    known: &Integers,
    op: TreeOp,
    all: bool,
    e: &Expr<Name, ()>,
    a: Expr<Name, ()>,
    pos: Pos,
    pending: &mut Pending,
) -> Result<Expr<Name, ()>, AllocError>
    ensures { Steps result pending.new (choose_by known.now op all a e.now pos pending.old) }
{
    let mut inner = Pending::none(alloc, number_after(pending.next)?);
    let b = plain_expr(alloc, known, e, &mut inner)?;
    choice(alloc, op, all, pos, a, b, inner, pending)
}

/// Two operands after the left one, by what their operator does.
#[cycle(plain)]
fn second_expr(
    alloc: Global,
    known: &Integers,
    work: Work,
    op: TreeOp,
    e: &Expr<Name, ()>,
    a: Expr<Name, ()>,
    pos: Pos,
    pending: &mut Pending,
) -> Result<Expr<Name, ()>, AllocError>
    ensures { Steps result pending.new (second_by known.now work op a e.now pos pending.old) }
{
    match work {
        Work::Sets => {
            let b = right_expr(alloc, known, form_of(&a), e, pending)?;
            binary_at(alloc, op, a, b, pos)
        }
        Work::IfTrue => choice_expr(alloc, known, op, true, e, a, pos, pending),
        Work::IfFalse => choice_expr(alloc, known, op, false, e, a, pos, pending),
        _ => {
            let b = plain_expr(alloc, known, e, pending)?;
            binary_at(alloc, op, a, b, pos)
        }
    }
}

/// An expression without any effect.
#[cycle(plain)]
pub fn plain_expr(
    alloc: Global,
    known: &Integers,
    e: &Expr<Name, ()>,
    pending: &mut Pending,
) -> Result<Expr<Name, ()>, AllocError>
    ensures { Steps result pending.new (expr_plain known.now e.now pending.old) }
{
    match &e.node {
        Node::Bin(op, x, f) => match work_of(*op) {
            Work::Sets => {
                let a = plain_expr(alloc, known, x.get(), pending)?;
                let b = right_expr(alloc, known, form_of(&a), f.get(), pending)?;
                set_taken(alloc, known, *op, a, b, e.pos, pending)
            }
            _ => kept(alloc, known, e, pending),
        },
        Node::Un(op, x) => match work_of(*op) {
            Work::Steps(by) => {
                let a = plain_expr(alloc, known, x.get(), pending)?;
                step_taken(alloc, known, *op, by, a, e.pos, pending)
            }
            _ => kept(alloc, known, e, pending),
        },
        Node::Call(n, _) => {
            let call = kept(alloc, known, e, pending)?;
            call_taken(alloc, result_of(known, *n), call, pending)
        }
        _ => kept(alloc, known, e, pending),
    }
}

/// The right side of an assignment to a target.
#[cycle(plain)]
pub fn right_expr(
    alloc: Global,
    known: &Integers,
    target: Form,
    e: &Expr<Name, ()>,
    pending: &mut Pending,
) -> Result<Expr<Name, ()>, AllocError>
    ensures { Steps result pending.new (right_by known.now target e.now pending.old) }
{
    if stays(target, form_of(e)) {
        return kept(alloc, known, e, pending);
    }
    plain_expr(alloc, known, e, pending)
}

/// An expression without any effect, in a box of its own.
#[cycle(plain)]
pub fn boxed_expr(
    alloc: Global,
    known: &Integers,
    e: &Expr<Name, ()>,
    pending: &mut Pending,
) -> Result<Boxed<Expr<Name, ()>>, AllocError>
    ensures { Steps result pending.new (expr_plain known.now e.now pending.old) }
{
    let made = plain_expr(alloc, known, e, pending)?;
    in_box(alloc, made)
}

/// Expressions from left to right.
#[cycle(plain)]
pub fn plain_exprs(
    alloc: Global,
    known: &Integers,
    es: &[Expr<Name, ()>],
    pending: &mut Pending,
) -> Result<Seq<Expr<Name, ()>>, AllocError>
    ensures { Steps result pending.new (exprs_plain known.now es.now pending.old) }
{
    let mut all = no_exprs(alloc);
    for e in es {
        let made = plain_expr(alloc, known, e, pending)?;
        add_expr(&mut all, made)?;
    }
    Ok(all)
}

/// Bounds that may be left out.
#[cycle(plain)]
pub fn plain_bounds(
    alloc: Global,
    known: &Integers,
    bounds: &Option<Boxed<Limits<Name, ()>>>,
    pending: &mut Pending,
) -> Result<Option<Boxed<Limits<Name, ()>>>, AllocError>
    ensures { Steps result pending.new (bounds_plain known.now bounds.now pending.old) }
{
    match bounds {
        None => Ok(None),
        Some(limits) => {
            let made = plain_limits(alloc, known, limits.get(), pending)?;
            let boxed = Boxed::new(alloc, made)?;
            Ok(Some(boxed))
        }
    }
}

#[cycle(plain)]
fn plain_limits(
    alloc: Global,
    known: &Integers,
    limits: &Limits<Name, ()>,
    pending: &mut Pending,
) -> Result<Limits<Name, ()>, AllocError>
    ensures { Steps result pending.new (limits_plain known.now limits.now pending.old) }
{
    match limits {
        Limits::Count(e, pos) => {
            let e = boxed_expr(alloc, known, e.get(), pending)?;
            Ok(Limits::Count(e, *pos))
        }
        Limits::ByteCount(e, pos) => {
            let e = boxed_expr(alloc, known, e.get(), pending)?;
            Ok(Limits::ByteCount(e, *pos))
        }
        Limits::Between(e, f, pos) => {
            let e = boxed_expr(alloc, known, e.get(), pending)?;
            let f = boxed_expr(alloc, known, f.get(), pending)?;
            Ok(Limits::Between(e, f, *pos))
        }
        Limits::Unknown(pos) => Ok(Limits::Unknown(*pos)),
    }
}

/// An expression that is no effect if it is a call, in a box of its own.
pub fn whole_expr(
    alloc: Global,
    known: &Integers,
    e: &Expr<Name, ()>,
    pending: &mut Pending,
) -> Result<Boxed<Expr<Name, ()>>, AllocError>
    ensures { Steps result pending.new (whole_plain known.now e.now pending.old) }
{
    if is_call(form_of(e)) {
        let made = kept(alloc, known, e, pending)?;
        return in_box(alloc, made);
    }
    boxed_expr(alloc, known, e, pending)
}

/// An expression that may be left out.
pub fn maybe_expr(
    alloc: Global,
    known: &Integers,
    e: &Option<Boxed<Expr<Name, ()>>>,
    pending: &mut Pending,
) -> Result<Option<Boxed<Expr<Name, ()>>>, AllocError>
    ensures { Steps result pending.new (maybe_plain known.now e.now pending.old) }
{
    match e {
        None => Ok(None),
        Some(e) => {
            let made = boxed_expr(alloc, known, e.get(), pending)?;
            Ok(Some(made))
        }
    }
}
