//! How an effect is taken out of an expression.

ghost use Rattle.std.specs.Prelude.{◌≡◌, IfOk};
ghost use Rattle.ckc_plain_barred.specs.Forms.{form_of};
ghost use Rattle.ckc_plain_barred.specs.Effects.{integer_local};
ghost use Rattle.ckc_plain_bodies.specs.Taken.{expr_at, stmt_at, local_at, number_at, block_at, assign_at, declare_at, with_stmt, with_fresh, call_taken, set_taken, step_taken};
ghost use Rattle.ckc_plain_bodies.specs.code.Steps.{Steps};

use crate::boxes::{add_at_end, in_box, local_in_box};
use crate::pending::Pending;
use ckc_base::{Pos, Seq};
use ckc_plain_barred::{Integer, Integers, local_of, type_of};
use ckc_syntax::{Act, Decl, Expr, Init, Length, Name, Node, Stmt, TreeOp};
use std::alloc::{AllocError, Global};

/// An expression at a place.
pub fn expr_at(node: Node<Name, ()>, pos: Pos) -> Expr<Name, ()>
    ensures { result ≡ expr_at node pos }
{
    Expr {
        node,
        pos,
        note: (),
    }
}

/// A statement at a place.
pub fn stmt_at(body: Act<Name, ()>, pos: Pos) -> Stmt<Name, ()>
    ensures { result ≡ stmt_at body pos }
{
    Stmt {
        body,
        pos,
        note: (),
    }
}

/// The name of a local.
pub fn local_at(k: u32, pos: Pos) -> Expr<Name, ()>
    ensures { result ≡ local_at k pos }
{
    expr_at(Node::Name(Name::Local(k)), pos)
}

/// A number of type `int`.
pub fn number_at(n: u32, pos: Pos) -> Expr<Name, ()>
    ensures { result ≡ number_at n pos }
{
    expr_at(Node::Number(n, false), pos)
}

/// A block of statements.
pub fn block_at(stmts: Seq<Stmt<Name, ()>>, pos: Pos) -> Stmt<Name, ()>
    ensures { result ≡ block_at stmts pos }
{
    stmt_at(Act::Block(None, stmts), pos)
}

/// `x = e;`
pub fn assign_at(
    alloc: Global,
    target: Expr<Name, ()>,
    value: Expr<Name, ()>,
    pos: Pos,
) -> Result<Stmt<Name, ()>, AllocError>
    ensures { IfOk result (λ s. s ≡ assign_at target value pos) }
{
    let target = in_box(alloc, target)?;
    let value = in_box(alloc, value)?;
    Ok(stmt_at(Act::Assign(target, value), pos))
}

/// `T t = e;`, where t is the local with a number.
fn declare_at(
    alloc: Global,
    t: Integer,
    k: u32,
    e: Expr<Name, ()>,
    pos: Pos,
) -> Result<Stmt<Name, ()>, AllocError>
    ensures { IfOk result (λ s. s ≡ declare_at t k e pos) }
{
    let value = in_box(alloc, e)?;
    let decl = Decl {
        ctype: type_of(t),
        name: Name::Local(k),
        length: Length::Plain,
        bounds: None,
        init: Init::One(value),
        pos,
    };
    let local = local_in_box(alloc, decl)?;
    Ok(stmt_at(local, pos))
}

/// Makes `T t = e;` pending, with a fresh t, and gives its name. That no number is left is taken for want of memory.
pub fn add_fresh(
    alloc: Global,
    t: Integer,
    e: Expr<Name, ()>,
    pos: Pos,
    pending: &mut Pending,
) -> Result<Expr<Name, ()>, AllocError>
    ensures { Steps result pending.new
        (local_at pending.old.next pos, with_fresh t e pos pending.old) }
{
    let k = pending.next;
    if k == u32::MAX {
        return Err(AllocError);
    }
    let declaration = declare_at(alloc, t, k, e, pos)?;
    add_at_end(&mut pending.stmts, declaration)?;
    pending.next = k + 1;
    Ok(local_at(k, pos))
}

/// A call, taken out if its result has an integer type.
pub fn call_taken(
    alloc: Global,
    t: Option<Integer>,
    call: Expr<Name, ()>,
    pending: &mut Pending,
) -> Result<Expr<Name, ()>, AllocError>
    ensures { Steps result pending.new (call_taken t call pending.old) }
{
    match t {
        Some(t) => {
            let pos = call.pos;
            add_fresh(alloc, t, call, pos, pending)
        }
        None => Ok(call),
    }
}

/// Two operands with their operator.
pub fn binary_at(
    alloc: Global,
    op: TreeOp,
    left: Expr<Name, ()>,
    right: Expr<Name, ()>,
    pos: Pos,
) -> Result<Expr<Name, ()>, AllocError>
    ensures { IfOk result (λ e. e ≡ expr_at (Node.Bin op left right) pos) }
{
    let left = in_box(alloc, left)?;
    let right = in_box(alloc, right)?;
    Ok(expr_at(Node::Bin(op, left, right), pos))
}

/// An operand with its operator.
fn unary_at(
    alloc: Global,
    op: TreeOp,
    operand: Expr<Name, ()>,
    pos: Pos,
) -> Result<Expr<Name, ()>, AllocError>
    ensures { IfOk result (λ e. e ≡ expr_at (Node.Un op operand) pos) }
{
    let operand = in_box(alloc, operand)?;
    Ok(expr_at(Node::Un(op, operand), pos))
}

fn name_at(n: Name, pos: Pos) -> Expr<Name, ()>
    ensures { result ≡ expr_at (Node.Name n) pos }
{
    expr_at(Node::Name(n), pos)
}

/// An assignment to what a name means, taken out.
fn set_name(
    alloc: Global,
    n: Name,
    at: Pos,
    value: Expr<Name, ()>,
    pos: Pos,
    pending: &mut Pending,
) -> Result<Expr<Name, ()>, AllocError>
    ensures { Steps result pending.new (
      expr_at (Node.Name n) at,
      with_stmt pending.old (assign_at (expr_at (Node.Name n) at) value pos),
    ) }
{
    let assignment = assign_at(alloc, name_at(n, at), value, pos)?;
    add_at_end(&mut pending.stmts, assignment)?;
    Ok(name_at(n, at))
}

/// An assignment, taken out if its target is a local of integer type.
#[tactic(auto, using(crate::proofs::Named::no_unary, crate::proofs::Named::no_binary))]
pub fn set_taken(
    alloc: Global,
    known: &Integers,
    op: TreeOp,
    target: Expr<Name, ()>,
    value: Expr<Name, ()>,
    pos: Pos,
    pending: &mut Pending,
) -> Result<Expr<Name, ()>, AllocError>
    ensures { Steps result pending.new
        (set_taken (integer_local known.now (form_of target)) target value pos
        (expr_at (Node.Bin op target value) pos) pending.old) }
{
    match &target.node {
        Node::Name(n) => match local_of(known, *n) {
            Some(_) => set_name(alloc, *n, target.pos, value, pos, pending),
            None => binary_at(alloc, op, target, value, pos),
        },
        _ => binary_at(alloc, op, target, value, pos),
    }
}

/// A step of what a name means, taken out: the old value is kept in a fresh local.
fn step_name(
    alloc: Global,
    t: Integer,
    by: TreeOp,
    n: Name,
    at: Pos,
    pos: Pos,
    pending: &mut Pending,
) -> Result<Expr<Name, ()>, AllocError>
    ensures { Steps result pending.new (
      local_at pending.old.next pos,
      with_stmt (with_fresh t (expr_at (Node.Name n) at) pos pending.old)
          (assign_at (expr_at (Node.Name n) at)
          (expr_at (Node.Bin by (expr_at (Node.Name n) at) (number_at 1 pos)) pos) pos),
    ) }
{
    let old = add_fresh(alloc, t, name_at(n, at), pos, pending)?;
    let value = binary_at(alloc, by, name_at(n, at), number_at(1, pos), pos)?;
    let assignment = assign_at(alloc, name_at(n, at), value, pos)?;
    add_at_end(&mut pending.stmts, assignment)?;
    Ok(old)
}

/// A step after which the old value is used, taken out if its operand is a local of integer type.
#[tactic(auto, using(crate::proofs::Named::no_unary, crate::proofs::Named::no_binary))]
pub fn step_taken(
    alloc: Global,
    known: &Integers,
    op: TreeOp,
    by: TreeOp,
    operand: Expr<Name, ()>,
    pos: Pos,
    pending: &mut Pending,
) -> Result<Expr<Name, ()>, AllocError>
    ensures { Steps result pending.new
        (step_taken (integer_local known.now (form_of operand)) by operand pos
        (expr_at (Node.Un op operand) pos) pending.old) }
{
    match &operand.node {
        Node::Name(n) => match local_of(known, *n) {
            Some(t) => step_name(alloc, t, by, *n, operand.pos, pos, pending),
            None => unary_at(alloc, op, operand, pos),
        },
        _ => unary_at(alloc, op, operand, pos),
    }
}
