//! Whether a part of a tree is at most so deep. No call goes deeper than the bound that it is given.

ghost use Rattle.std.specs.Prelude.{◌≤◌, ◌↔◌, IsTrue};
ghost use Rattle.ckc_syntax.specs.Inside.{highest, inside_each, inside_if};
ghost use Rattle.ckc_syntax_limits.specs.Depth.{depth_of_limits, depth_of_node, depth_of_expr, depth_of_bounds, depth_of_init, depth_of_decl, depth_of_value, depth_of_act, depth_of_stmt, depth_of_head, depth_of_item};

use ckc_base::Boxed;
use ckc_syntax::{Act, Decl, Expr, Head, Init, Item, Limits, Node, Stmt};

#[cycle(expr_within)]
fn limits_within<N, A>(limits: &Limits<N, A>, left: u32) -> bool
    ensures { IsTrue result ↔ (depth_of_limits limits.now ≤ left) }
{
    match limits {
        Limits::Count(e, _) | Limits::ByteCount(e, _) => expr_within(e.get(), left),
        Limits::Between(e, f, _) => expr_within(e.get(), left) && expr_within(f.get(), left),
        Limits::Unknown(_) => true,
    }
}

#[cycle(expr_within)]
fn node_within<N, A>(node: &Node<N, A>, left: u32) -> bool
    ensures { IsTrue result ↔ (depth_of_node node.now ≤ left) }
{
    match node {
        Node::Number(_, _) | Node::Text(_) | Node::Null | Node::Name(_) | Node::Size(_) => true,
        Node::Un(_, e) | Node::Dot(e, _, _) | Node::Arrow(e, _, _) => expr_within(e.get(), left),
        Node::Cast(_, e) | Node::Calloc(_, e, _) => expr_within(e.get(), left),
        Node::Bin(_, e, f) => expr_within(e.get(), left) && expr_within(f.get(), left),
        Node::Index(e, f) => expr_within(e.get(), left) && expr_within(f.get(), left),
        Node::Pick(e, f, g) => {
            expr_within(e.get(), left) && expr_within(f.get(), left) && expr_within(g.get(), left)
        }
        Node::Trusted(_, e, None) | Node::Tested(_, e, None) => expr_within(e.get(), left),
        Node::Trusted(_, e, Some(limits)) => {
            expr_within(e.get(), left) && limits_within(limits.get(), left)
        }
        Node::Tested(_, e, Some(limits)) => {
            expr_within(e.get(), left) && limits_within(limits.get(), left)
        }
        Node::Call(_, es) => exprs_within(es.as_slice(), left),
    }
}

#[cycle(expr_within)]
fn expr_within<N, A>(e: &Expr<N, A>, left: u32) -> bool
    ensures { IsTrue result ↔ (depth_of_expr e.now ≤ left) }
{
    left > 0 && node_within(&e.node, left - 1)
}

#[cycle(expr_within)]
fn exprs_within<N, A>(es: &[Expr<N, A>], left: u32) -> bool
    ensures { IsTrue result ↔ (inside_each highest depth_of_expr es.now ≤ left) }
{
    for e in es {
        if !expr_within(e, left) {
            return false;
        }
    }
    true
}

fn bounds_within<N, A>(bounds: &Option<Boxed<Limits<N, A>>>, left: u32) -> bool
    ensures { IsTrue result ↔ (depth_of_bounds bounds.now ≤ left) }
{
    match bounds {
        None => true,
        Some(limits) => limits_within(limits.get(), left),
    }
}

fn value_within<N, A>(value: &Option<Boxed<Expr<N, A>>>, left: u32) -> bool
    ensures { IsTrue result ↔ (depth_of_value value.now ≤ left) }
{
    match value {
        None => true,
        Some(e) => expr_within(e.get(), left),
    }
}

fn init_within<N, A>(init: &Init<N, A>, left: u32) -> bool
    ensures { IsTrue result ↔ (depth_of_init init.now ≤ left) }
{
    match init {
        Init::Nothing => true,
        Init::One(e) => expr_within(e.get(), left),
        Init::Many(es) => exprs_within(es.as_slice(), left),
    }
}

fn decl_within<N, A>(decl: &Decl<N, A>, left: u32) -> bool
    ensures { IsTrue result ↔ (depth_of_decl decl.now ≤ left) }
{
    bounds_within(&decl.bounds, left) && init_within(&decl.init, left)
}

fn decls_within<N, A>(decls: &[Decl<N, A>], left: u32) -> bool
    ensures { IsTrue result ↔ (inside_each highest depth_of_decl decls.now ≤ left) }
{
    for decl in decls {
        if !decl_within(decl, left) {
            return false;
        }
    }
    true
}

#[cycle(stmt_within)]
fn act_within<N, A>(act: &Act<N, A>, left: u32) -> bool
    ensures { IsTrue result ↔ (depth_of_act act.now ≤ left) }
{
    match act {
        Act::Empty | Act::Break | Act::Continue => true,
        Act::Block(_, stmts) => stmts_within(stmts.as_slice(), left),
        Act::Bundle(stmts) => stmts_within(stmts.as_slice(), left),
        Act::Local(decl) => decl_within(decl.get(), left),
        Act::Assign(e, f) => expr_within(e.get(), left) && expr_within(f.get(), left),
        Act::Call(e) | Act::Check(e) => expr_within(e.get(), left),
        Act::If(e, s, otherwise) => {
            expr_within(e.get(), left) && stmt_within(s.get(), left) && part_within(otherwise, left)
        }
        Act::While(e, s) => expr_within(e.get(), left) && stmt_within(s.get(), left),
        Act::For(first, e, step, body) => {
            part_within(first, left)
                && value_within(e, left)
                && part_within(step, left)
                && stmt_within(body.get(), left)
        }
        Act::Return(value) => value_within(value, left),
    }
}

#[cycle(stmt_within)]
fn stmt_within<N, A>(stmt: &Stmt<N, A>, left: u32) -> bool
    ensures { IsTrue result ↔ (depth_of_stmt stmt.now ≤ left) }
{
    left > 0 && act_within(&stmt.body, left - 1)
}

#[cycle(stmt_within)]
fn part_within<N, A>(part: &Option<Boxed<Stmt<N, A>>>, left: u32) -> bool
    ensures { IsTrue result ↔ (inside_if highest depth_of_stmt part.now ≤ left) }
{
    match part {
        None => true,
        Some(s) => stmt_within(s.get(), left),
    }
}

#[cycle(stmt_within)]
fn stmts_within<N, A>(stmts: &[Stmt<N, A>], left: u32) -> bool
    ensures { IsTrue result ↔ (inside_each highest depth_of_stmt stmts.now ≤ left) }
{
    for stmt in stmts {
        if !stmt_within(stmt, left) {
            return false;
        }
    }
    true
}

fn head_within<N, A>(head: &Head<N, A>, left: u32) -> bool
    ensures { IsTrue result ↔ (depth_of_head head.now ≤ left) }
{
    decls_within(head.params.as_slice(), left) && bounds_within(&head.bounds, left)
}

/// Whether an item is at most `left` deep.
pub fn item_within<N, A>(item: &Item<N, A>, left: u32) -> bool
    ensures { IsTrue result ↔ (depth_of_item item.now ≤ left) }
{
    match item {
        Item::Directive(_) | Item::Tag(_, _) => true,
        Item::Struct(_, members, _) => decls_within(members.as_slice(), left),
        Item::Static(decl) => decl_within(decl.get(), left),
        Item::Proto(head) => head_within(head.get(), left),
        Item::Function(head, body) => {
            head_within(head.get(), left) && stmt_within(body.get(), left)
        }
    }
}
