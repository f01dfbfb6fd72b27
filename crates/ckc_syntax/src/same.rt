//! Types, expressions, declarations and heads that are the same but for their places.

ghost use Rattle.std.specs.Prelude.{◌≡◌};
ghost use Rattle.std.specs.Bool.{Decides};
ghost use Rattle.ckc_syntax.specs.code.SameParts.{same_type, number_of_op, same_op, same_flag, same_limits, same_node, same_expr, same_exprs, same_bounds, same_init, same_number, same_length, same_mode, same_decl, same_decls, same_head_parts};
ghost use Rattle.ckc_syntax.specs.Placeless.{placeless_head};
ghost use Rattle.std.specs.Str.{bytes_eq};

use crate::{Decl, Expr, Head, Init, Length, Limits, Node, Spelling, TreeOp, TypeTree};
use ckc_base::{Boxed, Mode};

fn same_name<'a>(s: &Spelling<'a>, t: &Spelling<'a>) -> bool
    ensures { result ≡ bytes_eq s.now t.now }
{
    s.as_str() == t.as_str()
}

fn same_type<'a>(t: &TypeTree<Spelling<'a>>, u: &TypeTree<Spelling<'a>>) -> bool
    ensures { result ≡ same_type t.now u.now }
{
    let mut left = t;
    let mut right = u;
    'pointers: loop {
        match (left, right) {
            (TypeTree::Int, TypeTree::Int) => return true,
            (TypeTree::Unsigned, TypeTree::Unsigned) => return true,
            (TypeTree::Char, TypeTree::Char) => return true,
            (TypeTree::Void, TypeTree::Void) => return true,
            (TypeTree::Struct(s, _), TypeTree::Struct(t, _)) => return same_name(s, t),
            (TypeTree::Raw(t, _), TypeTree::Raw(u, _)) => {
                left = t.get();
                right = u.get();
            }
            (TypeTree::One(t), TypeTree::One(u)) => {
                left = t.get();
                right = u.get();
            }
            (TypeTree::Arr(t), TypeTree::Arr(u)) => {
                left = t.get();
                right = u.get();
            }
            (TypeTree::Nt(t), TypeTree::Nt(u)) => {
                left = t.get();
                right = u.get();
            }
            _ => return false,
        }
    }
}

/// The operators by number, in the order of their declaration.
fn number_of_op(op: TreeOp) -> u8
    ensures { result ≡ number_of_op op }
{
    match op {
        TreeOp::Minus => 0,
        TreeOp::Plus => 1,
        TreeOp::Not => 2,
        TreeOp::Flip => 3,
        TreeOp::Deref => 4,
        TreeOp::Address => 5,
        TreeOp::OrElse => 6,
        TreeOp::AndThen => 7,
        TreeOp::Or => 8,
        TreeOp::Xor => 9,
        TreeOp::And => 10,
        TreeOp::Eq => 11,
        TreeOp::Ne => 12,
        TreeOp::Lt => 13,
        TreeOp::Le => 14,
        TreeOp::Gt => 15,
        TreeOp::Ge => 16,
        TreeOp::Shl => 17,
        TreeOp::Shr => 18,
        TreeOp::Add => 19,
        TreeOp::Sub => 20,
        TreeOp::Mul => 21,
        TreeOp::Div => 22,
        TreeOp::Rem => 23,
        TreeOp::Set => 24,
        TreeOp::PostInc => 25,
        TreeOp::PostDec => 26,
    }
}

fn same_op(o: TreeOp, p: TreeOp) -> bool
    ensures { result ≡ same_op o p }
{
    number_of_op(o) == number_of_op(p)
}

#[cycle(same)]
fn same_limits<'a>(l: &Limits<Spelling<'a>, ()>, m: &Limits<Spelling<'a>, ()>) -> bool
    ensures { result ≡ same_limits l.now m.now }
{
    match (l, m) {
        (Limits::Count(e, _), Limits::Count(a, _)) => same_expr(e.get(), a.get()),
        (Limits::ByteCount(e, _), Limits::ByteCount(a, _)) => same_expr(e.get(), a.get()),
        (Limits::Between(e, f, _), Limits::Between(a, b, _)) => {
            same_expr(e.get(), a.get()) && same_expr(f.get(), b.get())
        }
        (Limits::Unknown(_), Limits::Unknown(_)) => true,
        _ => false,
    }
}

#[cycle(same)]
fn same_node<'a>(n: &Node<Spelling<'a>, ()>, m: &Node<Spelling<'a>, ()>) -> bool
    ensures { result ≡ same_node n.now m.now }
{
    match (n, m) {
        (Node::Number(n, u), Node::Number(m, v)) => *n == *m && *u == *v,
        (Node::Text(s), Node::Text(t)) => s.as_slice() == t.as_slice(),
        (Node::Null, Node::Null) => true,
        (Node::Name(s), Node::Name(t)) => same_name(s, t),
        (Node::Un(o, e), Node::Un(p, a)) => same_op(*o, *p) && same_expr(e.get(), a.get()),
        (Node::Bin(o, e, f), Node::Bin(p, a, b)) => {
            same_op(*o, *p) && same_expr(e.get(), a.get()) && same_expr(f.get(), b.get())
        }
        (Node::Pick(e, f, g), Node::Pick(a, b, c)) => {
            same_expr(e.get(), a.get())
                && same_expr(f.get(), b.get())
                && same_expr(g.get(), c.get())
        }
        (Node::Index(e, f), Node::Index(a, b)) => {
            same_expr(e.get(), a.get()) && same_expr(f.get(), b.get())
        }
        (Node::Dot(e, s, _), Node::Dot(a, t, _)) => same_expr(e.get(), a.get()) && same_name(s, t),
        (Node::Arrow(e, s, _), Node::Arrow(a, t, _)) => same_expr(e.get(), a.get())
            && same_name(s, t),
        (Node::Cast(t, e), Node::Cast(u, a)) => same_type(t, u) && same_expr(e.get(), a.get()),
        (Node::Size(t), Node::Size(u)) => same_type(t, u),
        (Node::Trusted(t, e, l), Node::Trusted(u, a, m)) => {
            same_type(t, u) && same_expr(e.get(), a.get()) && same_bounds(l, m)
        }
        (Node::Tested(t, e, l), Node::Tested(u, a, m)) => {
            same_type(t, u) && same_expr(e.get(), a.get()) && same_bounds(l, m)
        }
        (Node::Call(s, es), Node::Call(t, fs)) => {
            same_name(s, t) && same_exprs(es.as_slice(), fs.as_slice())
        }
        (Node::Calloc(t, e, u), Node::Calloc(v, a, w)) => {
            same_type(t, v) && same_expr(e.get(), a.get()) && same_type(u, w)
        }
        _ => false,
    }
}

#[cycle(same)]
fn same_expr<'a>(e: &Expr<Spelling<'a>, ()>, a: &Expr<Spelling<'a>, ()>) -> bool
    ensures { result ≡ same_expr e.now a.now }
{
    same_node(&e.node, &a.node)
}

#[cycle(same)]
fn same_exprs<'a>(es: &[Expr<Spelling<'a>, ()>], fs: &[Expr<Spelling<'a>, ()>]) -> bool
    ensures { result ≡ same_exprs es.now fs.now }
{
    if es.len() != fs.len() {
        return false;
    }
    for (i, e) in es.iter().enumerate() {
        if !same_expr(e, &fs[i]) {
            return false;
        }
    }
    true
}

#[cycle(same)]
fn same_bounds<'a>(
    l: &Option<Boxed<Limits<Spelling<'a>, ()>>>,
    m: &Option<Boxed<Limits<Spelling<'a>, ()>>>,
) -> bool
    ensures { result ≡ same_bounds l.now m.now }
{
    match (l, m) {
        (None, None) => true,
        (Some(l), Some(m)) => same_limits(l.get(), m.get()),
        _ => false,
    }
}

fn same_init<'a>(i: &Init<Spelling<'a>, ()>, j: &Init<Spelling<'a>, ()>) -> bool
    ensures { result ≡ same_init i.now j.now }
{
    match (i, j) {
        (Init::Nothing, Init::Nothing) => true,
        (Init::One(e), Init::One(a)) => same_expr(e.get(), a.get()),
        (Init::Many(es), Init::Many(fs)) => same_exprs(es.as_slice(), fs.as_slice()),
        _ => false,
    }
}

fn same_number(n: Option<u32>, m: Option<u32>) -> bool
    ensures { result ≡ same_number n m }
{
    match (n, m) {
        (None, None) => true,
        (Some(n), Some(m)) => n == m,
        _ => false,
    }
}

fn same_length(l: Length, m: Length) -> bool
    ensures { result ≡ same_length l m }
{
    match (l, m) {
        (Length::Plain, Length::Plain) => true,
        (Length::Raw(n, _), Length::Raw(m, _)) => same_number(n, m),
        (Length::Checked(n), Length::Checked(m)) => same_number(n, m),
        (Length::Nt(n), Length::Nt(m)) => same_number(n, m),
        _ => false,
    }
}

fn same_mode(a: Option<Mode>, b: Option<Mode>) -> bool
    ensures { result ≡ same_mode a b }
{
    match (a, b) {
        (None, None) => true,
        (Some(Mode::Checked), Some(Mode::Checked)) => true,
        (Some(Mode::Unchecked), Some(Mode::Unchecked)) => true,
        _ => false,
    }
}

fn same_decl<'a>(d: &Decl<Spelling<'a>, ()>, e: &Decl<Spelling<'a>, ()>) -> bool
    ensures { result ≡ same_decl d.now e.now }
{
    same_type(&d.ctype, &e.ctype)
        && same_name(&d.name, &e.name)
        && same_length(d.length, e.length)
        && same_bounds(&d.bounds, &e.bounds)
        && same_init(&d.init, &e.init)
}

fn same_decls<'a>(ds: &[Decl<Spelling<'a>, ()>], es: &[Decl<Spelling<'a>, ()>]) -> bool
    ensures { result ≡ same_decls ds.now es.now }
{
    if ds.len() != es.len() {
        return false;
    }
    for (i, d) in ds.iter().enumerate() {
        if !same_decl(d, &es[i]) {
            return false;
        }
    }
    true
}

fn same_head_parts<'a>(g: &Head<Spelling<'a>, ()>, h: &Head<Spelling<'a>, ()>) -> bool
    ensures { result ≡ same_head_parts g.now h.now }
{
    same_name(&g.name, &h.name)
        && same_mode(g.mode, h.mode)
        && same_type(&g.result, &h.result)
        && same_decls(g.params.as_slice(), h.params.as_slice())
        && same_bounds(&g.bounds, &h.bounds)
}

/// Whether two heads are the same but for their places.
pub fn same_head<'a>(g: &Head<Spelling<'a>, ()>, h: &Head<Spelling<'a>, ()>) -> bool
    ensures { Decides result (placeless_head g.now ≡ placeless_head h.now) }
{
    same_head_parts(g, h)
}
