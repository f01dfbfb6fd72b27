//! The string literals of a text that make a block, in the order of the text.

ghost use Rattle.std.specs.Prelude.{◌≡◌, [], ◌∷◌, ◌++◌, IfOk, OnOk, map};
ghost use Rattle.std.specs.List.{flat_map};
ghost use Rattle.ckc_syntax.specs.Inside.{listed, inside_each};
ghost use Rattle.ckc_typed.specs.Statics.{strings_of_limits, strings_of_expr, strings_of_bounds, strings_of_value, strings_of_init, strings_of_decl, strings_of_stmt, strings_of_head, strings_of_item};
ghost use Rattle.ckc_typing_statics.specs.code.Parts.{strings_of_node, strings_of_act, strings_of_part};

use ckc_base::{Boxed, Bytes, Seq};
use ckc_syntax::{Act, Decl, Expr, Head, Init, Item, Limits, Name, Node, Stmt};
use ckc_typed::Note;
use ckc_typed::types::is_plain;
use std::alloc::{AllocError, Global};

fn add_string(alloc: Global, all: &mut Seq<Bytes>, bytes: &Bytes) -> Result<(), AllocError>
    ensures { OnOk result (all.new ≡ all.old ++ bytes.now ∷ []) }
{
    let copy = Bytes::from_slice(alloc, bytes.as_slice())?;
    all.push(copy)
}

#[cycle(strings)]
fn add_limits(
    alloc: Global,
    all: &mut Seq<Bytes>,
    limits: &Limits<Name, Note>,
) -> Result<(), AllocError>
    ensures { OnOk result (all.new ≡ all.old ++ strings_of_limits limits.now) }
{
    match limits {
        Limits::Count(e, _) | Limits::ByteCount(e, _) => add_expr(alloc, all, e.get()),
        Limits::Between(e, f, _) => {
            add_expr(alloc, all, e.get())?;
            add_expr(alloc, all, f.get())
        }
        Limits::Unknown(_) => Ok(()),
    }
}

#[cycle(strings)]
fn add_node(alloc: Global, all: &mut Seq<Bytes>, node: &Node<Name, Note>) -> Result<(), AllocError>
    ensures { OnOk result (all.new ≡ all.old ++ strings_of_node node.now) }
{
    match node {
        Node::Number(_, _) | Node::Null | Node::Name(_) | Node::Size(_) => Ok(()),
        Node::Text(bytes) => add_string(alloc, all, bytes),
        Node::Un(_, e) | Node::Dot(e, _, _) | Node::Arrow(e, _, _) => add_expr(alloc, all, e.get()),
        Node::Cast(_, e) | Node::Calloc(_, e, _) => add_expr(alloc, all, e.get()),
        Node::Bin(_, e, f) | Node::Index(e, f) => {
            add_expr(alloc, all, e.get())?;
            add_expr(alloc, all, f.get())
        }
        Node::Pick(e, f, g) => {
            add_expr(alloc, all, e.get())?;
            add_expr(alloc, all, f.get())?;
            add_expr(alloc, all, g.get())
        }
        Node::Trusted(_, e, limits) | Node::Tested(_, e, limits) => {
            add_expr(alloc, all, e.get())?;
            add_bounds(alloc, all, limits)
        }
        Node::Call(_, es) => add_exprs(alloc, all, es.as_slice()),
    }
}

#[cycle(strings)]
fn add_expr(alloc: Global, all: &mut Seq<Bytes>, e: &Expr<Name, Note>) -> Result<(), AllocError>
    ensures { OnOk result (all.new ≡ all.old ++ strings_of_expr e.now) }
{
    add_node(alloc, all, &e.node)
}

#[cycle(strings)]
fn add_exprs(alloc: Global, all: &mut Seq<Bytes>, es: &[Expr<Name, Note>]) -> Result<(), AllocError>
    ensures { OnOk result
        (all.new ≡ all.old ++ inside_each listed (λ x. x) (map strings_of_expr es.now)) }
{
    for e in es {
        add_expr(alloc, all, e)?;
    }
    Ok(())
}

#[cycle(strings)]
fn add_bounds(
    alloc: Global,
    all: &mut Seq<Bytes>,
    bounds: &Option<Boxed<Limits<Name, Note>>>,
) -> Result<(), AllocError>
    ensures { OnOk result (all.new ≡ all.old ++ strings_of_bounds bounds.now) }
{
    match bounds {
        None => Ok(()),
        Some(limits) => add_limits(alloc, all, limits.get()),
    }
}

fn add_value(
    alloc: Global,
    all: &mut Seq<Bytes>,
    value: &Option<Boxed<Expr<Name, Note>>>,
) -> Result<(), AllocError>
    ensures { OnOk result (all.new ≡ all.old ++ strings_of_value value.now) }
{
    match value {
        None => Ok(()),
        Some(e) => add_expr(alloc, all, e.get()),
    }
}

fn add_all(alloc: Global, all: &mut Seq<Bytes>, es: &[Expr<Name, Note>]) -> Result<(), AllocError>
    ensures { OnOk result (all.new ≡ all.old ++ flat_map strings_of_expr es.now) }
{
    for e in es {
        add_expr(alloc, all, e)?;
    }
    Ok(())
}

fn add_init(
    alloc: Global,
    all: &mut Seq<Bytes>,
    plain: bool,
    init: &Init<Name, Note>,
) -> Result<(), AllocError>
    ensures { OnOk result (all.new ≡ all.old ++ strings_of_init plain init.now) }
{
    match init {
        Init::Nothing => Ok(()),
        Init::One(e) => {
            if plain {
                add_expr(alloc, all, e.get())
            } else {
                Ok(())
            }
        }
        Init::Many(es) => add_all(alloc, all, es.as_slice()),
    }
}

fn add_decl(alloc: Global, all: &mut Seq<Bytes>, d: &Decl<Name, Note>) -> Result<(), AllocError>
    ensures { OnOk result (all.new ≡ all.old ++ strings_of_decl d.now) }
{
    add_bounds(alloc, all, &d.bounds)?;
    add_init(alloc, all, is_plain(d.length), &d.init)
}

fn add_decls(alloc: Global, all: &mut Seq<Bytes>, ds: &[Decl<Name, Note>]) -> Result<(), AllocError>
    ensures { OnOk result (all.new ≡ all.old ++ flat_map strings_of_decl ds.now) }
{
    for d in ds {
        add_decl(alloc, all, d)?;
    }
    Ok(())
}

fn add_pair(
    alloc: Global,
    all: &mut Seq<Bytes>,
    e: &Expr<Name, Note>,
    f: &Expr<Name, Note>,
) -> Result<(), AllocError>
    ensures { OnOk result (all.new ≡ all.old ++ (strings_of_expr e.now ++ strings_of_expr f.now)) }
{
    add_expr(alloc, all, e)?;
    add_expr(alloc, all, f)
}

#[cycle(held)]
fn add_act(alloc: Global, all: &mut Seq<Bytes>, act: &Act<Name, Note>) -> Result<(), AllocError>
    ensures { OnOk result (all.new ≡ all.old ++ strings_of_act act.now) }
{
    match act {
        Act::Block(_, ss) | Act::Bundle(ss) => add_stmts(alloc, all, ss.as_slice()),
        Act::Local(d) => add_decl(alloc, all, d.get()),
        Act::Assign(e, f) => add_pair(alloc, all, e.get(), f.get()),
        Act::Call(e) | Act::Check(e) => add_expr(alloc, all, e.get()),
        Act::If(e, s, t) => {
            add_expr(alloc, all, e.get())?;
            add_stmt(alloc, all, s.get())?;
            add_part(alloc, all, t)
        }
        Act::While(e, s) => {
            add_expr(alloc, all, e.get())?;
            add_stmt(alloc, all, s.get())
        }
        Act::For(s, e, t, body) => {
            add_part(alloc, all, s)?;
            add_value(alloc, all, e)?;
            add_part(alloc, all, t)?;
            add_stmt(alloc, all, body.get())
        }
        Act::Return(e) => add_value(alloc, all, e),
        Act::Empty | Act::Break | Act::Continue => Ok(()),
    }
}

#[cycle(held)]
fn add_stmt(alloc: Global, all: &mut Seq<Bytes>, s: &Stmt<Name, Note>) -> Result<(), AllocError>
    ensures { OnOk result (all.new ≡ all.old ++ strings_of_stmt s.now) }
{
    add_act(alloc, all, &s.body)
}

#[cycle(held)]
fn add_stmts(alloc: Global, all: &mut Seq<Bytes>, ss: &[Stmt<Name, Note>]) -> Result<(), AllocError>
    ensures { OnOk result
        (all.new ≡ all.old ++ inside_each listed (λ x. x) (map strings_of_stmt ss.now)) }
{
    for s in ss {
        add_stmt(alloc, all, s)?;
    }
    Ok(())
}

#[cycle(held)]
fn add_part(
    alloc: Global,
    all: &mut Seq<Bytes>,
    part: &Option<Boxed<Stmt<Name, Note>>>,
) -> Result<(), AllocError>
    ensures { OnOk result (all.new ≡ all.old ++ strings_of_part part.now) }
{
    match part {
        None => Ok(()),
        Some(s) => add_stmt(alloc, all, s.get()),
    }
}

fn add_head(alloc: Global, all: &mut Seq<Bytes>, h: &Head<Name, Note>) -> Result<(), AllocError>
    ensures { OnOk result (all.new ≡ all.old ++ strings_of_head h.now) }
{
    add_decls(alloc, all, h.params.as_slice())?;
    add_bounds(alloc, all, &h.bounds)
}

fn add_item(alloc: Global, all: &mut Seq<Bytes>, item: &Item<Name, Note>) -> Result<(), AllocError>
    ensures { OnOk result (all.new ≡ all.old ++ strings_of_item item.now) }
{
    match item {
        Item::Directive(_) | Item::Tag(_, _) => Ok(()),
        Item::Struct(_, members, _) => add_decls(alloc, all, members.as_slice()),
        Item::Static(d) => add_decl(alloc, all, d.get()),
        Item::Proto(h) => add_head(alloc, all, h.get()),
        Item::Function(h, body) => {
            add_head(alloc, all, h.get())?;
            add_stmt(alloc, all, body.get())
        }
    }
}

/// The strings of a text.
pub fn strings_of(alloc: Global, items: &[Item<Name, Note>]) -> Result<Seq<Bytes>, AllocError>
    ensures { IfOk result (λ all. all ≡ flat_map strings_of_item items.now) }
{
    let mut all = Seq::new(alloc);
    for item in items {
        add_item(alloc, &mut all, item)?;
    }
    Ok(all)
}
