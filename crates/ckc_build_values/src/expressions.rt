//! Expressions: their values, places and addresses.

ghost use Rattle.std.specs.Prelude.{◌≡◌, None, IfOk};
ghost use Rattle.std.specs.Option.{option_map};
ghost use Rattle.ckc_source.specs.Code.{Array, Trusted, expr_of};
ghost use Rattle.ckc_build_values.specs.Kinds.{pointee_of};
ghost use Rattle.ckc_build_values.specs.Names.{address_of};
ghost use Rattle.ckc_build_values.specs.Places.{place_of, target_place};
ghost use Rattle.ckc_build_values.specs.Expressions.{local_in, static_in, named, part_of, part_of_node, part_of_limits, unary_value, elements_if, form_if, expr_elaborated, place_elaborated};

use crate::ends::limits_at;
use crate::kinds::{count_by_kind, integer_of, pointee_of, size_behind, tag_behind, tag_of};
use crate::literals::in_expr;
use crate::members::count_of_member;
use crate::names::{address_of, array_of, bytes_of, count_of_static};
use crate::numbers::number;
use crate::operators::{cast, elements_in, of_operands, outside, unary};
use crate::places::{
    Placed, address_at, element_place, member_place, name_place, nowhere, object_place, read_at,
    target_place,
};
use crate::texts::Text;
use ckc_base::{Boxed, Pos};
use ckc_source::{ExprTree, Integer};
use ckc_syntax::{Expr, Limits, Name, Node, TreeOp};
use ckc_typed::constants::size_of;
use ckc_typed::types::type_written;
use ckc_typed::{Note, Range, Typed, Variable};
use ckc_types::{CType, Kind};
use std::alloc::{AllocError, Global};

fn local_in(
    alloc: Global,
    typed: &Typed,
    locals: &[Variable],
    t: &CType,
    k: u32,
    range: Range,
) -> Result<ExprTree, AllocError>
    ensures { IfOk result (λ e. expr_of e ≡ local_in typed.now locals.now t.now k range) }
{
    match range {
        Range::Known(l, u) => {
            let limits = limits_at(alloc, typed, locals, t, k, l, u)?;
            let limits = Boxed::new(alloc, limits)?;
            Ok(ExprTree::Limited(k, limits))
        }
        Range::Missing | Range::Any => Ok(ExprTree::Local(k)),
    }
}

fn read_static(
    alloc: Global,
    typed: &Text,
    t: &CType,
    at: Pos,
    k: u32,
) -> Result<ExprTree, AllocError>
    ensures { IfOk result (λ e. expr_of e ≡ static_in typed.now t.now at k None) }
{
    let count = count_of_static(alloc, typed, t, Name::Static(k))?;
    let place = object_place(alloc, typed.get(), t, at, k)?;
    read_at(alloc, typed.layout(), t, count, place)
}

fn static_in(
    alloc: Global,
    typed: &Text,
    t: &CType,
    at: Pos,
    k: u32,
    array: Option<Kind>,
) -> Result<ExprTree, AllocError>
    ensures { IfOk result (λ e. expr_of e ≡ static_in typed.now t.now at k array) }
{
    match array {
        None => read_static(alloc, typed, t, at, k),
        Some(Kind::Raw) | Some(Kind::One) => Ok(ExprTree::Number(address_of(typed.get(), k))),
        Some(Kind::Arr) | Some(Kind::Nt) => {
            let bytes = bytes_of(typed.get(), k)?;
            Ok(ExprTree::Array(address_of(typed.get(), k), bytes))
        }
    }
}

fn named(
    alloc: Global,
    typed: &Text,
    locals: &[Variable],
    note: &Note,
    at: Pos,
    n: Name,
) -> Result<ExprTree, AllocError>
    ensures { IfOk result (λ e. expr_of e ≡ named typed.now locals.now note.now at n) }
{
    match n {
        Name::Local(k) => local_in(alloc, typed.get(), locals, &note.ctype, k, note.range),
        Name::Static(k) => static_in(alloc, typed, &note.ctype, at, k, array_of(typed.get(), k)),
        Name::Function(_) | Name::Tag(_) | Name::Member(_) => Ok(outside()),
        Name::Getchar | Name::Putchar => Ok(outside()),
    }
}

/// A string literal with a number among the static objects.
fn literal(typed: &Typed, bytes: usize, k: u32) -> Result<ExprTree, AllocError>
    ensures { IfOk result (λ e. expr_of e ≡ Array (address_of typed.now k) bytes) }
{
    let bytes = number(bytes)?;
    Ok(ExprTree::Array(address_of(typed, k), bytes))
}

fn trusted(
    alloc: Global,
    typed: &Typed,
    t: &CType,
    form: Integer,
    pointer: Boxed<ExprTree>,
    count: Boxed<ExprTree>,
) -> Result<ExprTree, AllocError>
    ensures { IfOk result
        (λ e. expr_of e ≡ Trusted (pointee_of typed.now.layout t.now) form (expr_of pointer)
        (expr_of count)) }
{
    let to = pointee_of(alloc, &typed.layout, t)?;
    let to = Boxed::new(alloc, to)?;
    Ok(ExprTree::Trusted(to, form, pointer, count))
}

/// What `*p` is, and the structure of `p->m`.
#[cycle(expr)]
fn target(
    alloc: Global,
    typed: &Text,
    locals: &[Variable],
    at: Pos,
    e: &Expr<Name, Note>,
    first: u32,
) -> Result<Placed, AllocError>
    ensures { IfOk result
        (λ w. place_of w ≡ target_place typed.now.layout e.now.note.ctype at
        (expr_elaborated typed.now locals.now first e.now)) }
{
    let pointer = value(alloc, typed, locals, e, first)?;
    target_place(alloc, typed.layout(), &e.note.ctype, at, pointer)
}

/// The place of a node.
#[cycle(expr)]
fn node_place(
    alloc: Global,
    typed: &Text,
    locals: &[Variable],
    node: &Node<Name, Note>,
    note: &Note,
    at: Pos,
    first: u32,
) -> Result<Placed, AllocError>
    ensures { IfOk result
        (λ w. place_of w ≡ (part_of_node node.now).place note.now at typed.now locals.now first) }
{
    match node {
        Node::Name(n) => name_place(alloc, typed.get(), &note.ctype, at, *n),
        Node::Un(TreeOp::Deref, e) => target(alloc, typed, locals, at, e.get(), first),
        Node::Index(e, f) => {
            let pointer = value(alloc, typed, locals, e.get(), first)?;
            let second = in_expr(e.get(), first)?;
            let index = value(alloc, typed, locals, f.get(), second)?;
            let form = integer_of(&f.get().note.ctype);
            let of = &e.get().note.ctype;
            Ok(element_place(typed.layout(), of, at, form, pointer, index))
        }
        Node::Dot(e, n, _) => {
            let of = e.get();
            let place = node_place(alloc, typed, locals, &of.node, &of.note, of.pos, first)?;
            member_place(typed.layout(), tag_of(&of.note.ctype), *n, place)
        }
        Node::Arrow(e, n, _) => {
            let of = e.get();
            let place = target(alloc, typed, locals, at, of, first)?;
            member_place(typed.layout(), tag_behind(&of.note.ctype), *n, place)
        }
        _ => nowhere(alloc, at),
    }
}

/// What `&` of a node is.
#[cycle(expr)]
fn node_address(
    alloc: Global,
    typed: &Text,
    locals: &[Variable],
    node: &Node<Name, Note>,
    note: &Note,
    at: Pos,
    first: u32,
) -> Result<ExprTree, AllocError>
    ensures { IfOk result
        (λ t. expr_of t ≡ (part_of_node node.now).address note.now at typed.now locals.now first) }
{
    match node {
        Node::Un(TreeOp::Deref, e) => {
            let pointer = value(alloc, typed, locals, e.get(), first)?;
            Ok(pointer.into_inner())
        }
        Node::Index(e, f) => {
            let left = value(alloc, typed, locals, e.get(), first)?;
            let second = in_expr(e.get(), first)?;
            let right = value(alloc, typed, locals, f.get(), second)?;
            let one = &e.get().note.ctype;
            let two = &f.get().note.ctype;
            of_operands(
                alloc,
                typed.layout(),
                TreeOp::Add,
                one,
                two,
                at,
                left,
                right,
            )
        }
        _ => {
            let place = node_place(alloc, typed, locals, node, note, at, first)?;
            Ok(address_at(typed.layout(), &note.ctype, place))
        }
    }
}

/// A unary operator with its operand.
#[cycle(expr)]
fn unary_value(
    alloc: Global,
    typed: &Text,
    locals: &[Variable],
    op: TreeOp,
    e: &Expr<Name, Note>,
    note: &Note,
    at: Pos,
    first: u32,
) -> Result<ExprTree, AllocError>
    ensures { IfOk result
        (λ t. expr_of t ≡ unary_value op (part_of e.now) note.now at typed.now locals.now first) }
{
    match op {
        TreeOp::Address => { node_address(alloc, typed, locals, &e.node, &e.note, e.pos, first) }
        TreeOp::Deref => {
            let place = target(alloc, typed, locals, at, e, first)?;
            read_at(
                alloc,
                typed.layout(),
                &note.ctype,
                count_by_kind(&note.ctype),
                place,
            )
        }
        _ => {
            let operand = value(alloc, typed, locals, e, first)?;
            unary(alloc, op, at, operand)
        }
    }
}

/// How many elements of a size the bounds in a bounds cast say.
#[cycle(expr)]
fn elements(
    alloc: Global,
    typed: &Text,
    locals: &[Variable],
    l: &Option<Boxed<Limits<Name, Note>>>,
    size: u32,
    first: u32,
) -> Result<Boxed<ExprTree>, AllocError>
    ensures { IfOk result
        (λ t. expr_of t ≡ elements_if (option_map part_of_limits l.now) size typed.now locals.now
        first) }
{
    match l {
        None => Boxed::new(alloc, ExprTree::Number(1)),
        Some(l) => elements_of(alloc, typed, locals, l.get(), size, first),
    }
}

#[cycle(expr)]
fn elements_of(
    alloc: Global,
    typed: &Text,
    locals: &[Variable],
    l: &Limits<Name, Note>,
    size: u32,
    first: u32,
) -> Result<Boxed<ExprTree>, AllocError>
    ensures { IfOk result
        (λ t. expr_of t ≡ (part_of_limits l.now).elements size typed.now locals.now first) }
{
    match l {
        Limits::Count(e, _) => value(alloc, typed, locals, e.get(), first),
        Limits::ByteCount(e, at) => {
            let bytes = value(alloc, typed, locals, e.get(), first)?;
            elements_in(alloc, size, &e.get().note.ctype, *at, bytes)
        }
        Limits::Between(_, _, _) | Limits::Unknown(_) => Boxed::new(alloc, outside()),
    }
}

fn form_of(l: &Limits<Name, Note>) -> Integer
    ensures { result ≡ (part_of_limits l.now).form }
{
    match l {
        Limits::Count(e, _) | Limits::ByteCount(e, _) => integer_of(&e.get().note.ctype),
        Limits::Between(_, _, _) | Limits::Unknown(_) => Integer::Int,
    }
}

fn form_if(l: &Option<Boxed<Limits<Name, Note>>>) -> Integer
    ensures { result ≡ form_if (option_map part_of_limits l.now) }
{
    match l {
        None => Integer::Int,
        Some(l) => form_of(l.get()),
    }
}

/// The value of a node.
#[cycle(expr)]
fn node_value(
    alloc: Global,
    typed: &Text,
    locals: &[Variable],
    node: &Node<Name, Note>,
    note: &Note,
    at: Pos,
    first: u32,
) -> Result<ExprTree, AllocError>
    ensures { IfOk result
        (λ t. expr_of t ≡ (part_of_node node.now).value note.now at typed.now locals.now first) }
{
    match node {
        Node::Number(n, _) => Ok(ExprTree::Number(*n)),
        Node::Text(bytes) => literal(typed.get(), bytes.len(), first),
        Node::Null => Ok(ExprTree::Number(0)),
        Node::Name(n) => named(alloc, typed, locals, note, at, *n),
        Node::Un(op, e) => unary_value(alloc, typed, locals, *op, e.get(), note, at, first),
        Node::Bin(op, e, f) => {
            let left = value(alloc, typed, locals, e.get(), first)?;
            let second = in_expr(e.get(), first)?;
            let right = value(alloc, typed, locals, f.get(), second)?;
            let one = &e.get().note.ctype;
            let two = &f.get().note.ctype;
            of_operands(alloc, typed.layout(), *op, one, two, at, left, right)
        }
        Node::Pick(e, f, g) => {
            let test = value(alloc, typed, locals, e.get(), first)?;
            let second = in_expr(e.get(), first)?;
            let one = value(alloc, typed, locals, f.get(), second)?;
            let third = in_expr(f.get(), second)?;
            let two = value(alloc, typed, locals, g.get(), third)?;
            Ok(ExprTree::Choice(test, one, two))
        }
        Node::Index(_, _) => {
            let place = node_place(alloc, typed, locals, node, note, at, first)?;
            read_at(
                alloc,
                typed.layout(),
                &note.ctype,
                count_by_kind(&note.ctype),
                place,
            )
        }
        Node::Dot(e, n, _) => {
            let tag = tag_of(&e.get().note.ctype);
            let place = node_place(alloc, typed, locals, node, note, at, first)?;
            let count = count_of_member(typed.layout(), tag, *n)?;
            read_at(alloc, typed.layout(), &note.ctype, count, place)
        }
        Node::Arrow(e, n, _) => {
            let tag = tag_behind(&e.get().note.ctype);
            let place = node_place(alloc, typed, locals, node, note, at, first)?;
            let count = count_of_member(typed.layout(), tag, *n)?;
            read_at(alloc, typed.layout(), &note.ctype, count, place)
        }
        Node::Cast(w, e) => {
            let operand = value(alloc, typed, locals, e.get(), first)?;
            let written = type_written(alloc, w)?;
            Ok(cast(&written, &e.get().note.ctype, operand))
        }
        Node::Size(w) => {
            let written = type_written(alloc, w)?;
            Ok(ExprTree::Number(size_of(typed.layout(), &written)))
        }
        Node::Trusted(w, e, l) => {
            let written = type_written(alloc, w)?;
            let size = size_behind(typed.layout(), &written);
            let pointer = value(alloc, typed, locals, e.get(), first)?;
            let second = in_expr(e.get(), first)?;
            let count = elements(alloc, typed, locals, l, size, second)?;
            trusted(alloc, typed.get(), &written, form_if(l), pointer, count)
        }
        Node::Tested(w, e, l) => {
            let written = type_written(alloc, w)?;
            let size = size_behind(typed.layout(), &written);
            let pointer = value(alloc, typed, locals, e.get(), first)?;
            let second = in_expr(e.get(), first)?;
            let count = elements(alloc, typed, locals, l, size, second)?;
            Ok(ExprTree::Tested(size, form_if(l), at, pointer, count))
        }
        Node::Call(_, _) | Node::Calloc(_, _, _) => Ok(outside()),
    }
}

/// What an expression means, if the next string literal has this number among the static objects.
#[cycle(expr)]
pub fn value(
    alloc: Global,
    typed: &Text,
    locals: &[Variable],
    e: &Expr<Name, Note>,
    first: u32,
) -> Result<Boxed<ExprTree>, AllocError>
    ensures { IfOk result (λ t. expr_of t ≡ expr_elaborated typed.now locals.now first e.now) }
{
    let made = node_value(alloc, typed, locals, &e.node, &e.note, e.pos, first)?;
    Boxed::new(alloc, made)
}

/// Where an expression lies.
pub fn place(
    alloc: Global,
    typed: &Text,
    locals: &[Variable],
    e: &Expr<Name, Note>,
    first: u32,
) -> Result<Placed, AllocError>
    ensures { IfOk result (λ w. place_of w ≡ place_elaborated typed.now locals.now first e.now) }
{
    node_place(alloc, typed, locals, &e.node, &e.note, e.pos, first)
}
