//! How many string literals parts of a text have that make a block.

ghost use Rattle.std.specs.Prelude.{◌≡◌, ◌+◌, IfOk, map};
ghost use Rattle.std.specs.Option.{option_map};
ghost use Rattle.ckc_build_elaborate.specs.Literals.{literals_of_value, literals_of_bounds, literals_of_init, literals_of_decl, literals_of_decls};
ghost use Rattle.ckc_build_elaborate.specs.code.Statements.{all_literals};
ghost use Rattle.ckc_build_elaborate.specs.Statements.{part_of, part_of_act, literals_if};
ghost use Rattle.ckc_build_elaborate.specs.Functions.{literals_of_head, literals_of_item};

use ckc_base::Boxed;
use ckc_build_values::literals::{in_bounds, in_expr, in_exprs};
use ckc_syntax::{Act, Decl, Expr, Head, Init, Item, Name, Stmt};
use ckc_typed::Note;
use ckc_typed::types::is_plain;
use std::alloc::AllocError;

/// A number, and one more for each string literal in a value, if there is one.
pub fn in_value(e: &Option<Boxed<Expr<Name, Note>>>, before: u32) -> Result<u32, AllocError>
    ensures { IfOk result (λ n. n ≡ before + literals_of_value e.now) }
{
    match e {
        None => Ok(before),
        Some(e) => in_expr(e.get(), before),
    }
}

fn in_init(plain: bool, init: &Init<Name, Note>, before: u32) -> Result<u32, AllocError>
    ensures { IfOk result (λ n. n ≡ before + literals_of_init plain init.now) }
{
    match init {
        Init::Nothing => Ok(before),
        Init::One(e) => {
            if plain {
                in_expr(e.get(), before)
            } else {
                Ok(before)
            }
        }
        Init::Many(es) => in_exprs(es.as_slice(), before),
    }
}

fn in_decl(d: &Decl<Name, Note>, before: u32) -> Result<u32, AllocError>
    ensures { IfOk result (λ n. n ≡ before + literals_of_decl d.now) }
{
    let n = in_bounds(&d.bounds, before)?;
    in_init(is_plain(d.length), &d.init, n)
}

fn in_decls(ds: &[Decl<Name, Note>], before: u32) -> Result<u32, AllocError>
    ensures { IfOk result (λ n. n ≡ before + literals_of_decls ds.now) }
{
    let mut n = before;
    for d in ds {
        n = in_decl(d, n)?;
    }
    Ok(n)
}

#[cycle(literals)]
fn in_act(body: &Act<Name, Note>, before: u32) -> Result<u32, AllocError>
    ensures { IfOk result (λ n. n ≡ before + (part_of_act body.now).literals) }
{
    match body {
        Act::Block(_, ss) | Act::Bundle(ss) => in_stmts(ss.as_slice(), before),
        Act::Local(d) => in_decl(d.get(), before),
        Act::Assign(e, f) => {
            let n = in_expr(e.get(), before)?;
            in_expr(f.get(), n)
        }
        Act::Call(e) | Act::Check(e) => in_expr(e.get(), before),
        Act::If(e, s, t) => {
            let n = in_expr(e.get(), before)?;
            let m = in_stmt(s.get(), n)?;
            in_part(t, m)
        }
        Act::While(e, s) => {
            let n = in_expr(e.get(), before)?;
            in_stmt(s.get(), n)
        }
        Act::For(s, e, t, body) => {
            let n = in_part(s, before)?;
            let m = in_value(e, n)?;
            let k = in_part(t, m)?;
            in_stmt(body.get(), k)
        }
        Act::Return(e) => in_value(e, before),
        Act::Empty | Act::Break | Act::Continue => Ok(before),
    }
}

/// A number, and one more for each string literal in a statement.
#[cycle(literals)]
pub fn in_stmt(s: &Stmt<Name, Note>, before: u32) -> Result<u32, AllocError>
    ensures { IfOk result (λ n. n ≡ before + (part_of s.now).literals) }
{
    in_act(&s.body, before)
}

#[cycle(literals)]
fn in_stmts(ss: &[Stmt<Name, Note>], before: u32) -> Result<u32, AllocError>
    ensures { IfOk result (λ n. n ≡ before + all_literals (map part_of ss.now)) }
{
    let mut n = before;
    for s in ss {
        n = in_stmt(s, n)?;
    }
    Ok(n)
}

/// A number, and one more for each string literal in a part of a statement, if there is one.
#[cycle(literals)]
pub fn in_part(s: &Option<Boxed<Stmt<Name, Note>>>, before: u32) -> Result<u32, AllocError>
    ensures { IfOk result (λ n. n ≡ before + literals_if (option_map part_of s.now)) }
{
    match s {
        None => Ok(before),
        Some(s) => in_stmt(s.get(), before),
    }
}

/// A number, and one more for each string literal in the head of a function.
pub fn in_head(h: &Head<Name, Note>, before: u32) -> Result<u32, AllocError>
    ensures { IfOk result (λ n. n ≡ before + literals_of_head h.now) }
{
    let n = in_decls(h.params.as_slice(), before)?;
    in_bounds(&h.bounds, n)
}

/// A number, and one more for each string literal in an item that makes a block.
pub fn in_item(item: &Item<Name, Note>, before: u32) -> Result<u32, AllocError>
    ensures { IfOk result (λ n. n ≡ before + literals_of_item item.now) }
{
    match item {
        Item::Directive(_) | Item::Tag(_, _) => Ok(before),
        Item::Struct(_, members, _) => in_decls(members.as_slice(), before),
        Item::Static(d) => in_decl(d.get(), before),
        Item::Proto(h) => in_head(h.get(), before),
        Item::Function(h, body) => {
            let n = in_head(h.get(), before)?;
            in_stmt(body.get(), n)
        }
    }
}
