//! Whether each statement of a text stands in a checked scope.
ghost use Rattle.std.specs.Prelude.{◌≡◌, ◌↔◌, IsTrue};
ghost use Rattle.ckc_syntax.specs.Inside.{all_have, inside_each};
ghost use Rattle.ckc_blame.specs.Checked.{is_checked, checked_act, checked_stmt, checked_part, checked_item, WhollyChecked};

use ckc_base::{Boxed, Mode};
use ckc_syntax::{Act, Item, Name, Stmt};
use ckc_typed::{Note, Typed};

/// Whether no statement of the text has mode Unchecked.
pub fn wholly_checked(p: &Typed) -> bool
    ensures { IsTrue result ↔ WhollyChecked p.now }
{
    for item in p.tree.items.as_slice() {
        if !item_is_checked(item) {
            return false;
        }
    }
    true
}

fn item_is_checked(item: &Item<Name, Note>) -> bool
    ensures { result ≡ checked_item item.now }
{
    match item {
        Item::Directive(_) | Item::Tag(_, _) | Item::Static(_) | Item::Proto(_) => true,
        Item::Struct(_, _, _) => true,
        Item::Function(_, body) => stmt_is_checked(body.get()),
    }
}

/// Whether the statement has mode Checked, and each inside it.
#[cycle(stmt_is_checked)]
fn stmt_is_checked(stmt: &Stmt<Name, Note>) -> bool
    ensures { result ≡ checked_stmt stmt.now }
{
    is_checked(stmt.note.mode) && act_is_checked(&stmt.body)
}

fn is_checked(mode: Mode) -> bool
    ensures { result ≡ is_checked mode }
{
    match mode {
        Mode::Checked => true,
        Mode::Unchecked => false,
    }
}

/// Whether each statement inside a statement has mode Checked.
#[cycle(stmt_is_checked)]
fn act_is_checked(act: &Act<Name, Note>) -> bool
    ensures { result ≡ checked_act act.now }
{
    match act {
        Act::Block(_, stmts) => stmts_are_checked(stmts.as_slice()),
        Act::Bundle(stmts) => stmts_are_checked(stmts.as_slice()),
        Act::If(_, s, otherwise) => stmt_is_checked(s.get()) && part_is_checked(otherwise),
        Act::While(_, s) => stmt_is_checked(s.get()),
        Act::For(first, _, step, body) => {
            part_is_checked(first) && part_is_checked(step) && stmt_is_checked(body.get())
        }
        _ => true,
    }
}

#[cycle(stmt_is_checked)]
fn part_is_checked(part: &Option<Boxed<Stmt<Name, Note>>>) -> bool
    ensures { result ≡ checked_part part.now }
{
    match part {
        None => true,
        Some(s) => stmt_is_checked(s.get()),
    }
}

#[cycle(stmt_is_checked)]
fn stmts_are_checked(stmts: &[Stmt<Name, Note>]) -> bool
    ensures { result ≡ inside_each all_have checked_stmt stmts.now }
{
    for stmt in stmts {
        if !stmt_is_checked(stmt) {
            return false;
        }
    }
    true
}
