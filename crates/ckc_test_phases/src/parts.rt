//! The part of a tree that a case is about: it stands last.
use crate::source::put_type;
use ckc_syntax::{Act, Decl, Expr, Init, Item, Stmt, Tree};
use ckc_test_trials::Page;
use ckc_typed::Note;
use ckc_types::CType;

/// The body of the last item, if that is a function.
fn last_body<N, A>(tree: &Tree<N, A>) -> Option<&Stmt<N, A>> {
    match tree.items.as_slice().last() {
        Some(Item::Function(_, body)) => Some(body.get()),
        _ => None,
    }
}

/// The last statement of the last function.
pub fn last_statement<N, A>(tree: &Tree<N, A>) -> Option<&Stmt<N, A>> {
    match &last_body(tree)?.body {
        Act::Block(_, statements) => statements.as_slice().last(),
        _ => None,
    }
}

/// What it returns or calls.
pub fn last_value<N, A>(tree: &Tree<N, A>) -> Option<&Expr<N, A>> {
    match &last_statement(tree)?.body {
        Act::Return(Some(e)) => Some(e.get()),
        Act::Call(e) => Some(e.get()),
        _ => None,
    }
}

/// What is noted at an expression, which has a type.
pub trait Noted {
    /// The type.
    fn ctype(&self) -> &CType;
}

impl Noted for Note {
    fn ctype(&self) -> &CType {
        &self.ctype
    }
}

/// Writes the type of the condition, call, right side or initialiser in the last statement of the last function, or
/// `fine` if there is none.
pub fn put_last_type<N, A: Noted>(page: &mut Page, tree: &Tree<N, A>) {
    match last_body(tree) {
        Some(body) => put_type_in(page, body),
        None => page.put("fine"),
    }
}

fn put_type_in<N, A: Noted>(page: &mut Page, statement: &Stmt<N, A>) {
    match &statement.body {
        Act::If(e, _, _) | Act::Call(e) | Act::Assign(_, e) => put_type(page, e.get().note.ctype()),
        Act::Local(d) => put_type_of_local(page, d.get()),
        Act::Block(_, statements) => match statements.as_slice().last() {
            Some(last) => put_type_in(page, last),
            None => page.put("fine"),
        },
        _ => page.put("fine"),
    }
}

fn put_type_of_local<N, A: Noted>(page: &mut Page, d: &Decl<N, A>) {
    match &d.init {
        Init::One(e) => put_type(page, e.get().note.ctype()),
        _ => page.put("fine"),
    }
}
