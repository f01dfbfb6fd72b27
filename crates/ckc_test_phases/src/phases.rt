//! A text through the phases, up to the one of which something is asked. What a phase has made of it is left to the end
//! of the process. What only reads a tree is generic: the prover takes much longer if it sees the types of trees.
use crate::parts::{last_statement, last_value, put_last_type};
use crate::source::{Written, put_expr, put_objects, put_place, put_statement, put_tokens};
use ckc_base::{Fault, Pos, Refusal};
use ckc_lexer::{end_of, lex};
use ckc_parser::parse;
use ckc_resolve::resolve;
use ckc_scopes::scopes;
use ckc_syntax::{NamedText, Spelling, Token, Tree};
use ckc_syntax_limits::fits;
use ckc_test_trials::Page;
use ckc_typed::Typed;
use ckc_typing::type_of;
use std::alloc::Global;
use std::mem::forget;

/// What is asked of a text.
#[derive(Clone, Copy)]
pub enum Asked {
    /// Its tokens.
    Tokens,
    /// How many tokens it has, where each front of it is answered too.
    Fronts,
    /// Whether it has a tree.
    Syntax,
    /// The tree of its last statement.
    Statement,
    /// The tree of the last value that it returns or calls, with its place.
    Value,
    /// Whether its tree keeps the limits.
    Limits,
    /// Whether its names have meanings.
    Names,
    /// The meanings of the names in its last value, and the number of `main`.
    Name,
    /// Whether it has types.
    Types,
    /// The type in its last statement.
    Type,
    /// Its static objects.
    Statics,
    /// Whether it keeps the rules of checked scopes.
    Scopes,
}

/// Writes what is asked of a text, or `fine`, or its first fault.
pub fn put_answer(alloc: Global, asked: Asked, text: &[u8], page: &mut Page) {
    match lex(alloc, text) {
        Ok(tokens) => {
            let end = end_of(text);
            match asked {
                Asked::Tokens => put_tokens(page, tokens.as_slice()),
                Asked::Fronts => put_fronts(alloc, text, tokens.len(), page),
                _ => of_tokens(alloc, asked, tokens.as_slice(), end, page),
            }
        }
        Err(fault) => put_fault(page, fault),
    }
}

/// Cuts each front of a text, and writes how many tokens the whole has.
fn put_fronts(alloc: Global, text: &[u8], count: usize, page: &mut Page) {
    for len in 0..text.len() {
        if let Err(Fault::Memory) = lex(alloc, &text[..len]) {
            page.lacks_memory();
        }
    }
    page.put_debug(&count);
}

fn put_fault(page: &mut Page, fault: Fault) {
    match fault {
        Fault::Refused(refusal) => put_refusal(page, refusal),
        Fault::Memory => page.lacks_memory(),
    }
}

fn put_refusal(page: &mut Page, refusal: Refusal) {
    page.put("E");
    page.put_number(i64::from(refusal.code));
    page.put(" ");
    put_place(page, refusal.pos);
}

fn of_tokens<'a>(alloc: Global, asked: Asked, tokens: &'a [Token<'a>], end: Pos, page: &mut Page) {
    let made = parse(alloc, tokens, end);
    match asked {
        Asked::Syntax | Asked::Statement | Asked::Value => {
            put_made(page, asked, &made);
            forget(made);
        }
        _ => match made {
            Ok(tree) => of_tree(alloc, asked, tree, page),
            Err(fault) => put_fault(page, fault),
        },
    }
}

/// Writes what is asked of what the parser made.
fn put_made<N: Written, A>(page: &mut Page, asked: Asked, made: &Result<Tree<N, A>, Fault>) {
    match made {
        Ok(tree) => put_part(page, asked, tree),
        Err(fault) => put_fault(page, *fault),
    }
}

fn put_part<N: Written, A>(page: &mut Page, asked: Asked, tree: &Tree<N, A>) {
    match asked {
        Asked::Statement => match last_statement(tree) {
            Some(s) => put_statement(page, s),
            None => page.put("nothing"),
        },
        Asked::Value => match last_value(tree) {
            Some(e) => {
                put_place(page, e.pos);
                page.put(" ");
                put_expr(page, e);
            }
            None => page.put("nothing"),
        },
        _ => page.put("fine"),
    }
}

fn of_tree<'a>(alloc: Global, asked: Asked, tree: Tree<Spelling<'a>, ()>, page: &mut Page) {
    if is_named(page, asked, &tree) {
        of_names(alloc, asked, resolve(alloc, tree), page);
    } else {
        forget(tree);
    }
}

/// Whether the names of a tree are asked for, and it keeps the limits. Else this writes `fine`, or what they refuse.
fn is_named<N, A>(page: &mut Page, asked: Asked, tree: &Tree<N, A>) -> bool {
    match fits(tree) {
        Ok(()) => match asked {
            Asked::Limits => {
                page.put("fine");
                false
            }
            _ => true,
        },
        Err(fault) => {
            put_fault(page, fault);
            false
        }
    }
}

fn of_names(alloc: Global, asked: Asked, made: Result<NamedText, Fault>, page: &mut Page) {
    match made {
        Ok(named) => match asked {
            Asked::Names | Asked::Name => {
                put_meanings(page, asked, &named.tree, named.main);
                forget(named);
            }
            _ => of_types(asked, type_of(alloc, named), page),
        },
        Err(fault) => put_fault(page, fault),
    }
}

fn put_meanings<N: Written, A>(page: &mut Page, asked: Asked, tree: &Tree<N, A>, main: u32) {
    if let Asked::Names = asked {
        return page.put("fine");
    }
    match last_value(tree) {
        Some(e) => put_expr(page, e),
        None => page.put("nothing"),
    }
    page.put(" ");
    page.put_number(i64::from(main));
}

fn of_types(asked: Asked, made: Result<Typed, Fault>, page: &mut Page) {
    match made {
        Ok(typed) => match asked {
            Asked::Scopes => of_scopes(scopes(typed), page),
            _ => {
                put_types(page, asked, &typed);
                forget(typed);
            }
        },
        Err(fault) => put_fault(page, fault),
    }
}

fn of_scopes(made: Result<Typed, Fault>, page: &mut Page) {
    match &made {
        Ok(_) => page.put("fine"),
        Err(fault) => put_fault(page, *fault),
    }
    forget(made);
}

fn put_types(page: &mut Page, asked: Asked, typed: &Typed) {
    match asked {
        Asked::Type => put_last_type(page, &typed.tree),
        Asked::Statics => put_objects(page, typed.statics.as_slice()),
        _ => page.put("fine"),
    }
}
