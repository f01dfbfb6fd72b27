//! Declarations and statements.

ghost use Rattle.std.specs.Prelude.{◌≡◌, List, flat_map};
ghost use Rattle.ckc_base.specs.declared.places.Pos.{Pos};
ghost use Rattle.ckc_syntax.specs.Inside.{listed, inside_each};
ghost use Rattle.ckc_typed.specs.Walk.{spots_declared, spots_of_decl, spots_of_param, spots_of_act, spots_of_stmt, spots_of_part};
ghost use Rattle.ckc_scopes.specs.code.Verdict.{verdict, first};

use crate::expressions::{bounds_fit, expr_fits, init_fits, place_fits, value_fits};
use crate::raw::{first_raw, first_raw_of_param};
use ckc_base::{Boxed, Mode, Pos, Refusal};
use ckc_syntax::{Act, Decl, Item, Name, Stmt};
use ckc_typed::Note;

/// Judges a declaration with these unchecked pointers and arrays: the first of them, its limits, then its initialiser.
fn declared_fits(
    place: Option<Pos>,
    decl: &Decl<Name, Note>,
    mode: Mode,
    items: &[Item<Name, Note>],
) -> Result<(), Refusal>
    ensures { (raws : List Pos) → place ≡ first raws →
        result ≡ verdict items.now (spots_declared mode raws decl.now) }
{
    place_fits(place, mode)?;
    bounds_fit(&decl.bounds, items)?;
    init_fits(&decl.init, items)
}

/// Judges a declaration that is no parameter: its type and limits, then its initialiser.
pub fn decl_fits(
    decl: &Decl<Name, Note>,
    mode: Mode,
    items: &[Item<Name, Note>],
) -> Result<(), Refusal>
    ensures { result ≡ verdict items.now (spots_of_decl mode decl.now) }
{
    declared_fits(first_raw(decl), decl, mode, items)
}

fn param_fits(
    param: &Decl<Name, Note>,
    mode: Mode,
    items: &[Item<Name, Note>],
) -> Result<(), Refusal>
    ensures { result ≡ verdict items.now (spots_of_param mode param.now) }
{
    declared_fits(first_raw_of_param(param), param, mode, items)
}

/// Judges declarations that are no parameters in order.
pub fn decls_fit(
    decls: &[Decl<Name, Note>],
    mode: Mode,
    items: &[Item<Name, Note>],
) -> Result<(), Refusal>
    ensures { result ≡ verdict items.now (inside_each listed (spots_of_decl mode) decls.now) }
{
    for decl in decls {
        decl_fits(decl, mode, items)?;
    }
    Ok(())
}

/// Judges parameters in order.
pub fn params_fit(
    params: &[Decl<Name, Note>],
    mode: Mode,
    items: &[Item<Name, Note>],
) -> Result<(), Refusal>
    ensures { result ≡ verdict items.now (inside_each listed (spots_of_param mode) params.now) }
{
    for param in params {
        param_fits(param, mode, items)?;
    }
    Ok(())
}

#[cycle(stmt_fits)]
fn act_fits(act: &Act<Name, Note>, mode: Mode, items: &[Item<Name, Note>]) -> Result<(), Refusal>
    ensures { result ≡ verdict items.now (spots_of_act act.now mode) }
{
    match act {
        Act::Empty | Act::Break | Act::Continue => Ok(()),
        Act::Block(_, stmts) => stmts_fit(stmts.as_slice(), items),
        Act::Bundle(stmts) => stmts_fit(stmts.as_slice(), items),
        Act::Local(decl) => decl_fits(decl.get(), mode, items),
        Act::Assign(e, f) => {
            expr_fits(e.get(), items)?;
            expr_fits(f.get(), items)
        }
        Act::Call(e) | Act::Check(e) => expr_fits(e.get(), items),
        Act::If(e, s, otherwise) => {
            expr_fits(e.get(), items)?;
            stmt_fits(s.get(), items)?;
            part_fits(otherwise, items)
        }
        Act::While(e, s) => {
            expr_fits(e.get(), items)?;
            stmt_fits(s.get(), items)
        }
        Act::For(first, e, step, body) => {
            part_fits(first, items)?;
            value_fits(e, items)?;
            stmt_fits(body.get(), items)?;
            part_fits(step, items)
        }
        Act::Return(value) => value_fits(value, items),
    }
}

/// Judges a statement. A declaration that is one has its mode.
#[cycle(stmt_fits)]
pub fn stmt_fits(stmt: &Stmt<Name, Note>, items: &[Item<Name, Note>]) -> Result<(), Refusal>
    ensures { result ≡ verdict items.now (spots_of_stmt stmt.now) }
{
    act_fits(&stmt.body, stmt.note.mode, items)
}

#[cycle(stmt_fits)]
fn part_fits(
    part: &Option<Boxed<Stmt<Name, Note>>>,
    items: &[Item<Name, Note>],
) -> Result<(), Refusal>
    ensures { result ≡ verdict items.now (spots_of_part part.now) }
{
    match part {
        None => Ok(()),
        Some(s) => stmt_fits(s.get(), items),
    }
}

#[cycle(stmt_fits)]
fn stmts_fit(stmts: &[Stmt<Name, Note>], items: &[Item<Name, Note>]) -> Result<(), Refusal>
    ensures { result ≡ verdict items.now (flat_map spots_of_stmt stmts.now) }
{
    for stmt in stmts {
        stmt_fits(stmt, items)?;
    }
    Ok(())
}
