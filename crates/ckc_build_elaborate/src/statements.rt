//! Statements.

ghost use Rattle.std.specs.Prelude.{◌≡◌, false, [], ◌∷◌, ◌+◌, ◌++◌, IfOk, OnOk, map};
ghost use Rattle.std.specs.Option.{option_map};
ghost use Rattle.ckc_source.specs.Code.{stmt_of, assign_of};
ghost use Rattle.ckc_build_values.specs.Expressions.{literals_of};
ghost use Rattle.ckc_build_elaborate.specs.Steps.{destination_of, assigned};
ghost use Rattle.ckc_build_elaborate.specs.Statements.{part_of, part_of_act, assign, all_assigns, code_if, stmt_elaborated};
ghost use Rattle.ckc_build_elaborate.specs.code.Statements.{stmts_elaborated};

use crate::destinations::{destination_of, is_terminated_at, target_of};
use crate::literals::{in_part, in_stmt, in_value};
use crate::steps::{alone, assigned, condition, declared, returned, right_of};
use ckc_base::{Boxed, Seq};
use ckc_build_values::expressions::value;
use ckc_build_values::literals::in_expr;
use ckc_build_values::texts::Text;
use ckc_source::{Assign, Spot, StmtTree};
use ckc_syntax::{Act, Expr, Name, Stmt};
use ckc_typed::{Note, Variable};
use ckc_types::CType;
use std::alloc::{AllocError, Global};

fn assign(
    alloc: Global,
    typed: &Text,
    locals: &[Variable],
    s: Spot,
    e: &Expr<Name, Note>,
    f: &Expr<Name, Note>,
    first: u32,
) -> Result<StmtTree, AllocError>
    ensures { IfOk result (λ t. stmt_of t
        ≡ assigned typed.now locals.now s (destination_of typed.now locals.now first e.now)
        (first + literals_of e.now) f.now) }
{
    let to = destination_of(alloc, typed, locals, e, first)?;
    let next = in_expr(e, first)?;
    assigned(alloc, typed, locals, s, to, f, next)
}

/// One assignment of a bundle.
fn bundled(
    alloc: Global,
    typed: &Text,
    locals: &[Variable],
    e: &Expr<Name, Note>,
    f: &Expr<Name, Note>,
    first: u32,
) -> Result<Assign, AllocError>
    ensures { IfOk result (λ a. assign_of a ≡ assign typed.now locals.now first e.now f.now) }
{
    let target = target_of(alloc, typed, locals, e, first)?;
    let next = in_expr(e, first)?;
    let right = right_of(alloc, typed, locals, is_terminated_at(e), f, next)?;
    Ok(Assign { target, right })
}

/// Adds what a statement assigns in a bundle.
fn add_assign(
    alloc: Global,
    typed: &Text,
    locals: &[Variable],
    s: &Act<Name, Note>,
    first: u32,
    all: &mut Seq<Assign>,
) -> Result<(), AllocError>
    ensures { OnOk result (map assign_of all.new
        ≡ map assign_of all.old ++ (part_of_act s.now).assigns typed.now locals.now first) }
{
    match s {
        Act::Assign(e, f) => {
            let made = bundled(alloc, typed, locals, e.get(), f.get(), first)?;
            all.push(made)
        }
        _ => Ok(()),
    }
}

/// The assignments of a bundle.
fn assigns(
    alloc: Global,
    typed: &Text,
    locals: &[Variable],
    ss: &[Stmt<Name, Note>],
    first: u32,
) -> Result<Seq<Assign>, AllocError>
    ensures { IfOk result (λ all. map assign_of all
        ≡ all_assigns (map part_of ss.now) typed.now locals.now first) }
{
    let mut all = Seq::new(alloc);
    let mut next = first;
    for s in ss {
        add_assign(alloc, typed, locals, &s.body, next, &mut all)?;
        next = in_stmt(s, next)?;
    }
    Ok(all)
}

/// Statements, and one more after them.
fn behind(all: Seq<StmtTree>, s: StmtTree) -> Result<Seq<StmtTree>, AllocError>
    ensures { IfOk result (λ more. map stmt_of more ≡ map stmt_of all ++ stmt_of s ∷ []) }
{
    let mut all = all;
    all.push(s)?;
    Ok(all)
}

/// One statement.
fn one(alloc: Global, s: StmtTree) -> Result<Seq<StmtTree>, AllocError>
    ensures { IfOk result (λ all. map stmt_of all ≡ stmt_of s ∷ []) }
{
    let all = Vec::with_capacity(alloc, 1)?;
    behind(Seq::from_vec(all), s)
}

/// What a statement means at its place.
#[cycle(stmt)]
fn act(
    alloc: Global,
    typed: &Text,
    locals: &[Variable],
    body: &Act<Name, Note>,
    s: Spot,
    gives: &CType,
    first: u32,
) -> Result<Seq<StmtTree>, AllocError>
    ensures { IfOk result (λ all. map stmt_of all
        ≡ (part_of_act body.now).code s.at s.mode typed.now locals.now gives.now first) }
{
    match body {
        Act::Block(_, ss) => stmts(alloc, typed, locals, ss.as_slice(), gives, first),
        Act::Empty => Ok(Seq::new(alloc)),
        Act::Bundle(ss) => {
            let made = assigns(alloc, typed, locals, ss.as_slice(), first)?;
            one(alloc, StmtTree::Bundle(s, made))
        }
        Act::Local(d) => {
            let made = declared(alloc, typed, locals, s, d.get(), first)?;
            one(alloc, made)
        }
        Act::Assign(e, f) => {
            let made = assign(alloc, typed, locals, s, e.get(), f.get(), first)?;
            one(alloc, made)
        }
        Act::Call(e) => {
            let made = alone(alloc, typed, locals, s.mode, e.get(), first)?;
            one(alloc, made)
        }
        Act::If(e, chosen, other) => {
            let test = value(alloc, typed, locals, e.get(), first)?;
            let second = in_expr(e.get(), first)?;
            let yes = stmt(alloc, typed, locals, chosen.get(), gives, second)?;
            let third = in_stmt(chosen.get(), second)?;
            let no = part(alloc, typed, locals, other, gives, third)?;
            one(alloc, StmtTree::If(s, test, yes, no))
        }
        Act::While(e, body) => {
            let test = value(alloc, typed, locals, e.get(), first)?;
            let second = in_expr(e.get(), first)?;
            let turn = stmt(alloc, typed, locals, body.get(), gives, second)?;
            one(alloc, StmtTree::Loop(s, test, turn, Seq::new(alloc)))
        }
        Act::For(start, e, step, body) => {
            let begin = part(alloc, typed, locals, start, gives, first)?;
            let second = in_part(start, first)?;
            let test = condition(alloc, typed, locals, e, second)?;
            let third = in_value(e, second)?;
            let after = part(alloc, typed, locals, step, gives, third)?;
            let fourth = in_part(step, third)?;
            let turn = stmt(alloc, typed, locals, body.get(), gives, fourth)?;
            behind(begin, StmtTree::Loop(s, test, turn, after))
        }
        Act::Return(e) => {
            let made = returned(alloc, typed, locals, gives, e, first)?;
            one(alloc, StmtTree::Return(s, made))
        }
        Act::Break => one(alloc, StmtTree::Break),
        Act::Continue => one(alloc, StmtTree::Continue),
        Act::Check(e) => {
            let test = value(alloc, typed, locals, e.get(), first)?;
            one(alloc, StmtTree::Check(s, test))
        }
    }
}

/// What a statement means, in a function with this type of result.
#[cycle(stmt)]
pub fn stmt(
    alloc: Global,
    typed: &Text,
    locals: &[Variable],
    s: &Stmt<Name, Note>,
    gives: &CType,
    first: u32,
) -> Result<Seq<StmtTree>, AllocError>
    ensures { IfOk result (λ all. map stmt_of all
        ≡ stmt_elaborated typed.now locals.now gives.now first s.now) }
{
    let spot = Spot {
        at: s.pos,
        mode: s.note.mode,
    };
    act(alloc, typed, locals, &s.body, spot, gives, first)
}

/// The number of the next string literal after a statement. After the last one there is none, so that the blocks in a
/// block are not counted once more for each block around them.
fn number_behind(s: &Stmt<Name, Note>, last: bool, next: u32) -> Result<u32, AllocError>
    ensures { IfOk result (λ n. last ≡ false → n ≡ next + (part_of s.now).literals) }
{
    if last { Ok(next) } else { in_stmt(s, next) }
}

#[cycle(stmt)]
fn stmts(
    alloc: Global,
    typed: &Text,
    locals: &[Variable],
    ss: &[Stmt<Name, Note>],
    gives: &CType,
    first: u32,
) -> Result<Seq<StmtTree>, AllocError>
    ensures { IfOk result (λ all. map stmt_of all
        ≡ stmts_elaborated typed.now locals.now gives.now first ss.now) }
{
    let mut all: Vec<StmtTree> = Vec::new(alloc);
    let mut next = first;
    for (k, s) in ss.iter().enumerate() {
        let made = stmt(alloc, typed, locals, s, gives, next)?;
        next = number_behind(s, k + 1 == ss.len(), next)?;
        let mut more = made.into_vec();
        all.append(&mut more)?;
    }
    Ok(Seq::from_vec(all))
}

#[cycle(stmt)]
fn part(
    alloc: Global,
    typed: &Text,
    locals: &[Variable],
    s: &Option<Boxed<Stmt<Name, Note>>>,
    gives: &CType,
    first: u32,
) -> Result<Seq<StmtTree>, AllocError>
    ensures { IfOk result (λ all. map stmt_of all
        ≡ code_if (option_map part_of s.now) typed.now locals.now gives.now first) }
{
    match s {
        None => Ok(Seq::new(alloc)),
        Some(s) => stmt(alloc, typed, locals, s.get(), gives, first),
    }
}
