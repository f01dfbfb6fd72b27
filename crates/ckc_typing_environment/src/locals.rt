//! The locals that a function declares.

ghost use Rattle.std.specs.Prelude.{◌≡◌, [], ◌∷◌, ◌++◌, IfOk, OnOk, map};
ghost use Rattle.ckc_syntax.specs.Inside.{listed, inside_each};
ghost use Rattle.ckc_typed.specs.Environment.{variable_declared, locals_of, locals_of_act, locals_of_part, variables_of};

use crate::environment::{params_of, variable_declared};
use ckc_base::{Boxed, Mode, Seq};
use ckc_syntax::{Act, Decl, Head, Name, Stmt};
use ckc_typed::Variable;
use std::alloc::{AllocError, Global};

fn add_local<A>(alloc: Global, all: &mut Seq<Variable>, d: &Decl<Name, A>) -> Result<(), AllocError>
    ensures { OnOk result (all.new ≡ all.old ++ variable_declared d.now ∷ []) }
{
    let v = variable_declared(alloc, d)?;
    all.push(v)
}

#[cycle(locals)]
fn add_act<A>(alloc: Global, all: &mut Seq<Variable>, act: &Act<Name, A>) -> Result<(), AllocError>
    ensures { OnOk result (all.new ≡ all.old ++ locals_of_act act.now) }
{
    match act {
        Act::Block(_, ss) => add_stmts(alloc, all, ss.as_slice()),
        Act::Bundle(ss) => add_stmts(alloc, all, ss.as_slice()),
        Act::Local(d) => add_local(alloc, all, d.get()),
        Act::If(_, s, t) => {
            add_stmt(alloc, all, s.get())?;
            add_part(alloc, all, t)
        }
        Act::While(_, s) => add_stmt(alloc, all, s.get()),
        Act::For(s, _, t, body) => {
            add_part(alloc, all, s)?;
            add_part(alloc, all, t)?;
            add_stmt(alloc, all, body.get())
        }
        Act::Empty | Act::Assign(_, _) | Act::Call(_) | Act::Return(_) => Ok(()),
        Act::Break | Act::Continue | Act::Check(_) => Ok(()),
    }
}

#[cycle(locals)]
fn add_stmt<A>(alloc: Global, all: &mut Seq<Variable>, s: &Stmt<Name, A>) -> Result<(), AllocError>
    ensures { OnOk result (all.new ≡ all.old ++ locals_of s.now) }
{
    add_act(alloc, all, &s.body)
}

#[cycle(locals)]
fn add_stmts<A>(
    alloc: Global,
    all: &mut Seq<Variable>,
    ss: &[Stmt<Name, A>],
) -> Result<(), AllocError>
    ensures { OnOk result
        (all.new ≡ all.old ++ inside_each listed (λ x. x) (map locals_of ss.now)) }
{
    for s in ss {
        add_stmt(alloc, all, s)?;
    }
    Ok(())
}

#[cycle(locals)]
fn add_part<A>(
    alloc: Global,
    all: &mut Seq<Variable>,
    part: &Option<Boxed<Stmt<Name, A>>>,
) -> Result<(), AllocError>
    ensures { OnOk result (all.new ≡ all.old ++ locals_of_part part.now) }
{
    match part {
        None => Ok(()),
        Some(s) => add_stmt(alloc, all, s.get()),
    }
}

/// What an expression in a function sees, whose body has a mode: its parameters and its locals.
pub fn variables_of<A>(
    alloc: Global,
    mode: Mode,
    h: &Head<Name, A>,
    body: &Stmt<Name, A>,
) -> Result<Seq<Variable>, AllocError>
    ensures { IfOk result (λ vs. vs ≡ variables_of mode h.now body.now) }
{
    let mut all = params_of(alloc, mode, h)?;
    add_stmt(alloc, &mut all, body)?;
    Ok(all)
}
