//! The bodies of functions with their names replaced by what they mean.

ghost use Rattle.ckc_base.specs.Outcomes.{StepsOutcome};
ghost use Rattle.ckc_resolve.specs.Statements.{body_act_named, body_named};

use crate::names::Names;
use crate::scopes::Scopes;
use crate::statements::{named_act, named_stmts};
use ckc_base::{Boxed, Fault};
use ckc_syntax::{Act, Name, Spelling, Stmt};
use std::alloc::Global;

/// The body of a function. Its outermost block has the scope of the parameters.
pub fn named_body<'a>(
    alloc: Global,
    names: &Names<'a>,
    scopes: &mut Scopes<'a>,
    stmt: &Stmt<Spelling<'a>, ()>,
) -> Result<Boxed<Stmt<Name, ()>>, Fault>
    ensures { StepsOutcome result scopes.new (body_named names.now stmt.now scopes.old) }
{
    let body = body_act(alloc, names, scopes, &stmt.body)?;
    let boxed = Boxed::new(
        alloc,
        Stmt {
            body,
            pos: stmt.pos,
            note: (),
        },
    )?;
    Ok(boxed)
}

fn body_act<'a>(
    alloc: Global,
    names: &Names<'a>,
    scopes: &mut Scopes<'a>,
    act: &Act<Spelling<'a>, ()>,
) -> Result<Act<Name, ()>, Fault>
    ensures { StepsOutcome result scopes.new (body_act_named names.now act.now scopes.old) }
{
    match act {
        Act::Block(mode, stmts) => {
            let stmts = named_stmts(alloc, names, scopes, stmts.as_slice())?;
            Ok(Act::Block(*mode, stmts))
        }
        _ => named_act(alloc, names, scopes, act),
    }
}
