//! What statements without statements in them do, with its names replaced by what they mean.

ghost use Rattle.std.specs.Prelude.{Ok};
ghost use Rattle.ckc_syntax.specs.declared.tree.Act.TheVariants as act;
ghost use Rattle.ckc_base.specs.Outcomes.{StepsOutcome, bind};
ghost use Rattle.ckc_resolve.specs.Declarations.{local_named};
ghost use Rattle.ckc_resolve.specs.Expressions.{expr_named, maybe_named};

use crate::declarations::{maybe_expr, named_local};
use crate::expressions::boxed_expr;
use crate::names::Names;
use crate::scopes::Scopes;
use ckc_base::{Boxed, Fault};
use ckc_syntax::{Act, Decl, Expr, Name, Spelling};
use std::alloc::Global;

/// A local.
pub fn local<'a>(
    alloc: Global,
    names: &Names<'a>,
    scopes: &mut Scopes<'a>,
    decl: &Boxed<Decl<Spelling<'a>, ()>>,
) -> Result<Act<Name, ()>, Fault>
    ensures { StepsOutcome result scopes.new
        (bind (local_named names.now scopes.old decl.now) (λ p. Ok (act.Local p.0, p.1))) }
{
    let local = named_local(alloc, names, scopes, decl.get())?;
    let boxed = Boxed::new(alloc, local)?;
    Ok(Act::Local(boxed))
}

/// A call.
pub fn call<'a>(
    alloc: Global,
    names: &Names<'a>,
    scopes: &Scopes<'a>,
    e: &Boxed<Expr<Spelling<'a>, ()>>,
) -> Result<Act<Name, ()>, Fault>
    ensures { StepsOutcome result scopes.now
        (bind (expr_named names.now scopes.now e.now) (λ a. Ok (act.Call a, scopes.now))) }
{
    let call = boxed_expr(alloc, names, scopes, e.get())?;
    Ok(Act::Call(call))
}

/// A `return`.
pub fn result<'a>(
    alloc: Global,
    names: &Names<'a>,
    scopes: &Scopes<'a>,
    e: &Option<Boxed<Expr<Spelling<'a>, ()>>>,
) -> Result<Act<Name, ()>, Fault>
    ensures { StepsOutcome result scopes.now
        (bind (maybe_named names.now scopes.now e.now) (λ a. Ok (act.Return a, scopes.now))) }
{
    let value = maybe_expr(alloc, names, scopes, e)?;
    Ok(Act::Return(value))
}

/// A run-time check.
pub fn check<'a>(
    alloc: Global,
    names: &Names<'a>,
    scopes: &Scopes<'a>,
    e: &Boxed<Expr<Spelling<'a>, ()>>,
) -> Result<Act<Name, ()>, Fault>
    ensures { StepsOutcome result scopes.now
        (bind (expr_named names.now scopes.now e.now) (λ a. Ok (act.Check a, scopes.now))) }
{
    let condition = boxed_expr(alloc, names, scopes, e.get())?;
    Ok(Act::Check(condition))
}
