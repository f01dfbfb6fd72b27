//! Declarations with their names replaced by what they mean.

ghost use Rattle.std.specs.Prelude.{◌≡◌, OnOk};
ghost use Rattle.ckc_base.specs.Outcomes.{AnswersOutcome, StepsOutcome};
ghost use Rattle.ckc_resolve.specs.Scoping.{with_local};
ghost use Rattle.ckc_resolve.specs.Declarations.{init_named, decl_named, local_named};
ghost use Rattle.ckc_resolve.specs.Expressions.{bounds_named, maybe_named};

use crate::expressions::{boxed_expr, named_bounds, named_exprs};
use crate::names::Names;
use crate::refusals::DECLARED_TWICE;
use crate::scopes::Scopes;
use crate::types::named_type;
use ckc_base::{Boxed, Fault, refused};
use ckc_syntax::{Decl, Expr, Init, Limits, Name, Spelling};
use std::alloc::Global;

/// An expression that may be left out.
pub fn maybe_expr<'a>(
    alloc: Global,
    names: &Names<'a>,
    scopes: &Scopes<'a>,
    e: &Option<Boxed<Expr<Spelling<'a>, ()>>>,
) -> Result<Option<Boxed<Expr<Name, ()>>>, Fault>
    ensures { AnswersOutcome result (maybe_named names.now scopes.now e.now) }
{
    match e {
        None => Ok(None),
        Some(e) => {
            let named = boxed_expr(alloc, names, scopes, e.get())?;
            Ok(Some(named))
        }
    }
}

fn named_init<'a>(
    alloc: Global,
    names: &Names<'a>,
    scopes: &Scopes<'a>,
    init: &Init<Spelling<'a>, ()>,
) -> Result<Init<Name, ()>, Fault>
    ensures { AnswersOutcome result (init_named names.now scopes.now init.now) }
{
    match init {
        Init::Nothing => Ok(Init::Nothing),
        Init::One(e) => {
            let named = boxed_expr(alloc, names, scopes, e.get())?;
            Ok(Init::One(named))
        }
        Init::Many(es) => {
            let all = named_exprs(alloc, names, scopes, es.as_slice())?;
            Ok(Init::Many(all))
        }
    }
}

/// A declaration under its new name. Its bounds and its initialiser see the same names.
pub fn named_decl<'a>(
    alloc: Global,
    names: &Names<'a>,
    scopes: &Scopes<'a>,
    name: Name,
    decl: &Decl<Spelling<'a>, ()>,
) -> Result<Decl<Name, ()>, Fault>
    ensures { AnswersOutcome result (decl_named names.now scopes.now scopes.now name decl.now) }
{
    let ctype = named_type(alloc, names, &decl.ctype)?;
    let bounds = named_bounds(alloc, names, scopes, &decl.bounds)?;
    let init = named_init(alloc, names, scopes, &decl.init)?;
    Ok(Decl {
        ctype,
        name,
        length: decl.length,
        bounds,
        init,
        pos: decl.pos,
    })
}

/// The bounds of a local, in which it is visible itself.
fn own_bounds<'a>(
    alloc: Global,
    names: &Names<'a>,
    scopes: &mut Scopes<'a>,
    decl: &Decl<Spelling<'a>, ()>,
) -> Result<Option<Boxed<Limits<Name, ()>>>, Fault>
    ensures bounds { AnswersOutcome result
        (bounds_named names.now (with_local scopes.old decl.now.name) decl.now.bounds) }
    ensures kept { OnOk result (scopes.new ≡ scopes.old) }
{
    scopes.declare(&decl.name)?;
    let bounds = named_bounds(alloc, names, scopes, &decl.bounds)?;
    scopes.withdraw();
    Ok(bounds)
}

/// A local, which is declared after its initialiser.
pub fn named_local<'a>(
    alloc: Global,
    names: &Names<'a>,
    scopes: &mut Scopes<'a>,
    decl: &Decl<Spelling<'a>, ()>,
) -> Result<Decl<Name, ()>, Fault>
    ensures { StepsOutcome result scopes.new (local_named names.now scopes.old decl.now) }
{
    let ctype = named_type(alloc, names, &decl.ctype)?;
    let bounds = own_bounds(alloc, names, scopes, decl)?;
    let init = named_init(alloc, names, scopes, &decl.init)?;
    if scopes.is_taken(&decl.name) {
        return Err(refused(DECLARED_TWICE, decl.pos));
    }
    let name = Name::Local(scopes.next);
    scopes.declare(&decl.name)?;
    Ok(Decl {
        ctype,
        name,
        length: decl.length,
        bounds,
        init,
        pos: decl.pos,
    })
}
