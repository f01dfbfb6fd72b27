//! Members, parameters and the heads of functions with their names replaced by what they mean.

ghost use Rattle.std.specs.Prelude.{◌≡◌, Ok};
ghost use Rattle.ckc_base.specs.Outcomes.{AnswersOutcome, StepsOutcome};
ghost use Rattle.ckc_resolve.specs.Scoping.{no_scope};
ghost use Rattle.ckc_resolve.specs.Heads.{member_scope, member_named, members_named, struct_named, param_scope, param_named, params_named, head_named};

use crate::declarations::named_decl;
use crate::expressions::named_bounds;
use crate::names::Names;
use crate::refusals::DECLARED_TWICE;
use crate::scopes::Scopes;
use crate::spellings::Spellings;
use crate::types::named_type;
use ckc_base::{Fault, Seq, refused};
use ckc_syntax::{Decl, Head, Name, Spelling};
use std::alloc::Global;

/// The scope of the bounds of members.
fn scope_of_members<'a>(
    alloc: Global,
    names: &Names<'a>,
    decls: &[Decl<Spelling<'a>, ()>],
) -> Result<Scopes<'a>, Fault>
    ensures { AnswersOutcome result (Ok (member_scope names.now decls.now)) }
{
    let mut all = Scopes::new(alloc);
    for decl in decls {
        let name = Name::Member(names.members.number(&decl.name));
        all.show(&decl.name, name)?;
    }
    Ok(all)
}

fn named_member<'a>(
    alloc: Global,
    names: &Names<'a>,
    all: &Scopes<'a>,
    before: &mut Spellings<'a>,
    decl: &Decl<Spelling<'a>, ()>,
) -> Result<Decl<Name, ()>, Fault>
    ensures { StepsOutcome result before.new (member_named names.now all.now decl.now before.old) }
{
    let name = Name::Member(names.members.number(&decl.name));
    let named = named_decl(alloc, names, all, name, decl)?;
    if before.contains(&decl.name) {
        return Err(refused(DECLARED_TWICE, decl.pos));
    }
    before.add(&decl.name)?;
    Ok(named)
}

fn members_in_turn<'a>(
    alloc: Global,
    names: &Names<'a>,
    all: &Scopes<'a>,
    before: &mut Spellings<'a>,
    decls: &[Decl<Spelling<'a>, ()>],
) -> Result<Seq<Decl<Name, ()>>, Fault>
    ensures { StepsOutcome result before.new
        (members_named names.now all.now decls.now before.old) }
{
    let mut out = Seq::new(alloc);
    for decl in decls {
        let named = named_member(alloc, names, all, before, decl)?;
        out.push(named)?;
    }
    Ok(out)
}

/// The members of a structure.
pub fn named_members<'a>(
    alloc: Global,
    names: &Names<'a>,
    decls: &[Decl<Spelling<'a>, ()>],
) -> Result<Seq<Decl<Name, ()>>, Fault>
    ensures { AnswersOutcome result (struct_named names.now decls.now) }
{
    let all = scope_of_members(alloc, names, decls)?;
    let mut before = Spellings::new(alloc);
    let out = members_in_turn(alloc, names, &all, &mut before, decls)?;
    Ok(out)
}

/// The scope of the bounds of parameters and of the result.
fn scope_of_params<'a>(alloc: Global, decls: &[Decl<Spelling<'a>, ()>]) -> Result<Scopes<'a>, Fault>
    ensures { AnswersOutcome result (Ok (param_scope decls.now)) }
{
    let mut all = Scopes::new(alloc);
    for decl in decls {
        all.declare(&decl.name)?;
    }
    Ok(all)
}

fn named_param<'a>(
    alloc: Global,
    names: &Names<'a>,
    all: &Scopes<'a>,
    before: &mut Scopes<'a>,
    decl: &Decl<Spelling<'a>, ()>,
) -> Result<Decl<Name, ()>, Fault>
    ensures { StepsOutcome result before.new (param_named names.now all.now decl.now before.old) }
{
    let name = Name::Local(before.next);
    let named = named_decl(alloc, names, all, name, decl)?;
    if before.is_taken(&decl.name) {
        return Err(refused(DECLARED_TWICE, decl.pos));
    }
    before.declare(&decl.name)?;
    Ok(named)
}

fn named_params<'a>(
    alloc: Global,
    names: &Names<'a>,
    all: &Scopes<'a>,
    before: &mut Scopes<'a>,
    decls: &[Decl<Spelling<'a>, ()>],
) -> Result<Seq<Decl<Name, ()>>, Fault>
    ensures { StepsOutcome result before.new (params_named names.now all.now decls.now before.old) }
{
    let mut out = Seq::new(alloc);
    for decl in decls {
        let named = named_param(alloc, names, all, before, decl)?;
        out.push(named)?;
    }
    Ok(out)
}

/// A head. After it `body`, which is empty before, has the scope of its parameters.
pub fn named_head<'a>(
    alloc: Global,
    names: &Names<'a>,
    body: &mut Scopes<'a>,
    head: &Head<Spelling<'a>, ()>,
) -> Result<Head<Name, ()>, Fault>
    requires { body.old ≡ no_scope }
    ensures { StepsOutcome result body.new (head_named names.now head.now) }
{
    let number = names.functions.number(&head.name);
    let result = named_type(alloc, names, &head.result)?;
    let all = scope_of_params(alloc, head.params.as_slice())?;
    let params = named_params(alloc, names, &all, body, head.params.as_slice())?;
    let bounds = named_bounds(alloc, names, &all, &head.bounds)?;
    Ok(Head {
        mode: head.mode,
        result,
        name: Name::Function(number),
        params,
        bounds,
        pos: head.pos,
    })
}
