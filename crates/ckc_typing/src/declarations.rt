//! Declarations with their bounds and initialisers noted.

ghost use Rattle.std.specs.Prelude.{◌≡◌, IfOk};
ghost use Rattle.ckc_typed.specs.Declarations.{init_typed, decl_with, parts_typed, judged, bare_fault, start_fault, local_fault, static_fault, bare_typed, bares_typed, local_typed, static_typed};
ghost use Rattle.ckc_base.specs.Outcomes.{AnswersOutcome};

use crate::expressions::{boxed_expr, typed_bounds, typed_exprs};
use ckc_base::{Boxed, Fault, Mode, Seq, refused};
use ckc_syntax::{Decl, Init, Limits, Name, copied_type};
use ckc_typed::codes::{BAD_CONVERSION, BAD_OPERANDS, NO_INITIALISER};
use ckc_typed::conversions::converts;
use ckc_typed::types::{is_plain, is_scalar_type, kind_of, type_written};
use ckc_typed::{Note, Variable};
use ckc_types::{CType, Kind, Structs};
use ckc_typing_environment::scope::FileScope;
use ckc_typing_statics::initials::{count_fits, is_element_for};
use std::alloc::{AllocError, Global};

fn typed_init(
    alloc: Global,
    globals: &FileScope,
    variables: &[Variable],
    mode: Mode,
    init: &Init<Name, ()>,
) -> Result<Init<Name, Note>, Fault>
    ensures { AnswersOutcome result (init_typed globals.now variables.now mode init.now) }
{
    match init {
        Init::Nothing => Ok(Init::Nothing),
        Init::One(e) => {
            let typed = boxed_expr(alloc, globals, variables, mode, e.get())?;
            Ok(Init::One(typed))
        }
        Init::Many(es) => {
            let all = typed_exprs(alloc, globals, variables, mode, es.as_slice())?;
            Ok(Init::Many(all))
        }
    }
}

fn decl_with(
    alloc: Global,
    d: &Decl<Name, ()>,
    bounds: Option<Boxed<Limits<Name, Note>>>,
    init: Init<Name, Note>,
) -> Result<Decl<Name, Note>, AllocError>
    ensures { IfOk result (λ n. n ≡ decl_with d.now bounds init) }
{
    let ctype = copied_type(alloc, &d.ctype)?;
    Ok(Decl {
        ctype,
        name: d.name,
        length: d.length,
        bounds,
        init,
        pos: d.pos,
    })
}

fn typed_parts(
    alloc: Global,
    globals: &FileScope,
    variables: &[Variable],
    mode: Mode,
    d: &Decl<Name, ()>,
) -> Result<Decl<Name, Note>, Fault>
    ensures { AnswersOutcome result (parts_typed globals.now variables.now mode d.now) }
{
    let bounds = typed_bounds(alloc, globals, variables, mode, &d.bounds)?;
    let init = typed_init(alloc, globals, variables, mode, &d.init)?;
    let typed = decl_with(alloc, d, bounds, init)?;
    Ok(typed)
}

/// The declaration, or its refusal at the declared name.
fn judged(fault: Option<u16>, d: Decl<Name, Note>) -> Result<Decl<Name, Note>, Fault>
    ensures { AnswersOutcome result (judged fault d) }
{
    match fault {
        None => Ok(d),
        Some(code) => Err(refused(code, d.pos)),
    }
}

fn bare_fault(alloc: Global, d: &Decl<Name, Note>) -> Result<Option<u16>, AllocError>
    ensures { IfOk result (λ f. f ≡ bare_fault d.now) }
{
    let t = type_written(alloc, &d.ctype)?;
    if is_scalar_type(&t) && is_plain(d.length) && matches!(d.init, Init::Nothing) {
        Ok(None)
    } else {
        Ok(Some(BAD_OPERANDS))
    }
}

fn start_fault(t: &CType, init: &Init<Name, Note>) -> Option<u16>
    ensures { result ≡ start_fault t.now init.now }
{
    match init {
        Init::Nothing => {
            if let Some(Kind::One | Kind::Arr | Kind::Nt) = kind_of(t) {
                Some(NO_INITIALISER)
            } else {
                None
            }
        }
        Init::One(e) => {
            if converts(t, e.get()) {
                None
            } else {
                Some(BAD_CONVERSION)
            }
        }
        Init::Many(_) => Some(BAD_OPERANDS),
    }
}

fn local_fault(alloc: Global, d: &Decl<Name, Note>) -> Result<Option<u16>, AllocError>
    ensures { IfOk result (λ f. f ≡ local_fault d.now) }
{
    let t = type_written(alloc, &d.ctype)?;
    if is_scalar_type(&t) && is_plain(d.length) {
        Ok(start_fault(&t, &d.init))
    } else {
        Ok(Some(BAD_OPERANDS))
    }
}

fn static_fault(
    alloc: Global,
    structs: &Structs,
    d: &Decl<Name, Note>,
) -> Result<Option<u16>, AllocError>
    ensures { IfOk result (λ f. f ≡ static_fault structs.now d.now) }
{
    let t = type_written(alloc, &d.ctype)?;
    let fits = is_element_for(d.length, &t) && count_fits(alloc, structs, &t, d)?;
    if fits {
        Ok(None)
    } else {
        Ok(Some(BAD_OPERANDS))
    }
}

/// A parameter or a member.
fn typed_bare(
    alloc: Global,
    globals: &FileScope,
    variables: &[Variable],
    mode: Mode,
    d: &Decl<Name, ()>,
) -> Result<Decl<Name, Note>, Fault>
    ensures { AnswersOutcome result (bare_typed globals.now variables.now mode d.now) }
{
    let typed = typed_parts(alloc, globals, variables, mode, d)?;
    let fault = bare_fault(alloc, &typed)?;
    judged(fault, typed)
}

/// Parameters or members, from the first to the last.
pub fn typed_bares(
    alloc: Global,
    globals: &FileScope,
    variables: &[Variable],
    mode: Mode,
    ds: &[Decl<Name, ()>],
) -> Result<Seq<Decl<Name, Note>>, Fault>
    ensures { AnswersOutcome result (bares_typed globals.now variables.now mode ds.now) }
{
    let mut all = Seq::new(alloc);
    for d in ds {
        let typed = typed_bare(alloc, globals, variables, mode, d)?;
        all.push(typed)?;
    }
    Ok(all)
}

/// A local.
pub fn typed_local(
    alloc: Global,
    globals: &FileScope,
    variables: &[Variable],
    mode: Mode,
    d: &Decl<Name, ()>,
) -> Result<Decl<Name, Note>, Fault>
    ensures { AnswersOutcome result (local_typed globals.now variables.now mode d.now) }
{
    let typed = typed_parts(alloc, globals, variables, mode, d)?;
    let fault = local_fault(alloc, &typed)?;
    judged(fault, typed)
}

/// An object of file scope.
pub fn typed_static(
    alloc: Global,
    globals: &FileScope,
    mode: Mode,
    d: &Decl<Name, ()>,
) -> Result<Decl<Name, Note>, Fault>
    ensures { AnswersOutcome result (static_typed globals.now mode d.now) }
{
    let typed = typed_parts(alloc, globals, &[], mode, d)?;
    let fault = static_fault(alloc, globals.structs(), &typed)?;
    judged(fault, typed)
}
