//! The limits of local pointers.

ghost use Rattle.std.specs.Prelude.{◌≡◌, IfOk};
ghost use Rattle.std.specs.Option.{option_copied};
ghost use Rattle.ckc_build_values.specs.Ends.{integer_in_variable, local_variable, limits_between, base_at, variable_at, end_at, limits_at};

use crate::kinds::{integer_of, pointee_of};
use crate::names::address_of;
use crate::numbers::elements;
use ckc_linear::Form;
use ckc_source::{Base, End, Integer, Limits, Variable};
use ckc_syntax::Name;
use ckc_typed::Typed;
use ckc_typed::lookups::variable_named;
use ckc_types::{CType, Structs};
use std::alloc::{AllocError, Global};

fn integer_in_variable(v: Option<&ckc_typed::Variable>) -> Integer
    ensures { result ≡ integer_in_variable (option_copied v.entry) }
{
    match v {
        Some(v) => integer_of(&v.ctype),
        None => Integer::Int,
    }
}

/// A local with the type that it is declared with.
pub fn local_variable(locals: &[ckc_typed::Variable], k: u32) -> Variable
    ensures { result ≡ local_variable locals.now k }
{
    Variable {
        local: k,
        form: integer_in_variable(variable_named(locals, Name::Local(k))),
    }
}

/// The limits between two ends, for a pointer of a type.
pub fn limits_between(
    alloc: Global,
    structs: &Structs,
    t: &CType,
    lower: End,
    upper: End,
) -> Result<Limits, AllocError>
    ensures { IfOk result (λ l. l ≡ limits_between structs.now t.now lower upper) }
{
    let to = pointee_of(alloc, structs, t)?;
    Ok(Limits { to, lower, upper })
}

/// What a form of the range of a local lies at; at the local itself it is the pointer's own value.
fn base_at(typed: &Typed, own: u32, base: Option<ckc_linear::Base>) -> Base
    ensures { result ≡ base_at typed.now own base }
{
    match base {
        Some(ckc_linear::Base::Local(k)) => { if k == own { Base::Own } else { Base::Local(k) } }
        Some(ckc_linear::Base::Array(k)) => Base::Fixed(address_of(typed, k)),
        Some(ckc_linear::Base::Value(_)) => Base::Own,
        None => Base::Own,
    }
}

fn variable_at(locals: &[ckc_typed::Variable], x: u32) -> Option<Variable>
    ensures { result ≡ variable_at locals.now x }
{
    if x == 0 {
        None
    } else {
        Some(local_variable(locals, x - 1))
    }
}

fn end_at(
    typed: &Typed,
    locals: &[ckc_typed::Variable],
    own: u32,
    f: Form,
) -> Result<End, AllocError>
    ensures { IfOk result (λ e. e ≡ end_at typed.now locals.now own f) }
{
    let add = elements(f.add)?;
    Ok(End {
        base: base_at(typed, own, f.base),
        variable: variable_at(locals, f.var),
        add,
    })
}

/// The range of a local pointer of a type, from a form up to another.
pub fn limits_at(
    alloc: Global,
    typed: &Typed,
    locals: &[ckc_typed::Variable],
    t: &CType,
    own: u32,
    l: Form,
    u: Form,
) -> Result<Limits, AllocError>
    ensures { IfOk result (λ r. r ≡ limits_at typed.now locals.now t.now own l u) }
{
    let lower = end_at(typed, locals, own, l)?;
    let upper = end_at(typed, locals, own, u)?;
    limits_between(alloc, &typed.layout, t, lower, upper)
}
