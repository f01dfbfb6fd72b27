//! The limits of results: what a program knows of a pointer that a function returns. The definitions stand in `specs/`.
#![tactic(auto)]

ghost use Rattle.std.specs.Prelude.{◌≡◌, ◌+ℤ◌, ◌-ℤ◌, IfOk};
ghost use Rattle.ckc_syntax.specs.declared.tree.Node.{out-Node};
ghost use Rattle.ckc_syntax.specs.declared.tree.Limits.{out-Limits};
ghost use Rattle.ckc_typed.specs.Amounts.{amount_of_limits};
ghost use Rattle.ckc_build_values.specs.Kinds.{size_behind};
ghost use Rattle.ckc_build_results.specs.Results.{own_end, with_variable, plus, less, shifted_by, shifted, end_named, pointer_form, bound_form, bound, limits_if, counted, limits_form, limits_of_count, result_limits};

use ckc_base::Boxed;
use ckc_build_values::ends::{limits_between, local_variable};
use ckc_build_values::kinds::{count_by_kind, size_behind};
use ckc_build_values::names::address_of;
use ckc_build_values::numbers::elements;
use ckc_source::{Base, Count, End, Limits, Variable};
use ckc_syntax::{Expr, Name, Node, TreeOp};
use ckc_typed::amounts::{amount, amount_of_limits};
use ckc_typed::{Amount, Note, Typed};
use ckc_types::{CType, Structs};
use std::alloc::{AllocError, Global};

fn own_end() -> End
    ensures { result ≡ own_end }
{
    End {
        base: Base::Own,
        variable: None,
        add: 0,
    }
}

fn with_variable(variable: Option<Variable>, x: Variable, base: Base, add: i32) -> Option<End>
    ensures { result ≡ with_variable variable x base add }
{
    match variable {
        None => Some(End {
            base,
            variable: Some(x),
            add,
        }),
        Some(_) => None,
    }
}

/// The sum of two numbers of elements.
fn added(a: i32, c: i64) -> Result<i32, AllocError>
    ensures { IfOk result (λ n. n ≡ a +ℤ c) }
{
    match i64::from(a).checked_add(c) {
        Some(n) => elements(n),
        None => Err(AllocError),
    }
}

fn taken(a: i32, c: i64) -> Result<i32, AllocError>
    ensures { IfOk result (λ n. n ≡ a -ℤ c) }
{
    match i64::from(a).checked_sub(c) {
        Some(n) => elements(n),
        None => Err(AllocError),
    }
}

fn plus(
    locals: &[ckc_typed::Variable],
    e: End,
    variable: Option<Name>,
    c: i64,
) -> Result<Option<End>, AllocError>
    ensures { IfOk result (λ r. r ≡ plus locals.now e variable c) }
{
    let add = added(e.add, c)?;
    match variable {
        None => Ok(Some(End {
            base: e.base,
            variable: e.variable,
            add,
        })),
        Some(Name::Local(k)) => Ok(with_variable(
            e.variable,
            local_variable(locals, k),
            e.base,
            add,
        )),
        Some(_) => Ok(None),
    }
}

fn less(e: End, variable: Option<Name>, c: i64) -> Result<Option<End>, AllocError>
    ensures { IfOk result (λ r. r ≡ less e variable c) }
{
    let add = taken(e.add, c)?;
    match variable {
        None => Ok(Some(End {
            base: e.base,
            variable: e.variable,
            add,
        })),
        Some(_) => Ok(None),
    }
}

fn shifted_by(
    locals: &[ckc_typed::Variable],
    op: TreeOp,
    e: End,
    a: Amount,
) -> Result<Option<End>, AllocError>
    ensures { IfOk result (λ r. r ≡ shifted_by locals.now op e a) }
{
    match op {
        TreeOp::Add => plus(locals, e, a.variable, a.number),
        TreeOp::Sub => less(e, a.variable, a.number),
        _ => Ok(None),
    }
}

fn shifted(
    locals: &[ckc_typed::Variable],
    op: TreeOp,
    e: Option<End>,
    a: Option<Amount>,
) -> Result<Option<End>, AllocError>
    ensures { IfOk result (λ r. r ≡ shifted locals.now op e a) }
{
    match (e, a) {
        (Some(e), Some(a)) => shifted_by(locals, op, e, a),
        (Some(_), None) => Ok(None),
        (None, _) => Ok(None),
    }
}

fn end_named(typed: &Typed, n: Name) -> Option<End>
    ensures { result ≡ end_named typed.now n }
{
    match n {
        Name::Local(k) => Some(End {
            base: Base::Local(k),
            variable: None,
            add: 0,
        }),
        Name::Static(k) => Some(End {
            base: Base::Fixed(address_of(typed, k)),
            variable: None,
            add: 0,
        }),
        Name::Function(_) | Name::Tag(_) | Name::Member(_) => None,
        Name::Getchar | Name::Putchar => None,
    }
}

fn pointer(typed: &Typed, e: &Expr<Name, Note>) -> Option<End>
    ensures { result ≡ pointer_form typed.now (out-Node Name Note e.now.node) }
{
    match &e.node {
        Node::Name(n) => end_named(typed, *n),
        _ => None,
    }
}

/// A pointer, alone or with an amount after it.
fn near(
    alloc: Global,
    typed: &Typed,
    locals: &[ckc_typed::Variable],
    e: &Expr<Name, Note>,
) -> Result<Option<End>, AllocError>
    ensures { IfOk result
        (λ r. r ≡ bound_form typed.now locals.now (out-Node Name Note e.now.node)) }
{
    match &e.node {
        Node::Bin(op, d, f) => {
            let a = amount(alloc, &typed.layout, f.get())?;
            shifted(locals, *op, pointer(typed, d.get()), a)
        }
        _ => Ok(pointer(typed, e)),
    }
}

/// A pointer, alone or with one or two amounts after it.
fn bound(
    alloc: Global,
    typed: &Typed,
    locals: &[ckc_typed::Variable],
    e: &Expr<Name, Note>,
) -> Result<Option<End>, AllocError>
    ensures { IfOk result (λ r. r ≡ bound typed.now locals.now e.now) }
{
    match &e.node {
        Node::Bin(op, d, f) => {
            let base = near(alloc, typed, locals, d.get())?;
            let a = amount(alloc, &typed.layout, f.get())?;
            shifted(locals, *op, base, a)
        }
        _ => Ok(pointer(typed, e)),
    }
}

fn limits_if(
    alloc: Global,
    structs: &Structs,
    t: &CType,
    lower: Option<End>,
    upper: Option<End>,
) -> Result<Option<Limits>, AllocError>
    ensures { IfOk result (λ l. l ≡ limits_if structs.now t.now lower upper) }
{
    match (lower, upper) {
        (Some(lower), Some(upper)) => {
            let made = limits_between(alloc, structs, t, lower, upper)?;
            Ok(Some(made))
        }
        (Some(_), None) => Ok(None),
        (None, _) => Ok(None),
    }
}

fn limits_written(
    alloc: Global,
    typed: &Typed,
    locals: &[ckc_typed::Variable],
    t: &CType,
    l: &ckc_syntax::Limits<Name, Note>,
) -> Result<Option<Limits>, AllocError>
    ensures { IfOk result
        (λ r. r ≡ limits_form typed.now locals.now t.now (out-Limits Name Note l.now)) }
{
    match l {
        ckc_syntax::Limits::Between(e, f, _) => {
            let lower = bound(alloc, typed, locals, e.get())?;
            let upper = bound(alloc, typed, locals, f.get())?;
            limits_if(alloc, &typed.layout, t, lower, upper)
        }
        _ => counted(alloc, typed, locals, t, l),
    }
}

/// As many elements after the pointer as bounds count.
fn counted(
    alloc: Global,
    typed: &Typed,
    locals: &[ckc_typed::Variable],
    t: &CType,
    l: &ckc_syntax::Limits<Name, Note>,
) -> Result<Option<Limits>, AllocError>
    ensures { IfOk result (λ r. r
        ≡ counted typed.now locals.now t.now (amount_of_limits typed.now.layout
        (size_behind typed.now.layout t.now) l.now)) }
{
    let size = size_behind(&typed.layout, t);
    let a = amount_of_limits(alloc, &typed.layout, size, l)?;
    let upper = shifted(locals, TreeOp::Add, Some(own_end()), a)?;
    limits_if(alloc, &typed.layout, t, Some(own_end()), upper)
}

fn limits_of_count(
    alloc: Global,
    structs: &Structs,
    t: &CType,
    count: Option<Count>,
) -> Result<Option<Limits>, AllocError>
    ensures { IfOk result (λ l. l ≡ limits_of_count structs.now t.now count) }
{
    match count {
        Some(Count::Fixed(c)) => {
            let upper = End {
                base: Base::Own,
                variable: None,
                add: c,
            };
            limits_if(alloc, structs, t, Some(own_end()), Some(upper))
        }
        Some(Count::Member(_, _, _)) => Ok(None),
        None => Ok(None),
    }
}

/// The limits of a result of a type, if they are known.
pub fn result_limits(
    alloc: Global,
    typed: &Typed,
    locals: &[ckc_typed::Variable],
    t: &CType,
    bounds: &Option<Boxed<ckc_syntax::Limits<Name, Note>>>,
) -> Result<Option<Limits>, AllocError>
    ensures { IfOk result (λ l. l ≡ result_limits typed.now locals.now t.now bounds.now) }
{
    match bounds {
        None => limits_of_count(alloc, &typed.layout, t, count_by_kind(t)),
        Some(l) => limits_written(alloc, typed, locals, t, l.get()),
    }
}
