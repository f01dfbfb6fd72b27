//! Where values go.

ghost use Rattle.std.specs.Prelude.{◌≡◌, IfOk};
ghost use Rattle.ckc_source.specs.Code as code;
ghost use Rattle.ckc_source.specs.Code.{Nothing};
ghost use Rattle.ckc_syntax.specs.declared.tree.Node.{out-Node};
ghost use Rattle.ckc_build_values.specs.Places.{place_of};
ghost use Rattle.ckc_build_elaborate.specs.Steps as steps;
ghost use Rattle.ckc_build_elaborate.specs.code.Made.{destination_made};
ghost use Rattle.ckc_build_elaborate.specs.Steps.{is_terminated, memory, name_target, target_of, name_kept, kept_form, local_target, nowhere, destination_of, destination_for};

use ckc_base::Boxed;
use ckc_build_values::expressions::place;
use ckc_build_values::kinds::width_of;
use ckc_build_values::names::address_of;
use ckc_build_values::places::Placed;
use ckc_build_values::texts::Text;
use ckc_source::{Kept, TargetTree};
use ckc_syntax::{Expr, Name, Node};
use ckc_typed::conversions::is_terminated;
use ckc_typed::{Note, Variable};
use ckc_types::CType;
use std::alloc::{AllocError, Global};

/// Where a value goes: what it is written to, what keeps it if it is the result of a call, and whether a block that
/// is made for it is null-terminated.
#[derive(Drop)]
pub struct Destination {
    pub target: Boxed<TargetTree>,
    pub kept: Option<Kept>,
    pub terminated: bool,
}

/// Nowhere, as the result of a call that is a statement.
pub fn nowhere(alloc: Global) -> Result<Destination, AllocError>
    ensures { IfOk result (λ d. destination_made d ≡ nowhere) }
{
    let target = Boxed::new(alloc, TargetTree::Nothing)?;
    Ok(Destination {
        target,
        kept: None,
        terminated: false,
    })
}

fn memory(t: &CType, w: Placed) -> TargetTree
    ensures { code.target_of result ≡ memory t.now (place_of w) }
{
    let Placed {
        access,
        pointer,
        index,
    } = w;
    TargetTree::Memory(width_of(t), access, pointer, index)
}

fn name_target(t: &CType, n: Name, w: Placed) -> TargetTree
    ensures { code.target_of result ≡ name_target t.now n (place_of w) }
{
    match n {
        Name::Local(x) => TargetTree::Local(x, width_of(t)),
        Name::Static(_) | Name::Function(_) | Name::Tag(_) | Name::Member(_) => memory(t, w),
        Name::Getchar | Name::Putchar => memory(t, w),
    }
}

/// What an assignment to an expression writes.
pub fn target_of(
    alloc: Global,
    typed: &Text,
    locals: &[Variable],
    e: &Expr<Name, Note>,
    first: u32,
) -> Result<TargetTree, AllocError>
    ensures { IfOk result (λ t. code.target_of t ≡ target_of typed.now locals.now first e.now) }
{
    let w = place(alloc, typed, locals, e, first)?;
    match &e.node {
        Node::Name(n) => Ok(name_target(&e.note.ctype, *n, w)),
        _ => Ok(memory(&e.note.ctype, w)),
    }
}

fn name_kept(typed: &Text, t: &CType, n: Name) -> Option<Kept>
    ensures { result ≡ name_kept typed.now t.now n }
{
    match n {
        Name::Local(x) => Some(Kept::Local(x, width_of(t))),
        Name::Static(k) => Some(Kept::Static(address_of(typed.get(), k), width_of(t))),
        Name::Function(_) | Name::Tag(_) | Name::Member(_) => None,
        Name::Getchar | Name::Putchar => None,
    }
}

fn kept_of(typed: &Text, e: &Expr<Name, Note>) -> Option<Kept>
    ensures { result ≡ kept_form typed.now e.now.note.ctype (out-Node Name Note e.now.node) }
{
    match &e.node {
        Node::Name(n) => name_kept(typed, &e.note.ctype, *n),
        _ => None,
    }
}

/// Whether a block that is made for an expression is null-terminated.
pub fn is_terminated_at(e: &Expr<Name, Note>) -> bool
    ensures { result ≡ is_terminated e.now.note.ctype }
{
    is_terminated(&e.note.ctype)
}

/// Where an assignment to an expression puts a value.
pub fn destination_of(
    alloc: Global,
    typed: &Text,
    locals: &[Variable],
    e: &Expr<Name, Note>,
    first: u32,
) -> Result<Destination, AllocError>
    ensures { IfOk result
        (λ d. destination_made d ≡ destination_of typed.now locals.now first e.now) }
{
    let target = target_of(alloc, typed, locals, e, first)?;
    let target = Boxed::new(alloc, target)?;
    Ok(Destination {
        target,
        kept: kept_of(typed, e),
        terminated: is_terminated_at(e),
    })
}

fn local_target(t: &CType, n: Name) -> TargetTree
    ensures { code.target_of result ≡ local_target t.now n }
{
    match n {
        Name::Local(x) => TargetTree::Local(x, width_of(t)),
        Name::Static(_) | Name::Function(_) | Name::Tag(_) => TargetTree::Nothing,
        Name::Member(_) | Name::Getchar | Name::Putchar => TargetTree::Nothing,
    }
}

/// A local of a type that is declared.
pub fn destination_for(
    alloc: Global,
    typed: &Text,
    t: &CType,
    n: Name,
) -> Result<Destination, AllocError>
    ensures { IfOk result (λ d. destination_made d ≡ destination_for typed.now t.now n) }
{
    let target = Boxed::new(alloc, local_target(t, n))?;
    Ok(Destination {
        target,
        kept: name_kept(typed, t, n),
        terminated: is_terminated(t),
    })
}
