//! Bounds-safe interfaces: which parameters they are, and what code of a mode sees of them.

ghost use Rattle.std.specs.Prelude.{◌≡◌, IfOk, is_some};
ghost use Rattle.std.specs.Option.{option_copied};
ghost use Rattle.ckc_syntax.specs.declared.tree.TypeTree.{out-TypeTree};
ghost use Rattle.ckc_typed.specs.Interfaces.{may_be_shared, shared_in, interface_to, is_interface, seen};
ghost use Rattle.ckc_typed.specs.Types.{type_written};

use crate::types::type_written;
use ckc_base::{Boxed, Mode};
use ckc_syntax::{Decl, Limits, Name, TypeTree};
use ckc_types::{CType, Kind};
use std::alloc::{AllocError, Global};

fn may_be_shared<N>(t: &TypeTree<N>) -> bool
    ensures { result ≡ may_be_shared (out-TypeTree N t.now) }
{
    match t {
        TypeTree::Void | TypeTree::Raw(_, _) => false,
        TypeTree::Int | TypeTree::Unsigned | TypeTree::Char | TypeTree::Struct(_, _) => true,
        TypeTree::One(_) | TypeTree::Arr(_) | TypeTree::Nt(_) => true,
    }
}

fn shared_in<N>(t: &TypeTree<N>) -> Option<&TypeTree<N>>
    ensures { option_copied result ≡ shared_in (out-TypeTree N t.now) }
{
    match t {
        TypeTree::Raw(inner, _) => {
            if may_be_shared(inner.get()) {
                Some(inner.get())
            } else {
                None
            }
        }
        TypeTree::Int | TypeTree::Unsigned | TypeTree::Char | TypeTree::Void => None,
        TypeTree::Struct(_, _) | TypeTree::One(_) | TypeTree::Arr(_) | TypeTree::Nt(_) => None,
    }
}

/// The type that a parameter points to, if it is an interface.
pub fn interface_to<N, A>(d: &Decl<N, A>) -> Option<&TypeTree<N>>
    ensures { option_copied result ≡ interface_to d.now }
{
    if d.bounds.is_some() {
        shared_in(&d.ctype)
    } else {
        None
    }
}

/// Whether a parameter is an interface.
pub fn is_interface<N, A>(d: &Decl<N, A>) -> bool
    ensures { result ≡ is_interface d.now }
{
    interface_to(d).is_some()
}

fn array_pointer(alloc: Global, t: &TypeTree<Name>) -> Result<CType, AllocError>
    ensures { IfOk result (λ u. u ≡ type_written (TypeTree.Arr t.now)) }
{
    let element = type_written(alloc, t)?;
    let boxed = Boxed::new(alloc, element)?;
    Ok(CType::Pointer(Kind::Arr, boxed))
}

/// The type of a parameter as code of a mode sees it.
pub fn type_seen<A>(alloc: Global, mode: Mode, d: &Decl<Name, A>) -> Result<CType, AllocError>
    ensures { IfOk result (λ t. t ≡ type_written (seen mode d.now).ctype) }
{
    match (mode, interface_to(d)) {
        (Mode::Checked, Some(t)) => array_pointer(alloc, t),
        _ => type_written(alloc, &d.ctype),
    }
}

/// The bounds of a parameter as code of a mode sees them.
pub fn bounds_seen<N, A>(mode: Mode, d: &Decl<N, A>) -> Option<&Limits<N, A>>
    ensures { option_copied result ≡ (seen mode d.now).bounds }
{
    match (mode, interface_to(d)) {
        (Mode::Unchecked, Some(_)) => None,
        _ => match &d.bounds {
            Some(bounds) => Some(bounds.get()),
            None => None,
        },
    }
}
