//! What an assignment may change: a local, a member of a structure, or other memory.

ghost use Rattle.std.specs.Prelude.{◌≡◌, unwrap_or};
ghost use Rattle.std.specs.Option.{option_copied};
ghost use Rattle.ckc_syntax.specs.declared.tree.Node.{out-Node};
ghost use Rattle.ckc_bounds_views.specs.Views.{view};
ghost use Rattle.ckc_bounds_stores.specs.Targets.{local_named, local_of, member_variable, counted, bounds_by_member, written_there, object_named, written_in, bounds_by, memory_bounds};

use ckc_bounds_declared::bounds_by_type;
use ckc_bounds_points::{Bounds, Frame, base_form};
use ckc_bounds_views::{Member, member_bounds, member_of_node};
use ckc_linear::{Base, Form};
use ckc_syntax::{Expr, Name, Node};
use ckc_typed::Note;
use ckc_types::{CType, MemberBounds};

fn local_named(name: Name) -> Option<u32>
    ensures { result ≡ local_named name }
{
    match name {
        Name::Local(k) => Some(k),
        _ => None,
    }
}

/// The local that an expression is.
pub fn local_of(e: &Expr<Name, Note>) -> Option<u32>
    ensures { result ≡ local_of e.now }
{
    match &e.node {
        Node::Name(name) => local_named(*name),
        _ => None,
    }
}

/// The member that an expression is.
pub fn member_of(frame: &Frame, e: &Expr<Name, Note>) -> Option<Member>
    ensures { result ≡ (view frame.now e.now).member }
{
    member_of_node(frame, &e.node)
}

/// The variable that a member is in the bounds of its structure's members.
pub fn member_variable(m: u32) -> u32
    ensures { result ≡ member_variable m }
{
    m.saturating_add(1)
}

fn counted(k: Form) -> Bounds
    ensures { result ≡ counted k }
{
    Bounds::Known(base_form(Base::Value(0)), k)
}

fn bounds_by_member(t: &CType, bounds: MemberBounds) -> Bounds
    ensures { result ≡ bounds_by_member t.now bounds }
{
    match bounds {
        MemberBounds::Nothing => bounds_by_type(Base::Value(0), t),
        MemberBounds::Unknown | MemberBounds::NoForm => Bounds::Unknown,
        MemberBounds::Fixed(c) => counted(Form {
            base: Some(Base::Value(0)),
            var: 0,
            add: c,
        }),
        MemberBounds::Named(m, c) => counted(Form {
            base: Some(Base::Value(0)),
            var: member_variable(m),
            add: c,
        }),
    }
}

fn written_there(bounds: Option<&Option<Bounds>>) -> Option<Bounds>
    ensures { result ≡ written_there (option_copied bounds.entry) }
{
    match bounds {
        Some(b) => *b,
        None => None,
    }
}

fn object_named(frame: &Frame, name: Name) -> Option<Bounds>
    ensures { result ≡ object_named frame.now name }
{
    match name {
        Name::Static(k) => written_there(frame.objects.get(k as usize)),
        _ => None,
    }
}

fn written_in(frame: &Frame, node: &Node<Name, Note>) -> Option<Bounds>
    ensures { result ≡ written_in frame.now (out-Node Name Note node.now) }
{
    match node {
        Node::Name(name) => object_named(frame, *name),
        _ => None,
    }
}

fn bounds_or(written: Option<Bounds>, other: Bounds) -> Bounds
    ensures { result ≡ unwrap_or written other }
{
    match written {
        Some(b) => b,
        None => other,
    }
}

/// The bounds of a pointer in memory, from its value, the base `Value(0)`.
pub fn memory_bounds(frame: &Frame, e: &Expr<Name, Note>) -> Bounds
    ensures { result ≡ memory_bounds frame.now e.now }
{
    match member_of(frame, e) {
        Some(m) => bounds_by_member(&e.note.ctype, member_bounds(&frame.structs, m)),
        None => bounds_or(
            written_in(frame, &e.node),
            bounds_by_type(Base::Value(0), &e.note.ctype),
        ),
    }
}
