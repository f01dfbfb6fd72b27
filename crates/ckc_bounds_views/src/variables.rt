//! The fresh variables that expressions may need.

ghost use Rattle.std.specs.Prelude.{◌≡◌, ◌==◌, find, map, is_some, IfOk};
ghost use Rattle.std.specs.Option.{option_copied, option_map};
ghost use Rattle.ckc_types.specs.declared.types.CType.{out-CType};
ghost use Rattle.ckc_types.specs.Layout.{members_of};
ghost use Rattle.ckc_typed.specs.Types.{kind_of, element_of};
ghost use Rattle.ckc_bounds_views.specs.Fresh.{member_in, shape_of, member_bounds, type_of_shape, named_type, is_checked, member_fresh, counted_there, most_there, most_after, fresh_form};
ghost use Rattle.ckc_bounds_views.specs.Views.{view, view_of_limits, view_of_node};

use ckc_base::Boxed;
use ckc_bounds_points::Frame;
use ckc_linear::Form;
use ckc_syntax::{Expr, Limits, Name, Node};
use ckc_typed::Note;
use ckc_typed::constants::members_of;
use ckc_typed::types::{copied, kind_of};
use ckc_types::{CType, Kind, MemberBounds, MemberShape, Structs};
use std::alloc::{AllocError, Global};

/// A member of a structure, by the structure's tag and its own number.
#[derive(Clone, Copy)]
pub struct Member {
    pub tag: u32,
    pub number: u32,
}

/// The numbers that a pointer has: one if it stands for itself, and one if it needs a fresh variable.
#[derive(Clone, Copy)]
pub struct Own {
    pub value: u32,
    pub fresh: u32,
}

fn member_in(name: Name, owner: &CType) -> Option<Member>
    ensures { result ≡ member_in name (out-CType owner.now) }
{
    match (name, owner) {
        (Name::Member(m), CType::Struct(tag)) => Some(Member {
            tag: *tag,
            number: m,
        }),
        _ => None,
    }
}

fn member_behind(name: Name, pointer: &CType) -> Option<Member>
    ensures { result ≡ member_in name (out-CType (element_of pointer.now)) }
{
    match pointer {
        CType::Pointer(_, to) => member_in(name, to.get()),
        CType::Int | CType::Unsigned | CType::Char | CType::Void | CType::Struct(_) => None,
    }
}

/// The member of a structure that a node is.
pub fn member_of_node(frame: &Frame, node: &Node<Name, Note>) -> Option<Member>
    ensures { result ≡ (view_of_node frame.now node.now).member }
{
    match node {
        Node::Dot(e, n, _) => member_in(*n, &e.get().note.ctype),
        Node::Arrow(e, n, _) => member_behind(*n, &e.get().note.ctype),
        Node::Number(_, _) | Node::Text(_) | Node::Null | Node::Size(_) | Node::Un(_, _) => None,
        Node::Name(_) | Node::Bin(_, _, _) | Node::Cast(_, _) | Node::Pick(_, _, _) => None,
        Node::Index(_, _) | Node::Trusted(_, _, _) | Node::Tested(_, _, _) => None,
        Node::Call(_, _) | Node::Calloc(_, _, _) => None,
    }
}

fn shape_of(structs: &Structs, tag: u32, m: u32) -> Option<&MemberShape>
    ensures { option_copied result ≡ shape_of structs.now tag m }
{
    members_of(structs, tag).iter().find(|s| s.name == m)
}

/// The bounds of a member.
pub fn member_bounds(structs: &Structs, m: Member) -> MemberBounds
    ensures { result ≡ member_bounds structs.now m }
{
    match shape_of(structs, m.tag, m.number) {
        Some(s) => s.bounds,
        None => MemberBounds::Nothing,
    }
}

fn type_of_member(alloc: Global, structs: &Structs, tag: u32, m: u32) -> Result<CType, AllocError>
    ensures { IfOk result (λ t. t ≡ type_of_shape (shape_of structs.now tag m)) }
{
    match shape_of(structs, tag, m) {
        Some(s) => copied(alloc, &s.ctype),
        None => Ok(CType::Int),
    }
}

/// Whether a type is a checked pointer.
pub fn is_checked(t: &CType) -> bool
    ensures { result ≡ is_checked (kind_of t.now) }
{
    match kind_of(t) {
        Some(Kind::One | Kind::Arr | Kind::Nt) => true,
        Some(Kind::Raw) | None => false,
    }
}

fn names_member(structs: &Structs, m: Member) -> bool
    ensures { result ≡ is_some (named_type structs.now m.tag (member_bounds structs.now m)) }
{
    match member_bounds(structs, m) {
        MemberBounds::Named(_, _) => true,
        MemberBounds::Nothing | MemberBounds::Unknown | MemberBounds::NoForm => false,
        MemberBounds::Fixed(_) => false,
    }
}

fn named_type(alloc: Global, structs: &Structs, m: Member) -> Result<Option<CType>, AllocError>
    ensures { IfOk result (λ t. t ≡ named_type structs.now m.tag (member_bounds structs.now m)) }
{
    match member_bounds(structs, m) {
        MemberBounds::Named(n, _) => {
            let t = type_of_member(alloc, structs, m.tag, n)?;
            Ok(Some(t))
        }
        MemberBounds::Nothing | MemberBounds::Unknown | MemberBounds::NoForm => Ok(None),
        MemberBounds::Fixed(_) => Ok(None),
    }
}

fn member_may_need(structs: &Structs, t: &CType, member: Option<Member>) -> bool
    ensures { result ≡ is_some (member_fresh structs.now t.now member) }
{
    match member {
        Some(m) => is_checked(t) && names_member(structs, m),
        None => false,
    }
}

fn member_fresh(
    alloc: Global,
    structs: &Structs,
    t: &CType,
    member: Option<Member>,
) -> Result<Option<CType>, AllocError>
    ensures { IfOk result (λ u. u ≡ member_fresh structs.now t.now member) }
{
    match member {
        Some(m) => {
            if is_checked(t) {
                named_type(alloc, structs, m)
            } else {
                Ok(None)
            }
        }
        None => Ok(None),
    }
}

fn counts(frame: &Frame, limits: &Option<Boxed<Limits<Name, Note>>>) -> bool
    ensures { result ≡ is_some (counted_there (option_map (view_of_limits frame.now) limits.now)) }
{
    match limits {
        Some(l) => match l.get() {
            Limits::Count(_, _) | Limits::ByteCount(_, _) => true,
            Limits::Between(_, _, _) | Limits::Unknown(_) => false,
        },
        None => false,
    }
}

fn counted(
    alloc: Global,
    frame: &Frame,
    limits: &Option<Boxed<Limits<Name, Note>>>,
) -> Result<Option<CType>, AllocError>
    ensures { IfOk result
        (λ t. t ≡ counted_there (option_map (view_of_limits frame.now) limits.now)) }
{
    match limits {
        Some(l) => match l.get() {
            Limits::Count(e, _) => {
                let t = copied(alloc, &e.get().note.ctype)?;
                Ok(Some(t))
            }
            Limits::ByteCount(e, _) => {
                let t = copied(alloc, &e.get().note.ctype)?;
                Ok(Some(t))
            }
            Limits::Between(_, _, _) | Limits::Unknown(_) => Ok(None),
        },
        None => Ok(None),
    }
}

fn may_need(frame: &Frame, node: &Node<Name, Note>, t: &CType) -> bool
    ensures { result ≡ is_some ((view_of_node frame.now node.now).may_need t.now) }
{
    match node {
        Node::Dot(_, _, _) => member_may_need(&frame.structs, t, member_of_node(frame, node)),
        Node::Arrow(_, _, _) => member_may_need(&frame.structs, t, member_of_node(frame, node)),
        Node::Trusted(_, _, l) => counts(frame, l),
        Node::Tested(_, _, l) => counts(frame, l),
        Node::Calloc(_, _, _) => true,
        Node::Number(_, _) | Node::Text(_) | Node::Null | Node::Size(_) | Node::Un(_, _) => false,
        Node::Name(_) | Node::Bin(_, _, _) | Node::Cast(_, _) | Node::Pick(_, _, _) => false,
        Node::Index(_, _) | Node::Call(_, _) => false,
    }
}

/// The type of the fresh variable that a node may need.
pub fn type_needed(
    alloc: Global,
    frame: &Frame,
    node: &Node<Name, Note>,
    t: &CType,
) -> Result<Option<CType>, AllocError>
    ensures { IfOk result (λ u. u ≡ (view_of_node frame.now node.now).may_need t.now) }
{
    match node {
        Node::Dot(_, _, _) => member_fresh(alloc, &frame.structs, t, member_of_node(frame, node)),
        Node::Arrow(_, _, _) => member_fresh(alloc, &frame.structs, t, member_of_node(frame, node)),
        Node::Trusted(_, _, l) => counted(alloc, frame, l),
        Node::Tested(_, _, l) => counted(alloc, frame, l),
        Node::Calloc(_, _, _) => Ok(Some(CType::Int)),
        Node::Number(_, _) | Node::Text(_) | Node::Null | Node::Size(_) | Node::Un(_, _) => Ok(
            None,
        ),
        Node::Name(_) | Node::Bin(_, _, _) | Node::Cast(_, _) | Node::Pick(_, _, _) => Ok(None),
        Node::Index(_, _) | Node::Call(_, _) => Ok(None),
    }
}

#[cycle(most_fresh)]
fn most_of_limits(frame: &Frame, limits: &Limits<Name, Note>) -> u32
    ensures { result ≡ (view_of_limits frame.now limits.now).most_fresh }
{
    match limits {
        Limits::Count(e, _) => most_fresh(frame, e.get()),
        Limits::ByteCount(e, _) => most_fresh(frame, e.get()),
        Limits::Between(e, f, _) => {
            most_fresh(frame, e.get()).saturating_add(most_fresh(frame, f.get()))
        }
        Limits::Unknown(_) => 0,
    }
}

#[cycle(most_fresh)]
fn most_of_bounds(frame: &Frame, bounds: &Option<Boxed<Limits<Name, Note>>>) -> u32
    ensures { result ≡ most_there (option_map (view_of_limits frame.now) bounds.now) }
{
    match bounds {
        Some(limits) => most_of_limits(frame, limits.get()),
        None => 0,
    }
}

#[cycle(most_fresh)]
fn most_of_all(frame: &Frame, es: &[Expr<Name, Note>]) -> u32
    ensures { result ≡ most_after 0 (map (view frame.now) es.now) }
{
    let mut n = 0u32;
    for e in es {
        n = n.saturating_add(most_fresh(frame, e));
    }
    n
}

/// How many fresh variables the parts of a node may need.
#[cycle(most_fresh)]
fn most_of_node(frame: &Frame, node: &Node<Name, Note>) -> u32
    ensures { result ≡ (view_of_node frame.now node.now).most_fresh }
{
    match node {
        Node::Un(_, e) | Node::Dot(e, _, _) | Node::Arrow(e, _, _) => most_fresh(frame, e.get()),
        Node::Cast(_, e) | Node::Calloc(_, e, _) => most_fresh(frame, e.get()),
        Node::Bin(_, e, f) => {
            most_fresh(frame, e.get()).saturating_add(most_fresh(frame, f.get()))
        }
        Node::Index(e, f) => {
            most_fresh(frame, e.get()).saturating_add(most_fresh(frame, f.get()))
        }
        Node::Pick(e, f, g) => most_fresh(frame, e.get())
            .saturating_add(most_fresh(frame, f.get()))
            .saturating_add(most_fresh(frame, g.get())),
        Node::Trusted(_, e, l) => {
            most_fresh(frame, e.get()).saturating_add(most_of_bounds(frame, l))
        }
        Node::Tested(_, e, l) => {
            most_fresh(frame, e.get()).saturating_add(most_of_bounds(frame, l))
        }
        Node::Call(_, es) => most_of_all(frame, es.as_slice()),
        Node::Number(_, _) | Node::Text(_) | Node::Null | Node::Size(_) | Node::Name(_) => 0,
    }
}

/// How many fresh variables an expression may need.
#[cycle(most_fresh)]
pub fn most_fresh(frame: &Frame, e: &Expr<Name, Note>) -> u32
    ensures { result ≡ (view frame.now e.now).most_fresh }
{
    let n = most_of_node(frame, &e.node);
    if may_need(frame, &e.node, &e.note.ctype) {
        n.saturating_add(1)
    } else {
        n
    }
}

/// The form of a fresh variable, by its number among the locals.
pub fn fresh_form(k: u32) -> Form
    ensures { result ≡ fresh_form k }
{
    Form {
        base: None,
        var: k.saturating_add(1),
        add: 0,
    }
}
