//! The ranges of pointers.

ghost use Rattle.std.specs.Prelude.{◌≡◌, map, length, pos, slice_get, IfOk};
ghost use Rattle.std.specs.Option.{option_map};
ghost use Rattle.ckc_linear.specs.declared.forms.Base.TheVariants as base;
ghost use Rattle.ckc_typed.specs.Types.{kind_of};
ghost use Rattle.ckc_bounds_views.specs.ckc_bounds_points.specs.Shown.{known};
ghost use Rattle.ckc_bounds_views.specs.ckc_bounds_points.specs.Flow.{state};
ghost use Rattle.ckc_bounds_views.specs.ckc_bounds_points.specs.Forms.{constant_form};
ghost use Rattle.ckc_bounds_views.specs.ckc_bounds_ranges.specs.Rows.{range_from};
ghost use Rattle.ckc_bounds_views.specs.Ranges.{range_of_one, range_by_type, range_up_to, range_in_struct, range_of_member, range_of_object, range_of_static, range_of_name, form_or_fresh, range_counted, range_of_cast, range_of_result, range_of_call, range_of_allocation};
ghost use Rattle.ckc_bounds_views.specs.Views.{view, view_of_limits, view_of_node};

use crate::amounts::{amount, count_allocated, element_size};
use crate::fresh::{behind_parts, fresh_behind};
use ckc_base::{Boxed, Bytes, Seq};
use ckc_bounds_views::bounds_points::{Bounds, Frame, Point, Work, constant_form, moved_form};
use ckc_bounds_views::bounds_ranges::{
    range_from, range_of_array, range_of_ends, range_of_local, replaced_bounds,
};
use ckc_bounds_views::{
    Member, Own, bases_by, behind, fresh_form, is_checked, is_raw, is_raw_kind, member_bounds,
    member_of_node, own_by, values, values_of_node, variables_by,
};
use ckc_linear::{Base, Facts, Form};
use ckc_syntax::{Expr, Limits, Name, Node, TreeOp};
use ckc_typed::operands::same_element;
use ckc_typed::types::{is_pointer, kind_of};
use ckc_typed::{Note, Range};
use ckc_types::{CType, Kind, MemberBounds, Structs};
use std::alloc::AllocError;

/// One element, from a value on.
fn range_of_one(own: u32) -> Range
    ensures { result ≡ range_of_one own }
{
    range_from(Base::Value(own), constant_form(1))
}

/// The range of a pointer of a type if no bounds are written.
fn range_by_type(t: &CType, own: u32) -> Range
    ensures { result ≡ range_by_type (kind_of t.now) own }
{
    match kind_of(t) {
        Some(Kind::One) => range_of_one(own),
        Some(Kind::Nt) => range_from(Base::Value(own), constant_form(0)),
        Some(Kind::Raw | Kind::Arr) | None => Range::Missing,
    }
}

fn range_up_to(own: u32, k: Option<Form>) -> Range
    ensures { result ≡ range_up_to own k }
{
    match k {
        Some(k) => range_from(Base::Value(own), k),
        None => Range::Missing,
    }
}

fn range_in_struct(t: &CType, bounds: MemberBounds, own: Own) -> Range
    ensures { result ≡ range_in_struct (kind_of t.now) bounds own }
{
    match bounds {
        MemberBounds::Nothing => range_by_type(t, own.value),
        MemberBounds::Unknown | MemberBounds::NoForm => Range::Missing,
        MemberBounds::Fixed(c) => range_from(Base::Value(own.value), constant_form(c)),
        MemberBounds::Named(_, c) => range_up_to(
            own.value,
            moved_form(Some(fresh_form(own.fresh)), c),
        ),
    }
}

fn range_of_member(structs: &Structs, t: &CType, member: Option<Member>, own: Own) -> Range
    ensures { result ≡ range_of_member structs.now t.now member own }
{
    match member {
        Some(m) => {
            if is_checked(t) {
                range_in_struct(t, member_bounds(structs, m), own)
            } else {
                Range::Missing
            }
        }
        None => Range::Missing,
    }
}

fn range_of_object(frame: &Frame, k: u32, t: &CType, own: u32) -> Range
    ensures { result ≡ range_of_object (slice_get frame.now.objects k) t.now own }
{
    match frame.objects.get(k as usize) {
        Some(Some(b)) => range_of_ends(replaced_bounds(&[own_by(own)], &[], b)),
        Some(None) => range_by_type(t, own),
        None => range_by_type(t, own),
    }
}

fn range_of_static(frame: &Frame, k: u32, t: &CType, own: u32) -> Range
    ensures { result ≡ range_of_static frame.now k (slice_get frame.now.statics k) t.now own }
{
    match frame.statics.get(k as usize) {
        Some(object) => {
            if object.array.is_some() {
                range_of_array(k, object)
            } else {
                range_of_object(frame, k, t, own)
            }
        }
        None => range_of_object(frame, k, t, own),
    }
}

fn range_of_name(frame: &Frame, name: Name, t: &CType, own: u32, widened: &[u32]) -> Range
    ensures { result ≡ range_of_name frame.now name t.now own widened.now }
{
    match name {
        Name::Local(k) => range_of_local(frame, k, widened),
        Name::Static(k) => range_of_static(frame, k, t, own),
        Name::Function(_) | Name::Tag(_) | Name::Member(_) => Range::Missing,
        Name::Getchar | Name::Putchar => Range::Missing,
    }
}

fn form_or_fresh(k: Option<Form>, fresh: u32) -> Form
    ensures { result ≡ form_or_fresh k fresh }
{
    match k {
        Some(k) => k,
        None => fresh_form(fresh),
    }
}

fn range_of_limits(
    work: &mut Work,
    frame: &Frame,
    facts: &Facts,
    size: u32,
    limits: &Limits<Name, Note>,
    own: Own,
) -> Result<Range, AllocError>
    ensures { let v = view_of_limits frame.now limits.now in
        IfOk result (λ r. r ≡ range_counted v.counted (v.amount size (known facts.now)) own) }
{
    match limits {
        Limits::Count(_, _) => {
            let k = amount(work, frame, facts, size, limits)?;
            Ok(range_from(Base::Value(own.value), form_or_fresh(k, own.fresh)))
        }
        Limits::ByteCount(_, _) => {
            let k = amount(work, frame, facts, size, limits)?;
            Ok(range_from(Base::Value(own.value), form_or_fresh(k, own.fresh)))
        }
        Limits::Between(_, _, _) | Limits::Unknown(_) => Ok(Range::Missing),
    }
}

fn range_of_cast(
    work: &mut Work,
    frame: &Frame,
    facts: &Facts,
    t: &CType,
    limits: &Option<Boxed<Limits<Name, Note>>>,
    own: Own,
) -> Result<Range, AllocError>
    ensures { IfOk result (λ r. r ≡ range_of_cast frame.now.structs t.now
        (option_map (view_of_limits frame.now) limits.now) own (known facts.now)) }
{
    match limits {
        Some(l) => range_of_limits(
            work,
            frame,
            facts,
            element_size(&frame.structs, t),
            l.get(),
            own,
        ),
        None => Ok(range_of_one(own.value)),
    }
}

fn range_of_call(
    work: &mut Work,
    frame: &Frame,
    facts: &Facts,
    name: Name,
    es: &Seq<Expr<Name, Note>>,
    own: u32,
    first: u32,
) -> Result<Range, AllocError>
    ensures { IfOk result (λ r.
        r ≡ range_of_call frame.now name (map (view frame.now) es.now) own first
        (known facts.now)) }
{
    match name {
        Name::Function(k) => match frame.heads.get(k as usize) {
            Some(h) => {
                let params = h.params.as_slice();
                let mut bases = bases_by(work, frame, facts, params, es.as_slice(), first)?;
                bases.push(own_by(own))?;
                let variables = variables_by(work, frame, facts, params, es.as_slice())?;
                Ok(range_of_ends(replaced_bounds(
                    bases.as_slice(),
                    variables.as_slice(),
                    &h.bounds,
                )))
            }
            None => Ok(Range::Missing),
        },
        Name::Local(_) | Name::Static(_) | Name::Tag(_) | Name::Member(_) => Ok(Range::Missing),
        Name::Getchar | Name::Putchar => Ok(Range::Missing),
    }
}

fn range_of_allocation(
    work: &mut Work,
    frame: &Frame,
    facts: &Facts,
    e: &Expr<Name, Note>,
    own: Own,
) -> Result<Range, AllocError>
    ensures { let facts = known facts.now in
        IfOk result (λ r. r ≡ range_of_allocation facts ((view frame.now e.now).form facts) own) }
{
    let k = count_allocated(work, frame, facts, e)?;
    Ok(range_from(Base::Value(own.value), form_or_fresh(k, own.fresh)))
}

fn range_of_text(bytes: &Bytes, own: u32) -> Range
    ensures { result ≡ range_from (base.Value own) (constant_form (pos (length bytes.now))) }
{
    range_from(
        Base::Value(own),
        constant_form(bytes.as_slice().len() as i64),
    )
}

#[cycle(range)]
fn range_of_address(
    work: &mut Work,
    frame: &Frame,
    at: &Point,
    node: &Node<Name, Note>,
    own: Own,
    first_value: u32,
    first_fresh: u32,
) -> Result<Range, AllocError>
    ensures { IfOk result (λ r.
        r ≡ (view_of_node frame.now node.now).address own first_value first_fresh (state at.now)) }
{
    match node {
        Node::Un(TreeOp::Deref, e) => range(work, frame, at, e.get(), first_value, first_fresh),
        Node::Index(e, _) => {
            if is_raw(&e.get().note.ctype) {
                return Ok(Range::Missing);
            }
            range(work, frame, at, e.get(), first_value, first_fresh)
        }
        Node::Arrow(e, _, _) => {
            if is_raw(&e.get().note.ctype) {
                return Ok(Range::Missing);
            }
            Ok(range_of_one(own.value))
        }
        Node::Dot(e, _, _) => {
            if is_raw_kind(behind(frame, &e.get().node)) {
                return Ok(Range::Missing);
            }
            Ok(range_of_one(own.value))
        }
        Node::Number(_, _) | Node::Text(_) | Node::Null | Node::Size(_) | Node::Un(_, _) => Ok(
            range_of_one(own.value),
        ),
        Node::Name(_) | Node::Bin(_, _, _) | Node::Cast(_, _) | Node::Pick(_, _, _) => Ok(
            range_of_one(own.value),
        ),
        Node::Trusted(_, _, _) | Node::Tested(_, _, _) => Ok(range_of_one(own.value)),
        Node::Call(_, _) | Node::Calloc(_, _, _) => Ok(range_of_one(own.value)),
    }
}

#[cycle(range)]
fn range_of_node(
    work: &mut Work,
    frame: &Frame,
    at: &Point,
    node: &Node<Name, Note>,
    t: &CType,
    own: Own,
    first_value: u32,
    first_fresh: u32,
) -> Result<Range, AllocError>
    ensures { IfOk result (λ r.
        r ≡ (view_of_node frame.now node.now).range t.now own first_value first_fresh
        (state at.now)) }
{
    match node {
        Node::Name(n) => Ok(range_of_name(frame, *n, t, own.value, at.widened.as_slice())),
        Node::Text(bytes) => Ok(range_of_text(bytes, own.value)),
        Node::Un(TreeOp::Deref, _) => Ok(range_by_type(t, own.value)),
        Node::Un(TreeOp::Address, e) => {
            range_of_address(
                work,
                frame,
                at,
                &e.get().node,
                own,
                first_value,
                first_fresh,
            )
        }
        Node::Bin(_, e, f) => {
            if is_raw(t) {
                return Ok(Range::Missing);
            }
            if is_pointer(&e.get().note.ctype) {
                return range(work, frame, at, e.get(), first_value, first_fresh);
            }
            let value = first_value.saturating_add(values(frame, e.get()));
            let fresh = fresh_behind(work, frame, at, e.get(), first_fresh)?;
            range(work, frame, at, f.get(), value, fresh)
        }
        Node::Index(_, _) => Ok(range_by_type(t, own.value)),
        Node::Dot(_, _, _) => {
            Ok(range_of_member(&frame.structs, t, member_of_node(frame, node), own))
        }
        Node::Arrow(_, _, _) => {
            Ok(range_of_member(&frame.structs, t, member_of_node(frame, node), own))
        }
        Node::Cast(_, e) => {
            if same_element(t, &e.get().note.ctype) {
                return range(work, frame, at, e.get(), first_value, first_fresh);
            }
            Ok(Range::Missing)
        }
        Node::Trusted(_, _, l) => range_of_cast(work, frame, &at.facts, t, l, own),
        Node::Tested(_, _, l) => range_of_cast(work, frame, &at.facts, t, l, own),
        Node::Call(n, es) => {
            range_of_call(work, frame, &at.facts, *n, es, own.value, first_value)
        }
        Node::Calloc(_, e, _) => range_of_allocation(work, frame, &at.facts, e.get(), own),
        Node::Number(_, _) | Node::Null | Node::Size(_) | Node::Un(_, _) => Ok(Range::Missing),
        Node::Pick(_, _, _) => Ok(Range::Missing),
    }
}

fn is_null_node(frame: &Frame, node: &Node<Name, Note>) -> bool
    ensures { result ≡ (view_of_node frame.now node.now).null }
{
    match node {
        Node::Null => true,
        Node::Number(n, _) => *n == 0,
        Node::Text(_) | Node::Size(_) | Node::Un(_, _) | Node::Name(_) => false,
        Node::Index(_, _) | Node::Bin(_, _, _) | Node::Cast(_, _) | Node::Pick(_, _, _) => false,
        Node::Dot(_, _, _) | Node::Arrow(_, _, _) | Node::Trusted(_, _, _) => false,
        Node::Tested(_, _, _) | Node::Call(_, _) | Node::Calloc(_, _, _) => false,
    }
}

/// Whether an expression is null: `NULL` or the number 0.
pub fn is_null(frame: &Frame, e: &Expr<Name, Note>) -> bool
    ensures { result ≡ (view frame.now e.now).null }
{
    is_null_node(frame, &e.node)
}

/// Whether an expression is a `calloc`.
pub fn allocates(frame: &Frame, e: &Expr<Name, Note>) -> bool
    ensures { result ≡ (view frame.now e.now).allocates }
{
    match &e.node {
        Node::Calloc(_, _, _) => true,
        Node::Number(_, _) | Node::Text(_) | Node::Null | Node::Size(_) | Node::Un(_, _) => false,
        Node::Name(_) | Node::Bin(_, _, _) | Node::Cast(_, _) | Node::Pick(_, _, _) => false,
        Node::Dot(_, _, _) | Node::Arrow(_, _, _) | Node::Trusted(_, _, _) => false,
        Node::Index(_, _) | Node::Tested(_, _, _) | Node::Call(_, _) => false,
    }
}

/// The range of a pointer at a point, by the numbers of the first value and of the first fresh variable in it.
#[cycle(range)]
pub fn range(
    work: &mut Work,
    frame: &Frame,
    at: &Point,
    e: &Expr<Name, Note>,
    first_value: u32,
    first_fresh: u32,
) -> Result<Range, AllocError>
    ensures { IfOk result
        (λ r. r ≡ (view frame.now e.now).range first_value first_fresh (state at.now)) }
{
    if is_null_node(frame, &e.node) {
        return Ok(Range::Any);
    }
    if !is_pointer(&e.note.ctype) {
        return Ok(Range::Missing);
    }
    let own = Own {
        value: first_value.saturating_add(values_of_node(frame, &e.node)),
        fresh: behind_parts(work, frame, at, &e.node, first_fresh)?,
    };
    range_of_node(
        work,
        frame,
        at,
        &e.node,
        &e.note.ctype,
        own,
        first_value,
        first_fresh,
    )
}
