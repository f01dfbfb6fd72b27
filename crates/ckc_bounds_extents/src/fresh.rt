//! The fresh variables that expressions need at a point.

ghost use Rattle.std.specs.Prelude.{◌≡◌, ◌++◌, [], map, OnOk, IfOk, MatchOption};
ghost use Rattle.std.specs.Option.{option_map};
ghost use Rattle.ckc_bounds_views.specs.ckc_bounds_points.specs.Shown.{known};
ghost use Rattle.ckc_bounds_views.specs.ckc_bounds_points.specs.Flow.{state};
ghost use Rattle.ckc_bounds_views.specs.Parts.{capped, next_behind, fresh_behind};
ghost use Rattle.ckc_bounds_views.specs.Fresh.{own_fresh, fresh_there, all_fresh, right_fresh, with_types};
ghost use Rattle.ckc_bounds_views.specs.Views.{view, view_of_limits, view_of_node};

use crate::amounts::has_form;
use ckc_base::{Boxed, Seq};
use ckc_bounds_views::bounds_points::{Frame, Point, Work, add_range};
use ckc_bounds_views::{add_some, most_fresh, right_point, type_needed};
use ckc_linear::Facts;
use ckc_syntax::{Expr, Limits, Name, Node, TreeOp};
use ckc_typed::Note;
use ckc_types::CType;
use std::alloc::AllocError;

/// The type of the fresh variable that an expression itself needs.
fn own_fresh(
    work: &mut Work,
    frame: &Frame,
    at: &Point,
    node: &Node<Name, Note>,
    t: &CType,
) -> Result<Option<CType>, AllocError>
    ensures { IfOk result
        (λ u. u ≡ own_fresh t.now (view_of_node frame.now node.now) (state at.now).facts) }
{
    if has_form(work, frame, &at.facts, node, t)? {
        return Ok(None);
    }
    type_needed(work.alloc, frame, node, t)
}

/// The point of a right operand, unless none of its parts may need a fresh variable.
fn point_needed(
    work: &mut Work,
    frame: &Frame,
    op: TreeOp,
    e: &Expr<Name, Note>,
    f: &Expr<Name, Note>,
    at: &Point,
) -> Result<Option<Point>, AllocError>
    ensures { let right = view frame.now f.now in
        let all = right_fresh op (view frame.now e.now) right (state at.now) in
        IfOk result (λ p. MatchOption p (all ≡ []) (λ q. all ≡ right.fresh (state q))) }
{
    if most_fresh(frame, f) == 0 {
        return Ok(None);
    }
    let right = right_point(work, frame, op, e, at)?;
    Ok(Some(right))
}

#[cycle(add_fresh)]
#[tactic(auto, using(crate::proofs::Joined::joined))]
fn add_of_limits(
    work: &mut Work,
    frame: &Frame,
    at: &Point,
    limits: &Limits<Name, Note>,
    all: &mut Seq<CType>,
) -> Result<(), AllocError>
    ensures { OnOk result
        (all.new ≡ all.old ++ (view_of_limits frame.now limits.now).fresh (state at.now)) }
{
    match limits {
        Limits::Count(e, _) => add_fresh(work, frame, at, e.get(), all),
        Limits::ByteCount(e, _) => add_fresh(work, frame, at, e.get(), all),
        Limits::Between(e, f, _) => {
            add_fresh(work, frame, at, e.get(), all)?;
            add_fresh(work, frame, at, f.get(), all)
        }
        Limits::Unknown(_) => Ok(()),
    }
}

#[cycle(add_fresh)]
fn add_of_bounds(
    work: &mut Work,
    frame: &Frame,
    at: &Point,
    bounds: &Option<Boxed<Limits<Name, Note>>>,
    all: &mut Seq<CType>,
) -> Result<(), AllocError>
    ensures { let limits = option_map (view_of_limits frame.now) bounds.now in
        OnOk result (all.new ≡ all.old ++ fresh_there limits (state at.now)) }
{
    match bounds {
        Some(limits) => add_of_limits(work, frame, at, limits.get(), all),
        None => Ok(()),
    }
}

#[cycle(add_fresh)]
#[tactic(auto, using(crate::proofs::Joined::joined))]
fn add_of_all(
    work: &mut Work,
    frame: &Frame,
    at: &Point,
    es: &[Expr<Name, Note>],
    all: &mut Seq<CType>,
) -> Result<(), AllocError>
    ensures { OnOk result
        (all.new ≡ all.old ++ all_fresh (map (view frame.now) es.now) (state at.now)) }
{
    for e in es {
        add_fresh(work, frame, at, e, all)?;
    }
    Ok(())
}

#[cycle(add_fresh)]
#[tactic(auto, using(crate::proofs::Joined::joined, crate::proofs::Joined::joined_none))]
fn add_of_node(
    work: &mut Work,
    frame: &Frame,
    at: &Point,
    node: &Node<Name, Note>,
    all: &mut Seq<CType>,
) -> Result<(), AllocError>
    ensures { OnOk result
        (all.new ≡ all.old ++ (view_of_node frame.now node.now).fresh (state at.now)) }
{
    match node {
        Node::Un(_, e) | Node::Dot(e, _, _) | Node::Arrow(e, _, _) => {
            add_fresh(work, frame, at, e.get(), all)
        }
        Node::Cast(_, e) | Node::Calloc(_, e, _) => add_fresh(work, frame, at, e.get(), all),
        Node::Bin(op, e, f) => {
            add_fresh(work, frame, at, e.get(), all)?;
            match point_needed(work, frame, *op, e.get(), f.get(), at)? {
                Some(right) => add_fresh(work, frame, &right, f.get(), all),
                None => Ok(()),
            }
        }
        Node::Index(e, f) => {
            add_fresh(work, frame, at, e.get(), all)?;
            add_fresh(work, frame, at, f.get(), all)
        }
        Node::Pick(e, f, g) => {
            add_fresh(work, frame, at, e.get(), all)?;
            add_fresh(work, frame, at, f.get(), all)?;
            add_fresh(work, frame, at, g.get(), all)
        }
        Node::Trusted(_, e, l) => {
            add_fresh(work, frame, at, e.get(), all)?;
            add_of_bounds(work, frame, at, l, all)
        }
        Node::Tested(_, e, l) => {
            add_fresh(work, frame, at, e.get(), all)?;
            add_of_bounds(work, frame, at, l, all)
        }
        Node::Call(_, es) => add_of_all(work, frame, at, es.as_slice(), all),
        Node::Number(_, _) | Node::Text(_) | Node::Null | Node::Size(_) | Node::Name(_) => Ok(()),
    }
}

/// Adds the types of the fresh variables that an expression needs at a point, in walk order.
#[cycle(add_fresh)]
#[tactic(auto, using(crate::proofs::Joined::joined, crate::proofs::Joined::joined_last))]
fn add_fresh(
    work: &mut Work,
    frame: &Frame,
    at: &Point,
    e: &Expr<Name, Note>,
    all: &mut Seq<CType>,
) -> Result<(), AllocError>
    ensures { OnOk result (all.new ≡ all.old ++ (view frame.now e.now).fresh (state at.now)) }
{
    add_of_node(work, frame, at, &e.node, all)?;
    let own = own_fresh(work, frame, at, &e.node, &e.note.ctype)?;
    add_some(all, own)
}

/// The number after those of some fresh variables.
fn next_behind(first: u32, types: &[CType]) -> u32
    ensures { result ≡ next_behind first types.now }
{
    match u32::try_from(types.len()) {
        Ok(n) => first.saturating_add(n),
        Err(_) => u32::MAX,
    }
}

/// The number of the next fresh variable after those that the parts of a node need at a point.
pub fn behind_parts(
    work: &mut Work,
    frame: &Frame,
    at: &Point,
    node: &Node<Name, Note>,
    first: u32,
) -> Result<u32, AllocError>
    ensures { IfOk result (λ n. n
        ≡ next_behind first ((view_of_node frame.now node.now).fresh (state at.now))) }
{
    let mut all = Seq::new(work.alloc);
    add_of_node(work, frame, at, node, &mut all)?;
    Ok(next_behind(first, all.as_slice()))
}

/// The number of the next fresh variable after those that an expression needs at a point.
pub fn fresh_behind(
    work: &mut Work,
    frame: &Frame,
    at: &Point,
    e: &Expr<Name, Note>,
    first: u32,
) -> Result<u32, AllocError>
    ensures { IfOk result (λ n. n ≡ fresh_behind (view frame.now e.now) first (state at.now)) }
{
    let mut all = Seq::new(work.alloc);
    add_fresh(work, frame, at, e, &mut all)?;
    Ok(next_behind(first, all.as_slice()))
}

fn add_types(facts: &mut Facts, first: u32, types: &[CType]) -> Result<(), AllocError>
    ensures { OnOk result (known facts.new ≡ with_types first types.now (known facts.old)) }
{
    let mut x = first;
    for t in types {
        add_range(facts, x, t)?;
        x = x.saturating_add(1);
    }
    Ok(())
}

/// Adds the ranges of the types of the fresh variables that an expression needs at a point.
pub fn add_fresh_ranges(
    work: &mut Work,
    frame: &Frame,
    at: &Point,
    e: &Expr<Name, Note>,
    first: u32,
    facts: &mut Facts,
) -> Result<(), AllocError>
    ensures { let types = (view frame.now e.now).fresh (state at.now) in
        OnOk result (known facts.new ≡ with_types (capped first 1) types (known facts.old)) }
{
    let mut all = Seq::new(work.alloc);
    add_fresh(work, frame, at, e, &mut all)?;
    add_types(facts, first.saturating_add(1), all.as_slice())
}
