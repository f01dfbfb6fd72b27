//! What bounds name, replaced by what it becomes at assignments.

ghost use Rattle.std.specs.Prelude.{◌≡◌, ◌++◌, map, IfOk, OnOk};
ghost use Rattle.std.specs.List.{filter_map};
ghost use Rattle.ckc_bounds_points.specs.Shown.{known};
ghost use Rattle.ckc_bounds_stores.specs.Values.{value};
ghost use Rattle.ckc_bounds_stores.specs.Stores.{received, place_of, base_by, variable_by, bases, variables, holds_by, member_by, unassigned, members, holds_in_memory};
ghost use Rattle.ckc_bounds_stores.specs.code.Stores.{placed};

use crate::placed::Placed;
use crate::targets::{local_of, member_of, member_variable};
use crate::values::{Value, holds};
use ckc_bounds_points::{Bounds, Frame, Work, in_type};
use ckc_bounds_ranges::{BaseBy, VariableBy};
use ckc_bounds_views::{form, place};
use ckc_linear::{Base, Facts, Form};
use std::alloc::AllocError;

/// The form of what a target gets, in its type.
pub fn received(
    work: &mut Work,
    frame: &Frame,
    facts: &Facts,
    p: &Placed<'_>,
) -> Result<Option<Form>, AllocError>
    ensures { IfOk result (λ f. f ≡ received frame.now (known facts.now) (placed p.now)) }
{
    let exact = form(work, frame, facts, p.right)?;
    in_type(work, facts, &p.target.note.ctype, exact)
}

fn place_of(
    work: &mut Work,
    frame: &Frame,
    facts: &Facts,
    p: &Placed<'_>,
) -> Result<Option<Form>, AllocError>
    ensures { IfOk result (λ f. f ≡ place_of frame.now (known facts.now) (placed p.now)) }
{
    place(work, frame, facts, p.right, p.from.value)
}

fn base_by(
    work: &mut Work,
    frame: &Frame,
    facts: &Facts,
    p: &Placed<'_>,
) -> Result<Option<BaseBy>, AllocError>
    ensures { IfOk result (λ b. b ≡ base_by frame.now (known facts.now) (placed p.now)) }
{
    match local_of(p.target) {
        Some(k) => {
            let by = place_of(work, frame, facts, p)?;
            Ok(Some(BaseBy {
                base: Base::Local(k),
                by,
            }))
        }
        None => Ok(None),
    }
}

fn variable_by(
    work: &mut Work,
    frame: &Frame,
    facts: &Facts,
    p: &Placed<'_>,
) -> Result<Option<VariableBy>, AllocError>
    ensures { IfOk result (λ v. v ≡ variable_by frame.now (known facts.now) (placed p.now)) }
{
    match local_of(p.target) {
        Some(k) => {
            let by = received(work, frame, facts, p)?;
            Ok(Some(VariableBy {
                var: k.saturating_add(1),
                by,
            }))
        }
        None => Ok(None),
    }
}

fn bases(
    work: &mut Work,
    frame: &Frame,
    facts: &Facts,
    ps: &[Placed<'_>],
) -> Result<Vec<BaseBy>, AllocError>
    ensures { IfOk result (λ bs. bs.items ≡ bases frame.now (known facts.now) (map placed ps.now)) }
{
    let mut all = Vec::new(work.alloc);
    for p in ps {
        let by = base_by(work, frame, facts, p)?;
        if let Some(b) = by {
            all.push(b)?;
        }
    }
    Ok(all)
}

fn variables(
    work: &mut Work,
    frame: &Frame,
    facts: &Facts,
    ps: &[Placed<'_>],
) -> Result<Vec<VariableBy>, AllocError>
    ensures { IfOk result (λ vs. vs.items
        ≡ variables frame.now (known facts.now) (map placed ps.now)) }
{
    let mut all = Vec::new(work.alloc);
    for p in ps {
        let by = variable_by(work, frame, facts, p)?;
        if let Some(v) = by {
            all.push(v)?;
        }
    }
    Ok(all)
}

/// Whether a local pointer's bounds contain its value, with the targets replaced.
#[tactic(auto, unfolding(crate::specs::Stores::holds_by))]
pub fn holds_by(
    work: &mut Work,
    frame: &Frame,
    ps: &[Placed<'_>],
    v: &Value,
    bounds: &Bounds,
) -> Result<bool, AllocError>
    ensures { IfOk result
        (λ b. b ≡ holds_by frame.now (map placed ps.now) (value v.now) bounds.now) }
{
    let bs = bases(work, frame, &v.facts, ps)?;
    let vs = variables(work, frame, &v.facts, ps)?;
    holds(work, v, bounds, bs.as_slice(), vs.as_slice())
}

fn member_by(
    work: &mut Work,
    frame: &Frame,
    facts: &Facts,
    p: &Placed<'_>,
) -> Result<Option<VariableBy>, AllocError>
    ensures { IfOk result (λ v. v ≡ member_by frame.now (known facts.now) (placed p.now)) }
{
    match member_of(frame, p.target) {
        Some(m) => {
            let by = received(work, frame, facts, p)?;
            Ok(Some(VariableBy {
                var: member_variable(m.number),
                by,
            }))
        }
        None => Ok(None),
    }
}

fn members_by(
    work: &mut Work,
    frame: &Frame,
    facts: &Facts,
    ps: &[Placed<'_>],
) -> Result<Vec<VariableBy>, AllocError>
    ensures { IfOk result (λ vs. vs.items
        ≡ filter_map (member_by frame.now (known facts.now)) (map placed ps.now)) }
{
    let mut all = Vec::new(work.alloc);
    for p in ps {
        let by = member_by(work, frame, facts, p)?;
        if let Some(v) = by {
            all.push(v)?;
        }
    }
    Ok(all)
}

fn add_unassigned(bounds: &Bounds, all: &mut Vec<VariableBy>) -> Result<(), AllocError>
    ensures { OnOk result (all.new.items ≡ all.old.items ++ unassigned bounds.now) }
{
    match bounds {
        Bounds::Known(_, high) => {
            if high.var != 0 {
                all.push(VariableBy {
                    var: high.var,
                    by: None,
                })?;
            }
            Ok(())
        }
        Bounds::Unknown => Ok(()),
    }
}

fn members(
    work: &mut Work,
    frame: &Frame,
    facts: &Facts,
    ps: &[Placed<'_>],
    bounds: &Bounds,
) -> Result<Vec<VariableBy>, AllocError>
    ensures { IfOk result (λ vs. vs.items
        ≡ members frame.now (known facts.now) (map placed ps.now) bounds.now) }
{
    let mut all = members_by(work, frame, facts, ps)?;
    add_unassigned(bounds, &mut all)?;
    Ok(all)
}

/// Whether the bounds of a pointer in memory contain what it gets, with the members replaced that are assigned with it.
#[tactic(auto, unfolding(crate::specs::Stores::holds_in_memory))]
pub fn holds_in_memory(
    work: &mut Work,
    frame: &Frame,
    ps: &[Placed<'_>],
    p: &Placed<'_>,
    v: &Value,
    bounds: &Bounds,
) -> Result<bool, AllocError>
    ensures { IfOk result (λ b. b
        ≡ holds_in_memory frame.now (map placed ps.now) (placed p.now) (value v.now) bounds.now) }
{
    let by = place_of(work, frame, &v.facts, p)?;
    let vs = members(work, frame, &v.facts, ps, bounds)?;
    let own = [BaseBy {
        base: Base::Value(0),
        by,
    }];
    holds(work, v, bounds, &own, vs.as_slice())
}
