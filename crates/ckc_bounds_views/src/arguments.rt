//! What the parameters of a call are replaced by.

ghost use Rattle.std.specs.Prelude.{◌≡◌, map, slice_get, IfOk, OnOk};
ghost use Rattle.ckc_bounds_points.specs.Shown.{known};
ghost use Rattle.ckc_bounds_views.specs.Parts.{with_last};
ghost use Rattle.ckc_bounds_views.specs.Arguments.{base_by, bases_by, variable_by, variables_by, own_by};
ghost use Rattle.ckc_bounds_views.specs.Views.{view};

use crate::forms::form;
use crate::places::{place, values};
use ckc_base::Seq;
use ckc_bounds_points::{Frame, Local, Work, base_form, in_type};
use ckc_bounds_ranges::{BaseBy, VariableBy};
use ckc_linear::{Base, Facts, Form};
use ckc_syntax::{Expr, Name};
use ckc_typed::Note;
use ckc_typed::types::is_pointer;
use std::alloc::AllocError;

/// Adds an element, if there is one.
pub fn add_some<T: Drop>(all: &mut Seq<T>, item: Option<T>) -> Result<(), AllocError>
    ensures { OnOk result (all.new ≡ with_last all.old item) }
{
    match item {
        Some(a) => all.push(a),
        None => Ok(()),
    }
}

fn base_by(params: &[Local], n: u32, by: Option<Form>) -> Option<BaseBy>
    ensures { result ≡ base_by (slice_get params.now n) n by }
{
    match params.get(n as usize) {
        Some(p) => {
            if is_pointer(&p.ctype) {
                Some(BaseBy {
                    base: Base::Local(n),
                    by,
                })
            } else {
                None
            }
        }
        None => None,
    }
}

/// The places of the arguments that pointers receive, by the number of the first value in the arguments.
#[tactic(auto, using(crate::proofs::Joined::last_first))]
pub fn bases_by(
    work: &mut Work,
    frame: &Frame,
    facts: &Facts,
    params: &[Local],
    es: &[Expr<Name, Note>],
    first: u32,
) -> Result<Seq<BaseBy>, AllocError>
    ensures { IfOk result (λ bs.
        bs ≡ bases_by params.now 0 first (known facts.now) (map (view frame.now) es.now)) }
{
    let mut all = Seq::new(work.alloc);
    let mut n = 0u32;
    let mut at = first;
    for e in es {
        let by = place(work, frame, facts, e, at)?;
        add_some(&mut all, base_by(params, n, by))?;
        n = n.saturating_add(1);
        at = at.saturating_add(values(frame, e));
    }
    Ok(all)
}

fn variable_by(
    work: &mut Work,
    facts: &Facts,
    params: &[Local],
    n: u32,
    value: Option<Form>,
) -> Result<Option<VariableBy>, AllocError>
    ensures { IfOk result
        (λ v. v ≡ variable_by (known facts.now) (slice_get params.now n) n value) }
{
    match params.get(n as usize) {
        Some(p) => {
            if is_pointer(&p.ctype) {
                return Ok(None);
            }
            let by = in_type(work, facts, &p.ctype, value)?;
            Ok(Some(VariableBy {
                var: n.saturating_add(1),
                by,
            }))
        }
        None => Ok(None),
    }
}

/// The forms of the arguments that integers receive.
#[tactic(auto, using(crate::proofs::Joined::last_first))]
pub fn variables_by(
    work: &mut Work,
    frame: &Frame,
    facts: &Facts,
    params: &[Local],
    es: &[Expr<Name, Note>],
) -> Result<Seq<VariableBy>, AllocError>
    ensures { IfOk result (λ vs.
        vs ≡ variables_by params.now 0 (known facts.now) (map (view frame.now) es.now)) }
{
    let mut all = Seq::new(work.alloc);
    let mut n = 0u32;
    for e in es {
        let value = form(work, frame, facts, e)?;
        let by = variable_by(work, facts, params, n, value)?;
        add_some(&mut all, by)?;
        n = n.saturating_add(1);
    }
    Ok(all)
}

/// What value 0 is replaced by, which in the bounds of a result or an object is the value itself.
pub fn own_by(own: u32) -> BaseBy
    ensures { result ≡ own_by own }
{
    BaseBy {
        base: Base::Value(0),
        by: Some(base_form(Base::Value(own))),
    }
}
