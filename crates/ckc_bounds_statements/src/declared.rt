//! The bounds of declarations where they stand.

ghost use Rattle.std.specs.Prelude.{◌≡◌};
ghost use Rattle.ckc_base.specs.Outcomes.{AnswersOutcome};
ghost use Rattle.ckc_bounds_statements.specs.DeclBounds.{holder_of, decl_bounds, bounds_there};
ghost use Rattle.ckc_bounds_statements.specs.Paths.{bounds_judged};
ghost use Rattle.ckc_bounds_statements.specs.Walks.{here};

use crate::walk::Walk;
use ckc_base::Fault;
use ckc_bounds_declared::{Holder, bounds_declared};
use ckc_bounds_points::{Bounds, Frame};
use ckc_syntax::{Decl, Name};
use ckc_typed::Note;
use ckc_typed::types::type_written;
use std::alloc::Global;

/// What a declared name is to its bounds: a local, or else an object of file scope.
pub fn holder_of(name: Name) -> Holder
    ensures { result ≡ holder_of name }
{
    match name {
        Name::Local(k) => Holder::Local(k),
        _ => Holder::Static,
    }
}

/// The bounds of a declaration, or E603.
pub fn decl_bounds(
    alloc: Global,
    frame: &Frame,
    holder: Holder,
    d: &Decl<Name, Note>,
) -> Result<Bounds, Fault>
    ensures { AnswersOutcome result (decl_bounds frame.now holder d.now) }
{
    let t = type_written(alloc, &d.ctype)?;
    bounds_declared(alloc, frame, holder, &t, d.length, &d.bounds)
}

/// The bounds of a declaration where it stands, or E603.
pub fn bounds_there(alloc: Global, frame: &Frame, d: &Decl<Name, Note>) -> Result<Bounds, Fault>
    ensures { AnswersOutcome result (bounds_there frame.now d.now) }
{
    decl_bounds(alloc, frame, holder_of(d.name), d)
}

/// The same on a walk: one that counts fresh variables passes over wrong bounds.
pub fn judge_bounds(
    alloc: Global,
    frame: &Frame,
    d: &Decl<Name, Note>,
    walk: &Walk,
) -> Result<Bounds, Fault>
    ensures { AnswersOutcome result (bounds_judged frame.now d.now (here walk.now)) }
{
    if walk.counting {
        Ok(Bounds::Unknown)
    } else {
        bounds_there(alloc, frame, d)
    }
}
