//! What declarations say of bounds to the expressions of a text.

ghost use Rattle.std.specs.Prelude.{◌≡◌, map, IfOk, OnOk};
ghost use Rattle.ckc_base.specs.Outcomes.{Outcome, AnswersOutcome};
ghost use Rattle.ckc_base.specs.declared.arithmetic.Mode.TheVariants.{Checked};
ghost use Rattle.ckc_bounds_points.specs.declared.frame.Bounds.{Bounds};
ghost use Rattle.ckc_bounds_statements.specs.DeclBounds.{decl_bounds, bounds_there};
ghost use Rattle.ckc_typed.specs.Interfaces.{seen};
ghost use Rattle.ckc_bounds.specs.Declarations.{member_holder, result_bounds, each, interface_bounds, param_bounds, head_judged, known_or_not, with_locals};
ghost use Rattle.ckc_bounds.specs.code.Declarations.{text_of};

use ckc_base::{Fault, Mode, Seq, refused};
use ckc_bounds_declared::{Holder, bounds_declared, bounds_given};
use ckc_bounds_points::codes::BAD_LIMITS;
use ckc_bounds_points::{Bounds, Frame, Local};
use ckc_bounds_statements::{bounds_there, decl_bounds, holder_of};
use ckc_syntax::{Decl, Head, Length, Limits, Name};
use ckc_typed::Note;
use ckc_typed::interfaces::{bounds_seen, is_interface, type_seen};
use ckc_typed::types::type_written;
use std::alloc::{AllocError, Global};

/// What the members of the structure that a name means are to their bounds.
pub fn member_holder(name: Name) -> Holder
    ensures { result ≡ member_holder name }
{
    match name {
        Name::Tag(k) => Holder::Member(k),
        _ => Holder::Static,
    }
}

/// The bounds of the result of a function, or E603.
fn result_bounds(alloc: Global, frame: &Frame, h: &Head<Name, Note>) -> Result<Bounds, Fault>
    ensures { AnswersOutcome result (result_bounds frame.now h.now) }
{
    let t = type_written(alloc, &h.result)?;
    bounds_declared(alloc, frame, Holder::Result, &t, Length::Plain, &h.bounds)
}

/// Bounds that are refused are unknown.
fn known_or_not(bounds: Result<Bounds, Fault>) -> Result<Bounds, AllocError>
    ensures { (o : Outcome Bounds) → AnswersOutcome bounds o
        → IfOk result (λ b. b ≡ known_or_not o) }
{
    match bounds {
        Ok(b) => Ok(b),
        Err(Fault::Refused(_)) => Ok(Bounds::Unknown),
        Err(Fault::Memory) => Err(AllocError),
    }
}

/// The bounds of a declaration. Those that are refused are unknown.
pub fn known_bounds(
    alloc: Global,
    frame: &Frame,
    holder: Holder,
    d: &Decl<Name, Note>,
) -> Result<Bounds, AllocError>
    ensures { IfOk result (λ b. b ≡ known_or_not (decl_bounds frame.now holder d.now)) }
{
    let bounds = decl_bounds(alloc, frame, holder, d);
    known_or_not(bounds)
}

/// The bounds of a parameter as code of a mode sees it, or E603.
fn param_declared(
    alloc: Global,
    frame: &Frame,
    holder: Holder,
    mode: Mode,
    d: &Decl<Name, Note>,
) -> Result<Bounds, Fault>
    ensures { AnswersOutcome result (decl_bounds frame.now holder (seen mode d.now)) }
{
    let t = type_seen(alloc, mode, d)?;
    bounds_given(alloc, frame, holder, &t, d.length, bounds_seen(mode, d))
}

/// The bounds of a parameter as code of a mode sees it. Those that are refused are unknown.
pub fn known_param(
    alloc: Global,
    frame: &Frame,
    holder: Holder,
    mode: Mode,
    d: &Decl<Name, Note>,
) -> Result<Bounds, AllocError>
    ensures { IfOk result (λ b. b ≡ known_or_not (decl_bounds frame.now holder (seen mode d.now))) }
{
    let bounds = param_declared(alloc, frame, holder, mode, d);
    known_or_not(bounds)
}

/// The bounds of the result of a function. Those that are refused are unknown.
pub fn known_result(
    alloc: Global,
    frame: &Frame,
    h: &Head<Name, Note>,
) -> Result<Bounds, AllocError>
    ensures { IfOk result (λ b. b ≡ known_or_not (result_bounds frame.now h.now)) }
{
    let bounds = result_bounds(alloc, frame, h);
    known_or_not(bounds)
}

/// Judges the bounds of the members of a structure.
pub fn members_fit(
    alloc: Global,
    frame: &Frame,
    holder: Holder,
    ds: &[Decl<Name, Note>],
) -> Result<(), Fault>
    ensures { AnswersOutcome result (each (map (decl_bounds frame.now holder) ds.now)) }
{
    for d in ds {
        decl_bounds(alloc, frame, holder, d)?;
    }
    Ok(())
}

fn param_there(alloc: Global, frame: &Frame, d: &Decl<Name, Note>) -> Result<Bounds, Fault>
    ensures { AnswersOutcome result (bounds_there frame.now (seen Checked d.now)) }
{
    param_declared(alloc, frame, holder_of(d.name), Mode::Checked, d)
}

/// The bounds of an interface, which are not `bounds(unknown)`, or E603.
fn interface_fits(alloc: Global, frame: &Frame, d: &Decl<Name, Note>) -> Result<Bounds, Fault>
    ensures { AnswersOutcome result (interface_bounds frame.now (seen Checked d.now) d.now.bounds) }
{
    match &d.bounds {
        Some(l) => match l.get() {
            Limits::Unknown(at) => Err(refused(BAD_LIMITS, *at)),
            Limits::Count(_, _) | Limits::ByteCount(_, _) => param_there(alloc, frame, d),
            Limits::Between(_, _, _) => param_there(alloc, frame, d),
        },
        None => param_there(alloc, frame, d),
    }
}

fn param_fits(alloc: Global, frame: &Frame, d: &Decl<Name, Note>) -> Result<Bounds, Fault>
    ensures { AnswersOutcome result (param_bounds frame.now d.now) }
{
    if is_interface(d) {
        interface_fits(alloc, frame, d)
    } else {
        bounds_there(alloc, frame, d)
    }
}

fn params_fit(alloc: Global, frame: &Frame, ds: &[Decl<Name, Note>]) -> Result<(), Fault>
    ensures { AnswersOutcome result (each (map (param_bounds frame.now) ds.now)) }
{
    for d in ds {
        param_fits(alloc, frame, d)?;
    }
    Ok(())
}

/// Judges the bounds of parameters, and those of the result.
pub fn head_fits(alloc: Global, frame: &Frame, h: &Head<Name, Note>) -> Result<Bounds, Fault>
    ensures { AnswersOutcome result (head_judged frame.now h.now) }
{
    params_fit(alloc, frame, h.params.as_slice())?;
    result_bounds(alloc, frame, h)
}

/// Takes the locals out of a frame.
pub fn clear(alloc: Global, frame: &mut Frame)
    ensures { frame.new ≡ text_of frame.old }
{
    frame.locals = Seq::new(alloc);
}

/// Puts locals into a frame in place of those that are there: fewer than 1,024, as in an accepted text.
pub fn set_locals(frame: &mut Frame, locals: Seq<Local>) -> Result<(), AllocError>
    ensures { OnOk result (frame.new ≡ with_locals frame.old locals) }
{
    if locals.len() >= 1024 {
        return Err(AllocError);
    }
    frame.locals = locals;
    Ok(())
}
