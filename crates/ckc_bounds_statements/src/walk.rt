//! The walk through a function, and the expressions on its way.

ghost use Rattle.std.specs.Prelude.{◌≡◌, OnOk};
ghost use Rattle.ckc_bounds_points.specs.Flow.{state};
ghost use Rattle.ckc_base.specs.Outcomes.{AnswersOutcome, StepsOutcome};
ghost use Rattle.ckc_bounds_statements.specs.Paths.{side_of, expr_judged, value_judged, values_judged, maybe_judged, init_judged};
ghost use Rattle.ckc_bounds_statements.specs.Walks.{here};

use ckc_base::{Boxed, Fault, Seq};
use ckc_bounds_judged::judge;
use ckc_bounds_points::{Frame, Point, Work};
use ckc_bounds_stores::bounds_extents::fresh_behind;
use ckc_bounds_views::to_side;
use ckc_syntax::{Expr, Init, Name, copied_expr};
use ckc_typed::Note;
use std::alloc::AllocError;

/// Where a walk through a function stands: the locals in scope, in order, the point, and the number of the next fresh
/// variable. A first walk is only counting these: it leaves expressions as they are, and passes over what is wrong.
pub struct Walk {
    pub seen: Seq<u32>,
    pub at: Point,
    pub next: u32,
    pub counting: bool,
}

impl Drop for Walk {
    fn drop(self) {
        let Walk {
            seen: _seen,
            at: _at,
            next: _next,
            counting: _counting,
        } = self;
    }
}

fn judge_expr(
    work: &mut Work,
    frame: &Frame,
    e: &Expr<Name, Note>,
    walk: &Walk,
) -> Result<Expr<Name, Note>, Fault>
    ensures { AnswersOutcome result (expr_judged frame.now e.now (here walk.now)) }
{
    if walk.counting {
        let copy = copied_expr(work.alloc, e)?;
        Ok(copy)
    } else {
        judge(work, frame, &walk.at, e, walk.next)
    }
}

/// Judges an expression, and notes the ranges in it.
#[tactic(auto, unfolding(crate::specs::Paths::value_judged))]
fn judge_value(
    work: &mut Work,
    frame: &Frame,
    e: &Expr<Name, Note>,
    walk: &mut Walk,
) -> Result<Expr<Name, Note>, Fault>
    ensures { StepsOutcome result (here walk.new) (value_judged frame.now e.now (here walk.old)) }
{
    let judged = judge_expr(work, frame, e, walk)?;
    walk.next = fresh_behind(work, frame, &walk.at, e, walk.next)?;
    Ok(judged)
}

/// Goes to a side of a condition.
#[tactic(auto, unfolding(crate::specs::Paths::side_of))]
pub fn take_side(
    work: &mut Work,
    frame: &Frame,
    e: &Expr<Name, Note>,
    side: bool,
    at: &mut Point,
) -> Result<(), AllocError>
    ensures { OnOk result (state at.new ≡ side_of frame.now side e.now (state at.old)) }
{
    to_side(work, frame, e, side, at)
}

/// Judges an expression, and puts it into a box of its own.
pub fn boxed_value(
    work: &mut Work,
    frame: &Frame,
    e: &Expr<Name, Note>,
    walk: &mut Walk,
) -> Result<Boxed<Expr<Name, Note>>, Fault>
    ensures { StepsOutcome result (here walk.new) (value_judged frame.now e.now (here walk.old)) }
{
    let judged = judge_value(work, frame, e, walk)?;
    let boxed = Boxed::new(work.alloc, judged)?;
    Ok(boxed)
}

/// Judges an expression that may be left out.
pub fn maybe_value(
    work: &mut Work,
    frame: &Frame,
    e: &Option<Boxed<Expr<Name, Note>>>,
    walk: &mut Walk,
) -> Result<Option<Boxed<Expr<Name, Note>>>, Fault>
    ensures { StepsOutcome result (here walk.new) (maybe_judged frame.now e.now (here walk.old)) }
{
    match e {
        None => Ok(None),
        Some(e) => {
            let judged = boxed_value(work, frame, e.get(), walk)?;
            Ok(Some(judged))
        }
    }
}

fn judge_values(
    work: &mut Work,
    frame: &Frame,
    es: &[Expr<Name, Note>],
    walk: &mut Walk,
) -> Result<Seq<Expr<Name, Note>>, Fault>
    ensures { StepsOutcome result (here walk.new) (values_judged frame.now es.now (here walk.old)) }
{
    let mut all = Seq::new(work.alloc);
    for e in es {
        let judged = judge_value(work, frame, e, walk)?;
        all.push(judged)?;
    }
    Ok(all)
}

/// Judges what a declared object or local begins as.
pub fn judge_init(
    work: &mut Work,
    frame: &Frame,
    init: &Init<Name, Note>,
    walk: &mut Walk,
) -> Result<Init<Name, Note>, Fault>
    ensures { StepsOutcome result (here walk.new) (init_judged frame.now init.now (here walk.old)) }
{
    match init {
        Init::Nothing => Ok(Init::Nothing),
        Init::One(e) => {
            let judged = boxed_value(work, frame, e.get(), walk)?;
            Ok(Init::One(judged))
        }
        Init::Many(es) => {
            let judged = judge_values(work, frame, es.as_slice(), walk)?;
            Ok(Init::Many(judged))
        }
    }
}
