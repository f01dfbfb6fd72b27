//! Assignments whose values and fresh variables are numbered.

ghost use Rattle.std.specs.Prelude.{◌≡◌, map, IfOk};
ghost use Rattle.ckc_bounds_points.specs.Flow.{state};
ghost use Rattle.ckc_bounds_stores.specs.Stores.{numbered, stores_of};
ghost use Rattle.ckc_bounds_stores.specs.code.Stores.{placed};

use crate::values::Numbered;
use ckc_base::Pos;
use ckc_bounds_extents::fresh_behind;
use ckc_bounds_points::{Frame, Point, Work};
use ckc_bounds_views::values;
use ckc_syntax::{Act, Expr, Name, Stmt};
use ckc_typed::Note;
use std::alloc::AllocError;

/// An assignment with the place of its `=`, whose right side numbers its values and its fresh variables from the given
/// ones on.
#[derive(Clone, Copy)]
pub struct Placed<'a> {
    pub target: &'a Expr<Name, Note>,
    pub right: &'a Expr<Name, Note>,
    pub pos: Pos,
    pub from: Numbered,
}

/// The assignments among statements, of which the first numbers its fresh variables from the given one on.
pub fn numbered<'a>(
    work: &mut Work,
    frame: &Frame,
    ss: &'a [Stmt<Name, Note>],
    first_fresh: u32,
    at: &Point,
) -> Result<Vec<Placed<'a>>, AllocError>
    ensures { IfOk result (λ ps. map placed ps.items
        ≡ numbered frame.now (state at.now) 0 first_fresh (stores_of ss.now)) }
{
    let mut ps = Vec::new(work.alloc);
    let mut from = Numbered {
        value: 0,
        fresh: first_fresh,
    };
    for s in ss {
        if let Act::Assign(e, f) = &s.body {
            from.fresh = fresh_behind(work, frame, at, e.get(), from.fresh)?;
            ps.push(Placed {
                target: e.get(),
                right: f.get(),
                pos: s.pos,
                from,
            })?;
            from.value = from.value.saturating_add(values(frame, f.get()));
            from.fresh = fresh_behind(work, frame, at, f.get(), from.fresh)?;
        }
    }
    Ok(ps)
}
