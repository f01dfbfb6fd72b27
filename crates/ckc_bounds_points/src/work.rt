//! What the judging of one function works with.

ghost use Rattle.std.specs.Prelude.{◌≡◌, ◌+◌, ◌*◌, ◌≤◌, length, vec_len, OnOk};

use crate::frame::Frame;
use ckc_bounds_known::{Work, grow};
use std::alloc::AllocError;

/// Makes the row of work long enough for searches over the variables of a frame, so that these take no memory.
pub fn fit_row(frame: &Frame, work: &mut Work) -> Result<(), AllocError>
    ensures { OnOk result (2 * (length frame.now.locals + 1) ≤ vec_len work.new.row) }
{
    grow(frame.locals.len() as u32 + 1, &mut work.row)
}
