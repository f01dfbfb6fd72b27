//! What a run of a program comes to.

use ckc_base::{Check, Pos};

/// What a run of a program comes to within a limit of steps: it ended with a value; stopped at a check and its place;
/// goes on; is stuck, at the place of that step, with the place of the first step of mode unchecked, if there is
/// one; the source or the sink failed; or memory ran out.
#[derive(Clone, Copy)]
pub enum Seen {
    Ended(u32),
    Stopped(Check, Pos),
    Going,
    Stuck(Pos, Option<Pos>),
    ReadFault,
    WriteFault,
    Memory,
}
