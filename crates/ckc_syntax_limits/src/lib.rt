//! The limits on depth and counts that a source file keeps.
#![tactic(auto)]

mod depth;
mod laws;
mod limits;
mod tally;

pub use laws::{codes, is_exact};
pub use limits::{TOO_DEEP, TOO_MANY_ITEMS, TOO_MANY_LOCALS, TOO_MANY_NODES, fits};
