//! Which registers of three-address code are live.
#![tactic(auto)]

mod rows;
mod transfer;

pub use rows::{LiveRows, live};
pub use transfer::{before_end, before_op};
