//! Placed code: three-address code in which each register has a place, one of sixteen machine registers or a slot of
//! the frame. Its meaning stands in `specs/`.
#![tactic(auto)]

mod code;
pub mod laws;

pub use code::{Place, Placed, PlacedFunc};
