//! Passes over three-address code: the values that registers have at a place of a block, what a pass may do, and why
//! its result follows its argument. The definitions stand in `specs/`. The functions here are those that each pass
//! uses.
#![tactic(auto)]

pub mod laws;
mod operations;
mod tables;

pub use operations::{copy_of, target};
pub use tables::{empty, enter};
