//! A pass over three-address code: a check that repeats an earlier one of its block is dropped.
#![tactic(auto)]

mod blocks;
pub mod laws;
mod operations;
mod program;
mod table;

pub use program::redundant;
