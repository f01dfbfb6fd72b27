//! A pass over three-address code: jumps go past blocks that only jump on, and blocks that nothing leads to are dropped.
#![tactic(auto)]

mod blocks;
pub mod laws;
mod places;
mod program;
mod reached;
mod ways;

pub use program::jumps;
