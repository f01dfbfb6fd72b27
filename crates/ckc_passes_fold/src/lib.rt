//! The pass `fold`: what computes a number in three-address code becomes the number.
#![tactic(auto)]

mod blocks;
mod numbers;
mod program;

pub use program::fold;
