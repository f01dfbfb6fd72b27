//! The memory of an interpreter: the blocks of a run, in the order of their addresses.
#![tactic(auto)]

mod block;
mod blocks;

pub use blocks::Blocks;
