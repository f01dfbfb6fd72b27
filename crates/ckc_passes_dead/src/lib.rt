//! A pass over three-address code: operations whose values nothing wants are dropped.
#![tactic(auto)]

mod blocks;
pub mod laws;
mod program;

pub use program::dead;
