//! A pass over three-address code: tests that are decided, since they were made on every way to them, are dropped.
#![tactic(auto)]

mod blocks;
mod edges;
mod facts;
pub mod laws;
mod marks;
mod program;

pub use program::known;
