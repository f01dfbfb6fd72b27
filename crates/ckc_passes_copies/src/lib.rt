//! The pass `copies`: each register of three-address code that is read becomes the one that its value was copied from.
#![tactic(auto)]

mod blocks;
mod origins;
mod program;

pub use program::copies;
