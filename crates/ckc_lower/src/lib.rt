//! From core code to three-address code: each function becomes blocks of operations over its locals and over
//! temporaries, which are used again.
#![tactic(auto)]

mod blocks;
mod builder;
mod program;

pub use program::lower;
