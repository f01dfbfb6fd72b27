//! The first pass over the tokens of a text: which productions derive it, in order, and nothing else is built.
#![tactic(auto)]

mod machine;
mod moves;
mod numbers;
mod rows;

pub use machine::recognise;
