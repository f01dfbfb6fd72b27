//! How large the program of a text is, by the nodes of the text.
#![tactic(auto)]

mod laws;

pub use laws::{marks_stay, programs_are_small};
