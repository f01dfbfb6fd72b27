//! The numbers and the places of a program fit in 32 bits. Of places this is seen by a walk to each of them, as a program is
//! made of places whose lines and columns are words.
#![tactic(auto)]

mod exprs;
mod program;
mod statements;

pub use program::places_fit;
