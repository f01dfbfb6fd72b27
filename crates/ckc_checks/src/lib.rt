//! From the program of a text to core code, with all checks written out.
#![tactic(auto)]

mod accesses;
mod code;
mod laws;
mod program;
mod rooms;
mod statements;

pub use laws::checks_stay;
pub use program::insert;
