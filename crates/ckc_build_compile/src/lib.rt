//! From the plain program of a text to the parts of an image, through all layers, with the theorem that the machine of
//! these parts follows the meaning of the program.
#![tactic(auto)]

mod passes;
mod program;

pub use passes::passed;
pub use program::compile;
