//! Labelled lines, and the parts of an image that they are assembled to.
#![tactic(auto)]

mod assembler;
mod laws;
mod lines;
mod places;

pub use assembler::assemble;
pub use laws::one_assembly;
pub use lines::{Labelled, Line};
