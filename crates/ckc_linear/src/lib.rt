//! Facts about integer variables, and what follows from them by chains.
#![tactic(auto)]

mod chains;
mod facts;
mod forms;
pub mod laws;

pub use chains::entails;
pub use facts::{Fact, Facts, add, forget, shift};
pub use forms::{Base, Form};
