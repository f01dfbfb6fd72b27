//! Three-address code to placed code: registers get places by linear scan over their live ranges.
#![tactic(auto)]

mod copies;
mod homes;
mod kept;
pub mod laws;
mod program;
mod ranges;
mod worths;

pub use program::assign;
