//! What the expressions of a typed text mean: values, places and addresses, with all that their evaluation needs of
//! types, structures and bounds. The definitions stand in `specs/`.
#![tactic(auto)]

pub mod ends;
pub mod expressions;
pub mod kinds;
pub mod laws;
pub mod literals;
pub mod members;
pub mod names;
pub mod numbers;
pub mod operators;
pub mod places;
pub mod texts;
