//! The judgement of expressions: the range of each pointer is noted, or the first fault found.
#![tactic(auto)]

mod arguments;
mod expressions;
mod faults;

pub use expressions::judge;
