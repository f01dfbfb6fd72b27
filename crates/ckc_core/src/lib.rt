//! Core code: trees of statements and expressions over the data memory, with all checks written out. Its meaning
//! stands in `specs/`.
#![tactic(auto)]

mod code;
pub mod laws;

pub use code::{Core, CoreExpr, CoreFunc, CoreStmt};
