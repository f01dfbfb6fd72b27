//! Programs of core code, and places of registers, as text, for programs that try what a reader adds as text.
//! docs/code-cases.md has the form.
#![tactic(auto)]

mod exprs;
mod fault;
mod moves;
mod programs;
mod stmts;
mod words;

pub use fault::TextFault;
pub use moves::with_moves;
pub use programs::program;
