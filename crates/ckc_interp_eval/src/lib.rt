//! Evaluation of expressions over the blocks and the locals of a run.
#![tactic(auto)]

mod accesses;
mod arithmetic;
mod evaluation;
mod reader;

pub use reader::Reader;
