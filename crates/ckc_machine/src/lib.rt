//! The machine of RV32IM over the memory map of this project: what an image does, instruction by instruction.
//!
//! `specs/Points.antt` says where a machine stands after so many instructions, `specs/Runs.antt` what a run of it
//! does.
#![tactic(auto)]

mod laws;
mod machine;
mod memory;
mod observed;
mod region;

pub use laws::{events_since, input_is_taken, one_instruction, puts_ask_nothing};
pub use machine::Machine;
pub use observed::{FaultKind, Observed};
