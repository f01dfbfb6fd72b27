//! The instructions of RV32IM (RISC-V unprivileged ISA manual, RV32I and "M"): which words they are, and what
//! each does.
//!
//! `specs/Table.antt` has a row for each instruction, `specs/Effects.antt` what it does.
#![tactic(auto)]

mod decoding;
mod effects;
mod encoding;
mod instructions;
pub mod laws;
mod outcomes;
mod ranges;
mod registers;

pub use ckc_rv_operations::{BranchOp, ImmOp, LoadOp, RegOp, StoreOp};
pub use decoding::decode;
pub use effects::effect;
pub use encoding::encode;
pub use instructions::Instr;
pub use outcomes::word_effect;
pub use ranges::in_range;
pub use registers::{Outcome, Regs};
