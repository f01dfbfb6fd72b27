//! The operations of RV32IM (RISC-V unprivileged ISA manual, RV32I and "M") and their codes in a word, funct3 and funct7.
#![tactic(auto)]

mod codes;
mod operations;

pub use operations::{BranchOp, ImmOp, LoadOp, RegOp, StoreOp};
