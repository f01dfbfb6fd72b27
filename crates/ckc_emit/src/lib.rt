//! Placed code to labelled lines of RV32IM.
//!
//! The stack pointer x2 holds the frame of the active call: 1,024 frames of 16,384 bytes fill the stack, so it is
//! the depth too. A frame has the return address at 0 and the place p at 16 + 4p: the sixteen registers, then the
//! slots. The registers are x8 to x25 without x10 and x17. x1, x3 to x7 and x10 are scratch, x26 is for far jumps,
//! and x27 to x31 are not used.
#![tactic(auto)]

mod allocation;
mod blocks;
mod calls;
mod initial;
mod operations;
mod places;
mod program;
mod stops;

pub use program::emit;
