//! Three-address code: functions of blocks of operations over registers, with jumps between blocks. Its meaning
//! stands in `specs/`.
#![tactic(auto)]

mod code;
pub mod laws;

pub use code::{Comparison, Operand, Tac, TacBlock, TacEnd, TacFunc, TacOp};
