//! Short sequences of instructions that are put after others: constants, words of a frame, environment calls, the
//! registers that a call keeps, and the start of a program.
#![tactic(auto)]

mod saved;
mod start;
mod templates;

pub use saved::{put_restores, put_saves, register};
pub use start::put_start;
pub use templates::{
    SP, immediate, lower, near, put, put_ask, put_constant, put_load, put_move, put_store, upper,
};
