//! What every layer of the compiler stands on: lists and boxes that contracts see through, places in a text,
//! refusals, the run-time checks, and arithmetic on 32-bit words.
//!
//! The definitions of traces and showings, and of what it is that one program follows another, stand in
//! `specs/`; their laws are on the functions of `laws`.
#![tactic(auto)]

mod arithmetic;
mod boxed;
mod fault;
pub mod laws;
pub mod memory_map;
mod places;
mod runtime_checks;
mod seq;

pub use arithmetic::{BinOp, Mode, Width, apply, sum};
pub use boxed::Boxed;
pub use fault::{Fault, refused};
pub use places::{LONG_TEXT, LONGEST_TEXT, Pos, Refusal, START};
pub use runtime_checks::{Check, check_name, check_number, check_of};
pub use seq::{Bytes, Seq};
