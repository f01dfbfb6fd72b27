//! The guards of accesses as core code, made of parts: that a pointer is not null, that an address is below an upper bound,
//! that its sum did not leave the words, and what may be written to the last element of a null-terminated array.
#![tactic(auto)]

mod guards;
mod parts;

pub use guards::{below_or_at, cancels, may_write, null_check, upper_test};
pub use parts::{binary, kept_in, low_byte};
