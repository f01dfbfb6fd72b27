//! The core code of operands: of expressions that need no code in front of them, of the ranges of pointers, and of the
//! tests of accesses, of pointer arithmetic and of bounds casts. What can be compiled is said here too.
#![tactic(auto)]

mod casts;
mod exprs;
mod lengths;
mod numbers;
mod ranges;

pub use casts::casts_one;
pub use ckc_checks_guards::{binary, kept_in, low_byte, may_write, null_check};
pub use exprs::{
    as_truth, at_offset, direct, element_of, is_direct, is_zero, operand, operated, scaled, shifted,
};
pub use lengths::{cast_passes, length_at};
pub use numbers::{is_number, is_this, number};
pub use ranges::{
    below_end, bounds_test, count_of, end_at, exact_test, held, index_far, index_in, is_array,
    is_bounded, is_counted, is_ranged, keeps_index, reads_signed, static_place, takes_range,
};
