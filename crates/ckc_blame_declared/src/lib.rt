//! What declarations say of bounds is told alike to the judgement and to the program.
#![tactic(auto)]

mod laws;

pub use laws::{
    counted_members_have_bounds, interfaces_are_bounded, locals_have_ends, members_count_integers,
    memory_bounds_are_own, parameters_are_locals, results_are_told, results_have_ends,
};
