//! The program of a text that the phases accept is well formed: what it names is there and has room, and checked pointers have
//! ranges.
#![tactic(auto)]

mod laws;

pub use ckc_build_forms::{
    accepted_numbers_fit, accepted_stores_lie, accepted_texts_are_blamed,
    accepted_texts_have_the_form, marks_stay, programs_are_small, stores_are_to_blame,
};
pub use ckc_source_causes::{
    checked_accesses_lie, expressions_are_stuck_for_a_cause, ranges_are_given,
    runs_are_stuck_for_a_cause,
};
pub use laws::accepted_texts_are_well_formed;
