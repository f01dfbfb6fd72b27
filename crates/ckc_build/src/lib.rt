//! From a text to the program that it means, to the bytes of its image, or to its first error: the phases, one after
//! another.
#![tactic(auto)]

mod front;
mod images;
mod laws;
mod meanings;

pub use front::judge;
pub use images::build;
pub use laws::{
    checked_stores_lie_in_blocks, codes, judging_is_exact, numbers_fit, one_tree,
    programs_are_laid_out, programs_are_well_formed, programs_fit, programs_have_the_form,
    states_of_texts_are_orderly, stuck_runs_have_a_cause, unchecked_code_is_to_blame,
    unchecked_stores_are_to_blame,
};
pub use meanings::{meanings_are_exact, program};
