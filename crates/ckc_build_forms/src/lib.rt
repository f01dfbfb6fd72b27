//! The program of a text that the phases accept has the form that programs must have to be compiled, and its numbers
//! fit.
#![tactic(auto)]

mod laws;

pub use ckc_blame_steps::{accepted_stores_lie, accepted_texts_are_blamed, stores_are_to_blame};
pub use ckc_build_sizes::{marks_stay, programs_are_small};
pub use laws::{accepted_numbers_fit, accepted_texts_have_the_form, statements_have_few_nodes};
