//! Wrong bodies that look right at a glance, and what refuses them. Each law here takes the promise of a public
//! function, and says what each body that keeps it answers where the wrong one answers something else. There is no code
//! here: a law is the contract of a function that does nothing.
#![tactic(auto)]

mod chains;
mod images;
mod machines;
mod meanings;
mod statuses;

pub use chains::chains_have_several_facts;
pub use images::{images_are_in_time, placed_code_is_shown, trailing_bytes_are_bad};
pub use machines::{end_of_input_is_minus_one, machines_agree};
pub use meanings::{runs_have_one_answer, stuck_runs_are_told};
pub use statuses::no_status_comes_always;
