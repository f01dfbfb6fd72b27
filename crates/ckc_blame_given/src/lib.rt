//! What evaluation gives where the bounds of pointers are judged, which targets in memory there are, and which points hold
//! after assignments.
#![tactic(auto)]

mod laws;
mod locals_laws;
mod targets_laws;

pub use laws::{expressions_give, ranges_begin_alike, words_go_to_places};
pub use locals_laws::{
    assignments_lead_on, calls_give_words, declarations_lead_on, plans_make_blocks,
    results_lead_on, statements_fit, steps_are_stored,
};
pub use targets_laws::{bundles_go_together, memory_stays_filled, targets_aim};
