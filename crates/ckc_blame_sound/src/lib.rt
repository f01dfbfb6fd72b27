//! When a state of the program of a judged text is sound, and what holds at the points of its functions.
#![tactic(auto)]

mod contained_laws;
mod laws;
mod numbers_laws;
mod runs_laws;
mod slots_laws;
mod texts_laws;

pub use contained_laws::{
    assignments_keep_bounds, calls_begin_bounded, contained_is_true, declarations_keep_bounds,
    elements_stay_filled, limits_move, members_are_covered, members_stay_filled, memory_is_bounded,
    results_are_bounded, valuations_agree,
};
pub use laws::{
    assignments_hold, branches_join, functions_begin, loops_turn, points_keep, shown_is_true,
};
pub use numbers_laws::{conditions_tell, facts_hold, forms_are_exact, judging_keeps_types};
pub use runs_laws::{checked_texts_run_checked, stuck_runs_are_blamed};
pub use slots_laws::{
    accesses_lie_in_blocks, blocks_are_made, bounds_reach, objects_lie_in_blocks,
    pointers_stay_true, states_have_sound_blocks, stores_keep_blocks, targets_are_written,
    writes_keep_blocks,
};
pub use texts_laws::{
    accesses_are_parts, bodies_are_typed, expressions_are_typed, frames_agree, judging_keeps_trees,
    judging_keeps_views, locals_are_numbered, members_have_own_names, phases_judge,
    sizes_are_words, slots_are_pointers, statements_are_typed, strings_have_objects,
};
