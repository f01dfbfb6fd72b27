//! Steps of mode Checked keep states sound, and so do those of mode Unchecked that are not stuck and store through no
//! unchecked pointer: assignments, declarations, conditions, calls and returns; and what follows for runs.
#![tactic(auto)]

mod accepted_laws;
mod allocated_laws;
mod calls_laws;
mod covered_laws;
mod covers_laws;
mod decided_laws;
mod declared_laws;
mod facts_accepted_laws;
mod facts_laws;
mod laws;
mod locals_laws;
mod results_laws;
mod rooms_laws;
mod spoken_laws;
mod stores_laws;
mod whole_laws;

pub use accepted_laws::{
    accepted_steps_stay_sound, accepted_texts_are_blamed, stores_are_to_blame,
};
pub use allocated_laws::allocations_draw;
pub use calls_laws::{calls_keep_sound, ends_keep_sound, results_are_known, returns_keep_sound};
pub use covered_laws::steps_are_covered;
pub use covers_laws::{
    conditions_are_covered, declared_structures_are_laid_out, expressions_are_covered,
    members_are_told, parts_are_of_mode, texts_are_safe, texts_are_told,
};
pub use decided_laws::conditions_are_decided;
pub use declared_laws::{results_are_spared, steps_declare};
pub use facts_accepted_laws::{
    bodies_are_given, declared_types_are_fine, locals_are_spared, names_of_members_are_small,
    objects_begin_as_bytes, runs_are_free,
};
pub use facts_laws::{
    callees_have_heads, functions_are_small, pointees_are_integers, statics_are_told,
    steps_have_room, texts_have_few,
};
pub use laws::{assignments_keep_sound, bytes_keep_sound};
pub use locals_laws::{
    locals_are_in_scope, locals_are_scalars, locals_declare, locals_declare_ones,
};
pub use results_laws::{
    callees_are_known, covered_give_words, objects_keep_results, points_after_results_hold,
};
pub use rooms_laws::{arguments_have_room, steps_have_places};
pub use spoken_laws::expressions_are_spoken;
pub use stores_laws::{
    accepted_stores_lie, checked_states_are_sound, checked_stores_lie, evaluations_stay,
    planned_stores_lie,
};
pub use whole_laws::{
    checked_never_stuck, checked_steps_keep_sound, every_step_stays_sound, first_state_sound,
    steps_stay_sound, stuck_is_blamed, wholly_checked_never_stuck,
};
