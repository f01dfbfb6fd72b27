//! The code of each function of a judged text is judged from its entry point, names there are in scope, and the first state
//! of the program is sound.
#![tactic(auto)]

mod first_laws;
mod laws;
mod scopes_laws;
mod sizes_laws;

pub use first_laws::{
    first_state_is_sound, functions_are_entered, objects_are_sound, objects_have_sizes,
    phases_begin_soundly, slots_are_parts,
};
pub use laws::{
    functions_are_judged, judging_keeps_frames, loops_keep_their_heads, walks_are_judged,
};
pub use scopes_laws::{declared_is_unnamed, names_are_seen};
pub use sizes_laws::allocations_have_sizes;
