//! What is no assignment and no call keeps a state sound.
#![tactic(auto)]

mod laws;

pub use laws::{
    calls_enter_soundly, calls_return_soundly, checked_steps_stay_sound, conditions_have_sides,
    conditions_stay_sound, first_calls_end, points_outlive_stores, settling_keeps_points,
    states_stay_sound, steps_are_judged, steps_are_known, steps_are_typed,
};
