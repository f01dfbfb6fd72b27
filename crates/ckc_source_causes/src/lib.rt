//! Programs that are well formed, and why a run of one is stuck.
#![tactic(auto)]

mod laws;

pub use laws::{
    checked_accesses_lie, expressions_are_stuck_for_a_cause, ranges_are_given,
    runs_are_stuck_for_a_cause,
};
