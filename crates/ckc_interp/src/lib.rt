//! Runs the meaning of a program: what it shows, step by step, over any source and sink.
//!
//! `specs/Runs.antt` says what a run does.
#![tactic(auto)]

mod arms;
mod assigns;
mod frame;
mod run;
mod seen;
mod whole;
mod work;

pub use seen::Seen;
pub use whole::interp;
