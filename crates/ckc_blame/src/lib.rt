//! Texts that are wholly checked.
#![tactic(auto)]

mod checked;

pub use checked::wholly_checked;
