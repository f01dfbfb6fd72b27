//! What the pointers of judged expressions come to.
#![tactic(auto)]

mod laws;

pub use laws::{expressions_come, fresh_variables_are_few};
