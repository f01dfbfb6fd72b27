//! The actions of the second pass on expressions, types and limits.
#![tactic(auto)]

mod acts;
mod changes;
mod expressions;
mod operators;
mod types;

pub use acts::act_term;
pub use changes::{increment_of, no_increment};
pub use expressions::{allocate, cast, name_expr, post_expr, skip};
pub use types::structure_type;
