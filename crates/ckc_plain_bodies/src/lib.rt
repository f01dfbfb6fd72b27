//! Expressions and statements without the effects within expressions.
#![tactic(auto)]

mod boxes;
mod expressions;
mod pending;
mod statements;
mod taken;

pub use pending::Pending;
pub use statements::stmt_alone;
