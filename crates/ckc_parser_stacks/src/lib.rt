//! The stacks of the parser's second pass, and copies of the expressions on them.
#![tactic(auto)]

mod copies;
mod parts;
mod remade;
mod stack;

pub use copies::{Budget, copied_expression};
pub use stack::{Stack, Tokens};
