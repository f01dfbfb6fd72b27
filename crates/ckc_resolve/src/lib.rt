//! The names of a tree: each is replaced by the declaration that it means (ISO C11, 6.2.1 and 6.2.3).
#![tactic(auto)]

mod acts;
mod bodies;
mod declarations;
mod expressions;
mod heads;
mod items;
mod laws;
mod mains;
mod meanings;
mod names;
mod nodes;
mod refusals;
mod scopes;
mod spellings;
mod statements;
mod top;
mod types;
mod visible;

pub use laws::{codes, declares_main, is_exact};
pub use refusals::{DECLARED_TWICE, NO_MAIN, UNDECLARED, UNDEFINED};
pub use top::resolve;
