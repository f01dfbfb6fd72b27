//! The actions of the second pass on declarations, statements and items.
#![tactic(auto)]

mod acts;
mod declarations;
mod items;
mod machine;
mod rows;
mod statements;

pub use machine::build;
