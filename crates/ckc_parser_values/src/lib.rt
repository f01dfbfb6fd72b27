//! The values of the second pass: a stack for each sort.
#![tactic(auto)]

mod held;
mod joins;
pub mod laws;
mod makes;
mod sets;

pub use ckc_parser_stacks::{Budget, Stack, Tokens};
pub use held::{Form, Held, Slot};
pub use makes::{
    declare, declare_each, function_of, literal_node, mode_of, posted, put_locals, starred, statics,
};
pub use sets::{called_or_named, changed, finished, set_by_one, stepped, with_increment};
