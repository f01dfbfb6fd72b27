//! The effects that a text may not have, and what tells them: the integer types of functions and locals, and the forms
//! of expressions.
#![tactic(auto)]

mod barred;
mod effects;
mod forms;
mod integers;

pub use barred::first_in_items;
pub use forms::{Form, Work, form_of, is_call, stays, work_of};
pub use integers::{Integer, Integers, known_of, local_of, locals_of, result_of, type_of};
