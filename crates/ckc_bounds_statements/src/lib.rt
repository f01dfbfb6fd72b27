//! Statements: what is judged on the way through them, and what is known after them.
#![tactic(auto)]

mod acts;
mod contents;
mod declared;
mod loops;
mod needs;
mod statements;
mod walk;

pub use contents::add_name;
pub use declared::{bounds_there, decl_bounds, holder_of};
pub use needs::may_need;
pub use statements::judge_stmt;
pub use walk::{Walk, judge_init};
