//! What a text lays out: its structures with the bounds of their members, what its objects begin as, its string
//! literals, and the blocks of both (ISO C11, 6.2.4, 6.4.5 and 6.7.9; Checked C specification 0.9, section 2).
#![tactic(auto)]

pub mod initials;
pub mod layouts;
mod statics;
mod strings;

pub use statics::blocks;
