//! That core code with inserted checks follows the meaning of the source program. There is no code here: the theorem is
//! the contract of a function that does nothing.
#![tactic(auto)]

pub mod laws;
