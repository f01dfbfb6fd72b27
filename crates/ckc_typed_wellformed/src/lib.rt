//! The trees that tokens derive are those that the productions give (ISO C11, 6.5 to 6.9).
#![tactic(auto)]

mod laws;

pub use laws::trees_are_given;
