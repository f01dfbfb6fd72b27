//! The grammar of Checked C, as the language has it: its productions in the order of docs/language.md, each with what
//! it stands for, and how tokens derive a text.
#![tactic(auto)]

mod chain;
mod laws;

pub use chain::Step;
pub use laws::no_tokens_are_a_text;
