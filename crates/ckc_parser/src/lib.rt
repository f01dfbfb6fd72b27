//! The tree of a Checked C text, read from its tokens.
#![tactic(auto)]

mod laws;
mod text;

pub use ckc_parser_grammar::SYNTAX_ERROR;
pub use laws::{codes, is_exact};
pub use text::parse;
