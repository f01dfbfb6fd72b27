//! The lexer: cuts a text into tokens that lend their bytes of it, or gives the first fault of the text.
#![tactic(auto)]

mod bytes;
mod comments;
mod directives;
mod items;
mod laws;
mod lexer;
mod literals;
mod marks;
mod numbers;
mod words;

pub use items::{BAD_DIRECTIVE, BAD_LITERAL, LONG_NAME, NO_TOKEN, OPEN_COMMENT};
pub use laws::{codes, is_exact};
pub use lexer::{end_of, lex};
