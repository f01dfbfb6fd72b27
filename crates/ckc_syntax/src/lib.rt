//! Tokens and trees of Checked C texts, and the characters that literals are spelled with.
#![tactic(auto)]

mod copies;
mod digits;
pub mod laws;
mod literals;
mod pointers;
mod same;
mod tokens;
mod tree;

pub use copies::{
    ExactClone, boxed_head, copied_bounds, copied_decls, copied_expr, copied_type, decl_with,
};
pub use digits::{digit_value, is_digit};
pub use literals::{Piece, piece_at, string_bytes};
pub use pointers::{Pointer, wrapped};
pub use same::same_head;
pub use tokens::{Directive, Spelling, Token, TokenKind};
pub use tree::{
    Act, Decl, Expr, Head, Init, Item, Length, Limits, Name, NamedText, Node, Stmt, Tree, TreeOp,
    TypeTree,
};
