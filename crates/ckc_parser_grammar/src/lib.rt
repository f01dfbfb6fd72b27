//! The parser's table of productions, which derives what the grammar does, a reader of tokens, and what trees are
//! made of.
#![tactic(auto)]

mod join;
mod kind;
mod laws;
mod make;
mod operators;
mod parts;
mod reader;
mod trace;

pub use ckc_grammar::Step;
pub use join::whole;
pub use kind::Kind;
pub use laws::derives_the_same_trees;
pub use make::{
    called, copied, directive_of, expression, head_of, local_of, number_of, statement, struct_type,
};
pub use operators::{binary_op, compound_op, increment_op, sign_op};
pub use parts::{
    Arms, Bounds, CType, Declaration, Expression, Operation, Post, Rest, Setting, Statement, Stop,
};
pub use reader::{Reader, SYNTAX_ERROR, token_kind};
pub use trace::TOKEN;
