//! Tokens, types and trees as source text.
mod expressions;
mod names;
mod objects;
mod statements;
mod tokens;
mod types;

use ckc_test_trials::Page;
pub use expressions::put_expr;
pub use names::Written;
pub use objects::put_objects;
pub use statements::put_statement;
pub use tokens::{put_place, put_tokens};
pub use types::put_type;

/// Writes what stands between two items of a list.
fn put_between(page: &mut Page, index: usize, text: &str) {
    if index > 0 {
        page.put(text);
    }
}
