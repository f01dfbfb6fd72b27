//! In the trees of texts declarations stand only in blocks and at the begin of a `for`.
#![tactic(auto)]

mod laws;

pub use laws::{judged_texts_are_nested, texts_are_nested};
