//! What a command asks of the outside, in one call each: a file is fetched, a file is kept, a line is put.
#![tactic(auto)]

mod files;
mod lines;

pub use files::{fetch_file, keep_file};
pub use lines::put_line;
