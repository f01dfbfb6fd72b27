//! Files of cases, for programs that try what a reader adds as text: a line is a case, its fields stand apart by bars,
//! the last field is what is wanted. docs/phase-cases.md has the form of a line.
#![tactic(auto)]

mod expand;
mod files;
mod numbers;
mod page;
mod reader;

pub use expand::{Named, expanded};
pub use files::{File, Judge, Report, files_named, run_words};
pub use page::Page;
pub use reader::Reader;
