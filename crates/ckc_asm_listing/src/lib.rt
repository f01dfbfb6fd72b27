//! The listing of the parts of an image: the one text that assembly has for them. Its short lines serve other texts too.
#![tactic(auto)]

mod lister;
mod text_line;
mod texts;

pub use lister::{list, show};
pub use text_line::TextLine;
