//! Assembly text to the parts of an image.
#![tactic(auto)]

mod code;
mod encoding;
mod image;
mod item_reader;
mod items;
mod kinds;
mod labels;
mod laws;
mod names;
mod numerals;
mod reader;
mod refusals;
mod shapes;
mod spots;
mod statements;

pub use laws::{codes, is_exact, words_by_range};
pub use names::{branch_name, imm_name, load_name, reg_name, store_name};
pub use reader::read_asm;
pub use refusals::{NO_FORM, NO_IMAGE, OUT_OF_RANGE, SECOND_LABEL, UNKNOWN_LABEL};
