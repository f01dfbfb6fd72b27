//! The judgement of bounds: whether each pointer of a text stays within the bounds that are declared of it (Checked C
//! specification 0.9, section 3), and the range of each pointer.
#![tactic(auto)]

mod bodies;
mod declared;
mod heads;
mod items;
mod laws;
mod locals;
mod text;

pub use laws::{codes, is_exact};
pub use text::bounds;
