//! What `sample` is made of: the text of a seed and a size, a run of its image with no input, and the lines that tell of it.
#![tactic(auto)]

mod alone;
mod lines;
mod text;

pub use alone::run_alone;
pub use lines::put_sample;
pub use text::sample_of;
