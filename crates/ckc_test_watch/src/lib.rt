//! A machine that watches its stores: it runs an image as `ckc_machine` does, and tells of each store whether it goes to
//! the heap word, into a block or into a frame.
#![tactic(auto)]

mod memory;
mod modes;
mod places;
mod watch;

pub use modes::is_wholly_checked;
pub use places::Places;
pub use watch::{End, Stores, Watch};
