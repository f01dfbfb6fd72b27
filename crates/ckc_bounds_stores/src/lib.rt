//! What initialisations, assignments, bundles and returns owe at a point: each pointer that they touch is contained in the
//! bounds that it must have.
#![tactic(auto)]

mod faults;
mod placed;
mod replacing;
mod stores;
mod targets;
mod values;

pub use ckc_bounds_extents as bounds_extents;
pub use stores::{initialised, pass, returned, stored};
