//! Declared bounds: which forms they may have, and what they stand for.
#![tactic(auto)]

mod limits;

pub use limits::{Holder, bounds_by_type, bounds_declared, bounds_given};
