//! How far the pointers of a function reach at a point: the ranges of expressions, and the fresh variables that these need.
#![tactic(auto)]

mod amounts;
mod fresh;
mod ranges;

pub use amounts::element_size;
pub use ckc_bounds_views as bounds_views;
pub use ckc_bounds_views::{bounds_points, bounds_ranges};
pub use fresh::{add_fresh_ranges, fresh_behind};
pub use ranges::{allocates, is_null, range};
