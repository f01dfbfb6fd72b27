//! The ranges of pointers, and whether the bounds that a pointer must have lie in the range that it has.
#![tactic(auto)]

mod bundles;
mod containment;
mod members;
mod replacements;
mod rows;

pub use bundles::is_bundle;
pub use containment::{Ends, extend, is_contained};
pub use members::{has_no_address, may_be_assigned_alone, may_be_assigned_with};
pub use replacements::{BaseBy, VariableBy, replaced_bounds};
pub use rows::{range_from, range_of_array, range_of_ends, range_of_local};
