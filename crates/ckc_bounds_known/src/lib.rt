//! What is known of integer variables: the facts that others show, and those that the range of a type is.
#![tactic(auto)]

mod intervals;
mod laws;
mod ranges;
mod shown;
mod work;

pub use intervals::{Interval, is_between, is_small, range_of};
pub use laws::shown_by_chains;
pub use ranges::{add_fact, add_range, lose};
pub use shown::{is_shown, is_within};
pub use work::{Work, grow};
