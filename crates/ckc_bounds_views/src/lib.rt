//! What the expressions of a function stand for at a point, and what they make known as conditions.
#![tactic(auto)]

mod arguments;
mod conditions;
mod forms;
mod places;
mod variables;

pub use arguments::{add_some, bases_by, own_by, variables_by};
pub use ckc_bounds_points as bounds_points;
pub use ckc_bounds_ranges as bounds_ranges;
pub use conditions::{behind, narrow, right_point, to_side};
pub use forms::{Step, form, number};
pub use places::{is_raw, is_raw_kind, place, target, values, values_of_node};
pub use variables::{
    Member, Own, fresh_form, is_checked, member_bounds, member_of_node, most_fresh, type_needed,
};
