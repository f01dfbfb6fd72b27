//! What is known at each point of a function: facts about its integer variables, and pointers that are widened.
#![tactic(auto)]

pub mod codes;
mod forms;
mod frame;
mod joins;
mod locals;
mod point;
mod work;

pub use ckc_bounds_known::{
    Interval, Work, add_fact, add_range, is_shown, is_small, is_within, range_of, shown_by_chains,
};
pub use forms::{
    add_less, add_most, at_most, base_form, constant_form, difference_of_forms, elements, in_type,
    moved_form, same_base, same_form, sum_of_forms,
};
pub use frame::{Bounds, Frame, HeadBounds, Local};
pub use joins::{entry, join, unreached};
pub use locals::{local_at, variable};
pub use point::{Point, assign, copied, copied_facts, forget_assigned, in_bounds};
pub use work::fit_row;
