//! The rules of checked scopes: no declared type, expression or called function has an unchecked pointer or array
//! type there, and no `_Assume_bounds_cast` stands there.
#![tactic(auto)]

mod expressions;
mod items;
mod laws;
mod raw;
mod statements;
mod text;

pub use expressions::{ASSUMED_CAST, UNCHECKED_POINTER};
pub use laws::{codes, is_exact};
pub use text::scopes;
