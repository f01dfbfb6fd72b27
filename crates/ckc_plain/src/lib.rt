//! Effects out of expressions: calls, assignments and increments within expressions become statements of their own, so
//! that no later phase meets them.
#![tactic(auto)]

mod laws;
mod top;

pub use laws::{codes, is_exact};
pub use top::{MISPLACED_EFFECT, limited, plain, resolve_plainly};
