//! Types as the compiler keeps them, the members of structures, and how both lie in memory.
#![tactic(auto)]

pub mod laws;
mod layout;
mod pointers;
mod same;
mod types;

pub use layout::{align, offset, size};
pub use pointers::wrapped;
pub use same::same_type;
pub use types::{CType, Kind, MemberBounds, MemberShape, StructShape, Structs};
