//! The types of a text: each statement and expression of a tree gets its type and its mode, or the first fault is told
//! (ISO C11, 6.5 to 6.8; Checked C specification 0.9, section 2).
#![tactic(auto)]

mod calls;
mod declarations;
mod expressions;
mod forms;
mod items;
mod laws;
mod makers;
mod placing;
mod statements;
mod text;

pub use laws::{codes, is_exact, statics_are_named, statics_have_room, statics_lie_apart};
pub use text::type_of;
