//! Typed trees: the tree of a text in which each statement and expression has its type, its mode and the range of
//! its value, with the layout of its structures and its static objects.
//!
//! What types the parts of a text have, and what it is that a typed tree keeps the rules of checked scopes, stands in
//! `specs/`. `types`, `operands`, `conversions`, `literals`, `constants` and `amounts` compute what written types,
//! operators, casts, literals, constant expressions and amounts stand for, `lookups` what a name stands for, `modes`
//! the mode of a head, of a body and after an item, and `interfaces` what code of a mode sees of a parameter.
#![tactic(auto)]

pub mod amounts;
pub mod codes;
pub mod constants;
pub mod conversions;
mod environment;
pub mod interfaces;
pub mod literals;
pub mod lookups;
pub mod modes;
pub mod operands;
mod typed;
pub mod types;

pub use environment::{Amount, Constant, Globals, Object, Parameter, Signature, Variable};
pub use typed::{Note, Range, StaticObject, Typed};
