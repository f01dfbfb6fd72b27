//! What later phases may rely on in a tree without effects in its expressions.
#![tactic(auto)]

mod laws;

pub use laws::{
    plain_items_stay, plain_locals_are_numbered, plain_names_are_visible, plain_texts_are_given,
    plain_texts_are_within, plain_texts_fit,
};
