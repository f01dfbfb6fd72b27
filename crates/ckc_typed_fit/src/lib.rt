//! What holds of a tree whose names are resolved: it has the form of the tree that it is made of, and its objects,
//! functions, tags and locals are numbered from 0.
#![tactic(auto)]

mod laws;

pub use laws::{
    functions_and_tags_are_numbered, functions_have_bodies, has_main, locals_are_numbered,
    members_differ, names_are_visible, names_keep_form, statics_are_numbered,
};
