//! What a typed text is, by itself: the tree of its text with a note at each expression and statement, where each has the
//! type of its row in the table of types. Nothing is said of faults and their order (ISO C11, 6.5 to 6.8; Checked C
//! specification 0.9, section 2). All of it is laws.
#![tactic(auto)]

mod laws;

pub use laws::{
    counts_stay, declarations_exactly, expressions_by_parts, expressions_exactly, form_stays,
    items_exactly, one_typed_text, same_tree, statements_by_parts, statements_exactly,
    texts_exactly,
};
