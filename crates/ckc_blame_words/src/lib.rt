//! The literals of every text that the phases accept are words of 32 bits.
#![tactic(auto)]

mod laws;

pub use laws::{
    judging_keeps_words, literals_are_words, names_keep_words, plain_trees_keep_words,
    tokens_hold_words, trees_have_words, types_keep_words,
};
