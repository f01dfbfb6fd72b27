//! What a text declares (its objects, the signatures of its functions, the variables of each function), what type a
//! name has, what may be assigned to, and the notes of a tree (ISO C11, 6.2.1, 6.3.2.1 and 6.9).
#![tactic(auto)]

pub mod environment;
pub mod locals;
pub mod lookups;
pub mod notes;
pub mod scope;
pub mod targets;
