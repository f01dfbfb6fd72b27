//! What evaluation gives.

use ckc_base::{Check, Pos, Width};

/// The range of a pointer, if it has one: from an address up to another.
#[derive(Clone, Copy)]
pub enum Range {
    Without,
    Within(u64, u64),
}

/// A value: a word, and the range of a checked pointer that is not null.
#[derive(Clone, Copy)]
pub struct Value {
    pub number: u32,
    pub range: Range,
}

/// Why evaluation gives no value: it stops at a check and its place, or it is stuck.
#[derive(Clone, Copy)]
pub enum Halt {
    Stopped(Check, Pos),
    Stuck,
}

/// Where an assignment writes: nowhere, to a local, or to an address. If only zero may be written there, it has the
/// place at which another value stops.
#[derive(Clone, Copy)]
pub enum Place {
    Nowhere,
    Local(u32, Width),
    Memory(u32, Width, Option<Pos>),
}
