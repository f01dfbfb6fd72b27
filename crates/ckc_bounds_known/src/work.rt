//! What the judging of one function works with.

ghost use Rattle.std.specs.Prelude.{◌≡◌, ◌*◌, ◌≤◌, vec_len, OnOk};

use std::alloc::{AllocError, Global};

/// What the judging of one function takes its memory from: the allocator, and a row in which chains of facts are
/// searched. No contract says what the row holds.
#[derive(Drop)]
pub struct Work {
    pub alloc: Global,
    pub row: Vec<i64>,
}

impl Work {
    /// No row yet.
    pub fn new(alloc: Global) -> Work
        ensures { vec_len result.row ≡ 0 }
    {
        Work {
            alloc,
            row: Vec::new(alloc),
        }
    }
}

/// Makes a row long enough for searches over so many variables: two places for each.
pub fn grow(vars: u32, row: &mut Vec<i64>) -> Result<(), AllocError>
    requires { vars ≤ 1024 }
    ensures { OnOk result (2 * vars ≤ vec_len row.new) }
{
    let places = 2 * vars as usize;
    if row.len() < places {
        row.resize(places, 0)?;
    }
    Ok(())
}
