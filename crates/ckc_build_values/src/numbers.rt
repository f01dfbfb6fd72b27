//! Numbers that must fit. That one does not is taken for want of memory.

ghost use Rattle.std.specs.Prelude.{◌≡◌, ◌*◌, IfOk};

use std::alloc::AllocError;

/// The product of two numbers.
pub fn product(a: u32, b: u32) -> Result<u32, AllocError>
    ensures { IfOk result (λ n. n ≡ a * b) }
{
    match a.checked_mul(b) {
        Some(n) => Ok(n),
        None => Err(AllocError),
    }
}

/// A length as a number.
pub fn number(length: usize) -> Result<u32, AllocError>
    ensures { IfOk result (λ n. n ≡ length) }
{
    match u32::try_from(length) {
        Ok(n) => Ok(n),
        Err(_) => Err(AllocError),
    }
}

/// A number of elements.
pub fn elements(c: i64) -> Result<i32, AllocError>
    ensures { IfOk result (λ n. n ≡ c) }
{
    match i32::try_from(c) {
        Ok(n) => Ok(n),
        Err(_) => Err(AllocError),
    }
}
