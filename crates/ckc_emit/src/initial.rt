//! The initial bytes of the data region.
ghost use Rattle.std.specs.Prelude.{◌≡◌, ◌<◌, All, IfOk};

use ckc_base::{Bytes, Seq};
use std::alloc::{AllocError, Global};

/// A copy of bytes, each of which is read, so that it is known to be one.
pub fn copy_of(alloc: Global, bytes: &[u8]) -> Result<Bytes, AllocError>
    ensures same { IfOk result (λ copy. copy ≡ bytes.now) }
    ensures small { IfOk result (λ copy. All (λ b. b < 256) copy) }
{
    let mut copy = Vec::new(alloc);
    for b in bytes {
        copy.push(*b)?;
    }
    Ok(Seq::from_vec(copy))
}
