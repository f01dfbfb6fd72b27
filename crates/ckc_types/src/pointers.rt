//! The pointers that stand around a type.

ghost use Rattle.std.specs.Prelude.{◌≡◌, IfOk};
ghost use Rattle.ckc_types.specs.Pointers.{wrapped};

use crate::types::{CType, Kind};
use ckc_base::{Boxed, Seq};
use std::alloc::{AllocError, Global};

/// A type in pointers of these kinds, the outermost first.
#[tactic(auto, using(crate::proofs::Wrapping::wrapped_push))]
pub fn wrapped(alloc: Global, mut kinds: Seq<Kind>, base: CType) -> Result<CType, AllocError>
    ensures { IfOk result (λ t. t ≡ wrapped kinds base) }
{
    let mut whole = base;
    'layers: while let Some(kind) = kinds.pop() {
        let to = Boxed::new(alloc, whole)?;
        whole = CType::Pointer(kind, to);
    }
    Ok(whole)
}
