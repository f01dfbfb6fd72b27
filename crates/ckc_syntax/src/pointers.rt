//! The pointers that stand around a written type.

ghost use Rattle.std.specs.Prelude.{◌≡◌, IfOk};
ghost use Rattle.ckc_syntax.specs.Pointers.{pointer_to, wrapped};

use crate::TypeTree;
use ckc_base::{Boxed, Pos, Seq};
use std::alloc::{AllocError, Global};

/// A pointer as it is written: a `*` with its place, `_Ptr`, `_Array_ptr` or `_Nt_array_ptr` (Checked C
/// specification 0.9, section 2).
#[derive(Clone, Copy)]
pub enum Pointer {
    Raw(Pos),
    One,
    Arr,
    Nt,
}

fn pointer_to<N>(pointer: Pointer, inner: Boxed<TypeTree<N>>) -> TypeTree<N>
    ensures { result ≡ pointer_to pointer inner }
{
    match pointer {
        Pointer::Raw(pos) => TypeTree::Raw(inner, pos),
        Pointer::One => TypeTree::One(inner),
        Pointer::Arr => TypeTree::Arr(inner),
        Pointer::Nt => TypeTree::Nt(inner),
    }
}

/// A type in these pointers, the outermost first.
#[tactic(auto, using(crate::proofs::Wrapping::wrapped_push))]
pub fn wrapped<N: Drop>(
    alloc: Global,
    mut pointers: Seq<Pointer>,
    base: TypeTree<N>,
) -> Result<TypeTree<N>, AllocError>
    ensures { IfOk result (λ t. t ≡ wrapped pointers base) }
{
    let mut whole = base;
    'pointers: while let Some(pointer) = pointers.pop() {
        let inner = Boxed::new(alloc, whole)?;
        whole = pointer_to(pointer, inner);
    }
    Ok(whole)
}
