//! The functions of a text by their names.

ghost use Rattle.std.specs.Prelude.{◌≡◌, IfOk};
ghost use Rattle.ckc_build_elaborate.specs.Names.{number_of, params_of};

use ckc_base::sum;
use ckc_syntax::{Decl, Item, Name};
use ckc_typed::Note;
use ckc_typed::lookups::same_name;
use std::alloc::AllocError;

/// The number of a function among those with a body.
pub fn number_of(items: &[Item<Name, Note>], n: Name) -> Result<u32, AllocError>
    ensures { IfOk result (λ k. k ≡ number_of n items.now) }
{
    let mut before = 0;
    for item in items {
        if let Item::Function(h, _) = item {
            if same_name(h.get().name, n) {
                return Ok(before);
            }
            before = sum(before, 1)?;
        }
    }
    Ok(before)
}

/// The parameters of a function.
pub fn params_of(items: &[Item<Name, Note>], n: Name) -> &[Decl<Name, Note>]
    ensures { result.now ≡ params_of n items.now }
{
    for item in items {
        if let Item::Function(h, _) = item {
            let head = h.get();
            if same_name(head.name, n) {
                return head.params.as_slice();
            }
        }
    }
    &[]
}
