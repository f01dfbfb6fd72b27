ghost use Rattle.std.specs.Prelude.{◌≡◌, IfErr};
ghost use Rattle.ckc_base.specs.declared.fault.Fault.TheVariants.{Memory};
ghost use Rattle.ckc_base.specs.Phases.{Exact};
ghost use Rattle.ckc_scopes.specs.Phase.{scoping};

use crate::items::items_fit;
use ckc_base::Fault;
use ckc_typed::Typed;

/// A typed text that keeps the rules of checked scopes, as it was; or the first refusal in walk order: E501 at an
/// unchecked pointer or array that is declared there, at an expression with an unchecked pointer in its type, or at
/// a call of a function with one in its head, and E502 at an `_Assume_bounds_cast`. It takes no memory.
pub fn scopes(p: Typed) -> Result<Typed, Fault>
    // Ok of the same text if it is scoped, a refusal for exactly its first fault, both ways.
    ensures exact { Exact scoping p result }
    ensures no_memory { IfErr result (λ e. ¬ (e ≡ Memory)) }
{
    match items_fit(p.tree.items.as_slice()) {
        Ok(()) => Ok(p),
        Err(refusal) => Err(Fault::Refused(refusal)),
    }
}
