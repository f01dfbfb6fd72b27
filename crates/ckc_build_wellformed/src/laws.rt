//! What follows from the definitions alone, each the contract of a function that does nothing.

ghost use Rattle.std.specs.Prelude.{List, ℕ};
ghost use Rattle.ckc_typed.specs.declared.typed.Typed.{Typed};
ghost use Rattle.ckc_build_forms.specs.ckc_blame_steps.specs.Accepted.{IsAccepted};
ghost use Rattle.ckc_build_elaborate.specs.Elaborated.{elaborated};
ghost use Rattle.ckc_source_causes.specs.WellFormed.{IsWellFormed};

use ckc_typed_welltyped::{counts_stay, texts_exactly};

/// The program of a text that the phases accept is well formed.
pub fn accepted_texts_are_well_formed()
    ensures { (text : List ℕ) (p : Typed) → IsAccepted text p → IsWellFormed (elaborated p) }
{
    texts_exactly();
    counts_stay();
}
