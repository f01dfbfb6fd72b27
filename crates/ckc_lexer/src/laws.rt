//! What holds of the definitions.

ghost use Rattle.std.specs.Prelude.{◌≡◌, ◌≤◌, ◌⊎◌, ℕ, List};
ghost use Rattle.ckc_base.specs.declared.places.Refusal.{Refusal};
ghost use Rattle.ckc_base.specs.Phases.{IsExact};
ghost use Rattle.ckc_lexer.specs.Phase.{lexing};

/// A text has one list of tokens or one first fault: never both, never neither.
pub fn is_exact()
    ensures { IsExact lexing }
{}

/// The codes of the refusals: 101 to 105, and 201.
pub fn codes()
    ensures { (text : List ℕ) (r : Refusal) → lexing.Refuses text r →
        ((101 ≤ r.code) × (r.code ≤ 105)) ⊎ (r.code ≡ 201) }
{}
