//! What follows from the definitions alone.

ghost use Rattle.std.specs.Prelude.{◌≡◌};
ghost use Rattle.ckc_base.specs.Phases.{IsExact};
ghost use Rattle.ckc_base.specs.declared.places.Refusal.{Refusal};
ghost use Rattle.ckc_typed.specs.declared.typed.Typed.{Typed};
ghost use Rattle.ckc_bounds_statements.specs.Codes.{IsBoundsCode};
ghost use Rattle.ckc_bounds.specs.Phase.{bounding};

/// A typed text has one text with its ranges or one first error: never two, never both, never neither.
pub fn is_exact()
    ensures exact { IsExact bounding }
{}

/// Each refusal is one of E601 to E607.
pub fn codes()
    ensures codes { (p : Typed) (r : Refusal) → bounding.Refuses p r → IsBoundsCode r.code }
{}
