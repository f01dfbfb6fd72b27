//! Laws of the definitions, each the contract of a function that does nothing.
ghost use Rattle.std.specs.Prelude.{◌≡◌, ◌⊎◌};
ghost use Rattle.ckc_base.specs.declared.places.Refusal.{Refusal};
ghost use Rattle.ckc_base.specs.Phases.{IsExact};
ghost use Rattle.ckc_typed.specs.declared.typed.Typed.{Typed};
ghost use Rattle.ckc_scopes.specs.Phase.{scoping};

/// A typed text is scoped or has one first fault: never both, never neither.
pub fn is_exact()
    ensures { IsExact scoping }
{}

/// The codes of the refusals: 501 and 502.
pub fn codes()
    ensures { (p : Typed) (r : Refusal) → scoping.Refuses p r → (r.code ≡ 501) ⊎ (r.code ≡ 502) }
{}
