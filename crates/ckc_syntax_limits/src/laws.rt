//! What holds of the definitions.

ghost use Rattle.std.specs.Prelude.{◌≤◌};
ghost use Rattle.ckc_base.specs.declared.places.Refusal.{Refusal};
ghost use Rattle.ckc_base.specs.Phases.{IsExact};
ghost use Rattle.ckc_syntax.specs.declared.tree.Tree.{Tree};
ghost use Rattle.ckc_syntax_limits.specs.Phase.{limiting};

/// A tree keeps the limits or has one first refusal: never both, never neither.
pub fn is_exact<N, A>()
    ensures { IsExact (limiting {N = N} {A = A}) }
{}

/// The codes of the refusals: 202 to 205.
pub fn codes<N, A>()
    ensures { (tree : Tree N A) (r : Refusal) →
        (limiting {N = N} {A = A}).Refuses tree r → (202 ≤ r.code) × (r.code ≤ 205) }
{}
