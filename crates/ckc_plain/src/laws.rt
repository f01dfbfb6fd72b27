//! What holds of the definitions.

ghost use Rattle.std.specs.Prelude.{◌≡◌};
ghost use Rattle.ckc_base.specs.declared.places.Refusal.{Refusal};
ghost use Rattle.ckc_base.specs.Phases.{IsExact};
ghost use Rattle.ckc_syntax.specs.declared.tree.NamedText.{NamedText};
ghost use Rattle.ckc_syntax.specs.Trees.{Tree as SpelledTree};
ghost use Rattle.ckc_plain.specs.Codes.{misplaced_effect, IsCode};
ghost use Rattle.ckc_plain.specs.Phase.{plaining, relimiting, resolving};

/// A text has one plain text or one first error: never two, never both, never neither. So it is with its limits, and
/// with all phases from the tree of spellings on.
pub fn is_exact()
    ensures exact { IsExact plaining }
    ensures limits { IsExact relimiting }
    ensures phases { IsExact resolving }
{}

/// Effects are refused with the code 408; all phases from the tree of spellings on with that one, with those of the
/// names, or with those of the limits.
pub fn codes()
    ensures codes { (text : NamedText) (r : Refusal) → plaining.Refuses text r
        → r.code ≡ misplaced_effect }
    ensures phases { (tree : SpelledTree) (r : Refusal) → resolving.Refuses tree r
        → IsCode r.code }
{}
