//! What follows from the definitions alone, each the contract of a function that does nothing.

ghost use Rattle.std.specs.Prelude.{◌≡◌, ℕ, true, Ok};
ghost use Rattle.ckc_base.specs.declared.arithmetic.Mode.{Mode};
ghost use Rattle.ckc_typed.specs.declared.typed.Typed.{Typed};
ghost use Rattle.ckc_typed.specs.Trees.{NotedExpr};
ghost use Rattle.ckc_typed_welltyped.specs.Productions.{callless_expr};
ghost use Rattle.ckc_blame_sound.specs.ckc_bounds_points.specs.Flow.{State};
ghost use Rattle.ckc_blame_sound.specs.ckc_bounds_views.specs.Views.{view};
ghost use Rattle.ckc_source.specs.Code.{Function};
ghost use Rattle.ckc_blame_sound.specs.Settings.{Setting, IsFunction};
ghost use Rattle.ckc_blame_sound.specs.Typed.{IsTyped};
ghost use Rattle.ckc_blame_given.specs.ckc_blame_pointers.specs.Covered.{DeclareOnes};
ghost use Rattle.ckc_blame_sound.specs.JudgedTexts.{IsJudged, globals_in};
ghost use Rattle.ckc_blame_steps.specs.Checked.{IsOfMode};
ghost use Rattle.ckc_blame_steps.specs.Told.{IsSpoken};

/// A typed expression of code of a mode without calls is judged as one of which it is said what it
/// comes to, if locals that are `_Ptr` have the bounds of their type.
pub fn expressions_are_spoken()
    ensures { (m : Mode) (p : Typed) (s : Setting) (f : Function) (before after : NotedExpr)
        (fresh : ℕ) (at : State) → IsJudged p → IsFunction p s f → DeclareOnes s
        → IsTyped (globals_in p) s before → IsOfMode m before → callless_expr before ≡ true
        → (view s.frame before).judged fresh at ≡ Ok after → IsSpoken m s after }
{}
