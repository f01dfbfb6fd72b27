//! What follows from the definitions alone, each the contract of a function that does nothing.

ghost use Rattle.std.specs.Prelude.{◌≡◌, ◌≢◌, ◌⊎◌, ℕ, List, ◌∷◌, ◌++◌, Err};
ghost use Rattle.ckc_base.specs.declared.arithmetic.Mode.TheVariants.{Checked};
ghost use Rattle.ckc_base.specs.Lists.{AreBytes};
ghost use Rattle.ckc_base.specs.States.{state_at};
ghost use Rattle.ckc_typed.specs.declared.typed.Typed.{Typed};
ghost use Rattle.ckc_source.specs.declared.outcome.Halt.TheVariants.{Stuck};
ghost use Rattle.ckc_source.specs.declared.program.Shape.{Shape};
ghost use Rattle.ckc_source.specs.declared.stmt.Spot.{Spot};
ghost use Rattle.ckc_source.specs.Blocks.{Block};
ghost use Rattle.ckc_source.specs.Code.{Code, Expr, Target, Right, Bundle, Program};
ghost use Rattle.ckc_source.specs.Eval.{evaluated};
ghost use Rattle.ckc_source.specs.Source.{source_system, first_state};
ghost use Rattle.ckc_source.specs.States.{State, Work, Rest, settled};
ghost use Rattle.ckc_source.specs.Steps.{spot_of};
ghost use Rattle.ckc_build_elaborate.specs.Elaborated.{elaborated};
ghost use Rattle.ckc_blame.specs.Checked.{WhollyChecked};
ghost use Rattle.ckc_blame_sound.specs.Limited.{store_with};
ghost use Rattle.ckc_blame_sound.specs.Sound.{Sound};
ghost use Rattle.ckc_blame_steps.specs.Accepted.{IsAccepted};
ghost use Rattle.ckc_blame_steps.specs.Known.{IsKnown, Begins};
ghost use Rattle.ckc_blame_steps.specs.Stores.{PlansLieAt, PlansLie};

/// An expression has the value that it has without further blocks, or is stuck without them.
pub fn evaluations_stay()
    ensures { (shapes : List Shape) (blocks more : List Block) (locals : List ℕ) (e : Expr) →
        (evaluated (store_with shapes blocks locals) e ≡ Err Stuck)
        ⊎ (evaluated (store_with shapes (blocks ++ more) locals) e
        ≡ evaluated (store_with shapes blocks locals) e) }
{}

/// What a step of any program plans to write to memory lies in blocks of its state, unless the step
/// is a bundle.
pub fn planned_stores_lie()
    ensures { (p : Program) (s : State) →
        ((spot : Spot) (assigns : List (Target × Right)) (rest : Code) (next : List Work) →
        settled s.frame.work ≢ Rest (Bundle spot assigns rest) ∷ next) → PlansLieAt p s }
{}

/// What a step of mode Checked from a sound state of a known text plans to write to memory lies in
/// blocks of that state.
pub fn checked_stores_lie()
    ensures { (p : Typed) (s : State) → IsKnown p → Sound p s → (spot_of s).mode ≡ Checked
        → PlansLieAt (elaborated p) s }
{}

/// Each state of a run of a known text that is wholly checked is sound, and its step has mode
/// Checked.
pub fn checked_states_are_sound()
    ensures { (p : Typed) (input : List ℕ) (n : ℕ) (k : IsKnown p) → Begins p k → AreBytes input
        → WhollyChecked p
        → Sound p (state_at (source_system (elaborated p)) (first_state (elaborated p) input) n)
        × ((spot_of (state_at (source_system (elaborated p)) (first_state (elaborated p) input)
        n)).mode ≡ Checked) }
{}

/// What the steps of an accepted text that is wholly checked plan to write to memory lies in blocks
/// of their states.
pub fn accepted_stores_lie()
    ensures { (text : List ℕ) (p : Typed) → IsAccepted text p → WhollyChecked p
        → PlansLie (elaborated p) }
{}
