//! What follows from the definitions alone, each the contract of a function that does nothing.

ghost use Rattle.std.specs.Prelude.{◌≡◌, ◌≢◌, ℕ, false, List, None};
ghost use Rattle.ckc_base.specs.Lists.{AreBytes};
ghost use Rattle.ckc_base.specs.States.{state_at};
ghost use Rattle.ckc_base.specs.Steps.{Halts};
ghost use Rattle.ckc_base.specs.Traces.{Event, Stuck};
ghost use Rattle.ckc_typed.specs.declared.typed.Typed.{Typed};
ghost use Rattle.ckc_source.specs.Source.{source_system, first_state};
ghost use Rattle.ckc_source.specs.States.{State};
ghost use Rattle.ckc_source.specs.Steps.{source_step};
ghost use Rattle.ckc_build_elaborate.specs.Elaborated.{elaborated};
ghost use Rattle.ckc_blame.specs.Blamed.{IsBlamed, IsNeverStuck};
ghost use Rattle.ckc_blame.specs.Checked.{WhollyChecked};
ghost use Rattle.ckc_blame_sound.specs.Sound.{Sound};
ghost use Rattle.ckc_blame_sound.specs.Moves.{IsSoundMove};
ghost use Rattle.ckc_blame_steps.specs.Accepted.{IsAccepted};
ghost use Rattle.ckc_blame_steps.specs.Known.{IsKnown, Begins};
ghost use Rattle.ckc_blame_steps.specs.Unchecked.{
  AreStoresBlamed,
  stores_unchecked,
  unchecked_store_since,
};

/// Each text that the phases accept is known as the laws on known texts ask, and begins so. If its meaning is stuck,
/// unchecked code is to blame. The meaning of one that is wholly checked is never stuck.
pub fn accepted_texts_are_blamed()
    ensures known { (text : List ℕ) (p : Typed) → IsAccepted text p → (k : IsKnown p) × Begins p k }
    ensures blamed { (text : List ℕ) (p : Typed) → IsAccepted text p → IsBlamed (elaborated p) }
    ensures checked { (text : List ℕ) (p : Typed) → IsAccepted text p → WhollyChecked p
        → IsNeverStuck (elaborated p) }
{}

/// A step of whatever mode from a sound state of a text that the phases accept, if it is not stuck and stores through
/// no unchecked pointer, leads to a sound state, or the run ends or stops.
pub fn accepted_steps_stay_sound()
    ensures { (text : List ℕ) (p : Typed) (s : State) → IsAccepted text p → Sound p s
        → stores_unchecked s ≡ false
        → ((events : List Event) → source_step (elaborated p) s ≢ Halts events Stuck)
        → IsSoundMove p (source_step (elaborated p) s) }
{}

/// If a run of such a text is stuck, then a step before stored through an unchecked pointer, or the step that is stuck
/// has mode Unchecked. As long as no step stored so, the state of the run is sound.
pub fn stores_are_to_blame()
    ensures blamed { (text : List ℕ) (p : Typed) → IsAccepted text p
        → AreStoresBlamed (elaborated p) }
    ensures sound { (text : List ℕ) (p : Typed) (input : List ℕ) (n : ℕ) → IsAccepted text p
        → AreBytes input → unchecked_store_since (elaborated p) input n ≡ None
        → Sound p (state_at (source_system (elaborated p)) (first_state (elaborated p) input) n) }
{}
