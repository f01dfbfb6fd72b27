//! What follows from the definitions alone, each the contract of a function that does nothing.

ghost use Rattle.std.specs.Prelude.{◌≡◌, ◌≢◌, ℕ, false, List, IsSome};
ghost use Rattle.ckc_base.specs.declared.arithmetic.Mode.TheVariants.{Checked};
ghost use Rattle.ckc_base.specs.Lists.{AreBytes};
ghost use Rattle.ckc_base.specs.Steps.{Halts};
ghost use Rattle.ckc_base.specs.Traces.{Event, Stuck};
ghost use Rattle.ckc_typed.specs.declared.typed.Typed.{Typed};
ghost use Rattle.ckc_source.specs.Source.{first_state, source, unchecked_since};
ghost use Rattle.ckc_source.specs.States.{State};
ghost use Rattle.ckc_source.specs.Steps.{source_step, spot_of};
ghost use Rattle.ckc_build_elaborate.specs.Elaborated.{elaborated};
ghost use Rattle.ckc_blame.specs.Checked.{WhollyChecked};
ghost use Rattle.ckc_blame_sound.specs.Sound.{Sound};
ghost use Rattle.ckc_blame_sound.specs.Moves.{IsSoundMove};
ghost use Rattle.ckc_blame_control.specs.Whole.{KeepSound};
ghost use Rattle.ckc_blame_steps.specs.Known.{IsKnown, Begins};
ghost use Rattle.ckc_blame_steps.specs.Unchecked.{stores_unchecked};

/// Each step of mode Checked of a known text keeps a state sound.
pub fn checked_steps_keep_sound()
    ensures { (p : Typed) → IsKnown p → KeepSound p }
{}

/// A step of mode Checked from a sound state of a known text leads to a sound state, or the run
/// ends or stops.
pub fn steps_stay_sound()
    ensures { (p : Typed) (s : State) → IsKnown p → Sound p s → (spot_of s).mode ≡ Checked
        → IsSoundMove p (source_step (elaborated p) s) }
{}

/// It is not stuck.
pub fn checked_never_stuck()
    ensures { (p : Typed) (s : State) (events : List Event) → IsKnown p → Sound p s
        → (spot_of s).mode ≡ Checked → source_step (elaborated p) s ≢ Halts events Stuck }
{}

/// A step of whatever mode from a sound state of a known text, if it is not stuck and stores through
/// no unchecked pointer, leads to a sound state, or the run ends or stops.
pub fn every_step_stays_sound()
    ensures { (p : Typed) (s : State) → IsKnown p → Sound p s → stores_unchecked s ≡ false
        → ((events : List Event) → source_step (elaborated p) s ≢ Halts events Stuck)
        → IsSoundMove p (source_step (elaborated p) s) }
{}

/// The first state of a known text is sound, with any input of bytes.
pub fn first_state_sound()
    ensures { (p : Typed) (input : List ℕ) (k : IsKnown p) → Begins p k → AreBytes input
        → Sound p (first_state (elaborated p) input) }
{}

/// If a run of a known text is stuck, then unchecked code ran before or there.
pub fn stuck_is_blamed()
    ensures { (p : Typed) (input : List ℕ) (n : ℕ) (k : IsKnown p) → Begins p k → AreBytes input
        → (source (elaborated p) input n).standing ≡ Stuck
        → IsSome (unchecked_since (elaborated p) input n) }
{}

/// No run of a known text that is wholly checked is stuck.
pub fn wholly_checked_never_stuck()
    ensures { (p : Typed) (input : List ℕ) (n : ℕ) (k : IsKnown p) → Begins p k → AreBytes input
        → WhollyChecked p → (source (elaborated p) input n).standing ≢ Stuck }
{}
