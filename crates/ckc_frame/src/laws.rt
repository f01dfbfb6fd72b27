//! Laws of the definitions, each the contract of a function that does nothing.
ghost use Rattle.std.specs.Prelude.{◌≡◌, [], ◌∷◌, true, false};
ghost use Rattle.ckc_base.specs.Traces.{Ended, Stuck};
ghost use Rattle.ckc_frame.specs.Meaning.{placed_detail};
ghost use Rattle.ckc_frame.specs.Example.{example, example_shows};

/// What the program of specs/Example.antt shows with the byte 65: it ends at step 9 if its call keeps the byte, and
/// else is stuck at step 8, where it puts the byte, since the register is empty after the call.
pub fn example_runs()
    ensures kept { placed_detail (example true) (65 ∷ []) 9 ≡ example_shows 5 (Ended 65) }
    ensures lost { placed_detail (example false) (65 ∷ []) 8 ≡ example_shows 4 Stuck }
{}
