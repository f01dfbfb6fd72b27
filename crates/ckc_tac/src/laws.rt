//! Laws of the definitions, each the contract of a function that does nothing.
ghost use Rattle.std.specs.Prelude.{◌≡◌, [], ◌∷◌, None};
ghost use Rattle.ckc_base.specs.Traces.{Got, Ended, Stuck, Going};
ghost use Rattle.ckc_base.specs.LongEvents.{Plain};
ghost use Rattle.ckc_tac.specs.Meaning.{tac_detail};
ghost use Rattle.ckc_tac.specs.Example.{example, example_shows};

/// What the program of specs/Example.antt shows: with the byte 65 it ends at step 9, and with no input it is stuck at
/// step 3, where it reads a register that is not written.
pub fn example_runs()
    ensures goes_on { tac_detail example (65 ∷ []) 8 ≡ example_shows Going }
    ensures ends { tac_detail example (65 ∷ []) 9 ≡ example_shows (Ended 65) }
    ensures stuck { tac_detail example [] 3
        ≡ record { trace = Plain (Got None) ∷ []; standing = Stuck } }
{}
