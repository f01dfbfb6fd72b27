//! Laws of the definitions, each the contract of a function that does nothing.
ghost use Rattle.std.specs.Prelude.{◌≡◌, [], ◌∷◌};
ghost use Rattle.ckc_base.specs.declared.runtime_checks.Check.TheVariants.{Dynamic};
ghost use Rattle.ckc_base.specs.Traces.{Stopped, Going};
ghost use Rattle.ckc_core.specs.Meaning.{core_detail};
ghost use Rattle.ckc_core.specs.Example.{example, example_shows, place};

/// What the program of specs/Example.antt shows: after 28 steps it has met the end of the input and goes on, and after
/// 29 it has stopped at its check.
pub fn example_runs()
    ensures goes_on { core_detail example (65 ∷ []) 28 ≡ example_shows Going }
    ensures stops { core_detail example (65 ∷ []) 29 ≡ example_shows (Stopped Dynamic place) }
{}
