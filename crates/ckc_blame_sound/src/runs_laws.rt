//! What follows from the definitions alone, each the contract of a function that does nothing.

ghost use Rattle.std.specs.Prelude.{◌≡◌, ◌≢◌, ℕ, List, None, IsSome};
ghost use Rattle.ckc_syntax.specs.declared.tree.Name.TheVariants as name;
ghost use Rattle.ckc_typed.specs.declared.typed.Typed.{Typed};
ghost use Rattle.ckc_base.specs.Traces.{Stuck};
ghost use Rattle.ckc_source.specs.Source.{first_state, source, unchecked_since};
ghost use Rattle.ckc_build_elaborate.specs.Bodies.{IsDefined};
ghost use Rattle.ckc_build_elaborate.specs.Elaborated.{elaborated};
ghost use Rattle.ckc_blame_sound.specs.Sound.{Sound};
ghost use Rattle.ckc_blame.specs.Checked.{WhollyChecked};
ghost use Rattle.ckc_blame_sound.specs.Moves.{StaysSound};

/// A run of a wholly checked text that defines its `main` takes no step in unchecked code, whatever the input and however
/// long it is.
pub fn checked_texts_run_checked()
    ensures { (p : Typed) (input : List ℕ) (n : ℕ) → IsDefined (name.Function p.main) p.tree.items
        → WhollyChecked p → unchecked_since (elaborated p) input n ≡ None }
{}

/// If checked steps from sound states are not stuck and lead to sound states, and the first state is sound, then unchecked
/// code ran before or where a run is stuck; so no run of a wholly checked text is.
pub fn stuck_runs_are_blamed()
    ensures blamed { (p : Typed) (input : List ℕ) (n : ℕ) → StaysSound p
        → Sound p (first_state (elaborated p) input)
        → (source (elaborated p) input n).standing ≡ Stuck
        → IsSome (unchecked_since (elaborated p) input n) }
    ensures never { (p : Typed) (input : List ℕ) (n : ℕ) → StaysSound p
        → Sound p (first_state (elaborated p) input)
        → IsDefined (name.Function p.main) p.tree.items → WhollyChecked p
        → (source (elaborated p) input n).standing ≢ Stuck }
{}
