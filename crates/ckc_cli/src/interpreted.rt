//! Laws: `interp` shows the meaning of its text.
ghost use Rattle.std.specs.Prelude.{◌≡◌, ◌⊎◌, ◌≤◌, ℕ, List, Some, [], ◌∷◌};
ghost use Rattle.ckc_base.specs.declared.places.Pos.{Pos};
ghost use Rattle.ckc_base.specs.declared.runtime_checks.Check.{Check};
ghost use Rattle.ckc_base.specs.Traces.{Ended, Stopped, Going};
ghost use Rattle.ckc_source.specs.Code.{Program};
ghost use Rattle.ckc_source.specs.Source.{place_after, unchecked_since};
ghost use Rattle.ckc_interp.specs.declared.seen.Seen.{Seen};
ghost use Rattle.ckc_build.specs.Meanings.{HasMeaning};
ghost use Rattle.ckc_cli_commands.specs.Words.{Interp};
ghost use Rattle.ckc_cli_commands.specs.Commands.{Reads};
ghost use Rattle.ckc_cli_commands.specs.Interpreting.{ShowsAs};
ghost use Rattle.ckc_cli.specs.Objects.{OfFile, StoreIsFine, AllIsFine};
ghost use Rattle.ckc_cli.specs.Meaning.{ShowsMeaning, IsStuckFirst, standing_after};
ghost use Rattle.ckc_cli.specs.Laws.{FromCause, FromCall, Given};

use ckc_cli_commands::Status;

/// `interp` ends, stops, goes on and is stuck only as the meaning of the text does within the limit, with exactly the
/// bytes that it puts and takes; and out of memory shows what it put and took.
pub fn interp_shows<S, O, F>()
    ensures interp_ended { FromCause S O F (λ words before after same s.
        (name : List ℕ) (limit value : ℕ) → Reads words (Interp name limit)
        → s ≡ Status.Ended value → OfFile before.store.files name
        (ShowsMeaning limit before after (Seen.Ended value))) }
    ensures interp_stopped { FromCause S O F (λ words before after same s.
        (name : List ℕ) (limit : ℕ) (check : Check) (at : Pos) → Reads words (Interp name limit)
        → s ≡ Status.Stopped check at → OfFile before.store.files name
        (ShowsMeaning limit before after (Seen.Stopped check at))) }
    ensures interp_going { FromCause S O F (λ words before after same s.
        (name : List ℕ) (limit : ℕ) → Reads words (Interp name limit)
        → s ≡ Status.Going → OfFile before.store.files name
        (ShowsMeaning limit before after Seen.Going)) }
    ensures interp_stuck { FromCause S O F (λ words before after same s.
        (name : List ℕ) (limit : ℕ) (at since : Pos)
        → Reads words (Interp name limit) → s ≡ Status.Stuck at since
        → OfFile before.store.files name
        (ShowsMeaning limit before after (Seen.Stuck at (Some since)))) }
    ensures interp_memory { FromCause S O F (λ words before after same s.
        (name : List ℕ) (limit : ℕ) → Reads words (Interp name limit) → s ≡ Status.Memory
        → (same.output × same.input) ⊎ OfFile before.store.files name
        (ShowsMeaning limit before after Seen.Memory)) }
{}

/// It always does so if the input is told and no object fails.
pub fn interp_shows_always<S, O, F>()
    ensures interp_ended_always { FromCall S O F (λ words before after same s.
        (name text given : List ℕ) (limit n value : ℕ) (p : Program)
        → Given words before.store.files (Interp name limit) (text ∷ [])
        → HasMeaning text p → before.input.left ≡ Some given → AllIsFine before after
        → n ≤ limit → standing_after p given n ≡ Ended value
        → (s ≡ Status.Ended value) ⊎ (s ≡ Status.Memory)) }
    ensures interp_stopped_always { FromCall S O F (λ words before after same s.
        (name text given : List ℕ) (limit n : ℕ) (check : Check) (at : Pos) (p : Program)
        → Given words before.store.files (Interp name limit) (text ∷ [])
        → HasMeaning text p → before.input.left ≡ Some given → AllIsFine before after
        → n ≤ limit → standing_after p given n ≡ Stopped check at
        → (s ≡ Status.Stopped check at) ⊎ (s ≡ Status.Memory)) }
    ensures interp_going_always { FromCall S O F (λ words before after same s.
        (name text given : List ℕ) (limit : ℕ) (p : Program)
        → Given words before.store.files (Interp name limit) (text ∷ [])
        → HasMeaning text p → before.input.left ≡ Some given → AllIsFine before after
        → standing_after p given limit ≡ Going
        → (s ≡ Status.Going) ⊎ (s ≡ Status.Memory)) }
    ensures interp_stuck_always { FromCall S O F (λ words before after same s.
        (name text given : List ℕ) (limit n : ℕ) (p : Program)
        → Given words before.store.files (Interp name limit) (text ∷ [])
        → HasMeaning text p → before.input.left ≡ Some given → AllIsFine before after
        → n ≤ limit → IsStuckFirst p given n
        → ((since : Pos) × (unchecked_since p given n ≡ Some since)
        × (s ≡ Status.Stuck (place_after p given n) since)) ⊎ (s ≡ Status.Memory)) }
    // The meaning of a text that has one is run.
    ensures interp_always { FromCall S O F (λ words before after same s.
        (name text : List ℕ) (limit : ℕ) (p : Program)
        → Given words before.store.files (Interp name limit) (text ∷ [])
        → StoreIsFine before.store after.store → HasMeaning text p
        → ShowsAs p limit before after s ⊎ (s ≡ Status.Memory)) }
{}
