//! What `ccc` promises of its status.
ghost use Rattle.std.specs.Prelude.{◌≡◌, ◌⊎◌, ◌<◌, ℕ, IsTrue, List, [], ◌∷◌, length};
ghost use Rattle.ckc_base.specs.Places.{at_start, longest_text};
ghost use Rattle.ckc_cli.specs.ckc_cli_commands.specs.Words.{Judge, Show};
ghost use Rattle.ckc_cli.specs.Laws.{FromCall, Given};

use ckc_cli::Status;

/// Without words only `Usage` comes. If the store is steady and tells the file, `check` of a text that is too long gives
/// its refusal, E201 at its start, and `list` of a file without bytes `BadImage` with part 1, unless memory runs out. So
/// each body is refused that always answers the same, whatever that is, but for `Memory`: it is wrong in one of these
/// calls.
pub fn no_status_comes_always<S, O, F>()
    ensures no_words { FromCall S O F (λ words before after same s. words ≡ []
        → s ≡ Status.Usage) }
    ensures long_text { FromCall S O F (λ words before after same s. (name text : List ℕ)
        → Given words before.store.files (Judge name) (text ∷ [])
        → IsTrue before.store.steady → longest_text < length text
        → (s ≡ Status.Refused (at_start 201)) ⊎ (s ≡ Status.Memory)) }
    ensures no_bytes { FromCall S O F (λ words before after same s. (name : List ℕ)
        → Given words before.store.files (Show name) ([] ∷ []) → IsTrue before.store.steady
        → (s ≡ Status.BadImage 1) ⊎ (s ≡ Status.Memory)) }
{}
