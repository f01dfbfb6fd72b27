//! Laws: what is so if a status comes.
ghost use Rattle.std.specs.Prelude.{◌≡◌, ◌≢◌, ◌↔◌, ℕ, List, IsTrue};
ghost use Rattle.ckc_base.specs.declared.places.Refusal.{Refusal};
ghost use Rattle.ckc_base.specs.declared.places.Pos.{Pos};
ghost use Rattle.ckc_outside.specs.Outside.{Rose};
ghost use Rattle.ckc_machine.specs.declared.observed.Observed.{Observed};
ghost use Rattle.ckc_cli_commands.specs.Words.{Command, Interp};
ghost use Rattle.ckc_cli_commands.specs.Outcomes as outcome;
ghost use Rattle.ckc_cli_commands.specs.Commands.{Reads, Makes};
ghost use Rattle.ckc_cli_commands.specs.Running.{status_of};
ghost use Rattle.ckc_cli.specs.Laws.{FromCause, FromCall, Over, Given, IsDone, IsRun, IsCutShort};

use ckc_cli_commands::Status;

/// Each status comes only with its cause.
pub fn statuses_have_causes<S, O, F>()
    // Usage comes exactly when no command has the words, and then nothing is fetched.
    ensures usage { FromCause S O F (λ words before after same s.
        (s ≡ Status.Usage) ↔ ((command : Command) → ¬ Reads words command)) }
    ensures unasked { FromCause S O F (λ words before after same s.
        s ≡ Status.Usage → same.store) }

    // Refused comes only with the first fault of the fetched text.
    ensures refused { FromCause S O F (λ words before after same s.
        (fault : Refusal) → s ≡ Status.Refused fault → Over words before.store.files
        (λ command bytes. Makes command bytes (outcome.Refuses fault))) }

    // BadImage comes only with the first part of the fetched bytes that disagrees.
    ensures bad_image { FromCause S O F (λ words before after same s.
        (part : ℕ) → s ≡ Status.BadImage part → Over words before.store.files
        (λ command bytes. Makes command bytes (outcome.IsBad part))) }

    // Done comes only if an image was kept or a text put.
    ensures done { FromCause S O F (λ words before after same s.
        s ≡ Status.Done → Over words before.store.files (IsDone before after)) }

    // Ended, Stopped, Going, MachineFault and ReadFault come only as a run of an image shows them, or a run of the
    // meaning of a text.
    ensures shown { FromCause S O F (λ words before after same s.
        (o : Observed) → o ≢ Observed.WriteFault → s ≡ status_of o
        → Over words before.store.files (IsRun before after same o)) }

    // Stuck comes by `interp` alone.
    ensures stuck { FromCause S O F (λ words before after same s.
        (at since : Pos) → s ≡ Status.Stuck at since
        → (name : List ℕ) × (limit : ℕ) × Reads words (Interp name limit)) }
{}

/// The faults of the objects come only if their counts rose.
pub fn faults_have_causes<S, O, F>()
    ensures read_fault { FromCall S O F (λ words before after same s.
        s ≡ Status.ReadFault → Rose before.input.faults after.input.faults) }
    ensures write_fault { FromCall S O F (λ words before after same s.
        s ≡ Status.WriteFault → Rose before.output.faults after.output.faults) }
    ensures cut_short { FromCause S O F (λ words before after same s.
        s ≡ Status.WriteFault → Over words before.store.files (IsCutShort before after same)) }
    ensures store_fault { FromCall S O F (λ words before after same s.
        s ≡ Status.StoreFault → Rose before.store.faults after.store.faults) }
    ensures steady { FromCall S O F (λ words before after same s.
        (command : Command) (bytes : List (List ℕ)) → Given words before.store.files command bytes
        → IsTrue before.store.steady → s ≢ Status.StoreFault) }
{}
