//! Laws: what a call leaves.
ghost use Rattle.std.specs.Prelude.{◌≡◌, ◌≢◌, ◌⊎◌, ℕ, List, false};
ghost use Rattle.ckc_outside.specs.Outside.{Rose, one_more};
ghost use Rattle.ckc_cli_commands.specs.Words.{Interp, Show, Judge};
ghost use Rattle.ckc_cli_commands.specs.Commands.{Reads};
ghost use Rattle.ckc_cli.specs.Laws.{FromCause, Over, AsksToKeep, HasImage, KeepsOthers, shows_run};

use ckc_cli_commands::Status;

/// When nothing is put and taken.
pub fn calls_touch<S, O, F>()
    // Only if `interp` runs out of memory may bytes have been put or taken before.
    ensures idle_quietly { FromCause S O F (λ words before after same s.
        shows_run s ≡ false → s ≢ Status.Done
        → ((name : List ℕ) (limit : ℕ) → s ≡ Status.Memory → ¬ Reads words (Interp name limit))
        → same.output) }
    ensures idle_untaken { FromCause S O F (λ words before after same s.
        shows_run s ≡ false → s ≢ Status.Done
        → ((name : List ℕ) (limit : ℕ) → s ≡ Status.Memory → ¬ Reads words (Interp name limit))
        → same.input) }
    // build and asm put nothing and take nothing, and list and check take nothing.
    ensures kept_quietly { FromCause S O F (λ words before after same s.
        (name : List ℕ) → AsksToKeep words name → same.output) }
    ensures kept_untaken { FromCause S O F (λ words before after same s.
        (name : List ℕ) → AsksToKeep words name → same.input) }
    ensures listed_untaken { FromCause S O F (λ words before after same s.
        (name : List ℕ) → Reads words (Show name) → same.input) }
    ensures checked_untaken { FromCause S O F (λ words before after same s.
        (name : List ℕ) → Reads words (Judge name) → same.input) }
{}

/// Which files are as they were.
pub fn files_stay<S, O, F>()
    ensures files { FromCause S O F (λ words before after same s.
        ((name : List ℕ) → ¬ AsksToKeep words name)
        → after.store.files ≡ before.store.files) }
    ensures others { FromCause S O F (λ words before after same s.
        (name : List ℕ) → AsksToKeep words name
        → KeepsOthers name before.store.files after.store.files) }
    ensures refused_keeps { FromCause S O F (λ words before after same s.
        s ≢ Status.Done → s ≢ Status.StoreFault → s ≢ Status.Memory
        → after.store.files ≡ before.store.files) }
    // If no call of keep was made the files are as they were, whatever the status.
    ensures unkept_files { FromCause S O F (λ words before after same s.
        ¬ Rose before.store.keeps after.store.keeps
        → after.store.files ≡ before.store.files) }
{}

/// At most one call of keep is made, of an image that the command is to keep, and none but for build and asm; it is done
/// only if the status is Done.
pub fn calls_keep<S, O, F>()
    ensures keeps_once { FromCause S O F (λ words before after same s.
        (after.store.keeps ≡ before.store.keeps)
        ⊎ (after.store.keeps ≡ one_more before.store.keeps)) }
    ensures keeps_images { FromCause S O F (λ words before after same s.
        after.store.keeps ≢ before.store.keeps → Over words before.store.files HasImage) }
    ensures keeps_for_commands { FromCause S O F (λ words before after same s.
        ((name : List ℕ) → ¬ AsksToKeep words name)
        → after.store.keeps ≡ before.store.keeps) }
    ensures kept_done { FromCause S O F (λ words before after same s.
        s ≢ Status.Done → after.store.kept ≡ before.store.kept) }
{}
