//! Laws: which statuses come always, if the store tells the bytes, but for want of memory and a fault of the store
//! that matters.
ghost use Rattle.std.specs.Prelude.{◌≡◌, ◌⊎◌, ℕ, List, [], ◌∷◌};
ghost use Rattle.ckc_base.specs.declared.places.Refusal.{Refusal};
ghost use Rattle.ckc_outside.specs.Outside.{Rose};
ghost use Rattle.ckc_rv.specs.Machine.{Parts};
ghost use Rattle.ckc_source.specs.Code.{Program};
ghost use Rattle.ckc_build.specs.Meanings.{HasMeaning};
ghost use Rattle.ckc_machine.specs.declared.observed.Observed.{Observed};
ghost use Rattle.ckc_cli_commands.specs.Words.{Command, Build, Exec};
ghost use Rattle.ckc_cli_commands.specs.Outcomes as outcome;
ghost use Rattle.ckc_cli_commands.specs.Outcomes.{Outcome};
ghost use Rattle.ckc_cli_commands.specs.Commands.{Makes};
ghost use Rattle.ckc_cli_commands.specs.Running.{Ran, status_of};
ghost use Rattle.ckc_cli_commands.specs.Causes.{Comes};
ghost use Rattle.ckc_cli.specs.Objects.{StoreIsFine};
ghost use Rattle.ckc_cli.specs.Laws.{FromCall, Given, Agrees, PutsText, RanBuilt};

use ckc_cli_commands::Status;

/// A command makes one outcome of the bytes that it fetched, but for which image of a text.
pub fn one_outcome()
    ensures { (command : Command) (bytes : List (List ℕ)) (o other : Outcome)
        → Makes command bytes o → Makes command bytes other → Agrees o other }
{}

/// What a command makes of the bytes gives its status.
pub fn causes_give_statuses<S, O, F>()
    // What comes is what comes of an outcome that agrees with each that the command makes of the bytes.
    ensures outcome_always { FromCall S O F (λ words before after same s.
        (command : Command) (bytes : List (List ℕ)) (wanted : Outcome)
        → Given words before.store.files command bytes → StoreIsFine before.store after.store
        → Makes command bytes wanted
        → ((o : Outcome) × Makes command bytes o × Agrees wanted o × Comes o before after same s)
        ⊎ (s ≡ Status.Memory)) }
    ensures refused_always { FromCall S O F (λ words before after same s.
        (command : Command) (bytes : List (List ℕ)) (fault : Refusal)
        → Given words before.store.files command bytes → StoreIsFine before.store after.store
        → Makes command bytes (outcome.Refuses fault)
        → (s ≡ Status.Refused fault) ⊎ (s ≡ Status.Memory)) }
    ensures bad_image_always { FromCall S O F (λ words before after same s.
        (command : Command) (bytes : List (List ℕ)) (part : ℕ)
        → Given words before.store.files command bytes → StoreIsFine before.store after.store
        → Makes command bytes (outcome.IsBad part)
        → (s ≡ Status.BadImage part) ⊎ (s ≡ Status.Memory)) }
    ensures kept_always { FromCall S O F (λ words before after same s.
        (command : Command) (bytes : List (List ℕ)) (name image : List ℕ)
        → Given words before.store.files command bytes → StoreIsFine before.store after.store
        → Makes command bytes (outcome.Keeps name image)
        → (s ≡ Status.Done) ⊎ (s ≡ Status.Memory)) }
    ensures built_always { FromCall S O F (λ words before after same s.
        (source name text : List ℕ) (p : Program)
        → Given words before.store.files (Build source name) (text ∷ [])
        → StoreIsFine before.store after.store → HasMeaning text p
        → (s ≡ Status.Done) ⊎ (s ≡ Status.Memory)) }
    ensures listed_always { FromCall S O F (λ words before after same s.
        (command : Command) (bytes : List (List ℕ)) (text : List ℕ)
        → Given words before.store.files command bytes → StoreIsFine before.store after.store
        → PutsText command bytes text → ¬ Rose before.output.faults after.output.faults
        → (s ≡ Status.Done) ⊎ (s ≡ Status.Memory)) }
    ensures shown_always { FromCall S O F (λ words before after same s.
        (command : Command) (bytes : List (List ℕ)) (parts : Parts) (limit : ℕ)
        → Given words before.store.files command bytes → StoreIsFine before.store after.store
        → Makes command bytes (outcome.Executes parts limit)
        → ((parts' : Parts) × (limit' : ℕ) × (o : Observed)
        × Makes command bytes (outcome.Executes parts' limit') × (s ≡ status_of o)
        × Ran parts' limit' before after same.input o) ⊎ (s ≡ Status.Memory)) }
    // The machine of an image of a text that has a meaning is run.
    ensures run_always { FromCall S O F (λ words before after same s.
        (name text : List ℕ) (limit : ℕ) (p : Program)
        → Given words before.store.files (Exec name limit) (text ∷ [])
        → StoreIsFine before.store after.store → HasMeaning text p
        → RanBuilt text limit before after same s ⊎ (s ≡ Status.Memory)) }
{}
