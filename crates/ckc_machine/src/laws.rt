//! Laws of the definitions, each the contract of a function that does nothing.
ghost use Rattle.std.specs.Prelude.{◌≡◌, ◌≢◌, ℕ, suc, ◌+◌, ◌≤◌, List, ◌++◌};
ghost use Rattle.ckc_base.specs.Traces.{Event, Standing, Going};
ghost use Rattle.ckc_base.specs.Steps.{Goes, Halts};
ghost use Rattle.ckc_rv.specs.Machine.{Parts, State, machine, machine_step};
ghost use Rattle.ckc_machine.specs.Points.{state_at, since, taken};
ghost use Rattle.ckc_machine.specs.Runs.{ArePuts, AsksNothing};

/// One instruction more: a machine that goes on shows the events of its move, and is in the state that the move leads
/// to; one that has halted stays as it is.
pub fn one_instruction()
    ensures goes { (parts : Parts) (input : List ℕ) (k : ℕ) (events : List Event) (next : State)
        → (machine parts input k).standing ≡ Going
        → machine_step parts (state_at parts input k) ≡ Goes events next
        → (machine parts input (suc k)
        ≡ record { trace = (machine parts input k).trace ++ events; standing = Going })
        × (state_at parts input (suc k) ≡ next) }
    ensures halts { (parts : Parts) (input : List ℕ) (k : ℕ) (events : List Event)
        (standing : Standing) → (machine parts input k).standing ≡ Going
        → machine_step parts (state_at parts input k) ≡ Halts events standing
        → machine parts input (suc k)
        ≡ record { trace = (machine parts input k).trace ++ events; standing = standing } }
    ensures stays { (parts : Parts) (input : List ℕ) (d k : ℕ)
        → (machine parts input k).standing ≢ Going
        → (machine parts input (k + d) ≡ machine parts input k)
        × (state_at parts input (k + d) ≡ state_at parts input k) }
{}

/// The events since k are what the trace has after those of the first k instructions; since the start, all of it.
pub fn events_since()
    ensures since { (parts : Parts) (input : List ℕ) (k j : ℕ) → k ≤ j
        → (machine parts input j).trace ≡ (machine parts input k).trace ++ since parts input k j }
    ensures start { (parts : Parts) (input : List ℕ) (k : ℕ) → since parts input 0 k
        ≡ (machine parts input k).trace }
{}

/// The input is what the trace takes, and then what is left.
pub fn input_is_taken()
    ensures { (parts : Parts) (input : List ℕ) (k : ℕ) → input
        ≡ taken (machine parts input k).trace ++ (state_at parts input k).input }
{}

/// Instructions whose events are puts alone ask for no byte.
pub fn puts_ask_nothing()
    ensures { (parts : Parts) (input : List ℕ) (k limit : ℕ)
        → ArePuts (since parts input k (k + limit)) → AsksNothing parts input k limit }
{}
