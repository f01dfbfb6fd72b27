//! Laws of the definitions, each the contract of a function that does nothing.
ghost use Rattle.std.specs.Prelude.{◌≡◌, ◌↔◌, ℕ, List, Some};
ghost use Rattle.ckc_base.specs.Traces.{narrowed};
ghost use Rattle.ckc_rv.specs.declared.instructions.Instr.{Instr};
ghost use Rattle.ckc_rv.specs.Table.{Decodes};
ghost use Rattle.ckc_rv.specs.code.Decoded.{decoded};
ghost use Rattle.ckc_rv.specs.Machine.{Parts, machine};
ghost use Rattle.ckc_rv.specs.Detailed.{outside_events, detailed_machine};

/// The table read as a function finds an instruction exactly when the table relates word and instruction.
pub fn decoded_by_rows()
    ensures { (word : ℕ) (i : Instr) → (decoded word ≡ Some i) ↔ Decodes word i }
{}

/// The machine with its stores shown is the machine: without the stores both show the same.
pub fn details_leave_the_machine()
    ensures { (parts : Parts) (input : List ℕ) (k : ℕ)
        → narrowed outside_events (detailed_machine parts input k) ≡ machine parts input k }
{}
