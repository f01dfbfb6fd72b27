//! What `Machine::run` promises of a machine after so many instructions.
ghost use Rattle.std.specs.Prelude.{◌≡◌, ◌-◌, ◌^◌, ℕ, suc, List, [], Option};
ghost use Rattle.ckc_rv.specs.Machine.{Parts, next_with};
ghost use Rattle.ckc_machine.specs.declared.machine.Machine.{Machine};
ghost use Rattle.ckc_machine.specs.Points.{state_at};
ghost use Rattle.ckc_machine.specs.Runs.{IsAt, AsksFor, answer_of, state_of};

/// A machine that asks for a byte at the end of its input has 2^32 - 1, the word of -1, in x10 after that instruction.
/// So a body is refused that gives 255 there.
pub fn end_of_input_is_minus_one()
    ensures { (parts : Parts) (input : List ℕ) (k : ℕ) (m : Machine) (left : Option (List ℕ))
        → AsksFor parts (state_at parts input k) 2 → (state_at parts input k).input ≡ []
        → IsAt parts input (suc k) m left
        → state_of m [] ≡ next_with (state_at parts input k) 10 (2 ^ 32 - 1) }
{}

/// Machines at the same number of instructions of the same parts and input have the same registers, pc, memory and
/// answer. A run from k on leads to k and its limit, so a body is refused that goes on for longer, or that answers Going
/// before.
pub fn machines_agree()
    ensures state { (parts : Parts) (input : List ℕ) (k : ℕ) (m other : Machine)
        (left left' : Option (List ℕ)) → IsAt parts input k m left → IsAt parts input k other left'
        → (rest : List ℕ) → state_of m rest ≡ state_of other rest }
    ensures answer { (parts : Parts) (input : List ℕ) (k : ℕ) (m other : Machine)
        (left left' : Option (List ℕ)) → IsAt parts input k m left → IsAt parts input k other left'
        → answer_of m ≡ answer_of other }
{}
