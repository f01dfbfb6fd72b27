//! What holds of the definitions, each the contract of a function that does nothing.
ghost use Rattle.std.specs.Prelude.{◌≡◌, ◌≤◌, List, ℕ};
ghost use Rattle.ckc_base.specs.declared.places.Refusal.{Refusal};
ghost use Rattle.ckc_base.specs.Phases.{IsExact};
ghost use Rattle.ckc_parser.specs.Phase.{SpelledTree};
ghost use Rattle.ckc_source.specs.Code.{Program};
ghost use Rattle.ckc_base.specs.States.{state_at};
ghost use Rattle.ckc_source.specs.LaidOut.{IsLaidOut};
ghost use Rattle.ckc_source.specs.Source.{first_state, source_system, IsOrderly};
ghost use Rattle.ckc_checks_operands.specs.Compilable.{IsCompilable};
ghost use Rattle.ckc_checks_operands.specs.Weights.{program_weight, most_weight};
ghost use Rattle.ckc_blame.specs.Blamed.{IsBlamed, IsNeverStuck};
ghost use Rattle.ckc_blame.specs.Checked.{WhollyChecked};
ghost use Rattle.ckc_build_wellformed.specs.ckc_blame_steps.specs.Stores.{PlansLie};
ghost use Rattle.ckc_build_wellformed.specs.ckc_blame_steps.specs.Unchecked.{AreStoresBlamed};
ghost use Rattle.ckc_build_elaborate.specs.Elaborated.{elaborated};
ghost use Rattle.ckc_build_wellformed.specs.ckc_source_causes.specs.Causes.{IsStuckForCauseAlone};
ghost use Rattle.ckc_build_wellformed.specs.ckc_source_causes.specs.WellFormed.{IsWellFormed};
ghost use Rattle.ckc_build_words.specs.Numbers.{NumbersFit};
ghost use Rattle.ckc_build_words.specs.Places.{PlacesFit};
ghost use Rattle.ckc_typed.specs.declared.typed.Typed.{Typed};
ghost use Rattle.ckc_build.specs.Codes.{IsTextCode};
ghost use Rattle.ckc_build.specs.Meanings.{HasMeaning, IsWhollyChecked, judging, reading};

use ckc_build_wellformed::{
    accepted_numbers_fit, accepted_stores_lie, accepted_texts_are_blamed,
    accepted_texts_are_well_formed, accepted_texts_have_the_form, marks_stay, programs_are_small,
    runs_are_stuck_for_a_cause, stores_are_to_blame,
};
use ckc_source::laws::states_are_orderly;
use ckc_typed_plain::plain_texts_are_within;
use ckc_typed_welltyped::{counts_stay, texts_exactly};

/// A text is judged, with one outcome of its types, or it has one first error.
pub fn judging_is_exact()
    ensures { IsExact judging }
{}

/// The codes of the refusals of a text, whichever phase refuses it.
pub fn codes()
    ensures { (text : List ℕ) (r : Refusal) → judging.Refuses text r → IsTextCode r.code }
{
    ckc_bounds::codes();
}

/// A text has at most one tree.
pub fn one_tree()
    ensures { (text : List ℕ) (a b : SpelledTree) →
        reading.Makes text a → reading.Makes text b → a ≡ b }
{}

/// The objects of the program of a text lie apart, and hold bytes.
pub fn programs_are_laid_out()
    ensures { (text : List ℕ) (p : Program) → HasMeaning text p → IsLaidOut p }
{
    texts_exactly();
    accepted_texts_are_blamed();
}

/// The program of a text is well formed: what it names is there and has room, and its checked pointers have ranges.
/// So a call in it is not stuck for want of a function, an access by name never, and no other access or bounds cast for want of
/// a range.
pub fn programs_are_well_formed()
    ensures { (text : List ℕ) (p : Program) → HasMeaning text p → IsWellFormed p }
{
    texts_exactly();
    accepted_texts_are_well_formed();
}

/// The meaning of a text is stuck only for a cause: the next step goes through a `T *` to what no block has, or reads a checked
/// pointer whose bounds are not true.
pub fn stuck_runs_have_a_cause()
    ensures { (text : List ℕ) (p : Program) → HasMeaning text p → IsStuckForCauseAlone p }
{
    programs_are_well_formed();
    runs_are_stuck_for_a_cause();
}

/// Each state of a run of the program of a text is orderly.
pub fn states_of_texts_are_orderly()
    ensures { (text : List ℕ) (p : Program) (input : List ℕ) (n : ℕ) → HasMeaning text p
        → IsOrderly (state_at (source_system p) (first_state p input) n) }
{
    programs_are_laid_out();
    states_are_orderly();
}

/// The program of a text that has a meaning weighs no more than an image has room for: the size limits of texts see to
/// it. So `build` refuses no such text for the size of its program.
pub fn programs_fit()
    ensures { (text : List ℕ) (p : Program) → HasMeaning text p → program_weight p ≤ most_weight }
{
    plain_texts_are_within();
    counts_stay();
    marks_stay();
    programs_are_small();
}

/// The numbers in the program of a text that has a meaning fit in 32 bits: the rules and the size limits of texts see to it.
/// So no phase answers that memory ran out for such a number.
pub fn numbers_fit()
    ensures { (text : List ℕ) (p : Program) → HasMeaning text p → NumbersFit p }
{
    texts_exactly();
    accepted_numbers_fit();
}

/// The program of a text that has a meaning can be compiled, if the places in it fit in their words: those of each program
/// that is there do. So `build` refuses no such text for the form of its program.
pub fn programs_have_the_form()
    ensures { (text : List ℕ) (p : Program) → HasMeaning text p → PlacesFit p → IsCompilable p }
{
    texts_exactly();
    accepted_texts_have_the_form();
}

/// If the meaning of a text is stuck, unchecked code is to blame: one of its steps up to there has mode Unchecked. So the
/// meaning of a text that is wholly checked is never stuck.
pub fn unchecked_code_is_to_blame()
    ensures judged { (text : List ℕ) (p : Typed) → judging.Makes text p
        → IsBlamed (elaborated p) }
    ensures checked { (text : List ℕ) (p : Typed) → judging.Makes text p → WhollyChecked p
        → IsNeverStuck (elaborated p) }
    ensures blamed { (text : List ℕ) (p : Program) → HasMeaning text p → IsBlamed p }
    ensures never_stuck { (text : List ℕ) (p : Program) → HasMeaning text p
        → IsWhollyChecked text → IsNeverStuck p }
{
    texts_exactly();
    accepted_texts_are_blamed();
}

/// It is unchecked code that stores which is to blame: if the meaning of a text is stuck, then a step before stored through
/// an unchecked pointer, or the step that is stuck has mode Unchecked.
pub fn unchecked_stores_are_to_blame()
    ensures judged { (text : List ℕ) (p : Typed) → judging.Makes text p
        → AreStoresBlamed (elaborated p) }
    ensures stores { (text : List ℕ) (p : Program) → HasMeaning text p → AreStoresBlamed p }
{
    texts_exactly();
    stores_are_to_blame();
}

/// What the steps of a text that is wholly checked plan to write to memory lies in blocks of their states.
pub fn checked_stores_lie_in_blocks()
    ensures { (text : List ℕ) (p : Program) → HasMeaning text p → IsWhollyChecked text
        → PlansLie p }
{
    texts_exactly();
    accepted_stores_lie();
}
