//! What `interp` promises of the answer of a run.
ghost use Rattle.std.specs.Prelude.{◌≡◌, ◌≤◌, ℕ, true, List, Option};
ghost use Rattle.ckc_base.specs.declared.places.Pos.{Pos};
ghost use Rattle.ckc_base.specs.Traces.{Stuck};
ghost use Rattle.ckc_outside.specs.Given.{Streams};
ghost use Rattle.ckc_source.specs.Code.{Program};
ghost use Rattle.ckc_source.specs.Source.{source};
ghost use Rattle.ckc_interp.specs.Runs.{Interprets};
ghost use Rattle.ckc_wrong_bodies.specs.Whole.{is_whole};

use ckc_interp::Seen;

/// Two runs of one program with one input and one limit, which no object cut short, and no want of memory, have the same
/// answer.
pub fn runs_have_one_answer()
    ensures { (p : Program) (limit : ℕ) (given left left' : List ℕ) (old new old' new' : Streams)
        (answer other : Seen) → is_whole answer ≡ true → is_whole other ≡ true
        → Interprets p limit old new answer given left
        → Interprets p limit old' new' other given left' → answer ≡ other }
{}

/// Where the meaning of a program is stuck within the limit, such a run is stuck. The meaning is stuck where it reads a
/// checked pointer whose range is not true, so a body is refused that goes on there.
pub fn stuck_runs_are_told()
    ensures { (p : Program) (limit n : ℕ) (given left : List ℕ) (old new : Streams) (answer : Seen)
        → n ≤ limit → (source p given n).standing ≡ Stuck → is_whole answer ≡ true
        → Interprets p limit old new answer given left
        → (at : Pos) × (since : Option Pos) × (answer ≡ Seen.Stuck at since) }
{}
