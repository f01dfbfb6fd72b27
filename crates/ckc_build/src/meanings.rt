//! From a text to the program that it means.
ghost use Rattle.std.specs.Prelude.{◌≡◌, IfOk};
ghost use Rattle.ckc_base.specs.Phases.{Exact, IsExact, viewed};
ghost use Rattle.ckc_source.specs.Code.{program_of};
ghost use Rattle.ckc_source.specs.LaidOut.{IsLaidOut};
ghost use Rattle.ckc_build_elaborate.specs.Elaborated.{elaborated};
ghost use Rattle.ckc_build_wellformed.specs.ckc_source_causes.specs.Causes.{IsStuckForCauseAlone};
ghost use Rattle.ckc_build_wellformed.specs.ckc_source_causes.specs.WellFormed.{IsWellFormed};
ghost use Rattle.ckc_build.specs.Meanings.{meanings};

use crate::front::judge;
use crate::laws::{programs_are_laid_out, programs_are_well_formed, stuck_runs_have_a_cause};
use ckc_base::Fault;
use ckc_build_elaborate::elaborate;
use ckc_source::Program;
use ckc_typed::Typed;
use std::alloc::{AllocError, Global};
use std::mem::forget;

/// The program that a text means, or the first error of the text.
pub fn program(alloc: Global, text: &[u8]) -> Result<Program, Fault>
    // Ok of exactly the meaning of the text, a refusal for exactly its first error, both ways.
    ensures exact { Exact meanings text.now (viewed program_of result) }
    // The static objects lie apart, as a run of the program needs them.
    ensures laid_out { IfOk result (λ p. IsLaidOut (program_of p)) }
    // What the program names is there and has room, and its checked pointers have ranges.
    ensures well_formed { IfOk result (λ p. IsWellFormed (program_of p)) }
    // A run of it is stuck only at a step that goes through a `T *` to what no block has, or that reads a checked pointer
    // whose bounds are not true.
    ensures caused { IfOk result (λ p. IsStuckForCauseAlone (program_of p)) }
{
    match judge(alloc, text) {
        Err(fault) => Err(fault),
        Ok(typed) => match elaborated(alloc, typed) {
            Err(_) => Err(Fault::Memory),
            Ok(p) => {
                programs_are_laid_out();
                programs_are_well_formed();
                stuck_runs_have_a_cause();
                Ok(p)
            }
        },
    }
}

/// The program of a typed text. The tree is left to the end of the process, which gives its memory back at once: to take
/// it apart would only take time.
fn elaborated(alloc: Global, typed: Typed) -> Result<Program, AllocError>
    ensures { IfOk result (λ p. program_of p ≡ elaborated typed) }
{
    let made = elaborate(alloc, &typed);
    forget(typed);
    made
}

/// A text means one program, or it has one first error.
pub fn meanings_are_exact()
    ensures { IsExact meanings }
{}
