//! The passes over three-address code, one after another.
ghost use Rattle.std.specs.Prelude.{◌≡◌, ◌≤◌, IfOk};
ghost use Rattle.ckc_tac.specs.Sizes.{program_size};
ghost use Rattle.ckc_tac.specs.WellFormed.{IsWellFormed, HasFewRegisters};
ghost use Rattle.ckc_build_compile.specs.code.Layers.{FollowsOn};

use ckc_passes_copies::copies;
use ckc_passes_dead::dead;
use ckc_passes_fold::fold;
use ckc_passes_jumps::jumps;
use ckc_passes_known::known;
use ckc_passes_redundant::redundant;
use ckc_tac::Tac;
use std::alloc::{AllocError, Global};

/// The code after the six passes. It does what the code does, and each pass adds one to a bound on its steps.
pub fn passed(alloc: Global, t: &Tac) -> Result<Tac, AllocError>
    requires { IsWellFormed t.now }
    ensures whole { IfOk result IsWellFormed }
    ensures few { IfOk result (λ after. HasFewRegisters t.now → HasFewRegisters after) }
    ensures size { IfOk result (λ after. program_size after ≤ program_size t.now) }
    ensures initial { IfOk result (λ after. after.initial ≡ t.now.initial) }
    ensures follows { IfOk result (λ after. FollowsOn t.now after 6) }
{
    let folded = fold(alloc, t)?;
    let copied = copies(alloc, &folded)?;
    let checked = redundant(alloc, &copied)?;
    let decided = known(alloc, &checked)?;
    let short = jumps(alloc, &decided)?;
    let last = dead(alloc, &short)?;
    Ok(last)
}
