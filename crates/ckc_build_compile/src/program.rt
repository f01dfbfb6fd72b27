//! The layers, one after another.
ghost use Rattle.std.specs.Prelude.{◌≡◌, ℕ, ◌+◌, ◌*◌, ◌≤◌, List, length, IfOk};
ghost use Rattle.ckc_base.specs.MemoryMap.{longest_data, most_instructions, longest_statics};
ghost use Rattle.ckc_base.specs.Follows.{Follows};
ghost use Rattle.ckc_source.specs.Code.{program_of};
ghost use Rattle.ckc_source.specs.LaidOut.{AreBytes, IsLaidOut};
ghost use Rattle.ckc_source.specs.Source.{source};
ghost use Rattle.ckc_checks_operands.specs.Compilable.{IsCompilable};
ghost use Rattle.ckc_checks_operands.specs.Weights.{program_weight, most_weight};
ghost use Rattle.ckc_tac.specs.Meaning.{tac_detail};
ghost use Rattle.ckc_tac.specs.code.Meaning.{tac_meaning};
ghost use Rattle.ckc_tac.specs.Sizes.{program_size as tac_size};
ghost use Rattle.ckc_tac.specs.WellFormed.{IsWellFormed as IsWellFormedTac, HasFewRegisters};
ghost use Rattle.ckc_frame.specs.Meaning.{placed_detail, placed_meaning};
ghost use Rattle.ckc_frame.specs.WellFormed.{IsWellFormed, program_size};
ghost use Rattle.ckc_emit.specs.CodeSize.{code_size};
ghost use Rattle.ckc_emit.specs.Promise.{FollowsPlaced, ListsStores};
ghost use Rattle.ckc_build_compile.specs.code.Layers.{HasCore};
ghost use Rattle.ckc_build_compile.specs.Compiled.{FollowsSource, machine_parts};
ghost use Rattle.ckc_build_compile.specs.Confined.{ConfinesStores, NeverFaults};

use crate::passes::passed;
use ckc_asm_lines::assemble;
use ckc_assign::assign;
use ckc_checks::insert;
use ckc_emit::emit;
use ckc_frame::Placed;
use ckc_image::Parts;
use ckc_lower::lower;
use ckc_source::Program;
use ckc_tac::Tac;
use std::alloc::{AllocError, Global};

/// The three-address code of a program.
fn lowered(alloc: Global, p: &Program) -> Result<Tac, AllocError>
    requires form { IsCompilable (program_of p.now) }
    requires laid { IsLaidOut (program_of p.now) }
    ensures formed { IfOk result IsWellFormedTac }
    ensures few { IfOk result HasFewRegisters }
    ensures size { IfOk result (λ t. tac_size t ≤ program_weight (program_of p.now)) }
    ensures initial { IfOk result (λ t. length t.initial ≤ longest_statics) }
    ensures follows { IfOk result (λ t. (input : List ℕ) → AreBytes input →
        Follows (source (program_of p.now) input) (tac_meaning t input) 400004) }
    ensures detail { IfOk result (λ t. HasCore (program_of p.now) (tac_detail t) 4) }
{
    let c = insert(alloc, p)?;
    let t = lower(alloc, &c)?;
    Ok(t)
}

/// The placed code of a program.
fn placed(alloc: Global, p: &Program) -> Result<Placed, AllocError>
    requires form { IsCompilable (program_of p.now) }
    requires laid { IsLaidOut (program_of p.now) }
    ensures whole { IfOk result IsWellFormed }
    ensures size { IfOk result (λ q. program_size q ≤ program_weight (program_of p.now)) }
    ensures initial { IfOk result (λ q. length q.initial ≤ longest_statics) }
    ensures follows { IfOk result (λ q. (input : List ℕ) → AreBytes input →
        Follows (source (program_of p.now) input) (placed_meaning q input) 400011) }
    ensures detail { IfOk result (λ q. HasCore (program_of p.now) (placed_detail q) 11) }
{
    let t = lowered(alloc, p)?;
    let after = passed(alloc, &t)?;
    let q = assign(alloc, &after)?;
    Ok(q)
}

/// The parts of placed code.
fn assembled(alloc: Global, q: &Placed) -> Result<Parts, AllocError>
    requires whole { IsWellFormed q.now }
    requires fits { code_size q.now ≤ most_instructions }
    requires initial { length q.now.initial ≤ longest_data }
    ensures follows { IfOk result (λ parts. FollowsPlaced q.now (machine_parts parts)) }
    ensures listed { IfOk result (λ parts. ListsStores q.now (machine_parts parts)) }
    ensures size { IfOk result (λ parts. length parts.code ≤ 4 * code_size q.now) }
{
    let l = emit(alloc, q)?;
    let parts = assemble(alloc, &l)?;
    Ok(parts)
}

/// The parts of an image of a program, or want of memory. The machine that runs them reads and puts the same
/// bytes as the program, and ends with the same value or stops at the same check and place. Nothing is said if the
/// program is stuck.
pub fn compile(alloc: Global, p: &Program) -> Result<Parts, AllocError>
    requires form { IsCompilable (program_of p.now) }
    requires laid { IsLaidOut (program_of p.now) }
    // an image has room for 4,193,280 instructions, of which the start takes five
    requires small { program_weight (program_of p.now) ≤ most_weight }
    ensures follows { IfOk result (FollowsSource (program_of p.now)) }

    // if the program is never stuck, each store lies in a block, in a frame or in the heap word,
    // or the program's step plans it, and the machine is never at a fault
    ensures confined { IfOk result (λ parts.
        ConfinesStores (program_of p.now) (machine_parts parts)) }
    ensures faultless { IfOk result (λ parts.
        NeverFaults (program_of p.now) (machine_parts parts)) }

    // an instruction has four bytes, and the start is five
    ensures size { IfOk result (λ parts. length parts.code ≤
        4 * (program_weight (program_of p.now) + 5)) }
{
    let q = placed(alloc, p)?;
    let parts = assembled(alloc, &q)?;
    Ok(parts)
}
