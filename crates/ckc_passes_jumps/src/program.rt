ghost use Rattle.std.specs.Prelude.{◌≡◌, ◌≤◌, All, IfOk, List, length, map, ℕ};
ghost use Rattle.std.specs.List.{AllZip};
ghost use Rattle.ckc_base.specs.Follows.{Follows};
ghost use Rattle.ckc_tac.specs.declared.code.TacFunc.{TacFunc};
ghost use Rattle.ckc_tac.specs.Meaning.{tac_detail};
ghost use Rattle.ckc_tac.specs.Sizes.{program_size};
ghost use Rattle.ckc_tac.specs.WellFormed.{IsFunctionOver, IsWellFormed};
ghost use Rattle.ckc_passes.specs.Counts.{operations_of, registers_of};
ghost use Rattle.ckc_passes_jumps.specs.Jumps.{FunctionAfter, ProgramAfter};

use crate::blocks::left_of_function;
use ckc_base::Seq;
use ckc_tac::{Tac, TacFunc};
use std::alloc::{AllocError, Global};

/// The program with short jumps: each jump and branch leads past the blocks that only jump on, to the block where that
/// way ends, and exactly the blocks stay that can be reached then, in their order. A branch whose two ways come to the
/// same block becomes a jump. Operations stay as they were, and the result does what the program does, calls, returns
/// and stores to the data region included, in no more steps.
pub fn jumps(alloc: Global, t: &Tac) -> Result<Tac, AllocError>
    requires { IsWellFormed t.now }
    ensures exact { IfOk result (ProgramAfter t.now) }
    ensures whole { IfOk result IsWellFormed }
    ensures registers { IfOk result (λ after. registers_of after ≡ registers_of t.now) }
    ensures operations { IfOk result (λ after. operations_of after ≤ operations_of t.now) }
    ensures size { IfOk result (λ after. program_size after ≤ program_size t.now) }
    ensures follows { IfOk result
        (λ after. (input : List ℕ) → Follows (tac_detail t.now input) (tac_detail after input) 1) }
{
    let funcs = functions(alloc, t.funcs.as_slice())?;
    let initial = Seq::from_slice(alloc, t.initial.as_slice())?;
    Ok(Tac {
        initial,
        funcs: Seq::from_vec(funcs),
        main: t.main,
    })
}

fn functions(alloc: Global, fs: &[TacFunc]) -> Result<Vec<TacFunc>, AllocError>
    ensures { IfOk result (λ after. (functions : List TacFunc)
        → All (IsFunctionOver functions) fs.now → AllZip FunctionAfter fs.now after.items) }
{
    let mut left = Vec::new(alloc);
    for f in fs {
        let one = left_of_function(alloc, f)?;
        left.push(one)?;
    }
    Ok(left)
}
