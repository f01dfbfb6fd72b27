ghost use Rattle.std.specs.Prelude.{◌≡◌, ◌≤◌, All, IfOk, List, map, ℕ};
ghost use Rattle.std.specs.List.{AllZip};
ghost use Rattle.ckc_base.specs.Follows.{Follows};
ghost use Rattle.ckc_tac.specs.declared.code.TacFunc.{TacFunc};
ghost use Rattle.ckc_tac.specs.Meaning.{tac_detail};
ghost use Rattle.ckc_tac.specs.Sizes.{program_size};
ghost use Rattle.ckc_tac.specs.WellFormed.{IsFunctionOver, IsWellFormed};
ghost use Rattle.ckc_passes.specs.Counts.{operations_of};
ghost use Rattle.ckc_passes.specs.Passes.{FunctionBecomes, ProgramBecomes};
ghost use Rattle.ckc_passes_dead.specs.Dead.{dead_pass};

use crate::blocks::left_of_function;
use ckc_base::Seq;
use ckc_tac::{Tac, TacFunc};
use std::alloc::{AllocError, Global};

/// The program without its dead operations: exactly those Const, Copy, Bin and High are dropped whose register is not
/// wanted after them, where each block is judged from its end. Checks, calls, stores, input and output stay. The
/// result does what the program does, calls, returns and stores to the data region included, in at most as many steps.
pub fn dead(alloc: Global, t: &Tac) -> Result<Tac, AllocError>
    requires { IsWellFormed t.now }
    ensures exact { IfOk result (λ after. ProgramBecomes dead_pass t.now after) }
    ensures whole { IfOk result (λ after. IsWellFormed after) }
    ensures registers { IfOk result (λ after. map (λ (f : TacFunc). f.regs) after.funcs
        ≡ map (λ (f : TacFunc). f.regs) t.now.funcs) }
    ensures operations { IfOk result (λ after. operations_of after ≤ operations_of t.now) }
    ensures size { IfOk result (λ after. program_size after ≤ program_size t.now) }
    ensures follows { IfOk result
        (λ after. (input : List ℕ) → Follows (tac_detail t.now input) (tac_detail after input) 1) }
{
    let funcs = functions(alloc, t.funcs.as_slice())?;
    let initial = Seq::from_slice(alloc, t.initial.as_slice())?;
    Ok(Tac {
        initial,
        funcs: Seq::from_vec(funcs),
        main: t.main,
    })
}

fn functions(alloc: Global, fs: &[TacFunc]) -> Result<Vec<TacFunc>, AllocError>
    ensures { IfOk result (λ after. (functions : List TacFunc)
        → All (IsFunctionOver functions) fs.now
        → AllZip (FunctionBecomes dead_pass) fs.now after.items) }
{
    let mut after = Vec::new(alloc);
    for f in fs {
        let left = left_of_function(alloc, f)?;
        after.push(left)?;
    }
    Ok(after)
}
