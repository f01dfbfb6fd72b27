ghost use Rattle.std.specs.Prelude.{◌≡◌, ◌≤◌, List, ℕ, IfOk, map, All};
ghost use Rattle.ckc_base.specs.Follows.{Follows};
ghost use Rattle.ckc_core.specs.Code.{function_of, program_of};
ghost use Rattle.ckc_core.specs.Limits.{IsSmallFunction, IsWithinLimits};
ghost use Rattle.ckc_core.specs.Loops.{idle_loops};
ghost use Rattle.ckc_core.specs.Meaning.{core_detail};
ghost use Rattle.ckc_core.specs.Sizes.{program_size as core_size};
ghost use Rattle.ckc_core.specs.WellFormed.{IsWellFormed};
ghost use Rattle.ckc_tac.specs.Meaning.{tac_detail};
ghost use Rattle.ckc_tac.specs.Sizes.{program_size as tac_size};
ghost use Rattle.ckc_tac.specs.WellFormed.{IsWellFormed as IsWellFormedTac, HasFewRegisters};
ghost use Rattle.ckc_lower.specs.Idle.{idle_blocks};
ghost use Rattle.ckc_lower.specs.code.Lowered.{lowered_function, lowered};

use crate::builder::Builder;
use ckc_base::Seq;
use ckc_core::{Core, CoreFunc};
use ckc_tac::{Tac, TacFunc};
use std::alloc::{AllocError, Global};

fn function(alloc: Global, f: &CoreFunc) -> Result<TacFunc, AllocError>
    requires { IsSmallFunction (function_of f.now) }
    ensures { IfOk result (λ t. t ≡ lowered_function (function_of f.now)) }
{
    let mut builder = Builder {
        blocks: Seq::new(alloc),
        ops: Seq::new(alloc),
        regs: f.locals,
    };
    builder.code(alloc, f.body.as_slice(), true, None, None, f.locals)?;
    let Builder {
        blocks,
        ops: _ops,
        regs,
    } = builder;
    Ok(TacFunc {
        params: f.params,
        regs,
        blocks,
    })
}

fn functions(alloc: Global, funcs: &[CoreFunc]) -> Result<Seq<TacFunc>, AllocError>
    requires { All IsSmallFunction (map function_of funcs.now) }
    ensures { IfOk result (λ ts. ts ≡ map lowered_function (map function_of funcs.now)) }
{
    let mut done = Seq::new(alloc);
    for f in funcs {
        let next = function(alloc, f)?;
        done.push(next)?;
    }
    Ok(done)
}

fn program(alloc: Global, c: &Core) -> Result<Tac, AllocError>
    requires { IsWithinLimits (program_of c.now) }
    ensures { IfOk result (λ t. t ≡ lowered (program_of c.now)) }
{
    let funcs = functions(alloc, c.funcs.as_slice())?;
    let initial = Seq::from_slice(alloc, c.initial.as_slice())?;
    Ok(Tac {
        initial,
        funcs,
        main: c.main,
    })
}

/// The three-address code of a program, which follows it step by step, calls, returns and stores included. Temporaries
/// are used again. Locals and numbers are read where they stand, and a condition that is a comparison is the branch itself;
/// what feeds a branch or a check alone is computed directly in front of it.
pub fn lower(alloc: Global, c: &Core) -> Result<Tac, AllocError>
    requires well_formed { IsWellFormed (program_of c.now) }
    requires limits { IsWithinLimits (program_of c.now) }

    ensures code { IfOk result (λ t. t ≡ lowered (program_of c.now)) }

    // for every input, within 4 steps for each step of the core code and one more
    ensures follows { IfOk result (λ t. (input : List ℕ) →
        Follows (core_detail (program_of c.now) input) (tac_detail t input) 4) }
    ensures formed { IfOk result (λ t. IsWellFormedTac t) }
    ensures few_registers { IfOk result HasFewRegisters }
    ensures size { IfOk result (λ t. tac_size t ≤ core_size (program_of c.now)) }

    // no jump to a block that only jumps: only a loop that does nothing has one
    ensures jumps { IfOk result (λ t. idle_blocks t ≤ idle_loops (program_of c.now)) }
    ensures initial { IfOk result (λ t. t.initial ≡ c.now.initial) }
    ensures main { IfOk result (λ t. t.main ≡ c.now.main) }
{
    let t = program(alloc, c)?;
    Ok(t)
}
