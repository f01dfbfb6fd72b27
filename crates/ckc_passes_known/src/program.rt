ghost use Rattle.std.specs.Prelude.{◌≡◌, ◌≤◌, IfOk, List, ℕ};
ghost use Rattle.std.specs.List.{AllZip};
ghost use Rattle.ckc_base.specs.Follows.{Follows};
ghost use Rattle.ckc_tac.specs.WellFormed.{IsWellFormed};
ghost use Rattle.ckc_tac.specs.Meaning.{tac_detail};
ghost use Rattle.ckc_tac.specs.Sizes.{program_size};
ghost use Rattle.ckc_passes.specs.Counts.{operations_of, registers_of};
ghost use Rattle.ckc_passes_known.specs.Known.{FunctionAfter, ProgramAfter};

use crate::blocks::left_of_function;
use ckc_base::Seq;
use ckc_tac::{Tac, TacFunc};
use std::alloc::{AllocError, Global};

/// The program without the tests that are decided: exactly those checks are dropped whose comparison holds on every way
/// to them, since it was made there and no register of it was written since, or since a register is below a limit as a
/// signed word and is not negative there; and exactly those branches become jumps whose comparison holds so, or does not
/// hold. All else stays as it was, and the result does what the program does, calls, returns and stores to the data
/// region included, in no more steps.
pub fn known(alloc: Global, t: &Tac) -> Result<Tac, AllocError>
    requires { IsWellFormed t.now }
    ensures exact { IfOk result (ProgramAfter t.now) }
    ensures whole { IfOk result IsWellFormed }
    ensures registers { IfOk result (λ after. registers_of after ≡ registers_of t.now) }
    ensures operations { IfOk result (λ after. operations_of after ≤ operations_of t.now) }
    ensures size { IfOk result (λ after. program_size after ≤ program_size t.now) }
    ensures follows { IfOk result
        (λ after. (input : List ℕ) → Follows (tac_detail t.now input) (tac_detail after input) 1) }
{
    let funcs = functions(alloc, t.funcs.as_slice())?;
    let initial = Seq::from_slice(alloc, t.initial.as_slice())?;
    Ok(Tac {
        initial,
        funcs: Seq::from_vec(funcs),
        main: t.main,
    })
}

fn functions(alloc: Global, fs: &[TacFunc]) -> Result<Vec<TacFunc>, AllocError>
    ensures { IfOk result (λ after. AllZip FunctionAfter fs.now after.items) }
{
    let mut left = Vec::new(alloc);
    for f in fs {
        let one = left_of_function(alloc, f)?;
        left.push(one)?;
    }
    Ok(left)
}
