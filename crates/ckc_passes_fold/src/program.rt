ghost use Rattle.std.specs.Prelude.{◌≡◌, ◌≤◌, IfOk, List, map, ℕ};
ghost use Rattle.ckc_base.specs.Follows.{Follows};
ghost use Rattle.ckc_tac.specs.Meaning.{tac_detail};
ghost use Rattle.ckc_tac.specs.Sizes.{program_size};
ghost use Rattle.ckc_tac.specs.WellFormed.{IsWellFormed};
ghost use Rattle.ckc_passes.specs.Counts.{operations_of, registers_of};
ghost use Rattle.ckc_passes_fold.specs.Folded.{folded};
ghost use Rattle.ckc_passes_fold.specs.code.Tables.{function_with};

use crate::blocks::made_blocks;
use ckc_base::Seq;
use ckc_tac::{Tac, TacFunc};
use std::alloc::{AllocError, Global};

/// The program in which each operation on two operands that gives its target a number, as far as its block tells, is
/// the constant. It does what the program does, in as many steps, and is no larger.
pub fn fold(alloc: Global, t: &Tac) -> Result<Tac, AllocError>
    requires whole { IsWellFormed t.now }
    ensures exact { IfOk result (λ after. after ≡ folded t.now) }
    ensures whole { IfOk result (λ after. IsWellFormed after) }
    ensures registers { IfOk result (λ after. registers_of after ≡ registers_of t.now) }
    ensures operations { IfOk result (λ after. operations_of after ≤ operations_of t.now) }
    ensures size { IfOk result (λ after. program_size after ≤ program_size t.now) }
    ensures follows { IfOk result
        (λ after. (input : List ℕ) → Follows (tac_detail t.now input) (tac_detail after input) 1) }
{
    let funcs = functions(alloc, t.funcs.as_slice())?;
    let initial = Seq::from_slice(alloc, t.initial.as_slice())?;
    Ok(Tac {
        initial,
        funcs: Seq::from_vec(funcs),
        main: t.main,
    })
}

fn functions(alloc: Global, fs: &[TacFunc]) -> Result<Vec<TacFunc>, AllocError>
    ensures { IfOk result (λ made. made.items ≡ map function_with fs.now) }
{
    let mut made = Vec::new(alloc);
    for f in fs {
        let one = function(alloc, f)?;
        made.push(one)?;
    }
    Ok(made)
}

fn function(alloc: Global, f: &TacFunc) -> Result<TacFunc, AllocError>
    ensures { IfOk result (λ made. made ≡ function_with f.now) }
{
    let mut known = vec![in alloc; None; f.regs as usize]?;
    let blocks = made_blocks(alloc, f.blocks.as_slice(), known.as_mut_slice())?;
    Ok(TacFunc {
        params: f.params,
        regs: f.regs,
        blocks: Seq::from_vec(blocks),
    })
}
