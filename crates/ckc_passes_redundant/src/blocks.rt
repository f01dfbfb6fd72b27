//! What is left of the blocks of a function.
ghost use Rattle.std.specs.Prelude.{IfOk, OnOk, List};
ghost use Rattle.ckc_tac.specs.declared.code.TacBlock.{TacBlock};
ghost use Rattle.ckc_passes.specs.Passes.{BlockBecomes, FunctionBecomes};
ghost use Rattle.ckc_passes_redundant.specs.Redundant.{redundant_pass};
ghost use Rattle.ckc_passes_redundant.specs.code.Blocks.{Passes};

use crate::table::Table;
use ckc_base::Seq;
use ckc_passes::copy_of;
use ckc_tac::{TacBlock, TacFunc, TacOp};
use std::alloc::{AllocError, Global};

/// The function with what is left of each block.
pub fn left_of_function(alloc: Global, f: &TacFunc) -> Result<TacFunc, AllocError>
    ensures { IfOk result (FunctionBecomes redundant_pass f.now) }
{
    let mut blocks = Vec::new(alloc);
    for block in f.blocks.as_slice() {
        let left = left_of_block(alloc, block)?;
        blocks.push(left)?;
    }
    Ok(TacFunc {
        params: f.params,
        regs: f.regs,
        blocks: Seq::from_vec(blocks),
    })
}

/// The block with what is left of its operations.
fn left_of_block(alloc: Global, block: &TacBlock) -> Result<TacBlock, AllocError>
    ensures { IfOk result
        (λ after. (blocks : List TacBlock) → BlockBecomes redundant_pass blocks block.now after) }
{
    let mut table = Table::new(alloc);
    let ops = block.ops.as_slice();
    let mut left = Vec::new(alloc);
    for place in 0..ops.len() {
        pass(alloc, &ops[place], place, &mut table, &mut left)?;
    }
    Ok(TacBlock {
        ops: Seq::from_vec(left),
        end: block.end,
    })
}

/// Takes an operation, after so many others: puts a copy of it, unless it is a check that repeats an earlier one.
fn pass(
    alloc: Global,
    op: &TacOp,
    place: usize,
    table: &mut Table,
    left: &mut Vec<TacOp>,
) -> Result<(), AllocError>
    ensures { OnOk result
        (Passes op.now place table.old table.new left.old.items left.new.items) }
{
    let repeats = table.take(op, place)?;
    if repeats {
        return Ok(());
    }
    let copy = copy_of(alloc, op)?;
    left.push(copy)?;
    Ok(())
}
