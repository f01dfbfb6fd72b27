//! Operations and blocks that are folded.
ghost use Rattle.std.specs.Prelude.{◌≡◌, IfOk, length, map, None, replicate};
ghost use Rattle.ckc_passes.specs.code.Forward.{emptied, filled};
ghost use Rattle.ckc_passes_fold.specs.Folded.{const_or as const_or_op};
ghost use Rattle.ckc_passes_fold.specs.code.Tables.{block_with, entry, ops_with, put_for};

use crate::numbers::given;
use ckc_base::Seq;
use ckc_passes::{copy_of, empty, enter, target};
use ckc_tac::{TacBlock, TacOp};
use std::alloc::{AllocError, Global};

/// The blocks of a function, folded, by an empty table with an entry for each register.
pub fn made_blocks(
    alloc: Global,
    blocks: &[TacBlock],
    known: &mut [Option<u32>],
) -> Result<Vec<TacBlock>, AllocError>
    requires empty { known.old ≡ replicate (length known.old) None }
    ensures made { IfOk result (λ made. made.items ≡ map (block_with known.old) blocks.now) }
{
    let mut made = Vec::new(alloc);
    for block in blocks {
        let one = made_block(alloc, block, known)?;
        made.push(one)?;
    }
    Ok(made)
}

/// A block, folded. The table is empty before and after it.
fn made_block(
    alloc: Global,
    block: &TacBlock,
    known: &mut [Option<u32>],
) -> Result<TacBlock, AllocError>
    ensures made { IfOk result (λ made. made ≡ block_with known.old block.now) }
    ensures known { IfOk result (λ made. known.new
        ≡ emptied None block.now.ops (filled entry 0 block.now.ops known.old)) }
{
    let ops = made_ops(alloc, block.ops.as_slice(), known)?;
    empty(block.ops.as_slice(), None, known);
    Ok(TacBlock {
        ops: Seq::from_vec(ops),
        end: block.end,
    })
}

fn made_ops(
    alloc: Global,
    ops: &[TacOp],
    known: &mut [Option<u32>],
) -> Result<Vec<TacOp>, AllocError>
    ensures made { IfOk result (λ made. made.items ≡ ops_with known.old ops.now) }
    ensures known { IfOk result (λ made. known.new ≡ filled entry 0 ops.now known.old) }
{
    let mut made = Vec::new(alloc);
    for op in ops {
        let number = given(op, known);
        let one = made_op(alloc, number, op)?;
        made.push(one)?;
        enter(target(op), number, known);
    }
    Ok(made)
}

fn made_op(alloc: Global, number: Option<u32>, op: &TacOp) -> Result<TacOp, AllocError>
    ensures { IfOk result (λ made. made ≡ put_for number op.now) }
{
    match op {
        TacOp::Bin(_, t, _, _) => const_or(alloc, number, *t, op),
        TacOp::High(_, t, _, _) => const_or(alloc, number, *t, op),
        _ => copy_of(alloc, op),
    }
}

fn const_or(alloc: Global, number: Option<u32>, t: u32, op: &TacOp) -> Result<TacOp, AllocError>
    ensures { IfOk result (λ made. made ≡ const_or_op number t op.now) }
{
    match number {
        Some(n) => Ok(TacOp::Const(t, n)),
        None => copy_of(alloc, op),
    }
}
