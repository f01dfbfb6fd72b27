//! What is left of the blocks of a function.
ghost use Rattle.std.specs.Prelude.{◌≡◌, [], All, IfOk, OnOk, List, length, get_or, reverse, false};
ghost use Rattle.std.specs.List.{AllZip};
ghost use Rattle.ckc_tac.specs.declared.code.TacFunc.{TacFunc};
ghost use Rattle.ckc_tac.specs.declared.code.TacOp.{TacOp};
ghost use Rattle.ckc_tac.specs.declared.code.TacEnd.{TacEnd};
ghost use Rattle.ckc_tac.specs.WellFormed.{IsFunctionOver, IsOpOver};
ghost use Rattle.ckc_flow.specs.Live.{AreExact, IsExact};
ghost use Rattle.ckc_passes.specs.Passes.{Becomes, BlockBecomes, FunctionBecomes};
ghost use Rattle.ckc_passes_dead.specs.Dead.{dead_pass, plain_target as plain_target_of};
ghost use Rattle.ckc_passes_dead.specs.code.Passing.{Passes, is_unmarked};

use ckc_base::Seq;
use ckc_flow::{before_end, before_op, live};
use ckc_passes::copy_of;
use ckc_tac::{TacBlock, TacFunc, TacOp};
use std::alloc::{AllocError, Global};

/// The function with what is left of each block.
pub fn left_of_function(alloc: Global, f: &TacFunc) -> Result<TacFunc, AllocError>
    ensures { IfOk result (λ after. (functions : List TacFunc)
        → IsFunctionOver functions f.now → FunctionBecomes dead_pass f.now after) }
{
    let live = live(alloc, f)?;
    let mut row = vec![in alloc; false; f.regs as usize]?;
    let left = left_of_blocks(alloc, f, live.before.as_slice(), row.as_mut_slice())?;
    Ok(TacFunc {
        params: f.params,
        regs: f.regs,
        blocks: Seq::from_vec(left),
    })
}

fn left_of_blocks(
    alloc: Global,
    f: &TacFunc,
    live: &[Seq<bool>],
    row: &mut [bool],
) -> Result<Vec<TacBlock>, AllocError>
    requires live { AreExact f.now live.now }
    requires row { length row.old ≡ f.now.regs }
    ensures { IfOk result (λ blocks. (functions : List TacFunc) → IsFunctionOver functions f.now
        → AllZip (BlockBecomes dead_pass f.now.blocks) f.now.blocks blocks.items) }
{
    let mut blocks = Vec::new(alloc);
    for block in f.blocks.as_slice() {
        before_end(&block.end, live, row);
        let left = left_of_block(alloc, block, row)?;
        blocks.push(left)?;
    }
    Ok(blocks)
}

/// The block with what is left of its operations, from the registers that are wanted at its end.
fn left_of_block(alloc: Global, block: &TacBlock, row: &mut [bool]) -> Result<TacBlock, AllocError>
    ensures { IfOk result (λ after. (f : TacFunc) (functions : List TacFunc)
        → All (IsOpOver functions f.regs) block.now.ops → IsExact f [] block.now.end row.old
        → BlockBecomes dead_pass f.blocks block.now after) }
{
    let mut left = last_first(alloc, block.ops.as_slice(), row)?;
    left.reverse();
    Ok(TacBlock {
        ops: Seq::from_vec(left),
        end: block.end,
    })
}

/// What is left of operations, last first, from the registers that are wanted after them all.
fn last_first(alloc: Global, ops: &[TacOp], row: &mut [bool]) -> Result<Vec<TacOp>, AllocError>
    ensures { IfOk result (λ left. (f : TacFunc) (functions : List TacFunc) (end : TacEnd)
        → All (IsOpOver functions f.regs) ops.now → IsExact f [] end row.old
        → Becomes dead_pass f.blocks [] ops.now end (reverse left.items) end) }
{
    let mut left = Vec::new(alloc);
    let mut i = ops.len();
    while i > 0 {
        i -= 1;
        pass(alloc, &ops[i], row, &mut left)?;
    }
    Ok(left)
}

/// Passes an operation: puts a copy of it if it is left, and changes what is wanted.
fn pass(
    alloc: Global,
    op: &TacOp,
    row: &mut [bool],
    left: &mut Vec<TacOp>,
) -> Result<(), AllocError>
    ensures { OnOk result (Passes op.now row.old left.old.items row.new left.new.items) }
{
    let dead = is_dead(op, row);
    if dead {
        return Ok(());
    }
    let copy = copy_of(alloc, op)?;
    left.push(copy)?;
    before_op(op, row);
    Ok(())
}

/// Whether an operation only writes a register that is not wanted after it.
fn is_dead(op: &TacOp, row: &[bool]) -> bool
    ensures { result ≡ is_unmarked (plain_target_of op.now) row.now }
{
    match plain_target(op) {
        Some(t) => !is_marked(row, t),
        None => false,
    }
}

fn is_marked(row: &[bool], r: u32) -> bool
    ensures { result ≡ get_or row.now r false }
{
    (r as usize) < row.len() && row[r as usize]
}

/// The register that an operation writes, if it does nothing else.
fn plain_target(op: &TacOp) -> Option<u32>
    ensures { result ≡ plain_target_of op.now }
{
    match op {
        TacOp::Const(t, _) => Some(*t),
        TacOp::Copy(t, _) => Some(*t),
        TacOp::Bin(_, t, _, _) => Some(*t),
        TacOp::High(_, t, _, _) => Some(*t),
        TacOp::Load(_, _, _, _) => None,
        TacOp::Store(_, _, _, _) => None,
        TacOp::Check(_, _, _, _, _) => None,
        TacOp::Call(_, _, _, _) => None,
        TacOp::Get(_) => None,
        TacOp::Put(_) => None,
        TacOp::Alloc(_, _, _) => None,
    }
}
