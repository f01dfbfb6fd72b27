//! What is left of the blocks of a function.
ghost use Rattle.std.specs.Prelude.{◌≡◌, ◌≤◌, ◌<◌, All, IfOk, List, OnOk, get_or, length, ℕ};
ghost use Rattle.ckc_tac.specs.declared.code.TacFunc.{TacFunc};
ghost use Rattle.ckc_tac.specs.WellFormed.{IsBlockOver, IsEndOver, IsFunctionOver};
ghost use Rattle.ckc_passes_jumps.specs.Jumps.{BlockAfter, EndAfter, FunctionAfter, IsTarget, Left};
ghost use Rattle.ckc_passes_jumps.specs.code.Ways.{AreRight};
ghost use Rattle.ckc_passes_jumps.specs.code.Reached.{ArePlaced, AreReached};

use crate::places::{place, places};
use crate::reached::reached;
use crate::ways::{Ways, no_ways, short};
use ckc_base::Seq;
use ckc_passes::copy_of;
use ckc_tac::{TacBlock, TacEnd, TacFunc, TacOp};
use std::alloc::{AllocError, Global};

/// The function with short jumps, and with the blocks that are reached then.
pub fn left_of_function(alloc: Global, f: &TacFunc) -> Result<TacFunc, AllocError>
    ensures { IfOk result (λ after. (functions : List TacFunc)
        → IsFunctionOver functions f.now → FunctionAfter f.now after) }
{
    let left = left_of_blocks(alloc, f.blocks.as_slice())?;
    Ok(TacFunc {
        params: f.params,
        regs: f.regs,
        blocks: Seq::from_vec(left),
    })
}

fn left_of_blocks(alloc: Global, blocks: &[TacBlock]) -> Result<Vec<TacBlock>, AllocError>
    ensures { IfOk result (λ left. (functions : List TacFunc) (regs : ℕ)
        → All (IsBlockOver functions (length blocks.now) regs) blocks.now
        → Left blocks.now 0 blocks.now left.items) }
{
    let mut ways = no_ways(alloc, blocks.len())?;
    let marks = reached(alloc, blocks, &mut ways)?;
    let places = places(alloc, marks.as_slice())?;
    marked(
        alloc,
        blocks,
        &mut ways,
        marks.as_slice(),
        places.as_slice(),
    )
}

/// What is left of the blocks that have a mark.
fn marked(
    alloc: Global,
    blocks: &[TacBlock],
    ways: &mut Ways,
    marks: &[bool],
    places: &[usize],
) -> Result<Vec<TacBlock>, AllocError>
    requires reached { AreReached blocks.now marks.now }
    requires right { AreRight blocks.now ways.old.walks.items ways.old.ends.items }
    requires placed { ArePlaced blocks.now (length blocks.now) places.now }
    requires small { (b : ℕ) → get_or places.now b 0 ≤ b }
    ensures { IfOk result (λ left. (functions : List TacFunc) (regs : ℕ)
        → All (IsBlockOver functions (length blocks.now) regs) blocks.now
        → Left blocks.now 0 blocks.now left.items) }
{
    let mut left = Vec::new(alloc);
    for b in 0..blocks.len() {
        if marks[b] {
            let one = left_of_block(alloc, blocks, ways, places, &blocks[b])?;
            left.push(one)?;
        }
    }
    Ok(left)
}

fn left_of_block(
    alloc: Global,
    blocks: &[TacBlock],
    ways: &mut Ways,
    places: &[usize],
    block: &TacBlock,
) -> Result<TacBlock, AllocError>
    requires right { AreRight blocks.now ways.old.walks.items ways.old.ends.items }
    requires placed { ArePlaced blocks.now (length blocks.now) places.now }
    requires small { (b : ℕ) → get_or places.now b 0 ≤ b }
    ensures right { OnOk result (AreRight blocks.now ways.new.walks.items ways.new.ends.items) }
    ensures exact { IfOk result (λ low. (functions : List TacFunc) (regs : ℕ)
        → IsBlockOver functions (length blocks.now) regs block.now
        → BlockAfter blocks.now block.now low) }
{
    let ops = copies(alloc, block.ops.as_slice())?;
    let end = left_of_end(blocks, ways, places, &block.end)?;
    Ok(TacBlock {
        ops: Seq::from_vec(ops),
        end,
    })
}

fn copies(alloc: Global, ops: &[TacOp]) -> Result<Vec<TacOp>, AllocError>
    ensures { IfOk result (λ copies. copies.items ≡ ops.now) }
{
    let mut copies = Vec::new(alloc);
    for op in ops {
        let copy = copy_of(alloc, op)?;
        copies.push(copy)?;
    }
    Ok(copies)
}

fn left_of_end(
    blocks: &[TacBlock],
    ways: &mut Ways,
    places: &[usize],
    end: &TacEnd,
) -> Result<TacEnd, AllocError>
    requires right { AreRight blocks.now ways.old.walks.items ways.old.ends.items }
    requires placed { ArePlaced blocks.now (length blocks.now) places.now }
    requires small { (b : ℕ) → get_or places.now b 0 ≤ b }
    ensures right { OnOk result (AreRight blocks.now ways.new.walks.items ways.new.ends.items) }
    ensures exact { IfOk result (λ low. (regs : ℕ)
        → IsEndOver (length blocks.now) regs end.now → EndAfter blocks.now end.now low) }
{
    match end {
        TacEnd::Jump(to) => {
            let to = left_of_target(blocks, ways, places, *to)?;
            Ok(TacEnd::Jump(to))
        }
        TacEnd::Branch(c, x, y, one, two) => {
            let one = left_of_target(blocks, ways, places, *one)?;
            let two = left_of_target(blocks, ways, places, *two)?;
            if one == two {
                return Ok(TacEnd::Jump(one));
            }
            Ok(TacEnd::Branch(*c, *x, *y, one, two))
        }
        TacEnd::Return(x) => Ok(TacEnd::Return(*x)),
    }
}

fn left_of_target(
    blocks: &[TacBlock],
    ways: &mut Ways,
    places: &[usize],
    to: u32,
) -> Result<u32, AllocError>
    requires right { AreRight blocks.now ways.old.walks.items ways.old.ends.items }
    requires placed { ArePlaced blocks.now (length blocks.now) places.now }
    requires small { (b : ℕ) → get_or places.now b 0 ≤ b }
    ensures right { OnOk result (AreRight blocks.now ways.new.walks.items ways.new.ends.items) }
    ensures exact { IfOk result (λ k. to < length blocks.now → IsTarget blocks.now to k) }
{
    let b = short(blocks, ways, to)?;
    Ok(place(places, b))
}
