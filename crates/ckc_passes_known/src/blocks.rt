//! What is left of the blocks of a function.
ghost use Rattle.std.specs.Prelude.{◌≡◌, ◌≢◌, ◌<◌, [], IfOk, OnOk, Some, length, true};
ghost use Rattle.std.specs.Bool.{MatchBool};
ghost use Rattle.ckc_tac.specs.declared.code.Comparison.TheVariants.{LtU};
ghost use Rattle.ckc_tac.specs.declared.code.Operand.TheVariants.{Register};
ghost use Rattle.ckc_passes.specs.Rewrites.{all_done};
ghost use Rattle.ckc_passes_known.specs.Known.{always as always_of, BlockAfter, EndBecomes, FunctionAfter, IsDecided, IsNeedless, IsWithin};
ghost use Rattle.ckc_passes_known.specs.code.Edges.{AreEdges};
ghost use Rattle.ckc_passes_known.specs.code.Left.{IsPut};

use crate::edges::{Edges, edges_of};
use crate::facts::{Fact, always, claim};
use crate::marks::{Question, is_known, less};
use ckc_base::Seq;
use ckc_passes::copy_of;
use ckc_tac::{Comparison, Operand, TacBlock, TacEnd, TacFunc, TacOp};
use std::alloc::{AllocError, Global};

/// The function with what is left of each block.
pub fn left_of_function(alloc: Global, f: &TacFunc) -> Result<TacFunc, AllocError>
    ensures { IfOk result (FunctionAfter f.now) }
{
    let blocks = f.blocks.as_slice();
    let edges = edges_of(alloc, blocks)?;
    let mut left = Vec::new(alloc);
    for b in 0..blocks.len() {
        let one = left_of_block(alloc, blocks, &edges, &blocks[b], b)?;
        left.push(one)?;
    }
    Ok(TacFunc {
        params: f.params,
        regs: f.regs,
        blocks: Seq::from_vec(left),
    })
}

/// The block with what is left of its operations and its end.
fn left_of_block(
    alloc: Global,
    blocks: &[TacBlock],
    edges: &Edges,
    block: &TacBlock,
    b: usize,
) -> Result<TacBlock, AllocError>
    requires there { b < length blocks.now }
    requires edges { AreEdges blocks.now edges.now }
    ensures { IfOk result (BlockAfter blocks.now b block.now) }
{
    let ops = block.ops.as_slice();
    let mut left = Vec::new(alloc);
    for i in 0..ops.len() {
        pass(alloc, blocks, edges, b, &ops[..i], &ops[i], &mut left)?;
    }
    let end = left_of_end(alloc, blocks, edges, b, ops, &block.end)?;
    Ok(TacBlock {
        ops: Seq::from_vec(left),
        end,
    })
}

/// Takes an operation after others of its block: puts a copy of it, unless it is a check that is needless.
fn pass(
    alloc: Global,
    blocks: &[TacBlock],
    edges: &Edges,
    b: usize,
    before: &[TacOp],
    op: &TacOp,
    left: &mut Vec<TacOp>,
) -> Result<(), AllocError>
    requires there { b < length blocks.now }
    requires edges { AreEdges blocks.now edges.now }
    ensures { OnOk result
        (IsPut blocks.now b (all_done [] before.now) op.now left.old.items left.new.items) }
{
    let needless = is_needless(alloc, blocks, edges, b, before, op)?;
    if needless {
        return Ok(());
    }
    let copy = copy_of(alloc, op)?;
    left.push(copy)?;
    Ok(())
}

fn is_needless(
    alloc: Global,
    blocks: &[TacBlock],
    edges: &Edges,
    b: usize,
    before: &[TacOp],
    op: &TacOp,
) -> Result<bool, AllocError>
    requires there { b < length blocks.now }
    requires edges { AreEdges blocks.now edges.now }
    ensures { IfOk result (λ needless. MatchBool needless
        (IsNeedless blocks.now b (all_done [] before.now) op.now)
        (IsNeedless blocks.now b (all_done [] before.now) op.now → ⊥)) }
{
    match op {
        TacOp::Check(_, _, c, x, y) => {
            let test = Fact {
                comparison: *c,
                a: *x,
                b: *y,
                holds: true,
            };
            is_decided(alloc, blocks, edges, b, before, test)
        }
        _ => Ok(false),
    }
}

fn left_of_end(
    alloc: Global,
    blocks: &[TacBlock],
    edges: &Edges,
    b: usize,
    before: &[TacOp],
    end: &TacEnd,
) -> Result<TacEnd, AllocError>
    requires there { b < length blocks.now }
    requires edges { AreEdges blocks.now edges.now }
    ensures { IfOk result (EndBecomes blocks.now b (all_done [] before.now) end.now) }
{
    match end {
        TacEnd::Jump(to) => Ok(TacEnd::Jump(*to)),
        TacEnd::Branch(c, x, y, one, two) => {
            let test = Fact {
                comparison: *c,
                a: *x,
                b: *y,
                holds: true,
            };
            let holds = is_decided(alloc, blocks, edges, b, before, test)?;
            if holds {
                return Ok(TacEnd::Jump(*one));
            }
            let denied = Fact {
                comparison: *c,
                a: *x,
                b: *y,
                holds: false,
            };
            let fails = is_decided(alloc, blocks, edges, b, before, denied)?;
            if fails {
                return Ok(TacEnd::Jump(*two));
            }
            Ok(TacEnd::Branch(*c, *x, *y, *one, *two))
        }
        TacEnd::Return(a) => Ok(TacEnd::Return(*a)),
    }
}

/// Whether a comparison is decided in a block, after the first of its operations, to hold or not to.
fn is_decided(
    alloc: Global,
    blocks: &[TacBlock],
    edges: &Edges,
    b: usize,
    before: &[TacOp],
    test: Fact,
) -> Result<bool, AllocError>
    requires there { b < length blocks.now }
    requires edges { AreEdges blocks.now edges.now }
    ensures { IfOk result (λ decided. MatchBool decided
        (IsDecided blocks.now b (all_done [] before.now) test.comparison test.a test.b test.holds)
        (IsDecided blocks.now b (all_done [] before.now) test.comparison test.a test.b test.holds
        → ⊥)) }
{
    if is_always(test) {
        return Ok(true);
    }
    let fact = claim(test.comparison, test.a, test.b, test.holds);
    let known = is_known(alloc, blocks, edges, Question::Stated(fact), b, before)?;
    if known {
        return Ok(true);
    }
    is_within(alloc, blocks, edges, b, before, test)
}

/// Whether a comparison is that a register is within a limit, and it is so in a block after the first of its operations.
fn is_within(
    alloc: Global,
    blocks: &[TacBlock],
    edges: &Edges,
    b: usize,
    before: &[TacOp],
    test: Fact,
) -> Result<bool, AllocError>
    requires there { b < length blocks.now }
    requires edges { AreEdges blocks.now edges.now }
    ensures { IfOk result (λ within. MatchBool within
        (IsWithin blocks.now b (all_done [] before.now) test.comparison test.a test.b test.holds)
        (IsWithin blocks.now b (all_done [] before.now) test.comparison test.a test.b test.holds
        → ⊥)) }
{
    match (test.comparison, test.a, test.holds) {
        (Comparison::LtU, Operand::Register(r), true) => is_below(
            alloc, blocks, edges, b, before, r, test.b,
        ),
        _ => Ok(false),
    }
}

/// Whether a register is below a limit there, and not negative.
fn is_below(
    alloc: Global,
    blocks: &[TacBlock],
    edges: &Edges,
    b: usize,
    before: &[TacOp],
    r: u32,
    limit: Operand,
) -> Result<bool, AllocError>
    requires there { b < length blocks.now }
    requires edges { AreEdges blocks.now edges.now }
    ensures { IfOk result (λ within. MatchBool within
        (IsWithin blocks.now b (all_done [] before.now) LtU (Register r) limit true)
        (IsWithin blocks.now b (all_done [] before.now) LtU (Register r) limit true → ⊥)) }
{
    let below = is_known(
        alloc,
        blocks,
        edges,
        Question::Stated(less(r, limit)),
        b,
        before,
    )?;
    if !below {
        return Ok(false);
    }
    is_known(alloc, blocks, edges, Question::Counted(r, limit), b, before)
}

/// Whether a comparison always comes out so.
fn is_always(test: Fact) -> bool
    ensures { MatchBool result (always_of test.comparison test.a test.b ≡ Some test.holds)
        (always_of test.comparison test.a test.b ≢ Some test.holds) }
{
    match always(test.comparison, test.a, test.b) {
        Some(value) => value == test.holds,
        None => false,
    }
}
