//! What a machine register is worth to each register: how often the register is read and written, eightfold in each loop,
//! for the length of its range. Any numbers would do.
ghost use Rattle.std.specs.Prelude.{◌≡◌, ◌<◌, length};

use crate::ranges::Range;
use ckc_tac::{Operand, TacEnd, TacFunc, TacOp};
use std::alloc::{AllocError, Global};

/// What a machine register is worth to each register.
pub fn worths_of(alloc: Global, f: &TacFunc, ranges: &[Range]) -> Result<Vec<u64>, AllocError> {
    let mut uses = uses_of(alloc, f)?;
    for r in 0..uses.len() {
        if r < ranges.len() {
            uses[r] = uses[r].saturating_mul(1024) / length(ranges[r]);
        }
    }
    Ok(uses)
}

/// How many places a range has, and 1 if it has none.
fn length(range: Range) -> u64
    ensures { 0 < result }
{
    u64::from(range.last.saturating_sub(range.first)) + 1
}

/// How often each register is read and written.
fn uses_of(alloc: Global, f: &TacFunc) -> Result<Vec<u64>, AllocError> {
    let weights = weights_of(alloc, f)?;
    let mut uses = vec![in alloc; 0u64; f.regs as usize]?;
    let blocks = f.blocks.as_slice();
    for b in 0..blocks.len() {
        if b < weights.len() {
            for op in blocks[b].ops.as_slice() {
                count_op(op, weights[b], uses.as_mut_slice());
            }
            count_end(&blocks[b].end, weights[b], uses.as_mut_slice());
        }
    }
    Ok(uses)
}

/// What a use in each block counts: 1, and eight times as much for each loop around it, up to 4,096.
fn weights_of(alloc: Global, f: &TacFunc) -> Result<Vec<u64>, AllocError> {
    let ends = loops_of(alloc, f)?;
    let mut weights = vec![in alloc; 1u64; ends.len()]?;
    for head in 0..ends.len() {
        for b in head..ends[head] {
            if b < weights.len() && weights[b] < 4096 {
                weights[b] = weights[b].saturating_mul(8);
            }
        }
    }
    Ok(weights)
}

/// For each block the number of the first one after the loop that begins there, or 0 if none does: a block that leads back
/// to it is in the loop.
fn loops_of(alloc: Global, f: &TacFunc) -> Result<Vec<usize>, AllocError> {
    let blocks = f.blocks.as_slice();
    let mut ends = vec![in alloc; 0usize; blocks.len()]?;
    for b in 0..blocks.len() {
        match blocks[b].end {
            TacEnd::Jump(to) => lead(b, to, ends.as_mut_slice()),
            TacEnd::Branch(_, _, _, one, two) => {
                lead(b, one, ends.as_mut_slice());
                lead(b, two, ends.as_mut_slice());
            }
            TacEnd::Return(_) => {}
        }
    }
    Ok(ends)
}

fn lead(from: usize, to: u32, ends: &mut [usize])
    ensures { length ends.new ≡ length ends.old }
{
    let to = to as usize;
    if to <= from && to < ends.len() {
        ends[to] = from.saturating_add(1);
    }
}

fn count_op(op: &TacOp, weight: u64, uses: &mut [u64])
    ensures { length uses.new ≡ length uses.old }
{
    match op {
        TacOp::Const(t, _) => count(*t, weight, uses),
        TacOp::Copy(t, a) => count_three(
            *t,
            Operand::Register(*a),
            Operand::Number(0),
            weight,
            uses,
        ),
        TacOp::Bin(_, t, a, b) => count_three(*t, *a, *b, weight, uses),
        TacOp::High(_, t, a, b) => count_three(*t, *a, *b, weight, uses),
        TacOp::Load(_, t, a, _) => count_three(*t, *a, Operand::Number(0), weight, uses),
        TacOp::Store(_, a, _, b) => count_two(*a, *b, weight, uses),
        TacOp::Check(_, _, _, a, b) => count_two(*a, *b, weight, uses),
        TacOp::Call(_, _, args, _) => count_each(args.as_slice(), weight, uses),
        TacOp::Get(t) => count(*t, weight, uses),
        TacOp::Put(a) => count_operand(*a, weight, uses),
        TacOp::Alloc(t, a, _) => count_three(*t, *a, Operand::Number(0), weight, uses),
    }
}

fn count_end(end: &TacEnd, weight: u64, uses: &mut [u64])
    ensures { length uses.new ≡ length uses.old }
{
    match end {
        TacEnd::Jump(_) => {}
        TacEnd::Branch(_, a, b, _, _) => count_two(*a, *b, weight, uses),
        TacEnd::Return(a) => count_operand(*a, weight, uses),
    }
}

fn count_each(rs: &[u32], weight: u64, uses: &mut [u64])
    ensures { length uses.new ≡ length uses.old }
{
    for r in rs {
        count(*r, weight, uses);
    }
}

fn count_three(t: u32, a: Operand, b: Operand, weight: u64, uses: &mut [u64])
    ensures { length uses.new ≡ length uses.old }
{
    count(t, weight, uses);
    count_two(a, b, weight, uses);
}

fn count_two(a: Operand, b: Operand, weight: u64, uses: &mut [u64])
    ensures { length uses.new ≡ length uses.old }
{
    count_operand(a, weight, uses);
    count_operand(b, weight, uses);
}

fn count_operand(a: Operand, weight: u64, uses: &mut [u64])
    ensures { length uses.new ≡ length uses.old }
{
    match a {
        Operand::Register(r) => count(r, weight, uses),
        Operand::Number(_) => {}
    }
}

fn count(r: u32, weight: u64, uses: &mut [u64])
    ensures { length uses.new ≡ length uses.old }
{
    if (r as usize) < uses.len() {
        uses[r as usize] = uses[r as usize].saturating_add(weight);
    }
}
