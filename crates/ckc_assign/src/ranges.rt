//! The live ranges of registers. The places of a function are numbered in the order of blocks and operations, from 1:
//! one in front of each operation and of each end of a block.
ghost use Rattle.std.specs.Prelude.{◌≡◌, ◌||◌, ◌==◌, ◌<◌, ◌+◌, [], get_or, length, true, false, ℕ, Some, OnOk, IfOk};
ghost use Rattle.std.specs.List.{list_any};
ghost use Rattle.ckc_tac.specs.declared.code.TacFunc.{TacFunc};
ghost use Rattle.ckc_flow.specs.Live.{AreExact, IsExact, is_register, reads, target_of};
ghost use Rattle.ckc_assign.specs.code.Ranges.{HasRange, PassesBlock, Sees, SeesAll, reach};

use ckc_base::{Seq, sum};
use ckc_flow::before_end;
use ckc_tac::{Operand, TacBlock, TacFunc, TacOp};
use std::alloc::{AllocError, Global};

/// The first and the last place at which a register is in use; there is none if the first is greater.
#[derive(Clone, Copy)]
pub struct Range {
    pub first: u32,
    pub last: u32,
}

const UNUSED: Range = Range { first: 1, last: 0 };

/// The range of each register, from the rows of those that are live at the beginning of each block.
pub fn ranges_of(alloc: Global, f: &TacFunc, live: &[Seq<bool>]) -> Result<Vec<Range>, AllocError>
    requires { AreExact f.now live.now }
    ensures { IfOk result (λ ranges. SeesAll f.now ranges.items) }
{
    let mut ranges = vec![in alloc; UNUSED; f.regs as usize]?;
    let mut row = vec![in alloc; false; f.regs as usize]?;
    see_all(f, live, row.as_mut_slice(), ranges.as_mut_slice())?;
    Ok(ranges)
}

fn see_all(
    f: &TacFunc,
    live: &[Seq<bool>],
    row: &mut [bool],
    ranges: &mut [Range],
) -> Result<(), AllocError>
    requires live { AreExact f.now live.now }
    requires row { length row.old ≡ f.now.regs }
    requires ranges { length ranges.old ≡ f.now.regs }
    requires unused { (r : ℕ) → HasRange ranges.old r → ⊥ }
    ensures { OnOk result (SeesAll f.now ranges.new) }
{
    see_params(f.params, ranges);
    let mut place = 1;
    let blocks = f.blocks.as_slice();
    for b in 0..blocks.len() {
        place = see_block(&blocks[b], live, b, place, row, ranges)?;
    }
    Ok(())
}

/// Sees the registers that a block uses, from a place on, and tells the place after it.
fn see_block(
    block: &TacBlock,
    live: &[Seq<bool>],
    b: usize,
    place: u32,
    row: &mut [bool],
    ranges: &mut [Range],
) -> Result<u32, AllocError>
    requires there { b < length live.now }
    ensures place { IfOk result (λ n. n ≡ place + length block.now.ops + 1) }
    ensures seen { OnOk result ((f : TacFunc) → AreExact f live.now → length row.old ≡ f.regs
        → IsExact f block.now.ops block.now.end (get_or live.now b [])
        → length ranges.old ≡ f.regs
        → PassesBlock f block.now place ranges.old ranges.new) }
{
    see_row(live[b].as_slice(), place, ranges);
    let mut at = place;
    for op in block.ops.as_slice() {
        let next = sum(at, 1)?;
        see_reads(op, at, ranges);
        see_target(target(op), next, ranges);
        at = next;
    }
    before_end(&block.end, live, row);
    see_row(row, at, ranges);
    sum(at, 1)
}

fn see_params(params: u32, ranges: &mut [Range])
    ensures { Sees (λ r. r < params) 1 ranges.old ranges.new }
{
    for r in 0..params {
        see(r, 1, ranges);
    }
}

fn see_row(row: &[bool], place: u32, ranges: &mut [Range])
    ensures { Sees (λ r. get_or row.now r false ≡ true) place ranges.old ranges.new }
{
    for r in 0..row.len() {
        if r < ranges.len() && row[r] {
            ranges[r] = with_place(ranges[r], place);
        }
    }
}

/// The register that an operation writes, if there is one.
fn target(op: &TacOp) -> Option<u32>
    ensures { result ≡ target_of op.now }
{
    match op {
        TacOp::Const(t, _) => Some(*t),
        TacOp::Copy(t, _) => Some(*t),
        TacOp::Bin(_, t, _, _) => Some(*t),
        TacOp::High(_, t, _, _) => Some(*t),
        TacOp::Load(_, t, _, _) => Some(*t),
        TacOp::Store(_, _, _, _) => None,
        TacOp::Check(_, _, _, _, _) => None,
        TacOp::Call(t, _, _, _) => *t,
        TacOp::Get(t) => Some(*t),
        TacOp::Put(_) => None,
        TacOp::Alloc(t, _, _) => Some(*t),
    }
}

fn see_target(t: Option<u32>, place: u32, ranges: &mut [Range])
    ensures { Sees (λ r. t ≡ Some r) place ranges.old ranges.new }
{
    match t {
        Some(t) => see(t, place, ranges),
        None => {}
    }
}

fn see_reads(op: &TacOp, place: u32, ranges: &mut [Range])
    ensures { Sees (λ r. reads r op.now ≡ true) place ranges.old ranges.new }
{
    match op {
        TacOp::Const(_, _) => {}
        TacOp::Copy(_, a) => see(*a, place, ranges),
        TacOp::Bin(_, _, a, b) => see_two(*a, *b, place, ranges),
        TacOp::High(_, _, a, b) => see_two(*a, *b, place, ranges),
        TacOp::Load(_, _, a, _) => see_operand(*a, place, ranges),
        TacOp::Store(_, a, _, b) => see_two(*a, *b, place, ranges),
        TacOp::Check(_, _, _, a, b) => see_two(*a, *b, place, ranges),
        TacOp::Call(_, _, args, _) => see_each(args.as_slice(), place, ranges),
        TacOp::Get(_) => {}
        TacOp::Put(a) => see_operand(*a, place, ranges),
        TacOp::Alloc(_, a, _) => see_operand(*a, place, ranges),
    }
}

fn see_each(rs: &[u32], place: u32, ranges: &mut [Range])
    ensures { Sees (λ r. list_any (λ a. a == r) rs.now ≡ true) place ranges.old ranges.new }
{
    for r in rs {
        see(*r, place, ranges);
    }
}

fn see_two(a: Operand, b: Operand, place: u32, ranges: &mut [Range])
    ensures { Sees (λ r. (is_register r a || is_register r b) ≡ true) place
        ranges.old ranges.new }
{
    see_operand(a, place, ranges);
    see_operand(b, place, ranges);
}

fn see_operand(a: Operand, place: u32, ranges: &mut [Range])
    ensures { Sees (λ r. is_register r a ≡ true) place ranges.old ranges.new }
{
    match a {
        Operand::Register(r) => see(r, place, ranges),
        Operand::Number(_) => {}
    }
}

/// Makes the range of a register reach to a place.
fn see(r: u32, place: u32, ranges: &mut [Range])
    ensures { Sees (λ q. r ≡ q) place ranges.old ranges.new }
{
    if (r as usize) < ranges.len() {
        ranges[r as usize] = with_place(ranges[r as usize], place);
    }
}

fn with_place(range: Range, place: u32) -> Range
    ensures { result ≡ reach range place }
{
    if range.last < range.first {
        Range {
            first: place,
            last: place,
        }
    } else if place < range.first {
        Range {
            first: place,
            last: range.last,
        }
    } else if range.last < place {
        Range {
            first: range.first,
            last: place,
        }
    } else {
        range
    }
}
