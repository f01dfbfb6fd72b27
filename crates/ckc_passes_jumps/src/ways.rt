//! Where the ways of passing blocks end. Each block is walked over once, however often it is asked about.
ghost use Rattle.std.specs.Prelude.{◌≡◌, [], IfOk, OnOk, None, get_or, replicate};
ghost use Rattle.ckc_passes_jumps.specs.Jumps.{IsShort, passes_to};
ghost use Rattle.ckc_passes_jumps.specs.code.Ways.{AreRight, IsAnswer, IsWalked};

use ckc_tac::{TacBlock, TacEnd};
use std::alloc::{AllocError, Global};

/// The walk that first came to each block, numbered from 0, if one did, and where the way of each walk ends, if it does.
#[derive(Drop)]
pub struct Ways {
    pub walks: Vec<Option<usize>>,
    pub ends: Vec<Option<u32>>,
}

/// No block is walked over yet.
pub fn no_ways(alloc: Global, count: usize) -> Result<Ways, AllocError>
    ensures { IfOk result (λ ways.
        (ways.walks.items ≡ replicate count None) × (ways.ends.items ≡ [])) }
{
    let walks = vec![in alloc; None; count]?;
    Ok(Ways {
        walks,
        ends: Vec::new(alloc),
    })
}

/// The block that an end leads to in place of this one: where its way of passing blocks ends, or itself.
pub fn short(blocks: &[TacBlock], ways: &mut Ways, b: u32) -> Result<u32, AllocError>
    requires { AreRight blocks.now ways.old.walks.items ways.old.ends.items }
    ensures right { OnOk result (AreRight blocks.now ways.new.walks.items ways.new.ends.items) }
    ensures short { IfOk result (IsShort blocks.now b) }
{
    let end = end_of(blocks, ways, b)?;
    match end {
        Some(c) => Ok(c),
        None => Ok(b),
    }
}

/// Where the way of passing blocks from a block ends, if it does.
fn end_of(blocks: &[TacBlock], ways: &mut Ways, b: u32) -> Result<Option<u32>, AllocError>
    requires { AreRight blocks.now ways.old.walks.items ways.old.ends.items }
    ensures right { OnOk result (AreRight blocks.now ways.new.walks.items ways.new.ends.items) }
    ensures answer { IfOk result (IsAnswer blocks.now b) }
{
    if let Some(w) = walk_of(&ways.walks, b) {
        return Ok(end_at(ways.ends.as_slice(), w));
    }
    let end = walk(blocks, &mut ways.walks, ways.ends.as_slice(), b);
    ways.ends.push(end)?;
    Ok(end)
}

/// The walk that came to a block.
fn walk_of(walks: &Vec<Option<usize>>, b: u32) -> Option<usize>
    ensures { result ≡ get_or walks.now.items b None }
{
    if (b as usize) < walks.len() {
        walks[b as usize]
    } else {
        None
    }
}

/// Where the way of a walk ends, if it does. The walk that goes on has the next number: who meets it goes in a circle.
fn end_at(ends: &[Option<u32>], w: usize) -> Option<u32>
    ensures { result ≡ get_or ends.now w None }
{
    if w < ends.len() { ends[w] } else { None }
}

/// Walks on from block to block, to one that does not pass on, or that a walk came to.
fn walk(
    blocks: &[TacBlock],
    walks: &mut Vec<Option<usize>>,
    ends: &[Option<u32>],
    b: u32,
) -> Option<u32>
    requires { AreRight blocks.now walks.old.items ends.now }
    ensures { IsWalked blocks.now b walks.new.items ends.now result }
{
    let mut at = b;
    'steps: while (at as usize) < blocks.len() {
        if let Some(w) = walk_of(walks, at) {
            return end_at(ends, w);
        }
        walks[at as usize] = Some(ends.len());
        match next(&blocks[at as usize]) {
            Some(to) => at = to,
            None => return Some(at),
        }
    }
    None
}

/// The block that a block without operations jumps to.
fn next(block: &TacBlock) -> Option<u32>
    ensures { result ≡ passes_to block.now }
{
    if !block.ops.is_empty() {
        return None;
    }
    match block.end {
        TacEnd::Jump(to) => Some(to),
        TacEnd::Branch(_, _, _, _, _) => None,
        TacEnd::Return(_) => None,
    }
}
