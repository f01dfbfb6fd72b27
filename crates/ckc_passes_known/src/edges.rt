//! The edges that lead to each block.
ghost use Rattle.std.specs.Prelude.{IfOk, OnOk};
ghost use Rattle.ckc_tac.specs.declared.code.TacEnd.TheVariants.{Jump};
ghost use Rattle.ckc_passes_known.specs.code.Edges.{AreEdges, IsAdded};

use ckc_tac::{TacBlock, TacEnd};
use std::alloc::{AllocError, Global};

/// The block where an edge begins, and the number of the next edge that leads to the same block, or 0.
#[derive(Clone, Copy)]
pub struct Edge {
    pub from: usize,
    pub next: usize,
}

/// The edges between blocks, numbered from 1, and for each block the number of the first one that leads to it, or 0.
#[derive(Drop)]
pub struct Edges {
    pub first: Vec<usize>,
    pub all: Vec<Edge>,
}

/// The edges of a function.
pub fn edges_of(alloc: Global, blocks: &[TacBlock]) -> Result<Edges, AllocError>
    ensures { IfOk result (AreEdges blocks.now) }
{
    let mut first = vec![in alloc; 0usize; blocks.len()]?;
    let mut all = Vec::new(alloc);
    for b in 0..blocks.len() {
        let block = &blocks[b];
        add_end(b, &block.end, &mut first, &mut all)?;
    }
    Ok(Edges { first, all })
}

/// Adds the edges that begin at the end of a block.
fn add_end(
    from: usize,
    end: &TacEnd,
    first: &mut Vec<usize>,
    all: &mut Vec<Edge>,
) -> Result<(), AllocError>
    ensures { OnOk result
        (IsAdded from end.now first.old.items all.old.items first.new.items all.new.items) }
{
    match end {
        TacEnd::Jump(to) => add(from, *to, first, all),
        TacEnd::Branch(_, _, _, one, two) => {
            add(from, *one, first, all)?;
            add(from, *two, first, all)
        }
        TacEnd::Return(_) => Ok(()),
    }
}

fn add(from: usize, to: u32, first: &mut Vec<usize>, all: &mut Vec<Edge>) -> Result<(), AllocError>
    ensures { OnOk result
        (IsAdded from (Jump to) first.old.items all.old.items first.new.items all.new.items) }
{
    let to = to as usize;
    if to >= first.len() {
        return Ok(());
    }
    let next = first[to];
    all.push(Edge { from, next })?;
    first[to] = all.len();
    Ok(())
}
