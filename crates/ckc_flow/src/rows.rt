//! The registers that are live at the beginning of each block.
ghost use Rattle.std.specs.Prelude.{◌≡◌, ◌<◌, [], get_or, length, replicate, false, IfOk, List};
ghost use Rattle.std.specs.Bool.{MatchBool};
ghost use Rattle.ckc_flow.specs.Live.{AreExact};
ghost use Rattle.ckc_flow.specs.code.Rows.{made};
ghost use Rattle.ckc_flow.specs.code.Rounds.{AreClosed, AreSound, HasMore, IsWithin, Visits, unset_in};

use crate::transfer::{add, meet, pass_all};
use ckc_base::Seq;
use ckc_tac::{TacBlock, TacFunc};
use std::alloc::{AllocError, Global};

/// A row for each block, with a mark for each register: whether it is live at the beginning of the block.
#[derive(Drop)]
pub struct LiveRows {
    pub before: Seq<Seq<bool>>,
}

/// The registers that are live at the beginning of each block of a function: exactly those that some path of blocks
/// reads before it writes them.
pub fn live(alloc: Global, f: &TacFunc) -> Result<LiveRows, AllocError>
    ensures { IfOk result (λ live. AreExact f.now live.before) }
{
    let blocks = f.blocks.as_slice();
    let mut rows = empty_rows(alloc, blocks.len(), f.regs)?;
    let mut row = vec![in alloc; false; f.regs as usize]?;
    'rounds: loop {
        let grown = round(alloc, blocks, &mut rows, row.as_mut_slice())?;
        if !grown {
            break;
        }
    }
    Ok(LiveRows {
        before: Seq::from_vec(rows),
    })
}

fn empty_rows(alloc: Global, blocks: usize, regs: u32) -> Result<Vec<Seq<bool>>, AllocError>
    ensures { IfOk result (λ rows. rows.items ≡ replicate blocks (replicate regs false)) }
{
    let mut rows = Vec::new(alloc);
    for _b in 0..blocks {
        let row = vec![in alloc; false; regs as usize]?;
        rows.push(Seq::from_vec(row))?;
    }
    Ok(rows)
}

/// Goes once through all blocks, last first, and says whether a register was found to be live that was not known.
fn round(
    alloc: Global,
    blocks: &[TacBlock],
    rows: &mut Vec<Seq<bool>>,
    row: &mut [bool],
) -> Result<bool, AllocError>
    requires { AreSound blocks.now (length row.old) rows.old.items }
    ensures sound { IfOk result (λ grown. AreSound blocks.now (length row.old) rows.new.items) }
    ensures ends { IfOk result (λ grown. MatchBool grown
        (unset_in rows.new.items < unset_in rows.old.items)
        (AreClosed blocks.now (length row.old) 0 rows.new.items)) }
{
    let mut grown = false;
    let mut b = blocks.len();
    'down: while b > 0 {
        b -= 1;
        if visit(alloc, &blocks[b], b, rows, row)? {
            grown = true;
        }
    }
    Ok(grown)
}

/// Adds to the row of a block what the rows of the blocks that it leads to make live, and says whether that is more.
fn visit(
    alloc: Global,
    block: &TacBlock,
    b: usize,
    rows: &mut Vec<Seq<bool>>,
    row: &mut [bool],
) -> Result<bool, AllocError>
    requires there { b < length rows.old.items }
    ensures { IfOk result (λ grown. Visits (made rows.old.items (length row.old) block.now) b
        rows.old.items rows.new.items grown) }
{
    meet(&block.end, rows.as_slice(), row);
    pass_all(block.ops.as_slice(), row);
    if !has_more(row, rows[b].as_slice()) {
        return Ok(false);
    }
    add(rows[b].as_slice(), row);
    rows[b] = Seq::from_slice(alloc, row)?;
    Ok(true)
}

/// Whether a row has a mark that another one lacks.
fn has_more(row: &[bool], other: &[bool]) -> bool
    ensures { MatchBool result (HasMore row.now other.now) (IsWithin row.now other.now) }
{
    for r in 0..row.len() {
        if row[r] && !(r < other.len() && other[r]) {
            return true;
        }
    }
    false
}
