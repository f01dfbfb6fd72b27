//! Which blocks are reached: those that the first one leads to, and those that they lead to.
ghost use Rattle.std.specs.Prelude.{◌≡◌, ◌<◌, IfOk, OnOk, false, length, replicate};
ghost use Rattle.ckc_tac.specs.declared.code.TacEnd.TheVariants.{Jump};
ghost use Rattle.ckc_passes_jumps.specs.code.Ways.{AreRight};
ghost use Rattle.ckc_passes_jumps.specs.code.Reached.{AreReached, IsPassedNow, IsPut, IsPutFor};

use crate::ways::{Ways, short};
use ckc_tac::{TacBlock, TacEnd};
use std::alloc::{AllocError, Global};

/// A mark for each block: whether it is reached.
pub fn reached(alloc: Global, blocks: &[TacBlock], ways: &mut Ways) -> Result<Vec<bool>, AllocError>
    requires { AreRight blocks.now ways.old.walks.items ways.old.ends.items }
    ensures right { OnOk result (AreRight blocks.now ways.new.walks.items ways.new.ends.items) }
    ensures exact { IfOk result (λ marks. AreReached blocks.now marks.items) }
{
    let mut marks = no_marks(alloc, blocks.len())?;
    let mut order = Vec::new(alloc);
    put(0, &mut marks, &mut order)?;
    let mut i = 0;
    'order: while i < order.len() {
        pass(blocks, ways, order[i], &mut marks, &mut order)?;
        i += 1;
    }
    Ok(marks)
}

fn no_marks(alloc: Global, count: usize) -> Result<Vec<bool>, AllocError>
    ensures { IfOk result (λ marks. marks.items ≡ replicate count false) }
{
    let marks = vec![in alloc; false; count]?;
    Ok(marks)
}

/// Passes a block of the order.
fn pass(
    blocks: &[TacBlock],
    ways: &mut Ways,
    b: usize,
    marks: &mut Vec<bool>,
    order: &mut Vec<usize>,
) -> Result<(), AllocError>
    requires there { b < length blocks.now }
    requires right { AreRight blocks.now ways.old.walks.items ways.old.ends.items }
    ensures right { OnOk result (AreRight blocks.now ways.new.walks.items ways.new.ends.items) }
    ensures put { OnOk result (IsPassedNow blocks.now b
        marks.old.items order.old.items marks.new.items order.new.items) }
{
    put_end(blocks, ways, &blocks[b].end, marks, order)?;
    Ok(())
}

/// Puts the blocks that an end leads to behind those that are to be passed, if they have no mark yet.
fn put_end(
    blocks: &[TacBlock],
    ways: &mut Ways,
    end: &TacEnd,
    marks: &mut Vec<bool>,
    order: &mut Vec<usize>,
) -> Result<(), AllocError>
    requires { AreRight blocks.now ways.old.walks.items ways.old.ends.items }
    ensures right { OnOk result (AreRight blocks.now ways.new.walks.items ways.new.ends.items) }
    ensures put { OnOk result (IsPutFor blocks.now end.now
        marks.old.items order.old.items marks.new.items order.new.items) }
{
    match end {
        TacEnd::Jump(to) => put_short(blocks, ways, *to, marks, order),
        TacEnd::Branch(_, _, _, one, two) => {
            put_short(blocks, ways, *one, marks, order)?;
            put_short(blocks, ways, *two, marks, order)?;
            Ok(())
        }
        TacEnd::Return(_) => Ok(()),
    }
}

fn put_short(
    blocks: &[TacBlock],
    ways: &mut Ways,
    to: u32,
    marks: &mut Vec<bool>,
    order: &mut Vec<usize>,
) -> Result<(), AllocError>
    requires { AreRight blocks.now ways.old.walks.items ways.old.ends.items }
    ensures right { OnOk result (AreRight blocks.now ways.new.walks.items ways.new.ends.items) }
    ensures put { OnOk result (IsPutFor blocks.now (Jump to)
        marks.old.items order.old.items marks.new.items order.new.items) }
{
    let b = short(blocks, ways, to)?;
    put(b as usize, marks, order)?;
    Ok(())
}

/// Puts a block, if it is one and has no mark yet.
fn put(b: usize, marks: &mut Vec<bool>, order: &mut Vec<usize>) -> Result<(), AllocError>
    ensures { OnOk result (IsPut b marks.old.items order.old.items marks.new.items order.new.items) }
{
    if b < marks.len() && !marks[b] {
        order.push(b)?;
        marks[b] = true;
    }
    Ok(())
}
