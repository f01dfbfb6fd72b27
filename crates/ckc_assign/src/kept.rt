//! Which registers calls keep.
ghost use Rattle.std.specs.Prelude.{◌≡◌, ◌++◌, [], length, reverse, List, IfOk, OnOk};
ghost use Rattle.ckc_tac.specs.declared.code.TacFunc.{TacFunc};
ghost use Rattle.ckc_tac.specs.declared.code.TacEnd.{TacEnd};
ghost use Rattle.ckc_flow.specs.Live.{AreExact, IsExact};
ghost use Rattle.ckc_assign.specs.code.Kept.{AllKept, AreKept, call_row, without};

use ckc_base::Seq;
use ckc_flow::{before_end, before_op};
use ckc_tac::{TacFunc, TacOp};
use std::alloc::{AllocError, Global};

/// A row for each call, in the order of the code: the registers that are live after it, its target apart.
pub fn kept_of(alloc: Global, f: &TacFunc, live: &[Seq<bool>]) -> Result<Vec<Seq<bool>>, AllocError>
    requires { AreExact f.now live.now }
    ensures { IfOk result (λ kept. AllKept f.now f.now.blocks kept.items) }
{
    let mut row = vec![in alloc; false; f.regs as usize]?;
    let mut kept = Vec::new(alloc);
    put_all(alloc, f, live, row.as_mut_slice(), &mut kept)?;
    Ok(kept)
}

fn put_all(
    alloc: Global,
    f: &TacFunc,
    live: &[Seq<bool>],
    row: &mut [bool],
    kept: &mut Vec<Seq<bool>>,
) -> Result<(), AllocError>
    requires live { AreExact f.now live.now }
    requires row { length row.old ≡ f.now.regs }
    requires none { kept.old.items ≡ [] }
    ensures { OnOk result (AllKept f.now f.now.blocks kept.new.items) }
{
    for block in f.blocks.as_slice() {
        before_end(&block.end, live, row);
        let mut rows = rows_of(alloc, block.ops.as_slice(), row)?;
        put_reversed(&mut rows, kept)?;
    }
    Ok(())
}

/// The rows of the calls among operations, last first, from the registers that are live after them all.
fn rows_of(alloc: Global, ops: &[TacOp], row: &mut [bool]) -> Result<Vec<Seq<bool>>, AllocError>
    ensures { IfOk result (λ rows. (f : TacFunc) (end : TacEnd)
        → IsExact f [] end row.old → AreKept f end ops.now (reverse rows.items)) }
{
    let mut rows = Vec::new(alloc);
    let mut i = ops.len();
    while i > 0 {
        i -= 1;
        put_row(alloc, &ops[i], row, &mut rows)?;
        before_op(&ops[i], row);
    }
    Ok(rows)
}

fn put_row(
    alloc: Global,
    op: &TacOp,
    row: &[bool],
    rows: &mut Vec<Seq<bool>>,
) -> Result<(), AllocError>
    ensures { OnOk result (rows.new.items ≡ rows.old.items ++ call_row op.now row.now) }
{
    match op {
        TacOp::Call(t, _, _, _) => {
            let kept = kept_row(alloc, *t, row)?;
            rows.push(kept)?;
            Ok(())
        }
        _ => Ok(()),
    }
}

fn kept_row(alloc: Global, t: Option<u32>, row: &[bool]) -> Result<Seq<bool>, AllocError>
    ensures { IfOk result (λ kept. kept ≡ without t row.now) }
{
    let mut kept = Vec::from_slice(alloc, row)?;
    clear(t, kept.as_mut_slice());
    Ok(Seq::from_vec(kept))
}

fn clear(t: Option<u32>, row: &mut [bool])
    ensures { row.new ≡ without t row.old }
{
    match t {
        Some(t) => {
            if (t as usize) < row.len() {
                row[t as usize] = false;
            }
        }
        None => {}
    }
}

/// Adds rows, last first, at the end of a list.
fn put_reversed(rows: &mut Vec<Seq<bool>>, kept: &mut Vec<Seq<bool>>) -> Result<(), AllocError>
    ensures { OnOk result (kept.new.items ≡ kept.old.items ++ reverse rows.old.items) }
{
    while let Some(row) = rows.pop() {
        kept.push(row)?;
    }
    Ok(())
}
