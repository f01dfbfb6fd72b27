//! Operations and blocks in which registers are read at their origins.
ghost use Rattle.std.specs.Prelude.{◌≡◌, IfOk, length, map, replicate};
ghost use Rattle.ckc_passes.specs.code.Forward.{emptied, filled};
ghost use Rattle.ckc_passes_copies.specs.Copied.{copied_end, copied_op};
ghost use Rattle.ckc_passes_copies.specs.code.Tables.{block_with, entry, none_yet, ops_with, writes_in};

use crate::origins::{Last, NONE_YET, copied, operand, origin, origins};
use ckc_base::Seq;
use ckc_passes::{empty, enter, target};
use ckc_tac::{TacBlock, TacEnd, TacOp};
use std::alloc::{AllocError, Global};

/// The blocks of a function, by an empty table with an entry for each register.
pub fn made_blocks(
    alloc: Global,
    blocks: &[TacBlock],
    table: &mut [Last],
) -> Result<Vec<TacBlock>, AllocError>
    requires empty { table.old ≡ replicate (length table.old) none_yet }
    ensures made { IfOk result (λ made. made.items ≡ map (block_with table.old) blocks.now) }
{
    let mut made = Vec::new(alloc);
    for block in blocks {
        let one = made_block(alloc, block, table)?;
        made.push(one)?;
    }
    Ok(made)
}

/// A block. The table is empty before and after it.
fn made_block(alloc: Global, block: &TacBlock, table: &mut [Last]) -> Result<TacBlock, AllocError>
    ensures made { IfOk result (λ made. made ≡ block_with table.old block.now) }
    ensures table { IfOk result (λ made. table.new
        ≡ emptied none_yet block.now.ops (filled entry 0 block.now.ops table.old)) }
{
    let ops = made_ops(alloc, block.ops.as_slice(), table)?;
    let end = made_end(&block.end, table);
    empty(block.ops.as_slice(), NONE_YET, table);
    Ok(TacBlock {
        ops: Seq::from_vec(ops),
        end,
    })
}

fn made_ops(alloc: Global, ops: &[TacOp], table: &mut [Last]) -> Result<Vec<TacOp>, AllocError>
    ensures made { IfOk result (λ made. made.items ≡ ops_with 0 table.old ops.now) }
    ensures table { IfOk result (λ made. table.new ≡ filled entry 0 ops.now table.old) }
{
    let mut made = Vec::new(alloc);
    for i in 0..ops.len() {
        let op = &ops[i];
        let one = made_op(alloc, op, table)?;
        made.push(one)?;
        let last = Last {
            at: i + 1,
            copied: copied(op),
        };
        enter(target(op), last, table);
    }
    Ok(made)
}

fn made_op(alloc: Global, op: &TacOp, table: &[Last]) -> Result<TacOp, AllocError>
    ensures { IfOk result (λ made. made ≡ copied_op (writes_in table.now) op.now) }
{
    match op {
        TacOp::Const(t, n) => Ok(TacOp::Const(*t, *n)),
        TacOp::Copy(t, a) => Ok(TacOp::Copy(*t, origin(*a, table))),
        TacOp::Bin(op, t, a, b) => {
            Ok(TacOp::Bin(*op, *t, operand(*a, table), operand(*b, table)))
        }
        TacOp::High(signed, t, a, b) => {
            Ok(TacOp::High(*signed, *t, operand(*a, table), operand(*b, table)))
        }
        TacOp::Load(width, t, a, n) => Ok(TacOp::Load(*width, *t, operand(*a, table), *n)),
        TacOp::Store(width, a, n, b) => {
            Ok(TacOp::Store(*width, operand(*a, table), *n, operand(*b, table)))
        }
        TacOp::Check(check, at, c, a, b) => {
            let (a, b) = (operand(*a, table), operand(*b, table));
            Ok(TacOp::Check(*check, *at, *c, a, b))
        }
        TacOp::Call(t, callee, args, at) => {
            let args = origins(alloc, args.as_slice(), table)?;
            Ok(TacOp::Call(*t, *callee, Seq::from_vec(args), *at))
        }
        TacOp::Get(t) => Ok(TacOp::Get(*t)),
        TacOp::Put(a) => Ok(TacOp::Put(operand(*a, table))),
        TacOp::Alloc(t, a, size) => Ok(TacOp::Alloc(*t, operand(*a, table), *size)),
    }
}

fn made_end(end: &TacEnd, table: &[Last]) -> TacEnd
    ensures { result ≡ copied_end (writes_in table.now) end.now }
{
    match end {
        TacEnd::Jump(to) => TacEnd::Jump(*to),
        TacEnd::Branch(comparison, a, b, one, two) => {
            TacEnd::Branch(
                *comparison,
                operand(*a, table),
                operand(*b, table),
                *one,
                *two,
            )
        }
        TacEnd::Return(a) => TacEnd::Return(operand(*a, table)),
    }
}
