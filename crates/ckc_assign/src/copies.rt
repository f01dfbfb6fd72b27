//! Copies of three-address code.
ghost use Rattle.std.specs.Prelude.{◌≡◌, ◌++◌, ◌∷◌, [], IfOk, take};

use ckc_base::Seq;
use ckc_tac::{TacBlock, TacFunc, TacOp};
use std::alloc::{AllocError, Global};

fn copy_of_op(alloc: Global, op: &TacOp) -> Result<TacOp, AllocError>
    ensures { IfOk result (λ copy. copy ≡ op.now) }
{
    match op {
        TacOp::Const(t, n) => Ok(TacOp::Const(*t, *n)),
        TacOp::Copy(t, a) => Ok(TacOp::Copy(*t, *a)),
        TacOp::Bin(op, t, a, b) => Ok(TacOp::Bin(*op, *t, *a, *b)),
        TacOp::High(signed, t, a, b) => Ok(TacOp::High(*signed, *t, *a, *b)),
        TacOp::Load(width, t, a, n) => Ok(TacOp::Load(*width, *t, *a, *n)),
        TacOp::Store(width, a, n, b) => Ok(TacOp::Store(*width, *a, *n, *b)),
        TacOp::Check(check, at, c, a, b) => Ok(TacOp::Check(*check, *at, *c, *a, *b)),
        TacOp::Call(t, callee, args, at) => {
            let args = Seq::from_slice(alloc, args.as_slice())?;
            Ok(TacOp::Call(*t, *callee, args, *at))
        }
        TacOp::Get(t) => Ok(TacOp::Get(*t)),
        TacOp::Put(a) => Ok(TacOp::Put(*a)),
        TacOp::Alloc(t, a, size) => Ok(TacOp::Alloc(*t, *a, *size)),
    }
}

fn copy_of_block(alloc: Global, block: &TacBlock) -> Result<TacBlock, AllocError>
    ensures { IfOk result (λ copy. copy ≡ block.now) }
{
    let mut ops = Vec::new(alloc);
    for op in block.ops.as_slice() {
        let copy = copy_of_op(alloc, op)?;
        ops.push(copy)?;
    }
    Ok(TacBlock {
        ops: Seq::from_vec(ops),
        end: block.end,
    })
}

/// A copy of a function.
pub fn copy_of(alloc: Global, f: &TacFunc) -> Result<TacFunc, AllocError>
    ensures { IfOk result (λ copy. copy ≡ f.now) }
{
    let mut blocks = Vec::new(alloc);
    for block in f.blocks.as_slice() {
        let copy = copy_of_block(alloc, block)?;
        blocks.push(copy)?;
    }
    Ok(TacFunc {
        params: f.params,
        regs: f.regs,
        blocks: Seq::from_vec(blocks),
    })
}
