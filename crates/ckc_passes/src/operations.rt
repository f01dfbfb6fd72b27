//! Operations that are kept, and where they write.
ghost use Rattle.std.specs.Prelude.{◌≡◌, IfOk};
ghost use Rattle.ckc_flow.specs.Live.{target_of};

use ckc_base::Seq;
use ckc_tac::TacOp;
use std::alloc::{AllocError, Global};

/// A copy of an operation.
pub fn copy_of(alloc: Global, op: &TacOp) -> Result<TacOp, AllocError>
    ensures { IfOk result (λ copy. copy ≡ op.now) }
{
    match op {
        TacOp::Const(t, n) => Ok(TacOp::Const(*t, *n)),
        TacOp::Copy(t, a) => Ok(TacOp::Copy(*t, *a)),
        TacOp::Bin(op, t, a, b) => Ok(TacOp::Bin(*op, *t, *a, *b)),
        TacOp::High(signed, t, a, b) => Ok(TacOp::High(*signed, *t, *a, *b)),
        TacOp::Load(width, t, a, n) => Ok(TacOp::Load(*width, *t, *a, *n)),
        TacOp::Store(width, a, n, b) => Ok(TacOp::Store(*width, *a, *n, *b)),
        TacOp::Check(check, at, c, a, b) => Ok(TacOp::Check(*check, *at, *c, *a, *b)),
        TacOp::Call(t, callee, args, at) => {
            let args = Seq::from_slice(alloc, args.as_slice())?;
            Ok(TacOp::Call(*t, *callee, args, *at))
        }
        TacOp::Get(t) => Ok(TacOp::Get(*t)),
        TacOp::Put(a) => Ok(TacOp::Put(*a)),
        TacOp::Alloc(t, a, size) => Ok(TacOp::Alloc(*t, *a, *size)),
    }
}

/// The register that an operation writes, if there is one.
pub fn target(op: &TacOp) -> Option<u32>
    ensures { result ≡ target_of op.now }
{
    match op {
        TacOp::Const(t, _) => Some(*t),
        TacOp::Copy(t, _) => Some(*t),
        TacOp::Bin(_, t, _, _) => Some(*t),
        TacOp::High(_, t, _, _) => Some(*t),
        TacOp::Load(_, t, _, _) => Some(*t),
        TacOp::Store(_, _, _, _) => None,
        TacOp::Check(_, _, _, _, _) => None,
        TacOp::Call(t, _, _, _) => *t,
        TacOp::Get(t) => Some(*t),
        TacOp::Put(_) => None,
        TacOp::Alloc(t, _, _) => Some(*t),
    }
}
