//! How many instructions three-address code may be compiled to.
ghost use Rattle.std.specs.Prelude.{◌≡◌, sum_by, IfSome};
ghost use Rattle.ckc_base.specs.Sizes.{call_size};
ghost use Rattle.ckc_tac.specs.Sizes.{op_size, operand_size, end_size, ops_size, block_size, function_size, program_size};

use ckc_tac::{Operand, Tac, TacBlock, TacEnd, TacFunc, TacOp};

fn size_of_op(op: &TacOp) -> Option<u32>
    ensures { IfSome result (λ n. n ≡ op_size op.now) }
{
    match op {
        TacOp::Const(_, _) => Some(5),
        TacOp::Copy(_, _) | TacOp::Get(_) => Some(6),
        TacOp::Bin(_, _, _, _) | TacOp::High(_, _, _, _) => Some(11),
        TacOp::Load(_, _, _, _) | TacOp::Store(_, _, _, _) | TacOp::Put(_) => Some(7),
        TacOp::Check(_, _, _, a, b) => Some(size_of_operand(*a) + size_of_operand(*b) + 10),
        TacOp::Alloc(_, _, _) => Some(32),
        TacOp::Call(_, _, args, _) => size_of_call(args.len()),
    }
}

fn size_of_call(count: usize) -> Option<u32>
    ensures { IfSome result (λ n. n ≡ call_size count) }
{
    if count > 255 {
        return None;
    }
    Some(64 + 8 * count as u32)
}

fn size_of_operand(operand: Operand) -> u32
    ensures { result ≡ operand_size operand }
{
    match operand {
        Operand::Register(_) => 3,
        Operand::Number(n) => { if n == 0 { 0 } else { 2 } }
    }
}

fn size_of_end(end: TacEnd) -> u32
    ensures { result ≡ end_size end }
{
    match end {
        TacEnd::Jump(_) => 2,
        TacEnd::Branch(_, a, b, _, _) => size_of_operand(a) + size_of_operand(b) + 5,
        TacEnd::Return(_) => 8,
    }
}

fn size_of_ops(ops: &[TacOp]) -> Option<u32>
    ensures { IfSome result (λ n. n ≡ ops_size ops.now) }
{
    let mut total = 0u32;
    for op in ops {
        let size = size_of_op(op)?;
        total = total.checked_add(size)?;
    }
    Some(total)
}

fn size_of_block(block: &TacBlock) -> Option<u32>
    ensures { IfSome result (λ n. n ≡ block_size block.now) }
{
    let ops = size_of_ops(block.ops.as_slice())?;
    ops.checked_add(size_of_end(block.end))
}

fn size_of_function(f: &TacFunc) -> Option<u32>
    ensures { IfSome result (λ n. n ≡ function_size f.now) }
{
    let mut total = 8u32;
    for block in f.blocks.as_slice() {
        let size = size_of_block(block)?;
        total = total.checked_add(size)?;
    }
    Some(total)
}

/// The size of code, if it is below 2^32.
pub fn size_of(t: &Tac) -> Option<u32>
    ensures { IfSome result (λ n. n ≡ program_size t.now) }
{
    let mut total = 0u32;
    for f in t.funcs.as_slice() {
        let size = size_of_function(f)?;
        total = total.checked_add(size)?;
    }
    Some(total)
}
