//! The lines of operations, of the ends of blocks, and of functions.
ghost use Rattle.std.specs.Prelude.{◌≡◌, ◌&&◌, ◌+◌, ◌++◌, ◌∷◌, ◌≤◌, ◌<◌, ◌^◌, nat_lt, if◌then◌else◌, true, false, All, IfSome, IfOk, length, map, slice_get, sum_by, OnOk};
ghost use Rattle.ckc_tac.specs.WellFormed.{HasParams, IsOperandOver, IsOpOver, IsEndOver, IsBlockOver, IsFunctionOver};
ghost use Rattle.ckc_frame.specs.Meaning.{is_call as calls_of, calls_in};
ghost use Rattle.ckc_frame.specs.WellFormed.{IsPlace, IsPlacedWhole, IsWellFormed};
ghost use Rattle.ckc_frame.specs.Places.{marks_of};
ghost use Rattle.ckc_emit.specs.code.Emitting.{Emits};
ghost use Rattle.ckc_emit.specs.code.Operands.{IsOperand};
ghost use Rattle.ckc_emit.specs.code.CallLines.{place_at, call_lines, result_lines};
ghost use Rattle.ckc_emit.specs.code.ProgramLines.{label_of, homes_of, operand_at, op_lines, ops_lines, jump_line, jump_lines, failing as failing_of, leave_lines, choice_lines, branch_lines, is_passing_block, falls_through, end_lines, block_lines, blocks_lines, body_lines, is_plain as is_plain_op, are_plain as are_plain_ops, is_test as is_test_block, fork_lines, has_near, capped as capped_at, op_room as op_room_of, ops_room as ops_room_from, room_from, function_lines, return_lines, pass_lines, AreLabels, codes_of};
ghost use Rattle.ckc_asm_lines.specs.Assembled.{size_of};

use crate::allocation::put_alloc;
use crate::calls::{put_call, put_result};
use crate::operations::{
    put_bin, put_const, put_copy, put_data_load, put_data_store, put_get, put_high, put_put,
    put_test,
};
use crate::places::{PlacedOperand, place_in, put_operand, put_take, register_of_operand};
use crate::stops::holding;
use ckc_asm_lines::Line;
use ckc_base::Pos;
use ckc_emit_templates::{SP, put, put_load, put_store};
use ckc_frame::{Place, Placed, PlacedFunc};
use ckc_rv::{BranchOp, Instr};
use ckc_tac::{Comparison, Operand, TacBlock, TacEnd, TacOp};
use std::alloc::AllocError;

/// The place of a register of a function.
fn home(f: &PlacedFunc, r: u32) -> Place
    requires placed { IsPlacedWhole f.now }
    requires within { r < f.now.code.regs }
    ensures is { result ≡ place_at f.now.homes r }
    ensures place { IsPlace result }
{
    place_in(f.homes.as_slice(), r as usize)
}

/// An operand of a function, with the place of its register.
fn operand(f: &PlacedFunc, o: Operand) -> PlacedOperand
    requires placed { IsPlacedWhole f.now }
    requires over { IsOperandOver f.now.code.regs o }
    ensures is { result ≡ operand_at f.now.homes o }
    ensures operand { IsOperand result }
{
    match o {
        Operand::Register(r) => PlacedOperand::At(home(f, r)),
        Operand::Number(n) => PlacedOperand::Number(n),
    }
}

/// The lines of an operation; `calls` counts those before it in the function.
fn put_op(
    out: &mut Vec<Line>,
    p: &Placed,
    labels: &[u32],
    f: &PlacedFunc,
    calls: usize,
    op: &TacOp,
) -> Result<(), AllocError>
    requires whole { IsWellFormed p.now }
    requires labelled { AreLabels p.now.funcs labels.now }
    requires placed { IsPlacedWhole f.now }
    requires over { IsOpOver (codes_of p.now.funcs) f.now.code.regs op.now }
    requires counted { calls + calls_of op.now ≤ length f.now.kept }
    ensures { OnOk result
        (Emits out.old.items out.new.items (op_lines p.now.funcs f.now calls op.now)) }
{
    match op {
        TacOp::Const(t, v) => put_const(out, home(f, *t), *v),
        TacOp::Copy(t, a) => put_copy(out, home(f, *t), home(f, *a)),
        TacOp::Bin(op, t, a, b) => put_bin(out, *op, home(f, *t), operand(f, *a), operand(f, *b)),
        TacOp::High(s, t, a, b) => put_high(out, *s, home(f, *t), operand(f, *a), operand(f, *b)),
        TacOp::Load(width, t, a, offset) => {
            put_data_load(out, *width, home(f, *t), operand(f, *a), *offset)
        }
        TacOp::Store(width, a, offset, b) => {
            put_data_store(out, *width, operand(f, *a), *offset, operand(f, *b))
        }
        TacOp::Check(check, at, c, a, b) => {
            put_test(out, *check, *at, *c, operand(f, *a), operand(f, *b))
        }
        TacOp::Get(t) => put_get(out, home(f, *t)),
        TacOp::Put(a) => put_put(out, operand(f, *a)),
        TacOp::Alloc(t, a, size) => put_alloc(out, home(f, *t), operand(f, *a), *size),
        TacOp::Call(t, callee, args, at) => {
            put_whole_call(out, p, labels, f, calls, *t, *callee, args.as_slice(), *at)
        }
    }
}

/// The lines of a call and of its result.
fn put_whole_call(
    out: &mut Vec<Line>,
    p: &Placed,
    labels: &[u32],
    f: &PlacedFunc,
    calls: usize,
    target: Option<u32>,
    callee: u32,
    args: &[u32],
    at: Pos,
) -> Result<(), AllocError>
    requires whole { IsWellFormed p.now }
    requires labelled { AreLabels p.now.funcs labels.now }
    requires placed { IsPlacedWhole f.now }
    requires target { IfSome target (λ t. t < f.now.code.regs) }
    requires callee { HasParams (length args.now) (slice_get (codes_of p.now.funcs) callee) }
    requires arguments { All (λ r. r < f.now.code.regs) args.now }
    requires counted { calls < length f.now.kept }
    ensures { OnOk result (Emits out.old.items out.new.items
        (λ rest. call_lines f.now.homes (marks_of (slice_get f.now.kept calls))
        (homes_of (slice_get p.now.funcs callee)) (label_of p.now.funcs callee) args.now at
        (result_lines f.now.homes target rest))) }
{
    let homes = f.homes.as_slice();
    let row = f.kept.as_slice()[calls].as_slice();
    let params = p.funcs.as_slice()[callee as usize].homes.as_slice();
    put_call(out, homes, row, params, labels[callee as usize], args, at)?;
    put_result(out, homes, target)
}

fn is_call(op: &TacOp) -> usize
    ensures { result ≡ calls_of op.now }
{
    match op {
        TacOp::Call(_, _, _, _) => 1,
        _ => 0,
    }
}

/// The lines of operations, of which the first has so many calls before it in the function; and how many calls stand
/// before what comes next.
fn put_ops(
    out: &mut Vec<Line>,
    p: &Placed,
    labels: &[u32],
    f: &PlacedFunc,
    before: usize,
    ops: &[TacOp],
) -> Result<usize, AllocError>
    requires whole { IsWellFormed p.now }
    requires labelled { AreLabels p.now.funcs labels.now }
    requires placed { IsPlacedWhole f.now }
    requires over { All (IsOpOver (codes_of p.now.funcs) f.now.code.regs) ops.now }
    requires counted { before + sum_by calls_of ops.now ≤ length f.now.kept }
    ensures lines { OnOk result
        (Emits out.old.items out.new.items (ops_lines p.now.funcs f.now before ops.now)) }
    ensures calls { IfOk result (λ n. n ≡ before + sum_by calls_of ops.now) }
{
    let _rows = f.kept.len();
    let mut calls = before;
    for op in ops {
        put_op(out, p, labels, f, calls, op)?;
        calls += is_call(op);
    }
    Ok(calls)
}

/// The lines of a block's end, if another block or function follows.
fn put_end(
    out: &mut Vec<Line>,
    near: bool,
    turned: bool,
    p: &Placed,
    labels: &[u32],
    f: &PlacedFunc,
    first: u32,
    next: u32,
    end: TacEnd,
) -> Result<(), AllocError>
    requires whole { IsWellFormed p.now }
    requires labelled { AreLabels p.now.funcs labels.now }
    requires placed { IsPlacedWhole f.now }
    requires function { IsFunctionOver (codes_of p.now.funcs) f.now.code }
    requires over { IsEndOver (length f.now.code.blocks) f.now.code.regs end }
    requires fits { first + length f.now.code.blocks < 2 ^ 32 }
    ensures { OnOk result (Emits out.old.items out.new.items
        (end_lines near turned p.now.funcs f.now first next end)) }
{
    match end {
        TacEnd::Jump(b) => put_pass(out, near, turned, p, labels, f, first, next, b),
        TacEnd::Branch(c, a, b, one, two) => {
            put_branch(
                out,
                near,
                c,
                operand(f, a),
                operand(f, b),
                first,
                next,
                one,
                two,
            )
        }
        TacEnd::Return(a) => put_return(out, operand(f, a)),
    }
}

/// Goes back to the caller with a value.
fn put_return(out: &mut Vec<Line>, a: PlacedOperand) -> Result<(), AllocError>
    requires { IsOperand a }
    ensures { OnOk result (Emits out.old.items out.new.items (return_lines a)) }
{
    put_take(out, 10, a)?;
    put_load(out, 1, SP, 0)?;
    put(out, Instr::Jalr(0, 1, 0))
}

/// Whether a block has no operation and jumps on.
fn is_passing(block: &TacBlock) -> bool
    ensures { result ≡ is_passing_block block.now.ops block.now.end }
{
    block.ops.is_empty() && matches!(block.end, TacEnd::Jump(_))
}

/// Whether a jump to a block is left out: if the block comes next, unless it only jumps on. So no two steps without
/// an instruction follow each other.
fn is_left_out(blocks: &[TacBlock], next: u32, b: u32) -> bool
    requires { b < length blocks.now }
    ensures { result ≡ falls_through blocks.now next b }
{
    b == next && !is_passing(&blocks[b as usize])
}

/// Whether an operation computes, copies, loads or checks.
fn is_plain(op: &TacOp) -> bool
    ensures { result ≡ is_plain_op op.now }
{
    match op {
        TacOp::Const(_, _)
        | TacOp::Copy(_, _)
        | TacOp::Bin(_, _, _, _)
        | TacOp::High(_, _, _, _)
        | TacOp::Load(_, _, _, _)
        | TacOp::Check(_, _, _, _, _) => true,
        TacOp::Store(_, _, _, _)
        | TacOp::Call(_, _, _, _)
        | TacOp::Get(_)
        | TacOp::Put(_)
        | TacOp::Alloc(_, _, _) => false,
    }
}

fn are_plain(ops: &[TacOp]) -> bool
    ensures { result ≡ are_plain_ops ops.now }
{
    for op in ops {
        if !is_plain(op) {
            return false;
        }
    }
    true
}

/// Whether a block branches after at most five operations that compute, copy, load or check.
fn is_test(block: &TacBlock) -> bool
    ensures { result ≡ is_test_block block.now.ops block.now.end }
{
    match block.end {
        TacEnd::Branch(_, _, _, _, _) => block.ops.len() < 6 && are_plain(block.ops.as_slice()),
        TacEnd::Jump(_) | TacEnd::Return(_) => false,
    }
}

/// Whether a copy of a block stands in place of a jump to it.
fn is_copied(turned: bool, block: &TacBlock) -> bool
    ensures { result ≡ (turned && is_test_block block.now.ops block.now.end) }
{
    turned && is_test(block)
}

/// The branch of a block.
fn put_fork(
    out: &mut Vec<Line>,
    near: bool,
    f: &PlacedFunc,
    first: u32,
    next: u32,
    end: TacEnd,
) -> Result<(), AllocError>
    requires placed { IsPlacedWhole f.now }
    requires over { IsEndOver (length f.now.code.blocks) f.now.code.regs end }
    requires fits { first + length f.now.code.blocks < 2 ^ 32 }
    ensures { OnOk result
        (Emits out.old.items out.new.items (fork_lines near f.now first next end)) }
{
    match end {
        TacEnd::Branch(c, x, y, one, two) => {
            let (x, y) = (operand(f, x), operand(f, y));
            put_branch(out, near, c, x, y, first, next, one, two)
        }
        TacEnd::Jump(_) | TacEnd::Return(_) => Ok(()),
    }
}

/// A copy of a block that branches after plain operations.
fn put_copied(
    out: &mut Vec<Line>,
    near: bool,
    p: &Placed,
    labels: &[u32],
    f: &PlacedFunc,
    first: u32,
    next: u32,
    block: &TacBlock,
) -> Result<(), AllocError>
    requires whole { IsWellFormed p.now }
    requires labelled { AreLabels p.now.funcs labels.now }
    requires placed { IsPlacedWhole f.now }
    requires over { IsBlockOver (codes_of p.now.funcs) (length f.now.code.blocks) f.now.code.regs
        block.now }
    requires fits { first + length f.now.code.blocks < 2 ^ 32 }
    requires test { is_test_block block.now.ops block.now.end ≡ true }
    ensures { OnOk result (Emits out.old.items out.new.items
        (λ rest. ops_lines p.now.funcs f.now 0 block.now.ops
        (fork_lines near f.now first next block.now.end rest))) }
{
    put_ops(out, p, labels, f, 0, block.ops.as_slice())?;
    put_fork(out, near, f, first, next, block.end)
}

/// A jump at the end of a block.
fn put_pass(
    out: &mut Vec<Line>,
    near: bool,
    turned: bool,
    p: &Placed,
    labels: &[u32],
    f: &PlacedFunc,
    first: u32,
    next: u32,
    b: u32,
) -> Result<(), AllocError>
    requires whole { IsWellFormed p.now }
    requires labelled { AreLabels p.now.funcs labels.now }
    requires placed { IsPlacedWhole f.now }
    requires over { IsFunctionOver (codes_of p.now.funcs) f.now.code }
    requires within { b < length f.now.code.blocks }
    requires fits { first + length f.now.code.blocks < 2 ^ 32 }
    ensures { OnOk result (Emits out.old.items out.new.items
        (pass_lines near turned p.now.funcs f.now first next b)) }
{
    let blocks = f.code.blocks.as_slice();
    let block = &blocks[b as usize];
    if is_left_out(blocks, next, b) {
        Ok(())
    } else if is_copied(turned, block) {
        put_copied(out, near, p, labels, f, first, next, block)
    } else {
        put_line(out, jump_line(near, first + b))
    }
}

fn put_line(out: &mut Vec<Line>, line: Line) -> Result<(), AllocError>
    ensures { OnOk result (Emits out.old.items out.new.items (λ rest. line ∷ rest)) }
{
    out.push(line)?;
    Ok(())
}

/// A jump to a label, near or far.
fn jump_line(near: bool, label: u32) -> Line
    ensures { result ≡ jump_line near label }
{
    if near {
        Line::Jump(0, label)
    } else {
        Line::Far(0, label)
    }
}

/// A jump to a block, if it does not come next.
fn put_jump(
    out: &mut Vec<Line>,
    near: bool,
    first: u32,
    next: u32,
    b: u32,
) -> Result<(), AllocError>
    requires { first + b < 2 ^ 32 }
    ensures { OnOk result (Emits out.old.items out.new.items (jump_lines near first next b)) }
{
    if b != next {
        out.push(jump_line(near, first + b))?;
    }
    Ok(())
}

/// The branch that is taken if a comparison does not hold.
fn failing(c: Comparison) -> BranchOp
    ensures { result ≡ failing_of c }
{
    match c {
        Comparison::LtS => BranchOp::Bge,
        Comparison::LtU => BranchOp::Bgeu,
        Comparison::Eq => BranchOp::Bne,
        Comparison::Ne => BranchOp::Beq,
    }
}

/// Goes to a block if a comparison of two operands holds, and else to another one.
fn put_branch(
    out: &mut Vec<Line>,
    near: bool,
    c: Comparison,
    a: PlacedOperand,
    b: PlacedOperand,
    first: u32,
    next: u32,
    one: u32,
    two: u32,
) -> Result<(), AllocError>
    requires left { IsOperand a }
    requires right { IsOperand b }
    requires one { first + one < 2 ^ 32 }
    requires two { first + two < 2 ^ 32 }
    ensures { OnOk result
        (Emits out.old.items out.new.items (branch_lines near c a b first next one two)) }
{
    put_operand(out, a, 5)?;
    put_operand(out, b, 6)?;
    let (ra, rb) = (register_of_operand(a, 5), register_of_operand(b, 6));
    put_choice(out, near, c, ra, rb, first, next, one, two)
}

fn put_choice(
    out: &mut Vec<Line>,
    near: bool,
    c: Comparison,
    ra: u8,
    rb: u8,
    first: u32,
    next: u32,
    one: u32,
    two: u32,
) -> Result<(), AllocError>
    requires one { first + one < 2 ^ 32 }
    requires two { first + two < 2 ^ 32 }
    ensures { OnOk result
        (Emits out.old.items out.new.items (choice_lines near c ra rb first next one two)) }
{
    if one == next {
        put_leave(out, near, failing(c), holding(c), ra, rb, first + two)
    } else {
        put_leave(out, near, holding(c), failing(c), ra, rb, first + one)?;
        put_jump(out, near, first, next, two)
    }
}

/// A branch to a label; if that is far, a far jump with the opposite branch over it.
fn put_leave(
    out: &mut Vec<Line>,
    near: bool,
    taken: BranchOp,
    other: BranchOp,
    ra: u8,
    rb: u8,
    label: u32,
) -> Result<(), AllocError>
    ensures { OnOk result
        (Emits out.old.items out.new.items (leave_lines near taken other ra rb label)) }
{
    if near {
        out.push(Line::Branch(taken, ra, rb, label))?;
    } else {
        put(out, Instr::Branch(other, ra, rb, 12))?;
        out.push(Line::Far(0, label))?;
    }
    Ok(())
}

/// The lines of a block, with so many calls before it in the function; and how many calls stand before the next one.
fn put_block(
    out: &mut Vec<Line>,
    near: bool,
    turned: bool,
    p: &Placed,
    labels: &[u32],
    f: &PlacedFunc,
    first: u32,
    b: u32,
    before: usize,
    block: &TacBlock,
) -> Result<usize, AllocError>
    requires whole { IsWellFormed p.now }
    requires labelled { AreLabels p.now.funcs labels.now }
    requires placed { IsPlacedWhole f.now }
    requires function { IsFunctionOver (codes_of p.now.funcs) f.now.code }
    requires over { IsBlockOver (codes_of p.now.funcs) (length f.now.code.blocks) f.now.code.regs
        block.now }
    requires counted { before + calls_in block.now ≤ length f.now.kept }
    requires within { b < length f.now.code.blocks }
    requires fits { first + length f.now.code.blocks < 2 ^ 32 }
    ensures lines { OnOk result
        (Emits out.old.items out.new.items
        (block_lines near turned p.now.funcs f.now first b before block.now)) }
    ensures calls { IfOk result (λ n. n ≡ before + calls_in block.now) }
{
    out.push(Line::Label(first + b))?;
    let calls = put_ops(out, p, labels, f, before, block.ops.as_slice())?;
    put_end(out, near, turned, p, labels, f, first, b + 1, block.end)?;
    Ok(calls)
}

/// The lines of the blocks of a function.
fn put_blocks(
    out: &mut Vec<Line>,
    near: bool,
    turned: bool,
    p: &Placed,
    labels: &[u32],
    f: &PlacedFunc,
    first: u32,
) -> Result<(), AllocError>
    requires whole { IsWellFormed p.now }
    requires labelled { AreLabels p.now.funcs labels.now }
    requires placed { IsPlacedWhole f.now }
    requires over { IsFunctionOver (codes_of p.now.funcs) f.now.code }
    requires fits { first + length f.now.code.blocks < 2 ^ 32 }
    ensures { OnOk result
        (Emits out.old.items out.new.items
        (blocks_lines near turned p.now.funcs f.now first 0 0 f.now.code.blocks)) }
{
    let mut calls = 0;
    let mut b = 0;
    for block in f.code.blocks.as_slice() {
        calls = put_block(out, near, turned, p, labels, f, first, b, calls, block)?;
        b += 1;
    }
    Ok(())
}

/// The lines of a function: its label, the store of the return address, and its blocks.
fn put_body(
    out: &mut Vec<Line>,
    near: bool,
    turned: bool,
    p: &Placed,
    labels: &[u32],
    f: &PlacedFunc,
    label: u32,
) -> Result<(), AllocError>
    requires whole { IsWellFormed p.now }
    requires labelled { AreLabels p.now.funcs labels.now }
    requires placed { IsPlacedWhole f.now }
    requires over { IsFunctionOver (codes_of p.now.funcs) f.now.code }
    requires fits { label + 1 + length f.now.code.blocks < 2 ^ 32 }
    ensures { OnOk result
        (out.new.items ≡ out.old.items ++ body_lines near turned p.now.funcs f.now label) }
{
    out.push(Line::Label(label))?;
    put_store(out, 1, SP, 0)?;
    put_blocks(out, near, turned, p, labels, f, label + 1)
}

/// The lines of a function, with near jumps and branches if it is short with them, and without copies.
fn put_uncopied(
    out: &mut Vec<Line>,
    p: &Placed,
    labels: &[u32],
    f: &PlacedFunc,
    label: u32,
) -> Result<(), AllocError>
    requires whole { IsWellFormed p.now }
    requires labelled { AreLabels p.now.funcs labels.now }
    requires placed { IsPlacedWhole f.now }
    requires over { IsFunctionOver (codes_of p.now.funcs) f.now.code }
    requires fits { label + 1 + length f.now.code.blocks < 2 ^ 32 }
    ensures { OnOk result (out.new.items ≡ out.old.items ++
        body_lines (has_near p.now.funcs f.now label) false p.now.funcs f.now label) }
{
    let start = out.len();
    put_body(out, true, false, p, labels, f, label)?;
    if !is_below(&out[start..], 4096) {
        out.truncate(start);
        put_body(out, false, false, p, labels, f, label)?;
    }
    Ok(())
}

/// The lines of a function. Blocks that test are copied if there is room for the copies.
pub fn put_function(
    out: &mut Vec<Line>,
    p: &Placed,
    labels: &[u32],
    f: &PlacedFunc,
    label: u32,
) -> Result<(), AllocError>
    requires whole { IsWellFormed p.now }
    requires labelled { AreLabels p.now.funcs labels.now }
    requires placed { IsPlacedWhole f.now }
    requires over { IsFunctionOver (codes_of p.now.funcs) f.now.code }
    requires fits { label + 1 + length f.now.code.blocks < 2 ^ 32 }
    ensures { OnOk result
        (Emits out.old.items out.new.items (function_lines p.now.funcs f.now label)) }
{
    let start = out.len();
    let room = room_of(f.code.blocks.as_slice());
    put_body(out, true, true, p, labels, f, label)?;
    if !is_below(&out[start..], room) {
        out.truncate(start);
        put_uncopied(out, p, labels, f, label)?;
    }
    Ok(())
}

fn capped(n: u32) -> u32
    ensures { result ≡ capped_at n }
{
    if n < 4096 { n } else { 4096 }
}

/// How many bytes an operation may take in any case.
fn op_room(op: &TacOp) -> u32
    ensures is { result ≡ op_room_of op.now }
    ensures few { result ≤ 256 }
{
    match op {
        TacOp::Check(_, _, _, _, _) => 40,
        TacOp::Call(_, _, _, _) => 256,
        TacOp::Alloc(_, _, _) => 128,
        TacOp::Const(_, _)
        | TacOp::Copy(_, _)
        | TacOp::Bin(_, _, _, _)
        | TacOp::High(_, _, _, _)
        | TacOp::Load(_, _, _, _)
        | TacOp::Store(_, _, _, _)
        | TacOp::Get(_)
        | TacOp::Put(_) => 20,
    }
}

/// How many bytes operations may take, and so many beside.
fn ops_room(before: u32, ops: &[TacOp]) -> u32
    requires { before ≤ 4096 }
    ensures is { result ≡ ops_room_from before ops.now }
    ensures few { result ≤ 4096 }
{
    let mut room = before;
    for op in ops {
        room = capped(room + op_room(op));
    }
    room
}

/// How many bytes blocks may take, but no more than 4,096.
fn room_of(blocks: &[TacBlock]) -> u32
    ensures is { result ≡ room_from 0 blocks.now }
    ensures few { result ≤ 4096 }
{
    let mut room = 0;
    for block in blocks {
        room = capped(ops_room(room, block.ops.as_slice()) + 8);
    }
    room
}

/// How many bytes a line takes.
fn size(line: Line) -> u32
    ensures { result ≡ size_of line }
{
    match line {
        Line::Label(_) => 0,
        Line::Plain(_) | Line::Jump(_, _) | Line::Branch(_, _, _, _) => 4,
        Line::Far(_, _) => 8,
    }
}

/// Whether lines take less than so many bytes.
fn is_below(lines: &[Line], most: u32) -> bool
    requires { most ≤ 4096 }
    ensures { result ≡ nat_lt (sum_by size_of lines.now) most }
{
    let mut bytes = 0;
    for line in lines {
        bytes += size(*line);
        if bytes >= most {
            return false;
        }
    }
    bytes < most
}
