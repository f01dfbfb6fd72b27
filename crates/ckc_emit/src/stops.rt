//! Stops at checks.
ghost use Rattle.std.specs.Prelude.{◌≡◌, ◌+◌, ◌*◌, ◌∷◌, OnOk, pos};
ghost use Rattle.ckc_emit.specs.code.Emitting.{Emits};
ghost use Rattle.ckc_emit.specs.code.Lines.{holding as holding_of, over_stop_of, constant_count as count_of, stop_lines, check_lines};

use ckc_asm_lines::Line;
use ckc_base::{Check, Pos, check_number};
use ckc_emit_templates::{lower, near, put, put_ask, put_constant, upper};
use ckc_rv::{BranchOp, Instr};
use ckc_tac::Comparison;
use std::alloc::AllocError;

/// How many instructions set a register to a word.
fn constant_count(v: u32) -> u32
    ensures { result ≡ count_of v }
{
    if upper(v) == 0 || lower(v) == 0 { 1 } else { 2 }
}

/// Stops at a check and its place.
fn put_stop(out: &mut Vec<Line>, check: Check, at: Pos) -> Result<(), AllocError>
    ensures { OnOk result (Emits out.old.items out.new.items (stop_lines check at)) }
{
    put_constant(out, 10, check_number(check))?;
    put_constant(out, 11, at.line)?;
    put_constant(out, 12, at.col)?;
    put_ask(out, 3)
}

/// The branch that is taken if a comparison holds.
pub fn holding(c: Comparison) -> BranchOp
    ensures { result ≡ holding_of c }
{
    match c {
        Comparison::LtS => BranchOp::Blt,
        Comparison::LtU => BranchOp::Bltu,
        Comparison::Eq => BranchOp::Beq,
        Comparison::Ne => BranchOp::Bne,
    }
}

/// A branch of two registers over itself and the stop after it.
fn over_stop(op: BranchOp, rs1: u8, rs2: u8, at: Pos) -> Instr
    ensures { result ≡ over_stop_of op rs1 rs2 at }
{
    let count = constant_count(at.line) + constant_count(at.col) + 4;
    Instr::Branch(op, rs1, rs2, near(count * 4))
}

/// Stops at a check and its place unless a branch of two registers is taken.
pub fn put_check(
    out: &mut Vec<Line>,
    op: BranchOp,
    rs1: u8,
    rs2: u8,
    check: Check,
    at: Pos,
) -> Result<(), AllocError>
    ensures { OnOk result (Emits out.old.items out.new.items (check_lines op rs1 rs2 check at)) }
{
    put(out, over_stop(op, rs1, rs2, at))?;
    put_stop(out, check, at)
}
