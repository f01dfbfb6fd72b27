//! The lines of an Alloc.
ghost use Rattle.std.specs.Prelude.{OnOk};
ghost use Rattle.ckc_frame.specs.WellFormed.{IsPlace};
ghost use Rattle.ckc_emit.specs.code.Emitting.{Emits};
ghost use Rattle.ckc_emit.specs.code.Operands.{IsOperand};
ghost use Rattle.ckc_emit.specs.code.Lines.{alloc_lines, tests_lines, room_lines, rounded_lines, claim_lines};

use crate::places::{PlacedOperand, put_settle, put_take};
use ckc_asm_lines::Line;
use ckc_emit_templates::{put, put_constant};
use ckc_frame::Place;
use ckc_rv::{BranchOp, ImmOp, Instr, LoadOp, RegOp, StoreOp};
use std::alloc::AllocError;

/// Sets x10 to the place of a new block of x5 elements of a size and moves the heap word past it; or sets it to 0
/// if the count is not positive or the block does not fit.
pub fn put_alloc(
    out: &mut Vec<Line>,
    t: Place,
    a: PlacedOperand,
    size: u32,
) -> Result<(), AllocError>
    requires t { IsPlace t }
    requires a { IsOperand a }
    ensures { OnOk result (Emits out.old.items out.new.items (alloc_lines t a size)) }
{
    put_take(out, 5, a)?;
    put_constant(out, 6, size)?;
    put_room(out)?;
    put_claim(out)?;
    put_settle(out, t, 10)
}

/// Leads past the claim, with x10 zero, if x5 elements of x6 bytes do not fit; else x4 is the heap word.
fn put_room(out: &mut Vec<Line>) -> Result<(), AllocError>
    ensures { OnOk result (Emits out.old.items out.new.items room_lines) }
{
    put(out, Instr::Lui(3, 0x2000))?;
    put(out, Instr::Load(LoadOp::Lw, 4, 3, 0))?;
    put(out, Instr::Lui(1, 0x3000))?;
    put_tests(out)
}

fn put_tests(out: &mut Vec<Line>) -> Result<(), AllocError>
    ensures { OnOk result (Emits out.old.items out.new.items tests_lines) }
{
    put(out, Instr::Imm(ImmOp::Addi, 10, 0, 0))?;
    put(out, Instr::Branch(BranchOp::Bge, 0, 5, 48))?;
    put(out, Instr::Branch(BranchOp::Bltu, 1, 4, 44))?;
    put(out, Instr::Reg(RegOp::Sub, 1, 1, 4))?;
    put(out, Instr::Reg(RegOp::Divu, 1, 1, 6))?;
    put(out, Instr::Branch(BranchOp::Bltu, 1, 5, 32))
}

/// The block at the heap word in x4: x10 is its place, and the heap word is moved to the least multiple of 8 that is
/// at least 8 past its end.
fn put_claim(out: &mut Vec<Line>) -> Result<(), AllocError>
    ensures { OnOk result (Emits out.old.items out.new.items claim_lines) }
{
    put(out, Instr::Imm(ImmOp::Addi, 10, 4, 0))?;
    put(out, Instr::Reg(RegOp::Mul, 5, 5, 6))?;
    put(out, Instr::Reg(RegOp::Add, 5, 5, 4))?;
    put(out, Instr::Imm(ImmOp::Addi, 5, 5, 15))?;
    put_rounded(out)
}

fn put_rounded(out: &mut Vec<Line>) -> Result<(), AllocError>
    ensures { OnOk result (Emits out.old.items out.new.items rounded_lines) }
{
    put(out, Instr::Imm(ImmOp::Srli, 5, 5, 3))?;
    put(out, Instr::Imm(ImmOp::Slli, 5, 5, 3))?;
    put(out, Instr::Store(StoreOp::Sw, 3, 5, 0))
}
