//! Short sequences of instructions.
ghost use Rattle.std.specs.Prelude.{◌≡◌, ◌^◌, ◌<◌, ◌∷◌, OnOk, pos};
ghost use Rattle.ckc_asm_lines.specs.declared.lines.Line.TheVariants as line;
ghost use Rattle.ckc_emit_templates.specs.code.Emitting.{Emits};
ghost use Rattle.ckc_emit_templates.specs.code.Templates.{add_lower_of, immediate_of, load_lower_of, store_lower_of, load_near_of, store_near_of, upper_of, lower_of, constant_lines, large_lines, both_lines, far_load_lines, far_store_lines, move_lines, load_lines, store_lines, offset_lines, ask_lines};

use ckc_asm_lines::Line;
use ckc_rv::{ImmOp, Instr, LoadOp, RegOp, StoreOp};
use std::alloc::AllocError;

pub const SP: u8 = 2;

const FAR_OFFSET: u8 = 7;

/// One instruction.
pub fn put(out: &mut Vec<Line>, i: Instr) -> Result<(), AllocError>
    ensures { OnOk result (Emits out.old.items out.new.items (λ rest. line.Plain i ∷ rest)) }
{
    out.push(Line::Plain(i))?;
    Ok(())
}

/// The upper 20 bits of a word, rounded so that the rest fits 12 bits with a sign.
#[tactic(auto, unfolding(crate::specs::code::Templates::upper_of))]
pub fn upper(v: u32) -> u32
    ensures { result ≡ upper_of v }
{
    v.wrapping_add(0x800) / 0x1000
}

/// The rest of a word beside its upper 20 bits, from -2048 to 2047.
#[tactic(auto, unfolding(crate::specs::code::Templates::lower_of))]
pub fn lower(v: u32) -> i32
    ensures { result ≡ lower_of v }
{
    (v.wrapping_add(0x800) % 0x1000) as i32 - 0x800
}

fn add_lower(rd: u8, rs: u8, v: u32) -> Instr
    ensures { result ≡ add_lower_of rd rs v }
{
    Instr::Imm(ImmOp::Addi, rd, rs, lower(v))
}

/// An operation with the signed rest of a word as immediate.
pub fn immediate(op: ImmOp, rd: u8, rs: u8, v: u32) -> Instr
    ensures { result ≡ immediate_of op rd rs v }
{
    Instr::Imm(op, rd, rs, lower(v))
}

fn load_lower(rd: u8, offset: u32) -> Instr
    ensures { result ≡ load_lower_of rd offset }
{
    Instr::Load(LoadOp::Lw, rd, FAR_OFFSET, lower(offset))
}

fn store_lower(rs: u8, offset: u32) -> Instr
    ensures { result ≡ store_lower_of rs offset }
{
    Instr::Store(StoreOp::Sw, FAR_OFFSET, rs, lower(offset))
}

fn load_near(rd: u8, frame: u8, offset: u32) -> Instr
    requires { offset < 2 ^ 31 }
    ensures { result ≡ load_near_of rd frame offset }
{
    Instr::Load(LoadOp::Lw, rd, frame, near(offset))
}

fn store_near(rs: u8, frame: u8, offset: u32) -> Instr
    requires { offset < 2 ^ 31 }
    ensures { result ≡ store_near_of rs frame offset }
{
    Instr::Store(StoreOp::Sw, frame, rs, near(offset))
}

/// Sets a register to a word.
pub fn put_constant(out: &mut Vec<Line>, rd: u8, v: u32) -> Result<(), AllocError>
    ensures { OnOk result (Emits out.old.items out.new.items (constant_lines rd v)) }
{
    if upper(v) == 0 {
        put(out, add_lower(rd, 0, v))
    } else {
        put_large(out, rd, v)
    }
}

fn put_large(out: &mut Vec<Line>, rd: u8, v: u32) -> Result<(), AllocError>
    ensures { OnOk result (Emits out.old.items out.new.items (large_lines rd v)) }
{
    if lower(v) == 0 {
        put(out, Instr::Lui(rd, upper(v)))
    } else {
        put_both(out, rd, v)
    }
}

fn put_both(out: &mut Vec<Line>, rd: u8, v: u32) -> Result<(), AllocError>
    ensures { OnOk result (Emits out.old.items out.new.items (both_lines rd v)) }
{
    put(out, Instr::Lui(rd, upper(v)))?;
    put(out, add_lower(rd, rd, v))
}

/// A register gets the value of another one.
pub fn put_move(out: &mut Vec<Line>, rd: u8, rs: u8) -> Result<(), AllocError>
    ensures { OnOk result (Emits out.old.items out.new.items (move_lines rd rs)) }
{
    put(out, Instr::Imm(ImmOp::Addi, rd, rs, 0))
}

/// An offset within a frame as it stands in an instruction.
pub fn near(offset: u32) -> i32
    requires { offset < 2 ^ 31 }
    ensures { result ≡ pos offset }
{
    offset as i32
}

/// Loads a register from a frame.
pub fn put_load(out: &mut Vec<Line>, rd: u8, frame: u8, offset: u32) -> Result<(), AllocError>
    requires { offset < 2 ^ 31 }
    ensures { OnOk result (Emits out.old.items out.new.items (load_lines rd frame offset)) }
{
    if offset < 2048 {
        put(out, load_near(rd, frame, offset))
    } else {
        put_far_load(out, rd, frame, offset)
    }
}

fn put_far_load(out: &mut Vec<Line>, rd: u8, frame: u8, offset: u32) -> Result<(), AllocError>
    ensures { OnOk result (Emits out.old.items out.new.items (far_load_lines rd frame offset)) }
{
    put_far_offset(out, frame, offset)?;
    put(out, load_lower(rd, offset))
}

/// Stores a register into a frame.
pub fn put_store(out: &mut Vec<Line>, rs: u8, frame: u8, offset: u32) -> Result<(), AllocError>
    requires { offset < 2 ^ 31 }
    ensures { OnOk result (Emits out.old.items out.new.items (store_lines rs frame offset)) }
{
    if offset < 2048 {
        put(out, store_near(rs, frame, offset))
    } else {
        put_far_store(out, rs, frame, offset)
    }
}

fn put_far_store(out: &mut Vec<Line>, rs: u8, frame: u8, offset: u32) -> Result<(), AllocError>
    ensures { OnOk result (Emits out.old.items out.new.items (far_store_lines rs frame offset)) }
{
    put_far_offset(out, frame, offset)?;
    put(out, store_lower(rs, offset))
}

fn put_far_offset(out: &mut Vec<Line>, frame: u8, offset: u32) -> Result<(), AllocError>
    ensures { OnOk result (Emits out.old.items out.new.items (offset_lines frame offset)) }
{
    put(out, Instr::Lui(FAR_OFFSET, upper(offset)))?;
    put(out, Instr::Reg(RegOp::Add, FAR_OFFSET, FAR_OFFSET, frame))
}

/// An environment call with its number.
pub fn put_ask(out: &mut Vec<Line>, call: u32) -> Result<(), AllocError>
    ensures { OnOk result (Emits out.old.items out.new.items (ask_lines call)) }
{
    put_constant(out, 17, call)?;
    put(out, Instr::Ecall)
}
