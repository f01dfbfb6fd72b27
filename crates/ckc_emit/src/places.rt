//! Where places are: registers of the machine and words of the frame.
ghost use Rattle.std.specs.Prelude.{◌≡◌, ◌<◌, length, All, OnOk};
ghost use Rattle.ckc_frame.specs.WellFormed.{IsPlace};
ghost use Rattle.ckc_emit.specs.code.Emitting.{Emits};
ghost use Rattle.ckc_emit.specs.code.CallLines.{place_at};
ghost use Rattle.ckc_tac.specs.Operations.{at_offset};
ghost use Rattle.ckc_emit.specs.code.Lines.{offset_of, source_of, register_with, read_lines, operand_lines, write_lines, settle_lines, fetch_lines, take_lines, upper_lines, address_lines, base_with, rest_of};
ghost use Rattle.ckc_emit.specs.code.Operands.{IsOperand};

use ckc_asm_lines::Line;
use ckc_emit_templates::{
    SP, lower, put, put_constant, put_load, put_move, put_store, register, upper,
};
use ckc_frame::Place;
use ckc_rv::Instr;
use std::alloc::AllocError;

/// An operand: the place of a register, or a number.
#[derive(Clone, Copy)]
pub enum PlacedOperand {
    At(Place),
    Number(u32),
}

/// The place of a register of placed code.
pub fn place_in(homes: &[Place], r: usize) -> Place
    requires within { r < length homes.now }
    requires places { All IsPlace homes.now }
    ensures is { result ≡ place_at homes.now r }
    ensures place { IsPlace result }
{
    homes[r]
}

/// Where the frame keeps a place.
pub fn offset(place: Place) -> u32
    ensures { result ≡ offset_of place }
{
    match place {
        Place::Reg(k) => u32::from(k) * 4 + 16,
        Place::Slot(k) => u32::from(k) * 4 + 80,
    }
}

/// The register in which a place's value is after `put_read`.
pub fn source(place: Place, scratch: u8) -> u8
    requires { IsPlace place }
    ensures { result ≡ source_of place scratch }
{
    match place {
        Place::Reg(k) => register(k),
        Place::Slot(_) => scratch,
    }
}

/// Loads a slot into a scratch register; a register has its value already.
fn put_read(out: &mut Vec<Line>, place: Place, scratch: u8) -> Result<(), AllocError>
    requires { IsPlace place }
    ensures { OnOk result (Emits out.old.items out.new.items (read_lines place scratch)) }
{
    match place {
        Place::Reg(_) => Ok(()),
        Place::Slot(_) => put_load(out, scratch, SP, offset(place)),
    }
}

/// Writes a place from the register that `source` names for it.
pub fn put_write(out: &mut Vec<Line>, place: Place, scratch: u8) -> Result<(), AllocError>
    requires { IsPlace place }
    ensures { OnOk result (Emits out.old.items out.new.items (write_lines place scratch)) }
{
    match place {
        Place::Reg(_) => Ok(()),
        Place::Slot(_) => put_store(out, scratch, SP, offset(place)),
    }
}

/// Writes a place from any register.
pub fn put_settle(out: &mut Vec<Line>, place: Place, rs: u8) -> Result<(), AllocError>
    requires { IsPlace place }
    ensures { OnOk result (Emits out.old.items out.new.items (settle_lines place rs)) }
{
    match place {
        Place::Reg(k) => put_move(out, register(k), rs),
        Place::Slot(_) => put_store(out, rs, SP, offset(place)),
    }
}

/// Reads a place into any register.
pub fn put_fetch(out: &mut Vec<Line>, rd: u8, place: Place) -> Result<(), AllocError>
    requires { IsPlace place }
    ensures { OnOk result (Emits out.old.items out.new.items (fetch_lines rd place)) }
{
    match place {
        Place::Reg(k) => put_move(out, rd, register(k)),
        Place::Slot(_) => put_load(out, rd, SP, offset(place)),
    }
}

/// The register in which an operand's value is after `put_operand`.
pub fn register_of_operand(operand: PlacedOperand, scratch: u8) -> u8
    requires { IsOperand operand }
    ensures { result ≡ register_with operand scratch }
{
    match operand {
        PlacedOperand::At(place) => source(place, scratch),
        PlacedOperand::Number(n) => { if n == 0 { 0 } else { scratch } }
    }
}

/// Loads a slot or a number into a scratch register; a register has its value already, and x0 is 0.
pub fn put_operand(
    out: &mut Vec<Line>,
    operand: PlacedOperand,
    scratch: u8,
) -> Result<(), AllocError>
    requires { IsOperand operand }
    ensures { OnOk result (Emits out.old.items out.new.items (operand_lines operand scratch)) }
{
    match operand {
        PlacedOperand::At(place) => put_read(out, place, scratch),
        PlacedOperand::Number(n) => {
            if n == 0 {
                Ok(())
            } else {
                put_constant(out, scratch, n)
            }
        }
    }
}

/// Reads an operand into any register.
pub fn put_take(out: &mut Vec<Line>, rd: u8, operand: PlacedOperand) -> Result<(), AllocError>
    requires { IsOperand operand }
    ensures { OnOk result (Emits out.old.items out.new.items (take_lines rd operand)) }
{
    match operand {
        PlacedOperand::At(place) => put_fetch(out, rd, place),
        PlacedOperand::Number(n) => put_constant(out, rd, n),
    }
}

/// A number so much further on.
fn number_at(n: u32, offset: u32) -> u32
    ensures { result ≡ at_offset n offset }
{
    if offset == 0 {
        n
    } else {
        n.wrapping_add(offset)
    }
}

/// Loads a slot, or sets the upper bits of a number, into a scratch register: the register that `base` names for an
/// address with an offset then has all of it but `rest`.
pub fn put_address(
    out: &mut Vec<Line>,
    a: PlacedOperand,
    offset: u32,
    scratch: u8,
) -> Result<(), AllocError>
    requires { IsOperand a }
    ensures { OnOk result (Emits out.old.items out.new.items (address_lines a offset scratch)) }
{
    match a {
        PlacedOperand::At(place) => put_read(out, place, scratch),
        PlacedOperand::Number(n) => put_upper(out, number_at(n, offset), scratch),
    }
}

fn put_upper(out: &mut Vec<Line>, v: u32, scratch: u8) -> Result<(), AllocError>
    ensures { OnOk result (Emits out.old.items out.new.items (upper_lines v scratch)) }
{
    if upper(v) == 0 {
        Ok(())
    } else {
        put(out, Instr::Lui(scratch, upper(v)))
    }
}

/// The register from which an instruction goes on to an address with an offset.
pub fn base(a: PlacedOperand, offset: u32, scratch: u8) -> u8
    requires { IsOperand a }
    ensures { result ≡ base_with a offset scratch }
{
    match a {
        PlacedOperand::At(place) => source(place, scratch),
        PlacedOperand::Number(n) => {
            if upper(number_at(n, offset)) == 0 {
                0
            } else {
                scratch
            }
        }
    }
}

/// How far an instruction goes on from `base`.
pub fn rest(a: PlacedOperand, offset: u32) -> i32
    requires { IsOperand a }
    ensures { result ≡ rest_of a offset }
{
    match a {
        PlacedOperand::At(_) => lower(offset),
        PlacedOperand::Number(n) => lower(number_at(n, offset)),
    }
}
