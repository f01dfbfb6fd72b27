ghost use Rattle.std.specs.Prelude.{◌≡◌, ℕ, List, ◌++◌, ◌+◌, ◌^◌, ◌<◌, ◌≤◌, length, nat_eq, slice_get, Some, IfOk, OnOk, sum_by};
ghost use Rattle.ckc_base.specs.MemoryMap.{longest_code};
ghost use Rattle.indexmap.specs.IndexMap.{get};
ghost use Rattle.ckc_rv.specs.Table.{InRange, IsOffset};
ghost use Rattle.ckc_asm_lines.specs.declared.lines.Line.{Line};
ghost use Rattle.ckc_asm_lines.specs.Assembled.{size_of, address_of, distance, IsWord, IsFar, Assembled, CanAssemble};
ghost use Rattle.ckc_asm_lines.specs.code.Places.{KnowsPlaces, CanEncode, Encodes, IsCodeBelow};

use crate::lines::{Labelled, Line};
use crate::places::{places_of, size, target_of};
use ckc_base::Seq;
use ckc_base::memory_map::CODE_START;
use ckc_image::Parts;
use ckc_rv::{Instr, encode};
use indexmap::IndexMap;
use std::alloc::{AllocError, Global};

/// The register through which a `Far` jumps.
const FAR: u8 = 26;

/// The parts of labelled code: each line at the sum of the sizes before it, with the distance to its label.
pub fn assemble(alloc: Global, l: &Labelled) -> Result<Parts, AllocError>
    requires { CanAssemble l.now.lines l.now.start l.now.initial }
    ensures { IfOk result
        (λ p. Assembled l.now.lines l.now.start l.now.initial p.entry p.code p.initial) }
{
    let lines = l.lines.as_slice();
    let places = places_of(alloc, lines)?;
    let code = code_of(alloc, lines, &places)?;
    let entry = target_of(&places, l.start);
    let initial = Seq::from_slice(alloc, l.initial.as_slice())?;
    Ok(Parts {
        entry,
        code: Seq::from_vec(code),
        initial,
    })
}

fn code_of(
    alloc: Global,
    lines: &[Line],
    places: &IndexMap<u32, u32>,
) -> Result<Vec<u8>, AllocError>
    requires fits { sum_by size_of lines.now ≤ longest_code }
    requires each { (k : ℕ) (line : Line) → slice_get lines.now k ≡ Some line
        → CanEncode (λ label. get nat_eq places.now label) (address_of lines.now k) line }
    ensures { IfOk result
        (λ code. IsCodeBelow (λ label. get nat_eq places.now label) lines.now (length lines.now)
        code.items) }
{
    let mut code = Vec::new(alloc);
    let mut address = CODE_START;
    for line in lines {
        put_line(&mut code, *line, address, places)?;
        address += size(*line);
    }
    Ok(code)
}

fn put_line(
    code: &mut Vec<u8>,
    line: Line,
    address: u32,
    places: &IndexMap<u32, u32>,
) -> Result<(), AllocError>
    requires low { address < 2 ^ 25 }
    requires can { CanEncode (λ label. get nat_eq places.now label) address line }
    ensures { OnOk result
        ((bytes : List ℕ) × (code.new.items ≡ code.old.items ++ bytes)
        × Encodes (λ label. get nat_eq places.now label) address line bytes) }
{
    match line {
        Line::Label(_) => Ok(()),
        Line::Plain(i) => put(code, &i),
        Line::Jump(rd, label) => {
            let offset = offset_to(address, target_of(places, label));
            put(code, &Instr::Jal(rd, offset))
        }
        Line::Branch(op, rs1, rs2, label) => {
            let offset = offset_to(address, target_of(places, label));
            put(code, &Instr::Branch(op, rs1, rs2, offset))
        }
        Line::Far(rd, label) => put_far(code, rd, address, target_of(places, label)),
    }
}

fn offset_to(address: u32, target: u32) -> i32
    requires address { address < 2 ^ 25 }
    requires target { target < 2 ^ 25 }
    ensures { result ≡ distance address target }
{
    target as i32 - address as i32
}

/// AUIPC adds the upper 20 bits of the distance, rounded to the nearest; JALR the rest, from -2048 to 2047.
fn put_far(code: &mut Vec<u8>, rd: u8, address: u32, target: u32) -> Result<(), AllocError>
    requires { rd < 32 }
    ensures { OnOk result
        ((bytes : List ℕ) × (code.new.items ≡ code.old.items ++ bytes)
        × IsFar rd address target bytes × (length bytes ≡ 8)) }
{
    let rounded = target.wrapping_sub(address).wrapping_add(0x800);
    put(code, &Instr::Auipc(FAR, rounded / 0x1000))?;
    put(
        code,
        &Instr::Jalr(rd, FAR, (rounded % 0x1000) as i32 - 0x800),
    )?;
    Ok(())
}

fn put(code: &mut Vec<u8>, i: &Instr) -> Result<(), AllocError>
    requires { InRange i.now }
    ensures { OnOk result
        ((bytes : List ℕ) × (code.new.items ≡ code.old.items ++ bytes) × IsWord i.now bytes
        × (length bytes ≡ 4)) }
{
    code.extend_from_slice(&encode(i).to_le_bytes())?;
    Ok(())
}
