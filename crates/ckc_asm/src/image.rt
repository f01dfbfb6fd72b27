//! The image of statements: entry and initial bytes beside the code.
ghost use Rattle.std.specs.Prelude.{◌≡◌, ℕ, ◌*◌, ◌%◌, ◌<◌, ◌≤◌, pos, List, length, IfOk, IfErr, IsSome, MatchOption};
ghost use Rattle.std.specs.List.{flat_map};
ghost use Rattle.ckc_base.specs.MemoryMap.{longest_code, longest_data};
ghost use Rattle.ckc_image.specs.Image.{IsProper, EntryFits};
ghost use Rattle.ckc_asm.specs.declared.items.Operand.TheVariants as operands;
ghost use Rattle.ckc_asm.specs.Program.{data_bytes, Enters};
ghost use Rattle.ckc_base.specs.Places.{start};
ghost use Rattle.ckc_asm.specs.Faults.{NamesNothing, NoneHas, no_image};
ghost use Rattle.ckc_asm.specs.code.Outcome.{IfRefused};
ghost use Rattle.ckc_asm.specs.code.Reading.{known, HaveTargets, IsExact, IsNoProgram, EntryIs};
ghost use Rattle.ckc_asm.specs.code.Rows.{statements_in};

use crate::code::target_of;
use crate::items::{Form, Operand};
use crate::labels::Labels;
use crate::refusals::NO_IMAGE;
use crate::statements::{Row, is_entry};
use ckc_base::memory_map::CODE_START;
use ckc_base::{Fault, START, Seq, refused};
use ckc_image::Parts;
use std::alloc::{AllocError, Global};

/// The initial bytes of statements.
pub fn data_of(alloc: Global, rows: &[Row]) -> Result<Vec<u8>, AllocError>
    ensures bytes { IfOk result (λ found. found.items ≡ flat_map
        (λ s. data_bytes s.item.form) (statements_in rows.now)) }
    ensures few { IfOk result (λ found. length found.items ≤ 16 * length rows.now) }
{
    let mut found = Vec::new(alloc);
    for row in rows {
        if let Form::Data(bytes) = &row.item.form {
            found.extend_from_slice(bytes.as_slice())?;
        }
    }
    Ok(found)
}

/// The address that `.entry` says, or the first of the code.
pub fn entry_of(rows: &[Row], labels: &Labels) -> i64
    requires targets { HaveTargets (statements_in rows.now) }
    requires exact { IsExact (known labels.now) (statements_in rows.now) }
    requires named { NoneHas (NamesNothing (statements_in rows.now)) (statements_in rows.now) }
    ensures { Enters (statements_in rows.now) result }
{
    for row in rows {
        if is_entry(&row.item.form) {
            return entry_value(row, labels);
        }
    }
    i64::from(CODE_START)
}

fn entry_value(row: &Row, labels: &Labels) -> i64
    requires target { row.now.item.operand ≡ operands.Nothing → ⊥ }
    requires named { row.now.item.operand ≡ operands.Named
        → IsSome (known labels.now row.now.operand.text.now) }
    ensures { EntryIs (known labels.now) row.now.operand.text.now row.now.item.operand result }
{
    match row.item.operand {
        Operand::Nothing => unreachable!(),
        Operand::Number(n) => n,
        Operand::Named => i64::from(target_of(labels, row.operand.text)),
    }
}

/// The parts with this entry, or E805.
pub fn parts_of(entry: i64, code: Vec<u8>, initial: Vec<u8>) -> Result<Parts, Fault>
    requires words { length code.items % 4 ≡ 0 }
    requires code_fits { length code.items ≤ longest_code }
    requires initial_fits { length initial.items ≤ longest_data }
    ensures parts { IfOk result (λ p. (entry ≡ pos p.entry) × (p.code ≡ code.items)
        × (p.initial ≡ initial.items)) }
    ensures proper { IfOk result (λ p. IsProper p.entry p.code p.initial) }
    ensures fault { IfErr result (λ e. IfRefused e
        (λ number place. (number ≡ no_image) × (place ≡ start)
        × IsNoProgram entry (length code.items))) }
{
    match entry_place(entry, code.len()) {
        Some(place) => Ok(Parts {
            entry: place,
            code: Seq::from_vec(code),
            initial: Seq::from_vec(initial),
        }),
        None => Err(refused(NO_IMAGE, START)),
    }
}

/// Where the code begins.
const FIRST: i64 = CODE_START as i64;

fn entry_place(entry: i64, len: usize) -> Option<u32>
    requires { len ≤ longest_code }
    ensures { MatchOption result (IsNoProgram entry len)
        (λ place. (entry ≡ pos place) × (0 < len) × EntryFits place len) }
{
    if len == 0 || entry < FIRST || entry >= FIRST + len as i64 {
        return None;
    }
    let place = entry as u32;
    if place % 4 == 0 { Some(place) } else { None }
}
