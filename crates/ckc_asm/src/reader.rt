//! From a text of assembly to its parts, or to its first fault.
ghost use Rattle.std.specs.Prelude.{◌≤◌, length, IfOk, IfErr};
ghost use Rattle.ckc_base.specs.Phases.{Exact, viewed};
ghost use Rattle.ckc_base.specs.Places.{longest_text};
ghost use Rattle.ckc_asm.specs.Program.{AsmOf};
ghost use Rattle.ckc_asm.specs.Faults.{IsFirstFault};
ghost use Rattle.ckc_asm.specs.Phase.{assembling, parts_in};
ghost use Rattle.ckc_asm.specs.code.Outcome.{IfRefused};

use crate::code::{check_names, code_of};
use crate::image::{data_of, entry_of, parts_of};
use crate::labels::labels_of;
use crate::statements::{lines_of, rows_of};
use ckc_base::{Fault, LONG_TEXT, LONGEST_TEXT, START, refused};
use ckc_image::Parts;
use std::alloc::Global;

/// The parts that a text of assembly stands for, which are the only ones; or its first fault: 201 at its start if
/// it has over 262,144 bytes; else the first of 801 (a line of no form, or a second `.entry`), 803 (a label a second
/// time), 802 (a label that stands nowhere), 804 (a number or distance out of range) and 805 (no image) that holds, at
/// its first place.
pub fn read_asm(alloc: Global, text: &[u8]) -> Result<Parts, Fault>
    ensures exact { Exact assembling text.now (viewed parts_in result) }
{
    read(alloc, text)
}

/// The parts of a text, or its first fault.
fn read(alloc: Global, text: &[u8]) -> Result<Parts, Fault>
    ensures parts { IfOk result (λ p. (length text.now ≤ longest_text)
        × AsmOf text.now p.entry p.code p.initial) }
    ensures fault { IfErr result (λ e. IfRefused e
        (λ code place. IsFirstFault text.now code place)) }
{
    if text.len() > LONGEST_TEXT {
        return Err(refused(LONG_TEXT, START));
    }
    let lines = lines_of(alloc, text)?;
    let rows = rows_of(alloc, lines.as_slice())?;
    let statements = rows.as_slice();
    let labels = labels_of(alloc, statements)?;
    check_names(statements, &labels)?;
    let code = code_of(alloc, statements, &labels)?;
    let initial = data_of(alloc, statements)?;
    parts_of(entry_of(statements, &labels), code, initial)
}
