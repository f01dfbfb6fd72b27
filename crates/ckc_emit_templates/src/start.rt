//! The start of a program.
ghost use Rattle.std.specs.Prelude.{OnOk};
ghost use Rattle.ckc_emit_templates.specs.code.Emitting.{Emits};
ghost use Rattle.ckc_emit_templates.specs.code.Start.{start_lines};

use crate::templates::{SP, put, put_ask};
use ckc_asm_lines::Line;
use ckc_rv::Instr;
use std::alloc::AllocError;

/// Sets the stack pointer to the first frame, calls `main`, and ends with what it returns.
pub fn put_start(out: &mut Vec<Line>, main: u32) -> Result<(), AllocError>
    ensures { OnOk result (Emits out.old.items out.new.items (start_lines main)) }
{
    out.push(Line::Label(0))?;
    put(out, Instr::Lui(SP, 0x3FFC))?;
    out.push(Line::Far(1, main))?;
    put_ask(out, 0)
}
