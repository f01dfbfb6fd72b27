//! What a program's code does.
ghost use Rattle.std.specs.Prelude.{◌≡◌, ◌≤◌, length, IfOk};
ghost use Rattle.ckc_core.specs.Code.{program_of};
ghost use Rattle.ckc_core.specs.WellFormed.{IsWellFormed};
ghost use Rattle.ckc_core.specs.Limits.{IsWithinLimits};
ghost use Rattle.ckc_tac.specs.Sizes.{program_size};
ghost use Rattle.ckc_tac.specs.WellFormed as tac;

use crate::sizes::size_of;
use ckc_asm_lines::assemble;
use ckc_assign::assign;
use ckc_base::check_name;
use ckc_build_compile::passed;
use ckc_core::Core;
use ckc_emit::emit;
use ckc_image::{Parts, View, write};
use ckc_lower::lower;
use ckc_machine::{Machine, Observed};
use ckc_outside::{MemSink, MemSource};
use ckc_tac::Tac;
use ckc_test_code::{TextFault, program, with_moves};
use ckc_test_trials::{Judge, Page};
use std::alloc::{AllocError, Global};

/// How many instructions a run may take.
const LIMIT: u64 = 3_000_000;

/// `run | PROGRAM | INPUT | WANTED`, `places | PROGRAM | PLACES | INPUT | WANTED` and
/// `compare | PROGRAM | PLACES | INPUT | WANTED`
pub struct Runs;

impl Judge for Runs {
    fn answer(&self, kind: &str, given: &[Vec<u8>], page: &mut Page) {
        match (kind, given) {
            ("run", [text, input]) => put_both(text.as_slice(), input.as_slice(), page),
            ("places", [text, places, input]) => {
                let places = Some(places.as_slice());
                put_run(text.as_slice(), places, input.as_slice(), page)
            }
            ("compare", [text, places, input]) => {
                compare(text.as_slice(), places.as_slice(), input.as_slice(), page)
            }
            _ => page.refuse("not run | PROGRAM | INPUT | WANTED, nor with PLACES"),
        }
    }
}

/// Whether a program with other places shows the same.
fn compare(text: &[u8], places: &[u8], input: &[u8], page: &mut Page) {
    let mut one = Page::new(page.alloc());
    let mut other = Page::new(page.alloc());
    put_run(text, Some(&[]), input, &mut one);
    put_run(text, Some(places), input, &mut other);
    if let Some(why) = one.wrong() {
        page.refuse(why);
    }
    if let Some(why) = other.wrong() {
        page.refuse(why);
    }
    page.put(if one.bytes() == other.bytes() {
        "same"
    } else {
        "differs"
    });
}

/// What a program does, which is to be the same with and without the passes.
fn put_both(text: &[u8], input: &[u8], page: &mut Page) {
    let mut other = Page::new(page.alloc());
    put_run(text, Some(&[]), input, page);
    put_run(text, None, input, &mut other);
    if let Some(why) = other.wrong() {
        page.refuse(why);
    }
    if page.bytes() != other.bytes() {
        page.refuse("another answer after the passes");
    }
}

/// Runs a program without the passes and with these places, or with the passes.
fn put_run(text: &[u8], places: Option<&[u8]>, input: &[u8], page: &mut Page) {
    match parts_of(page.alloc(), text, places) {
        Ok(Some(parts)) => put_image(&parts, input, page),
        Ok(None) => page.refuse("a program that is too large"),
        Err(TextFault::Malformed(why)) => page.refuse(why),
        Err(TextFault::Memory) => page.lacks_memory(),
    }
}

fn parts_of(alloc: Global, text: &[u8], places: Option<&[u8]>) -> Result<Option<Parts>, TextFault> {
    let core = program(alloc, text)?;
    compiled(alloc, &core, places)
}

/// The parts that a program is compiled to with these places, or with the passes, if it is not too large.
fn compiled(alloc: Global, core: &Core, places: Option<&[u8]>) -> Result<Option<Parts>, TextFault>
    requires whole { IsWellFormed (program_of core.now) }
    requires limits { IsWithinLimits (program_of core.now) }
    requires initial { length core.now.initial ≡ 8 }
{
    let tac = lower(alloc, core)?;
    match size_of(&tac) {
        Some(size) if size <= 4_000_000 => {
            let tac = chosen(alloc, tac, places.is_none())?;
            let placed = with_moves(alloc, assign(alloc, &tac)?, places.unwrap_or(&[]))?;
            let lines = emit(alloc, &placed)?;
            Ok(Some(assemble(alloc, &lines)?))
        }
        _ => Ok(None),
    }
}

/// The code, after the passes if that is wanted.
fn chosen(alloc: Global, t: Tac, passes: bool) -> Result<Tac, AllocError>
    requires whole { tac.IsWellFormed t }
    requires few { tac.HasFewRegisters t }
    ensures whole { IfOk result tac.IsWellFormed }
    ensures few { IfOk result tac.HasFewRegisters }
    ensures size { IfOk result (λ after. program_size after ≤ program_size t) }
    ensures initial { IfOk result (λ after. after.initial ≡ t.initial) }
{
    if passes { passed(alloc, &t) } else { Ok(t) }
}

/// Writes what a run of the parts shows.
fn put_image(parts: &Parts, input: &[u8], page: &mut Page) {
    let Ok(image) = write(page.alloc(), parts) else {
        return page.lacks_memory();
    };
    match View::read(image.as_slice()) {
        Ok(view) => put_machine(view, input, page),
        Err(_) => page.refuse("no image"),
    }
}

fn put_machine(view: View<'_>, input: &[u8], page: &mut Page) {
    let Ok(mut machine) = Machine::load(page.alloc(), view) else {
        return page.lacks_memory();
    };
    let mut room = [0u8; 4096];
    let mut source = MemSource::new(input, &[]);
    let mut sink = MemSink::new(&mut room, &[]);
    put_end(machine.run(LIMIT, &mut source, &mut sink), page);
    if !sink.written().is_empty() {
        page.put(": ");
        page.put_bytes(sink.written());
    }
}

fn put_end(end: Observed, page: &mut Page) {
    match end {
        Observed::Ended(value) => {
            page.put("ended ");
            page.put_number(i64::from(value));
        }
        Observed::Stopped(check, at) => {
            page.put(check_name(check));
            page.put(" ");
            page.put_number(i64::from(at.line));
            page.put(":");
            page.put_number(i64::from(at.col));
        }
        Observed::Going => page.put("going"),
        Observed::Fault(_, _) => page.put_debug(&end),
        Observed::ReadFault | Observed::WriteFault => page.put("no room"),
    }
}
