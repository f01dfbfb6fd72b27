//! The lines of a program.
ghost use Rattle.std.specs.Prelude.{◌≡◌, ◌*◌, ◌≤◌, ◌<◌, ◌^◌, length, sum_by, All, IfOk, OnOk};
ghost use Rattle.ckc_base.specs.MemoryMap.{longest_data, most_instructions};
ghost use Rattle.ckc_asm_lines.specs.Assembled.{size_of, CanAssemble};
ghost use Rattle.ckc_frame.specs.WellFormed.{IsWellFormed};
ghost use Rattle.ckc_emit.specs.code.Emitting.{Emits};
ghost use Rattle.ckc_emit.specs.code.ProgramLines.{label_of, functions_lines, program_lines, labelled_program, AreLabels};
ghost use Rattle.ckc_emit.specs.Spared.{Spares};
ghost use Rattle.ckc_emit.specs.CodeSize.{code_size};
ghost use Rattle.ckc_emit.specs.Promise.{FollowsPlaced, FollowsStores, ListsStores, WhenAssembled};

use crate::blocks::put_function;
use crate::initial::copy_of;
use ckc_asm_lines::{Labelled, Line};
use ckc_base::Seq;
use ckc_emit_templates::put_start;
use ckc_frame::{Placed, PlacedFunc};
use std::alloc::{AllocError, Global};

/// The labelled lines of placed code, or want of memory.
pub fn emit(alloc: Global, p: &Placed) -> Result<Labelled, AllocError>
    requires whole { IsWellFormed p.now }
    requires fits { code_size p.now ≤ most_instructions }
    requires initial { length p.now.initial ≤ longest_data }
    ensures lines { IfOk result (λ l. l ≡ labelled_program p.now) }
    ensures can { IfOk result (λ l. CanAssemble l.lines l.start l.initial) }
    ensures size { IfOk result (λ l. sum_by size_of l.lines ≤ 4 * code_size p.now) }
    ensures spared { IfOk result (λ l. All Spares l.lines) }
    ensures follows { IfOk result (λ l. WhenAssembled l (FollowsPlaced p.now)) }
    ensures stores { IfOk result (λ l. WhenAssembled l (FollowsStores p.now)) }
    ensures listed { IfOk result (λ l. WhenAssembled l (ListsStores p.now)) }
{
    emitted(alloc, p)
}

fn emitted(alloc: Global, p: &Placed) -> Result<Labelled, AllocError>
    requires whole { IsWellFormed p.now }
    requires fits { label_of p.now.funcs (length p.now.funcs) < 2 ^ 32 }
    ensures lines { IfOk result (λ l. l ≡ labelled_program p.now) }
    ensures bytes { IfOk result (λ l. All (λ b. b < 256) l.initial) }
{
    let labels = labels_of(alloc, p.funcs.as_slice())?;
    let lines = lines_of(alloc, p, labels.as_slice())?;
    let initial = copy_of(alloc, p.initial.as_slice())?;
    Ok(Labelled {
        lines: Seq::from_vec(lines),
        start: 0,
        initial,
    })
}

fn lines_of(alloc: Global, p: &Placed, labels: &[u32]) -> Result<Vec<Line>, AllocError>
    requires whole { IsWellFormed p.now }
    requires labelled { AreLabels p.now.funcs labels.now }
    requires fits { label_of p.now.funcs (length p.now.funcs) < 2 ^ 32 }
    ensures { IfOk result (λ lines. lines.items ≡ program_lines p.now) }
{
    let mut out = Vec::new(alloc);
    put_start(&mut out, labels[p.main as usize])?;
    put_functions(&mut out, p, labels)?;
    Ok(out)
}

/// The label of each function; those of its blocks come after it.
fn labels_of(alloc: Global, funcs: &[PlacedFunc]) -> Result<Vec<u32>, AllocError>
    requires { label_of funcs.now (length funcs.now) < 2 ^ 32 }
    ensures { IfOk result (λ labels. AreLabels funcs.now labels.items) }
{
    let mut labels = Vec::new(alloc);
    let mut next = 1;
    for f in funcs {
        labels.push(next)?;
        next += f.code.blocks.len() as u32 + 1;
    }
    Ok(labels)
}

/// The lines of all functions.
fn put_functions(out: &mut Vec<Line>, p: &Placed, labels: &[u32]) -> Result<(), AllocError>
    requires whole { IsWellFormed p.now }
    requires labelled { AreLabels p.now.funcs labels.now }
    requires fits { label_of p.now.funcs (length p.now.funcs) < 2 ^ 32 }
    ensures { OnOk result
        (Emits out.old.items out.new.items (functions_lines p.now.funcs 1 p.now.funcs)) }
{
    let mut label = 1;
    for f in p.funcs.as_slice() {
        put_function(out, p, labels, f, label)?;
        label += f.code.blocks.len() as u32 + 1;
    }
    Ok(())
}
