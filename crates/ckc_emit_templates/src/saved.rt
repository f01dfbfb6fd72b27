//! Registers that are saved in the frame and restored from it.
ghost use Rattle.std.specs.Prelude.{◌≡◌, ◌<◌, false, slice_index_or, OnOk};
ghost use Rattle.ckc_emit_templates.specs.code.Emitting.{Emits};
ghost use Rattle.ckc_emit_templates.specs.code.Saved.{register_of, each_lines, saves_lines, restores_lines, kept_lines};

use crate::templates::{SP, put_load, put_store};
use ckc_asm_lines::Line;
use std::alloc::AllocError;

/// The register of the machine for a register of placed code: x8 to x25 without x10 and x17.
pub fn register(k: u8) -> u8
    requires { k < 16 }
    ensures { result ≡ register_of k }
{
    if k < 2 {
        k + 8
    } else if k < 8 {
        k + 9
    } else {
        k + 10
    }
}

/// Saves a register in the frame if it is marked, or restores it from there.
fn put_kept(
    out: &mut Vec<Line>,
    restores: bool,
    marked: &[bool; 16],
    k: u8,
) -> Result<(), AllocError>
    requires { k < 16 }
    ensures { OnOk result
        (Emits out.old.items out.new.items
        (kept_lines restores (slice_index_or marked.now k false) k)) }
{
    if !marked[k as usize] {
        Ok(())
    } else if restores {
        put_load(out, register(k), SP, u32::from(k) * 4 + 16)
    } else {
        put_store(out, register(k), SP, u32::from(k) * 4 + 16)
    }
}

/// Saves the registers that are marked in the frame, or restores them from there.
fn put_each(out: &mut Vec<Line>, restores: bool, marked: &[bool; 16]) -> Result<(), AllocError>
    ensures { OnOk result
        (Emits out.old.items out.new.items
        (each_lines (kept_lines restores) (λ k. slice_index_or marked.now k false) 16 0)) }
{
    for k in 0..16u8 {
        put_kept(out, restores, marked, k)?;
    }
    Ok(())
}

/// Saves the registers that are marked in the frame.
pub fn put_saves(out: &mut Vec<Line>, marked: &[bool; 16]) -> Result<(), AllocError>
    ensures { OnOk result
        (Emits out.old.items out.new.items
        (saves_lines (λ k. slice_index_or marked.now k false) 16 0)) }
{
    put_each(out, false, marked)
}

/// Restores the registers that are marked from the frame.
pub fn put_restores(out: &mut Vec<Line>, marked: &[bool; 16]) -> Result<(), AllocError>
    ensures { OnOk result
        (Emits out.old.items out.new.items
        (restores_lines (λ k. slice_index_or marked.now k false) 16 0)) }
{
    put_each(out, true, marked)
}
