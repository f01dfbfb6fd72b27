//! The lines of a call.
ghost use Rattle.std.specs.Prelude.{◌≡◌, ◌<◌, ◌≤◌, ◌==◌, ◌||◌, ℕ, All, IfSome, false, length, slice_index_or, OnOk};
ghost use Rattle.ckc_frame.specs.WellFormed.{IsPlace};
ghost use Rattle.ckc_frame.specs.Places.{number_of, is_kept_home};
ghost use Rattle.ckc_emit.specs.code.Emitting.{Emits};
ghost use Rattle.ckc_emit.specs.code.CallLines.{is_argument_home, depth_lines, argument_lines, arguments_lines, visit_lines, call_lines, result_lines};

use crate::places::{offset, place_in, put_settle, source};
use crate::stops::put_check;
use ckc_asm_lines::Line;
use ckc_base::{Check, Pos};
use ckc_emit_templates::{SP, put, put_load, put_move, put_restores, put_saves, put_store};
use ckc_frame::Place;
use ckc_rv::{BranchOp, Instr, RegOp};
use std::alloc::AllocError;

const FRAME: u8 = 3;

/// Marks the register of a place, if it is one.
fn mark(found: &mut [bool; 16], place: Place)
    requires { IsPlace place }
    ensures { (k : ℕ) → k < 16 → slice_index_or found.new k false
        ≡ (slice_index_or found.old k false || number_of place == k) }
{
    if let Place::Reg(k) = place {
        found[k as usize] = true;
    }
}

/// Which of the sixteen registers are homes of registers that a row marks.
fn kept_homes(homes: &[Place], row: &[bool]) -> [bool; 16]
    requires { All IsPlace homes.now }
    ensures { (k : ℕ) → k < 16 → slice_index_or result k false ≡ is_kept_home k homes.now row.now }
{
    let mut found = [false; 16];
    for (place, marked) in homes.iter().zip(row) {
        if *marked {
            mark(&mut found, *place);
        }
    }
    found
}

/// The same registers, and those that are homes of arguments.
fn saved_homes(kept: &[bool; 16], homes: &[Place], args: &[u32]) -> [bool; 16]
    requires places { All IsPlace homes.now }
    requires within { All (λ r. r < length homes.now) args.now }
    ensures { (k : ℕ) → k < 16 → slice_index_or result k false
        ≡ (slice_index_or kept.now k false || is_argument_home k homes.now args.now) }
{
    let mut found = *kept;
    for r in args {
        mark(&mut found, place_in(homes, *r as usize));
    }
    found
}

/// Stops unless a frame more fits, and sets x3 to it.
fn put_depth(out: &mut Vec<Line>, at: Pos) -> Result<(), AllocError>
    ensures { OnOk result (Emits out.old.items out.new.items (depth_lines at)) }
{
    put(out, Instr::Lui(5, 0x3000))?;
    put_check(out, BranchOp::Bne, SP, 5, Check::Depth, at)?;
    put(out, Instr::Lui(FRAME, 0xFFFFC))?;
    put(out, Instr::Reg(RegOp::Add, FRAME, FRAME, SP))
}

/// Writes the arguments, the last first, from the frame to the homes of the called function's parameters.
fn put_arguments(
    out: &mut Vec<Line>,
    homes: &[Place],
    args: &[u32],
    params: &[Place],
) -> Result<(), AllocError>
    requires places { All IsPlace homes.now }
    requires within { All (λ r. r < length homes.now) args.now }
    requires params { All IsPlace params.now }
    requires enough { length args.now ≤ length params.now }
    ensures { OnOk result
        (Emits out.old.items out.new.items (arguments_lines homes.now args.now 0 params.now)) }
{
    let mut i = args.len();
    while i > 0 {
        i -= 1;
        put_argument(out, place_in(homes, args[i] as usize), place_in(params, i))?;
    }
    Ok(())
}

fn put_argument(out: &mut Vec<Line>, from: Place, to: Place) -> Result<(), AllocError>
    requires from { IsPlace from }
    requires to { IsPlace to }
    ensures { OnOk result (Emits out.old.items out.new.items (argument_lines from to)) }
{
    put_load(out, source(to, 5), SP, offset(from))?;
    match to {
        Place::Reg(_) => Ok(()),
        Place::Slot(_) => put_store(out, 5, FRAME, offset(to)),
    }
}

/// Goes to a function and back.
fn put_visit(out: &mut Vec<Line>, label: u32) -> Result<(), AllocError>
    ensures { OnOk result (Emits out.old.items out.new.items (visit_lines label)) }
{
    put_move(out, SP, FRAME)?;
    out.push(Line::Far(1, label))?;
    put(out, Instr::Lui(FRAME, 4))?;
    put(out, Instr::Reg(RegOp::Add, SP, SP, FRAME))
}

/// Calls a function with arguments, and keeps the registers of a row over the call.
pub fn put_call(
    out: &mut Vec<Line>,
    homes: &[Place],
    row: &[bool],
    params: &[Place],
    label: u32,
    args: &[u32],
    at: Pos,
) -> Result<(), AllocError>
    requires places { All IsPlace homes.now }
    requires within { All (λ r. r < length homes.now) args.now }
    requires params { All IsPlace params.now }
    requires enough { length args.now ≤ length params.now }
    ensures { OnOk result
        (Emits out.old.items out.new.items
        (call_lines homes.now row.now params.now label args.now at)) }
{
    let kept = kept_homes(homes, row);
    let saved = saved_homes(&kept, homes, args);
    put_saves(out, &saved)?;
    put_depth(out, at)?;
    put_arguments(out, homes, args, params)?;
    put_visit(out, label)?;
    put_restores(out, &kept)
}

/// Writes the result of a call.
pub fn put_result(
    out: &mut Vec<Line>,
    homes: &[Place],
    target: Option<u32>,
) -> Result<(), AllocError>
    requires places { All IsPlace homes.now }
    requires within { IfSome target (λ t. t < length homes.now) }
    ensures { OnOk result (Emits out.old.items out.new.items (result_lines homes.now target)) }
{
    match target {
        None => Ok(()),
        Some(t) => put_settle(out, place_in(homes, t as usize), 10),
    }
}
