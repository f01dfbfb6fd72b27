//! Running and listing the bytes of an image, and what a run of a meaning shows.
ghost use Rattle.std.specs.Prelude.{◌≡◌, ◌≢◌, ℕ, IsSome, Some};
ghost use Rattle.ckc_rv.specs.Machine.{Parts};
ghost use Rattle.ckc_asm_listing.specs.Listing.{shown_image};
ghost use Rattle.ckc_cli_commands.specs.Interpreting.{meant_status};
ghost use Rattle.ckc_outside.specs.Outside.{SeenSink, Stored};
ghost use Rattle.ckc_cli_commands.specs.World.{world, streams};
ghost use Rattle.ckc_cli_commands.specs.Running.{Listed, status_of};
ghost use Rattle.ckc_cli_commands.specs.code.Running.{Ends, OverImage};
ghost use Rattle.ckc_cli_commands.specs.Words.{usual_limit};
ghost use Rattle.ckc_cli_commands.specs.Sampling.{Lined, Sampled};
ghost use Rattle.ckc_cli_commands.specs.code.Sampling.{Tried};
ghost use Rattle.ckc_cli_sample.specs.Alone.{RunsAlone};
ghost use Rattle.ckc_cli_sample.specs.Sample.{sample_lines};
ghost use Rattle.ckc_cli_commands.specs.Causes.{input_faults, output_faults, store_faults};
ghost use Rattle.ckc_machine.specs.Runs as machines;
ghost use Rattle.ckc_interp.specs.Runs as meanings;

use crate::status::Status;
use crate::words::USUAL_LIMIT;
use ckc_asm_listing::show;
use ckc_cli_sample::{put_sample, run_alone};
use ckc_image::View;
use ckc_interp::Seen;
use ckc_machine::{Machine, Observed};
use ckc_outside::{Sink, Source};
use std::alloc::Global;

/// Runs the image that the bytes are, or says which part of them disagrees.
pub fn run_bytes<S: Source, O: Sink>(
    alloc: Global,
    image: &[u8],
    limit: u64,
    input: &mut S,
    out: &mut O,
) -> Status
    ensures over { (error error' : SeenSink) (before after : Stored)
        → OverImage image.now (λ format parts. Ends parts limit
        (world (S.seen input.old) (O.seen out.old) error before)
        (world (S.seen input.new) (O.seen out.new) error' after)
        (streams input.old input.new out.old out.new) result)
        ((out.new ≡ out.old) × (input.new ≡ input.old)) result }
    ensures reads { (S.seen input.new).faults
        ≡ input_faults result (S.seen input.old).faults }
    ensures writes { (O.seen out.new).faults
        ≡ output_faults result (O.seen out.old).faults }
    ensures stores { (n : ℕ) → n ≡ store_faults result n }
{
    match View::read(image) {
        Err(bad) => Status::BadImage(bad.0),
        Ok(view) => run_view(alloc, view, limit, input, out),
    }
}

/// Runs an image.
fn run_view<'a, S: Source, O: Sink>(
    alloc: Global,
    view: View<'a>,
    limit: u64,
    input: &mut S,
    out: &mut O,
) -> Status
    ensures ran { (parts : Parts) → parts.entry ≡ view.entry.entry
        → parts.code ≡ view.entry.code.now → parts.initial ≡ view.entry.initial.now
        → (error error' : SeenSink) (before after : Stored) → Ends parts limit
        (world (S.seen input.old) (O.seen out.old) error before)
        (world (S.seen input.new) (O.seen out.new) error' after)
        (streams input.old input.new out.old out.new) result }
    ensures reads { (S.seen input.new).faults
        ≡ input_faults result (S.seen input.old).faults }
    ensures writes { (O.seen out.new).faults
        ≡ output_faults result (O.seen out.old).faults }
    ensures stores { (n : ℕ) → n ≡ store_faults result n }
{
    match Machine::load(alloc, view) {
        Err(_) => Status::Memory,
        Ok(mut machine) => shown(machine.run(limit, input, out)),
    }
}

/// The status of what a run shows.
fn shown(observed: Observed) -> Status
    ensures is { result ≡ status_of observed }
    ensures reads { (n : ℕ) → machines.read_faults observed n ≡ input_faults result n }
    ensures writes { (n : ℕ) → machines.write_faults observed n ≡ output_faults result n }
    ensures stores { (n : ℕ) → n ≡ store_faults result n }
{
    match observed {
        Observed::Ended(value) => Status::Ended(value),
        Observed::Stopped(check, pos) => Status::Stopped(check, pos),
        Observed::Going => Status::Going,
        Observed::Fault(kind, pc) => Status::MachineFault(kind, pc),
        Observed::ReadFault => Status::ReadFault,
        Observed::WriteFault => Status::WriteFault,
    }
}

/// The status of what a run of a meaning shows, where unchecked code ran if it is stuck.
pub fn meant(seen: Seen) -> Status
    requires blamed { IsSome (meant_status seen) }
    ensures is { meant_status seen ≡ Some result }
    ensures reads { (n : ℕ) → meanings.read_faults seen n ≡ input_faults result n }
    ensures writes { (n : ℕ) → meanings.write_faults seen n ≡ output_faults result n }
    ensures stores { (n : ℕ) → n ≡ store_faults result n }
{
    match seen {
        Seen::Ended(value) => Status::Ended(value),
        Seen::Stopped(check, pos) => Status::Stopped(check, pos),
        Seen::Going => Status::Going,
        Seen::Stuck(at, Some(since)) => Status::Stuck(at, since),
        Seen::Stuck(_, None) => Status::Memory,
        Seen::ReadFault => Status::ReadFault,
        Seen::WriteFault => Status::WriteFault,
        Seen::Memory => Status::Memory,
    }
}

/// Puts the line of the format of the image that the bytes are and then its listing, or says which part of them disagrees.
pub fn list_bytes<O: Sink>(image: &[u8], out: &mut O) -> Status
    ensures over { OverImage image.now (λ format parts. Listed
        (shown_image format parts.entry parts.code parts.initial)
        (O.seen out.old).written (O.seen out.new).written
        (O.seen out.old).faults (O.seen out.new).faults result) (out.new ≡ out.old) result }
    ensures reads { (n : ℕ) → n ≡ input_faults result n }
    ensures writes { (O.seen out.new).faults
        ≡ output_faults result (O.seen out.old).faults }
    ensures stores { (n : ℕ) → n ≡ store_faults result n }
{
    match View::read(image) {
        Err(bad) => Status::BadImage(bad.0),
        Ok(view) => match show(view.format, view.entry, view.code, view.initial, out) {
            Ok(()) => Status::Done,
            Err(_) => Status::WriteFault,
        },
    }
}

/// Runs the image of a sample, or says which part of the bytes disagrees.
pub fn sample_bytes<O: Sink>(alloc: Global, image: &[u8], size: u32, out: &mut O) -> Status
    ensures over { OverImage image.now (λ format parts. Tried parts size
        (O.seen out.old) (O.seen out.new) (out.new ≡ out.old) result)
        (out.new ≡ out.old) result }
    ensures reads { (n : ℕ) → n ≡ input_faults result n }
    ensures writes { (O.seen out.new).faults
        ≡ output_faults result (O.seen out.old).faults }
    ensures stores { (n : ℕ) → n ≡ store_faults result n }
{
    match View::read(image) {
        Err(bad) => Status::BadImage(bad.0),
        Ok(view) => sample_view(alloc, view, size, out),
    }
}

/// Runs the image of a sample.
fn sample_view<'a, O: Sink>(alloc: Global, view: View<'a>, size: u32, out: &mut O) -> Status
    ensures tried { (parts : Parts) → parts.entry ≡ view.entry.entry
        → parts.code ≡ view.entry.code.now → parts.initial ≡ view.entry.initial.now
        → Tried parts size (O.seen out.old) (O.seen out.new) (out.new ≡ out.old) result }
    ensures reads { (n : ℕ) → n ≡ input_faults result n }
    ensures writes { (O.seen out.new).faults
        ≡ output_faults result (O.seen out.old).faults }
    ensures stores { (n : ℕ) → n ≡ store_faults result n }
{
    match run_alone(alloc, view, USUAL_LIMIT) {
        Err(_) => Status::Memory,
        Ok((observed, count)) => tell_sample(observed, size, count, out),
    }
}

/// Puts the lines of a sample that ended; gives the status of what else its run showed.
fn tell_sample<O: Sink>(observed: Observed, size: u32, count: u32, out: &mut O) -> Status
    ensures sampled { (parts : Parts) → RunsAlone parts usual_limit observed count
        → Sampled parts size (O.seen out.old) (O.seen out.new) (out.new ≡ out.old) result }
    ensures reads { observed ≢ Observed.ReadFault → (n : ℕ) → n ≡ input_faults result n }
    ensures writes { observed ≢ Observed.WriteFault → (O.seen out.new).faults
        ≡ output_faults result (O.seen out.old).faults }
    ensures stores { (n : ℕ) → n ≡ store_faults result n }
{
    match observed {
        Observed::Ended(value) => say_ended(size, count, value, out),
        _ => shown(observed),
    }
}

/// Puts the lines of a sample that ended with a value.
fn say_ended<O: Sink>(size: u32, count: u32, value: u32, out: &mut O) -> Status
    ensures lined { Lined (sample_lines size count value)
        (O.seen out.old) (O.seen out.new) result }
    ensures reads { (n : ℕ) → n ≡ input_faults result n }
    ensures writes { (O.seen out.new).faults
        ≡ output_faults result (O.seen out.old).faults }
    ensures stores { (n : ℕ) → n ≡ store_faults result n }
{
    match put_sample(size, count, value, out) {
        Ok(()) => Status::Done,
        Err(_) => Status::WriteFault,
    }
}
