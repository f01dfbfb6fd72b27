//! The commands, one function for each.
ghost use Rattle.std.specs.Prelude.{◌≡◌, ℕ, List, [], ◌∷◌};
ghost use Rattle.ckc_base.specs.Places.{at_start, long_text};
ghost use Rattle.ckc_cli_commands.specs.Words as w;
ghost use Rattle.ckc_cli_commands.specs.Outcomes as outcome;
ghost use Rattle.ckc_cli_commands.specs.Commands.{Makes};
ghost use Rattle.ckc_cli_commands.specs.World.{world, streams, not_given, output_alone};
ghost use Rattle.ckc_outside.specs.Outside.{SeenSource, SeenSink, Stored};
ghost use Rattle.ckc_cli_commands.specs.Causes.{OnlyFetched, Unkept, Asked, Came, Obeyed, input_faults, output_faults, store_faults};
ghost use Rattle.ckc_cli_commands.specs.code.Judging.{fault_status, NoFault};
ghost use Rattle.ckc_cli_commands.specs.code.Fetching.{Fetches, reads_after, writes_after, stores_after};
ghost use Rattle.ckc_cli_commands.specs.code.Sampling.{OfSample};

use crate::assembly::assemble;
use crate::checking::say_checked;
use crate::run::{list_bytes, meant, run_bytes, sample_bytes};
use crate::status::Status;
use ckc_base::{Fault, LONG_TEXT, LONGEST_TEXT, Refusal, START};
use ckc_build::{build, judge, program, unchecked_code_is_to_blame};
use ckc_cli_calls::{fetch_file, keep_file};
use ckc_cli_sample::sample_of;
use ckc_interp::interp;
use ckc_outside::{Fetched, Sink, Source, Store, StoreError};
use std::alloc::Global;
use std::mem::forget;

/// The most bytes that a text may have.
const TEXT_LIMIT: u64 = LONGEST_TEXT as u64;

/// The most bytes that an image may have.
const IMAGE_LIMIT: u64 = 33_550_452;

/// The part of an image that is at fault if there are too many bytes.
const TOO_MANY_BYTES: u8 = 3;

/// `build TEXT IMAGE`
pub fn build_text<F: Store>(alloc: Global, text: &str, image: &str, store: &mut F) -> Status
    ensures cause { (input : SeenSource) (output error error' : SeenSink)
        → Obeyed (w.Build text.now image.now)
        (world input output error (F.seen store.old))
        (world input output error' (F.seen store.new)) not_given result }
    ensures reads { (n : ℕ) → n ≡ input_faults result n }
    ensures writes { (n : ℕ) → n ≡ output_faults result n }
    ensures stores { (F.seen store.new).faults
        ≡ store_faults result (F.seen store.old).faults }
{
    match fetch(alloc, text, TEXT_LIMIT, store) {
        Err(status) => status,
        Ok(Fetched::Longer) => too_long(),
        Ok(Fetched::Whole(bytes)) => build_bytes(alloc, bytes.as_slice(), image, store),
    }
}

/// Builds a text and keeps its image.
fn build_bytes<F: Store>(alloc: Global, bytes: &[u8], image: &str, store: &mut F) -> Status
    ensures cause { (text : List ℕ) (input : SeenSource) (output error error' : SeenSink)
        (before : Stored) → OnlyFetched before (F.seen store.old)
        → Came (w.Build text image.now) (bytes.now ∷ [])
        (world input output error before)
        (world input output error' (F.seen store.new)) not_given result }
    ensures reads { (n : ℕ) → n ≡ input_faults result n }
    ensures writes { (n : ℕ) → n ≡ output_faults result n }
    ensures stores { (F.seen store.new).faults
        ≡ store_faults result (F.seen store.old).faults }
    ensures unasked { (F.seen store.new).fetches ≡ (F.seen store.old).fetches }
    ensures limited { (F.seen store.new).limit ≡ (F.seen store.old).limit }
{
    match build(alloc, bytes) {
        Err(fault) => status_of(fault),
        Ok(built) => keep_image(image, built.as_slice(), store),
    }
}

/// `asm TEXT IMAGE`
pub fn assemble_text<F: Store>(alloc: Global, text: &str, image: &str, store: &mut F) -> Status
    ensures cause { (input : SeenSource) (output error error' : SeenSink)
        → Obeyed (w.Assemble text.now image.now)
        (world input output error (F.seen store.old))
        (world input output error' (F.seen store.new)) not_given result }
    ensures reads { (n : ℕ) → n ≡ input_faults result n }
    ensures writes { (n : ℕ) → n ≡ output_faults result n }
    ensures stores { (F.seen store.new).faults
        ≡ store_faults result (F.seen store.old).faults }
{
    match fetch(alloc, text, TEXT_LIMIT, store) {
        Err(status) => status,
        Ok(Fetched::Longer) => too_long(),
        Ok(Fetched::Whole(bytes)) => assemble_bytes(alloc, bytes.as_slice(), image, store),
    }
}

/// Assembles a text and keeps its image.
fn assemble_bytes<F: Store>(alloc: Global, bytes: &[u8], image: &str, store: &mut F) -> Status
    ensures cause { (text : List ℕ) (input : SeenSource) (output error error' : SeenSink)
        (before : Stored) → OnlyFetched before (F.seen store.old)
        → Came (w.Assemble text image.now) (bytes.now ∷ [])
        (world input output error before)
        (world input output error' (F.seen store.new)) not_given result }
    ensures reads { (n : ℕ) → n ≡ input_faults result n }
    ensures writes { (n : ℕ) → n ≡ output_faults result n }
    ensures stores { (F.seen store.new).faults
        ≡ store_faults result (F.seen store.old).faults }
    ensures unasked { (F.seen store.new).fetches ≡ (F.seen store.old).fetches }
    ensures limited { (F.seen store.new).limit ≡ (F.seen store.old).limit }
{
    match assemble(alloc, bytes) {
        Err(fault) => status_of(fault),
        Ok(assembled) => keep_image(image, assembled.as_slice(), store),
    }
}

/// Keeps an image under its name, last of all.
fn keep_image<F: Store>(name: &str, image: &[u8], store: &mut F) -> Status
    ensures cause { (command : w.Command) (fetched : List (List ℕ)) (input : SeenSource)
        (output error error' : SeenSink) (before : Stored)
        → Makes command fetched (outcome.Keeps name.now image.now)
        → OnlyFetched before (F.seen store.old)
        → Came command fetched
        (world input output error before)
        (world input output error' (F.seen store.new)) not_given result }
    ensures reads { (n : ℕ) → n ≡ input_faults result n }
    ensures writes { (n : ℕ) → n ≡ output_faults result n }
    ensures stores { (F.seen store.new).faults
        ≡ store_faults result (F.seen store.old).faults }
    ensures unasked { (F.seen store.new).fetches ≡ (F.seen store.old).fetches }
    ensures limited { (F.seen store.new).limit ≡ (F.seen store.old).limit }
{
    match keep_file(name, image, store) {
        Ok(()) => Status::Done,
        Err(StoreError::Failed) => Status::StoreFault,
        Err(StoreError::Memory) => Status::Memory,
    }
}

/// `exec TEXT [LIMIT]`
pub fn exec_text<S: Source, O: Sink, F: Store>(
    alloc: Global,
    text: &str,
    limit: u64,
    input: &mut S,
    out: &mut O,
    store: &mut F,
) -> Status
    ensures cause { (error error' : SeenSink) → Obeyed (w.Exec text.now limit)
        (world (S.seen input.old) (O.seen out.old) error (F.seen store.old))
        (world (S.seen input.new) (O.seen out.new) error' (F.seen store.new))
        (streams input.old input.new out.old out.new) result }
    ensures reads { (S.seen input.new).faults
        ≡ input_faults result (S.seen input.old).faults }
    ensures writes { (O.seen out.new).faults
        ≡ output_faults result (O.seen out.old).faults }
    ensures stores { (F.seen store.new).faults
        ≡ store_faults result (F.seen store.old).faults }
{
    match fetch(alloc, text, TEXT_LIMIT, store) {
        Err(status) => status,
        Ok(Fetched::Longer) => too_long(),
        Ok(Fetched::Whole(bytes)) => exec_bytes(alloc, bytes.as_slice(), limit, input, out),
    }
}

/// Builds a text and runs its image.
fn exec_bytes<S: Source, O: Sink>(
    alloc: Global,
    bytes: &[u8],
    limit: u64,
    input: &mut S,
    out: &mut O,
) -> Status
    ensures cause { (text : List ℕ) (error error' : SeenSink) (before after : Stored)
        → Unkept before after → Came (w.Exec text limit) (bytes.now ∷ [])
        (world (S.seen input.old) (O.seen out.old) error before)
        (world (S.seen input.new) (O.seen out.new) error' after)
        (streams input.old input.new out.old out.new) result }
    ensures reads { (S.seen input.new).faults
        ≡ input_faults result (S.seen input.old).faults }
    ensures writes { (O.seen out.new).faults
        ≡ output_faults result (O.seen out.old).faults }
    ensures stores { (n : ℕ) → n ≡ store_faults result n }
{
    match build(alloc, bytes) {
        Err(fault) => status_of(fault),
        Ok(image) => run_bytes(alloc, image.as_slice(), limit, input, out),
    }
}

/// `interp TEXT [LIMIT]`
pub fn interp_text<S: Source, O: Sink, F: Store>(
    alloc: Global,
    text: &str,
    limit: u64,
    input: &mut S,
    out: &mut O,
    store: &mut F,
) -> Status
    ensures cause { (error error' : SeenSink) → Obeyed (w.Interp text.now limit)
        (world (S.seen input.old) (O.seen out.old) error (F.seen store.old))
        (world (S.seen input.new) (O.seen out.new) error' (F.seen store.new))
        (streams input.old input.new out.old out.new) result }
    ensures reads { (S.seen input.new).faults
        ≡ input_faults result (S.seen input.old).faults }
    ensures writes { (O.seen out.new).faults
        ≡ output_faults result (O.seen out.old).faults }
    ensures stores { (F.seen store.new).faults
        ≡ store_faults result (F.seen store.old).faults }
{
    match fetch(alloc, text, TEXT_LIMIT, store) {
        Err(status) => status,
        Ok(Fetched::Longer) => too_long(),
        Ok(Fetched::Whole(bytes)) => interp_bytes(alloc, bytes.as_slice(), limit, input, out),
    }
}

/// Runs the meaning of a text.
fn interp_bytes<S: Source, O: Sink>(
    alloc: Global,
    bytes: &[u8],
    limit: u64,
    input: &mut S,
    out: &mut O,
) -> Status
    ensures cause { (text : List ℕ) (error error' : SeenSink) (before after : Stored)
        → Unkept before after → Came (w.Interp text limit) (bytes.now ∷ [])
        (world (S.seen input.old) (O.seen out.old) error before)
        (world (S.seen input.new) (O.seen out.new) error' after)
        (streams input.old input.new out.old out.new) result }
    ensures reads { (S.seen input.new).faults
        ≡ input_faults result (S.seen input.old).faults }
    ensures writes { (O.seen out.new).faults
        ≡ output_faults result (O.seen out.old).faults }
    ensures stores { (n : ℕ) → n ≡ store_faults result n }
{
    match program(alloc, bytes) {
        Err(fault) => status_of(fault),
        Ok(p) => {
            let seen = interp(alloc, &p, limit, input, out);
            // The program is left to the end of the process, which gives its memory back at once.
            forget(p);
            unchecked_code_is_to_blame();
            meant(seen)
        }
    }
}

/// `run IMAGE [LIMIT]`
pub fn run_image<S: Source, O: Sink, F: Store>(
    alloc: Global,
    image: &str,
    limit: u64,
    input: &mut S,
    out: &mut O,
    store: &mut F,
) -> Status
    ensures cause { (error error' : SeenSink) → Obeyed (w.Run image.now limit)
        (world (S.seen input.old) (O.seen out.old) error (F.seen store.old))
        (world (S.seen input.new) (O.seen out.new) error' (F.seen store.new))
        (streams input.old input.new out.old out.new) result }
    ensures reads { (S.seen input.new).faults
        ≡ input_faults result (S.seen input.old).faults }
    ensures writes { (O.seen out.new).faults
        ≡ output_faults result (O.seen out.old).faults }
    ensures stores { (F.seen store.new).faults
        ≡ store_faults result (F.seen store.old).faults }
{
    match fetch(alloc, image, IMAGE_LIMIT, store) {
        Err(status) => status,
        Ok(Fetched::Longer) => Status::BadImage(TOO_MANY_BYTES),
        Ok(Fetched::Whole(bytes)) => run_bytes(alloc, bytes.as_slice(), limit, input, out),
    }
}

/// `list IMAGE`
pub fn list_image<O: Sink, F: Store>(
    alloc: Global,
    image: &str,
    out: &mut O,
    store: &mut F,
) -> Status
    ensures cause { (input : SeenSource) (error error' : SeenSink) → Obeyed (w.Show image.now)
        (world input (O.seen out.old) error (F.seen store.old))
        (world input (O.seen out.new) error' (F.seen store.new))
        (output_alone out.old out.new) result }
    ensures reads { (n : ℕ) → n ≡ input_faults result n }
    ensures writes { (O.seen out.new).faults
        ≡ output_faults result (O.seen out.old).faults }
    ensures stores { (F.seen store.new).faults
        ≡ store_faults result (F.seen store.old).faults }
{
    match fetch(alloc, image, IMAGE_LIMIT, store) {
        Err(status) => status,
        Ok(Fetched::Longer) => Status::BadImage(TOO_MANY_BYTES),
        Ok(Fetched::Whole(bytes)) => list_bytes(bytes.as_slice(), out),
    }
}

/// `check TEXT`
pub fn check_text<O: Sink, F: Store>(
    alloc: Global,
    text: &str,
    out: &mut O,
    store: &mut F,
) -> Status
    ensures cause { (input : SeenSource) (error error' : SeenSink) → Obeyed (w.Judge text.now)
        (world input (O.seen out.old) error (F.seen store.old))
        (world input (O.seen out.new) error' (F.seen store.new))
        (output_alone out.old out.new) result }
    ensures reads { (n : ℕ) → n ≡ input_faults result n }
    ensures writes { (O.seen out.new).faults
        ≡ output_faults result (O.seen out.old).faults }
    ensures stores { (F.seen store.new).faults
        ≡ store_faults result (F.seen store.old).faults }
{
    match fetch(alloc, text, TEXT_LIMIT, store) {
        Err(status) => status,
        Ok(Fetched::Longer) => too_long(),
        Ok(Fetched::Whole(bytes)) => check_bytes(alloc, bytes.as_slice(), out),
    }
}

/// Judges a text, and says whether it is wholly checked.
fn check_bytes<O: Sink>(alloc: Global, bytes: &[u8], out: &mut O) -> Status
    ensures cause { (text : List ℕ) (input : SeenSource) (error error' : SeenSink)
        (before after : Stored) → Unkept before after → Came (w.Judge text) (bytes.now ∷ [])
        (world input (O.seen out.old) error before)
        (world input (O.seen out.new) error' after)
        (output_alone out.old out.new) result }
    ensures reads { (n : ℕ) → n ≡ input_faults result n }
    ensures writes { (O.seen out.new).faults
        ≡ output_faults result (O.seen out.old).faults }
    ensures stores { (n : ℕ) → n ≡ store_faults result n }
{
    match judge(alloc, bytes) {
        Err(fault) => status_of(fault),
        Ok(typed) => {
            let status = say_checked(&typed, out);
            // The tree is left to the end of the process, which gives its memory back at once.
            forget(typed);
            status
        }
    }
}

/// `sample SEED SIZE`
pub fn sample<O: Sink>(alloc: Global, seed: u32, size: u32, out: &mut O) -> Status
    ensures cause { (input : SeenSource) (error error' : SeenSink) (store : Stored)
        → Obeyed (w.Sample seed size)
        (world input (O.seen out.old) error store)
        (world input (O.seen out.new) error' store)
        (output_alone out.old out.new) result }
    ensures reads { (n : ℕ) → n ≡ input_faults result n }
    ensures writes { (O.seen out.new).faults
        ≡ output_faults result (O.seen out.old).faults }
    ensures stores { (n : ℕ) → n ≡ store_faults result n }
{
    match sample_of(alloc, seed, size) {
        Err(_) => Status::Memory,
        Ok(text) => build_sample(alloc, text.as_slice(), size, out),
    }
}

/// Builds the text of a sample and runs its image.
fn build_sample<O: Sink>(alloc: Global, text: &[u8], size: u32, out: &mut O) -> Status
    ensures cause { OfSample text.now size (O.seen out.old) (O.seen out.new)
        (out.new ≡ out.old) result }
    ensures reads { (n : ℕ) → n ≡ input_faults result n }
    ensures writes { (O.seen out.new).faults
        ≡ output_faults result (O.seen out.old).faults }
    ensures stores { (n : ℕ) → n ≡ store_faults result n }
{
    match build(alloc, text) {
        Err(fault) => status_of(fault),
        Ok(image) => sample_bytes(alloc, image.as_slice(), size, out),
    }
}

/// The refusal of a text that is too long.
fn too_long() -> Status
    ensures is { result ≡ Status.Refused (at_start long_text) }
    ensures none { NoFault result }
{
    Status::Refused(Refusal {
        code: LONG_TEXT,
        pos: START,
    })
}

/// The status of a fault.
fn status_of(fault: Fault) -> Status
    ensures is { result ≡ fault_status fault }
    ensures none { NoFault result }
{
    match fault {
        Fault::Refused(refusal) => Status::Refused(refusal),
        Fault::Memory => Status::Memory,
    }
}

/// What the store has under a name, by one call.
fn fetch<F: Store>(alloc: Global, name: &str, limit: u64, store: &mut F) -> Result<Fetched, Status>
    ensures fetches { Fetches name.now limit (F.seen store.old) result }
    ensures only { OnlyFetched (F.seen store.old) (F.seen store.new) }
    ensures asked { Asked (record { name = name.now; most = limit } ∷ [])
        (F.seen store.old) (F.seen store.new) }
    ensures reads { (n : ℕ) → n ≡ reads_after result n }
    ensures writes { (n : ℕ) → n ≡ writes_after result n }
    ensures stores { (F.seen store.new).faults ≡ stores_after result (F.seen store.old).faults }
{
    match fetch_file(alloc, name, limit, store) {
        Ok(fetched) => Ok(fetched),
        Err(StoreError::Failed) => Err(Status::StoreFault),
        Err(StoreError::Memory) => Err(Status::Memory),
    }
}
