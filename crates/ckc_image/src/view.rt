ghost use Rattle.std.specs.Prelude.{◌≡◌, ◌↔◌, ℕ, List, ◌+◌, ◌^◌, ◌<◌, ◌≤◌, length, take, IsTrue, IsOkAnd, IsErrAnd, MatchResult};
ghost use Rattle.ckc_base.specs.MemoryMap.{longest_code};
ghost use Rattle.ckc_image.specs.declared.format.Format.TheVariants.{First, Elf};
ghost use Rattle.ckc_image.specs.Elf as spec;
ghost use Rattle.ckc_image.specs.Image.{Format, EntryFits, FirstBad, HasMagic, ImageOf, IsProper, LengthsFit, four_at, word_at};

use crate::format::Format;
use crate::headers::{ELF_HEADER, elf_header};
use ckc_base::memory_map::{CODE_START, LONGEST_CODE, LONGEST_DATA};
use ckc_base_counts::is_image_length;
use thiserror::Error;

const MAGIC: [u8; 4] = *b"CCIM";

const VERSION: [u8; 4] = [1, 0, 0, 0];

const ELF_MAGIC: [u8; 4] = *b"\x7FELF";

const ELF_VERSION: [u8; 4] = [1, 1, 1, 0];

/// How much longer the header of an ELF image is than that of version 1.
const LONGER: usize = 96;

/// The parts of an image as they stand in its bytes, under the same rules as `Parts`, and the format of the bytes.
#[derive(Clone, Copy)]
pub struct View<'a> {
    pub format: Format,
    pub entry: u32,
    pub code: &'a [u8],
    pub initial: &'a [u8],
    ghost proper: { IsProper entry code.now initial.now },
}

/// The bytes are no image. The number is the first part that disagrees: 1 the magic, 2 the version, 3 the whole
/// length, 4 the lengths of code and initial bytes, 5 the entry, 6 another byte of the headers of an ELF image.
#[derive(Clone, Copy, Debug, Error)]
#[error("bad image: part {0}")]
pub struct BadImage(pub u8);

impl<'a> View<'a> {
    /// The parts of an image, lent out of its bytes.
    pub fn read(bytes: &'a [u8]) -> Result<View<'a>, BadImage>
        ensures parts { MatchResult result
            (λ v. ImageOf v.format bytes.now v.entry v.code.now v.initial.now)
            (λ e. FirstBad bytes.now e.0) }
        ensures found { (format : Format) (entry : ℕ) (code initial : List ℕ)
            → ImageOf format bytes.now entry code initial
            → IsOkAnd result (λ v. (v.format ≡ format) × (v.entry ≡ entry) × (v.code.now ≡ code)
            × (v.initial.now ≡ initial)) }
        ensures refused { (k : ℕ) → FirstBad bytes.now k → IsErrAnd result (λ e. e.0 ≡ k) }
    {
        judged(bytes)
    }
}

/// The parts of an image in the format that its first four bytes tell.
fn judged(bytes: &[u8]) -> Result<View<'_>, BadImage>
    ensures { MatchResult result
        (λ v. ImageOf v.format bytes.now v.entry v.code.now v.initial.now)
        (λ e. FirstBad bytes.now e.0) }
{
    if bytes.len() >= 4 && four_bytes(bytes, 0) == ELF_MAGIC {
        elf_view(bytes)
    } else {
        first_view(bytes)
    }
}

/// The parts of an image of version 1.
fn first_view(bytes: &[u8]) -> Result<View<'_>, BadImage>
    requires { ¬ HasMagic Elf bytes.now }
    ensures { MatchResult result
        (λ v. ImageOf v.format bytes.now v.entry v.code.now v.initial.now)
        (λ e. FirstBad bytes.now e.0) }
{
    if bytes.len() < 4 || four_bytes(bytes, 0) != MAGIC {
        return Err(BadImage(1));
    }
    if bytes.len() < 8 || four_bytes(bytes, 4) != VERSION {
        return Err(BadImage(2));
    }
    if bytes.len() < 20 {
        return Err(BadImage(3));
    }
    let entry = word(bytes, 8);
    let code = word(bytes, 12) as usize;
    let initial = word(bytes, 16) as usize;
    if !is_image_length(bytes.len(), code, initial) {
        return Err(BadImage(3));
    }
    if !lengths_fit(code, initial) {
        return Err(BadImage(4));
    }
    if !entry_fits(entry, code) {
        return Err(BadImage(5));
    }
    Ok(View {
        format: Format::First,
        entry,
        code: &bytes[20..20 + code],
        initial: &bytes[20 + code..],
    })
}

/// The parts of an ELF image.
fn elf_view(bytes: &[u8]) -> Result<View<'_>, BadImage>
    requires { HasMagic Elf bytes.now }
    ensures { MatchResult result
        (λ v. ImageOf v.format bytes.now v.entry v.code.now v.initial.now)
        (λ e. FirstBad bytes.now e.0) }
{
    if bytes.len() < 8 || four_bytes(bytes, 4) != ELF_VERSION {
        return Err(BadImage(2));
    }
    if bytes.len() < ELF_HEADER {
        return Err(BadImage(3));
    }
    let entry = word(bytes, 24);
    let code = word(bytes, 68) as usize;
    let initial = word(bytes, 100) as usize;
    if !is_image_length(bytes.len() - LONGER, code, initial) {
        return Err(BadImage(3));
    }
    if !lengths_fit(code, initial) {
        return Err(BadImage(4));
    }
    if !entry_fits(entry, code) {
        return Err(BadImage(5));
    }
    if !has_header(bytes, entry, code as u32, initial as u32) {
        return Err(BadImage(6));
    }
    Ok(View {
        format: Format::Elf,
        entry,
        code: &bytes[ELF_HEADER..ELF_HEADER + code],
        initial: &bytes[ELF_HEADER + code..],
    })
}

/// Whether bytes begin with the headers of an ELF image with this entry and these lengths.
fn has_header(bytes: &[u8], entry: u32, code: u32, initial: u32) -> bool
    requires long { 116 ≤ length bytes.now }
    requires fits { code ≤ longest_code }
    ensures { IsTrue result ↔ (take 116 bytes.now ≡ spec.elf_header entry code initial) }
{
    bytes[..ELF_HEADER] == elf_header(entry, code, initial)[..]
}

fn four_bytes(bytes: &[u8], at: usize) -> [u8; 4]
    requires { at + 4 ≤ length bytes.now }
    ensures { result ≡ four_at bytes.now at }
{
    [bytes[at], bytes[at + 1], bytes[at + 2], bytes[at + 3]]
}

fn word(bytes: &[u8], at: usize) -> u32
    requires { at + 4 ≤ length bytes.now }
    ensures { result ≡ word_at bytes.now at }
{
    u32::from_le_bytes(four_bytes(bytes, at))
}

fn lengths_fit(code: usize, initial: usize) -> bool
    ensures { IsTrue result ↔ LengthsFit code initial }
{
    code % 4 == 0 && 4 <= code && code <= LONGEST_CODE && initial <= LONGEST_DATA
}

fn entry_fits(entry: u32, code: usize) -> bool
    requires { code ≤ longest_code }
    ensures { IsTrue result ↔ EntryFits entry code }
{
    entry % 4 == 0 && CODE_START <= entry && (entry as usize) < CODE_START as usize + code
}
