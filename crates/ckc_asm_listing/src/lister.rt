ghost use Rattle.std.specs.Prelude.{◌≡◌, ℕ, List, ◌∷◌, [], ◌+◌, ◌*◌, ◌/◌, ◌≤◌, Some, length, take, drop};
ghost use Rattle.ckc_base.specs.MemoryMap.{longest_data};
ghost use Rattle.ckc_outside.specs.Outside.{faults_after, Puts};
ghost use Rattle.ckc_image.specs.Image.{IsProper, word_at};
ghost use Rattle.ckc_asm_listing.specs.Listing.{word_lines, data_lines, listing_lines, listing, shown_lines, shown_image, ended};
ghost use Rattle.ckc_asm.specs.Program.{AsmOf};
ghost use Rattle.ckc_asm_listing.specs.Putting.{PutsPieces};
ghost use Rattle.ckc_asm_listing.specs.code.Putting.{PutsLines};

use crate::text_line::TextLine;
use crate::texts::{data_line, entry_line, format_line, word_line};
use ckc_image::Format;
use ckc_outside::{Failed, Sink};

/// Puts the listing of entry, code and initial bytes, one piece for each line. It takes no memory.
pub fn list<O: Sink>(entry: u32, code: &[u8], initial: &[u8], out: &mut O) -> Result<(), Failed>
    requires { IsProper entry code.now initial.now }
    ensures faults { (O.seen out.new).faults ≡ faults_after result (O.seen out.old).faults }
    ensures told { (bytes : List ℕ) → (O.seen out.old).written ≡ Some bytes
        → Puts bytes (listing entry code.now initial.now) result (O.seen out.new).written }
    ensures pieces { PutsPieces (length (listing_lines entry code.now initial.now)) result
        (O.seen out.old).puts (O.seen out.new).puts }
    ensures reads_back { AsmOf (listing entry code.now initial.now) entry code.now initial.now }
{
    put_listing(entry, code, initial, out)
}

/// Puts the line of the format of an image and then the listing of its parts, one piece for each line. It takes no memory.
pub fn show<O: Sink>(
    format: Format,
    entry: u32,
    code: &[u8],
    initial: &[u8],
    out: &mut O,
) -> Result<(), Failed>
    requires { IsProper entry code.now initial.now }
    ensures faults { (O.seen out.new).faults ≡ faults_after result (O.seen out.old).faults }
    ensures told { (bytes : List ℕ) → (O.seen out.old).written ≡ Some bytes
        → Puts bytes (shown_image format entry code.now initial.now) result
        (O.seen out.new).written }
    ensures pieces { PutsPieces (length (shown_lines format entry code.now initial.now)) result
        (O.seen out.old).puts (O.seen out.new).puts }
    ensures reads_back { AsmOf (shown_image format entry code.now initial.now) entry code.now
        initial.now }
{
    put_line(&format_line(format), out)?;
    put_listing(entry, code, initial, out)
}

fn put_listing<O: Sink>(entry: u32, code: &[u8], initial: &[u8], out: &mut O) -> Result<(), Failed>
    requires { length initial.now ≤ longest_data }
    ensures { PutsLines (listing_lines entry code.now initial.now) result
        (O.seen out.old) (O.seen out.new) }
{
    put_line(&entry_line(entry), out)?;
    put_code(code, out)?;
    put_data(initial, out)
}

fn put_line<O: Sink>(line: &TextLine, out: &mut O) -> Result<(), Failed>
    ensures { (text : List ℕ) → line.now ≡ ended text → PutsLines (text ∷ []) result
        (O.seen out.old) (O.seen out.new) }
{
    out.put(line.as_bytes())
}

fn put_code<O: Sink>(code: &[u8], out: &mut O) -> Result<(), Failed>
    ensures { PutsLines (word_lines code.now) result
        (O.seen out.old) (O.seen out.new) }
{
    for k in 0..code.len() / 4 {
        put_line(&word_line(word(code, 4 * k)), out)?;
    }
    Ok(())
}

fn word(code: &[u8], at: usize) -> u32
    requires { at + 4 ≤ length code.now }
    ensures { result ≡ word_at code.now at }
{
    u32::from_le_bytes([code[at], code[at + 1], code[at + 2], code[at + 3]])
}

fn put_data<O: Sink>(bytes: &[u8], out: &mut O) -> Result<(), Failed>
    requires { length bytes.now ≤ longest_data }
    ensures { PutsLines (data_lines bytes.now) result
        (O.seen out.old) (O.seen out.new) }
{
    for k in 0..(bytes.len() + 15) / 16 {
        put_line(&data_line(sixteen(bytes, k)), out)?;
    }
    Ok(())
}

/// The k-th sixteen bytes, or what is left of them.
fn sixteen(bytes: &[u8], k: usize) -> &[u8]
    requires { 16 * k ≤ length bytes.now }
    ensures bytes { result.now ≡ take 16 (drop (16 * k) bytes.now) }
    ensures length { length result.now ≤ 16 }
{
    let rest = &bytes[16 * k..];
    if rest.len() < 16 { rest } else { &rest[..16] }
}
