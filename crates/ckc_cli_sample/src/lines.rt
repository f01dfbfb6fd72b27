ghost use Rattle.std.specs.Prelude.{◌≡◌, ◌≤◌, ◌++◌, [], ◌∷◌, ℕ, List, Some, length};
ghost use Rattle.std.specs.Fmt.{decimal};
ghost use Rattle.ckc_outside.specs.Outside.{faults_after, Puts};
ghost use Rattle.ckc_asm_listing.specs.Listing.{text_of};
ghost use Rattle.ckc_asm_listing.specs.Putting.{PutsPieces};
ghost use Rattle.ckc_asm_listing.specs.code.Putting.{PutsLines};
ghost use Rattle.ckc_cli_sample.specs.Sample.{sample_lines};

use ckc_asm_listing::TextLine;
use ckc_outside::{Failed, Sink};

/// Puts the lines that tell of the run of a sample, one piece for each, up to the first that fails.
pub fn put_sample<O: Sink>(size: u32, count: u32, value: u32, out: &mut O) -> Result<(), Failed>
    ensures faults { (O.seen out.new).faults ≡ faults_after result (O.seen out.old).faults }
    ensures told { (bytes : List ℕ) → (O.seen out.old).written ≡ Some bytes
        → Puts bytes (text_of (sample_lines size count value)) result (O.seen out.new).written }
    ensures pieces { PutsPieces (length (sample_lines size count value)) result
        (O.seen out.old).puts (O.seen out.new).puts }
{
    put_lines(size, count, value, out)
}

fn put_lines<O: Sink>(size: u32, count: u32, value: u32, out: &mut O) -> Result<(), Failed>
    ensures { PutsLines (sample_lines size count value) result
        (O.seen out.old) (O.seen out.new) }
{
    put_number(b"functions ", size, out)?;
    put_number(b"output ", count, out)?;
    put_number(b"ended ", value, out)
}

/// Puts words and a number as a line.
fn put_number<O: Sink>(words: &[u8], n: u32, out: &mut O) -> Result<(), Failed>
    requires { length words.now ≤ 40 }
    ensures { PutsLines ((words.now ++ decimal n) ∷ []) result
        (O.seen out.old) (O.seen out.new) }
{
    let mut line = TextLine::new();
    line.push_text(words);
    line.push_number(n);
    line.push(b'\n');
    out.put(line.as_bytes())
}
