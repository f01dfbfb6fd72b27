ghost use Rattle.std.specs.Prelude.{◌≡◌, ◌≤◌, ◌++◌, [], ◌∷◌, ℕ, List, length, IfOk, OnOk};
ghost use Rattle.ckc_asm_listing.specs.Listing.{ended, text_of};
ghost use Rattle.ckc_cli_sample.specs.Sample as s;

use ckc_asm_listing::TextLine;
use std::alloc::{AllocError, Global};

/// The text of a seed with so many functions.
pub fn sample_of(alloc: Global, seed: u32, size: u32) -> Result<Vec<u8>, AllocError>
    ensures { IfOk result (λ text. text.items ≡ s.sample_text seed size) }
{
    let mut text = Vec::from_slice(alloc, b"#pragma CHECKED_SCOPE on\nint a _Checked[64];\n")?;
    let mut number = seed;
    for j in 0..size {
        number = next_number(number);
        put_function(&mut text, number % 1000, j)?;
    }
    put_main(&mut text, size)?;
    Ok(text)
}

fn next_number(x: u32) -> u32
    ensures { result ≡ s.next_number x }
{
    ((1_664_525 * u64::from(x) + 1_013_904_223) % 0x1_0000_0000) as u32
}

/// Adds function j.
fn put_function(text: &mut Vec<u8>, added: u32, j: u32) -> Result<(), AllocError>
    ensures { OnOk result (text.new.items
        ≡ text.old.items ++ text_of (s.function_lines added j)) }
{
    put_line(text, &head_line(j))?;
    put(text, b"  int i;\n  int s = 0;\n  int r = 0;\n")?;
    put_line(text, &loop_line(added))?;
    put(text, b"  putchar(a[0]);\n")?;
    put_call(text, j)?;
    put(text, b"  return s + r;\n}\n")?;
    Ok(())
}

/// Adds the line in which function j calls the one before it, if there is one.
fn put_call(text: &mut Vec<u8>, j: u32) -> Result<(), AllocError>
    ensures { OnOk result (text.new.items ≡ text.old.items ++ text_of (s.call_lines j)) }
{
    if j == 0 {
        return Ok(());
    }
    put_line(text, &call_line(j - 1, b"n"))?;
    Ok(())
}

/// Adds main, after so many functions.
fn put_main(text: &mut Vec<u8>, size: u32) -> Result<(), AllocError>
    ensures { OnOk result (text.new.items ≡ text.old.items ++ text_of (s.main_lines size)) }
{
    put(text, b"int main(void) {\n  int r;\n")?;
    put_line(text, &call_line(size.saturating_sub(1), b"64"))?;
    put(text, b"  return r;\n}\n")?;
    Ok(())
}

/// Adds bytes.
fn put(text: &mut Vec<u8>, bytes: &[u8]) -> Result<(), AllocError>
    ensures { OnOk result (text.new.items ≡ text.old.items ++ bytes.now) }
{
    text.extend_from_slice(bytes)
}

/// Adds a line.
fn put_line(text: &mut Vec<u8>, line: &TextLine) -> Result<(), AllocError>
    ensures { (words : List ℕ) → line.now ≡ ended words → OnOk result
        (text.new.items ≡ text.old.items ++ text_of (words ∷ [])) }
{
    put(text, line.as_bytes())
}

fn head_line(j: u32) -> TextLine
    ensures { result ≡ ended (s.head_line j) }
{
    let mut line = TextLine::new();
    line.push_text(b"int f");
    line.push_number(j);
    line.push_text(b"(int n) {\n");
    line
}

fn loop_line(added: u32) -> TextLine
    ensures { result ≡ ended (s.loop_line added) }
{
    let mut line = TextLine::new();
    line.push_text(b"  for (i = 0; i < n; i = i + 1) { a[i] = a[i] + ");
    line.push_number(added);
    line.push_text(b"; s = s + a[i]; }\n");
    line
}

fn call_line(k: u32, count: &[u8]) -> TextLine
    requires { length count.now ≤ 2 }
    ensures { result ≡ ended (s.call_line k count.now) }
{
    let mut line = TextLine::new();
    line.push_text(b"  r = f");
    line.push_number(k);
    line.push(b'(');
    line.push_text(count);
    line.push_text(b");\n");
    line
}
