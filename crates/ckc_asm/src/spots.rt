//! The words of a line.
ghost use Rattle.std.specs.Prelude.{◌≡◌, ◌+◌, ◌<◌, ◌≤◌, ℕ, false, ◌∷◌, length, take, drop, map, slice_index, IfOk};
ghost use Rattle.std.specs.List.{prefix_len};
ghost use Rattle.ckc_base.specs.Places.{longest_text};
ghost use Rattle.ckc_asm.specs.Cut.{is_blank, is_mark, is_hash, is_word_byte, cut};
ghost use Rattle.ckc_asm.specs.code.Rows.{word_of};

use std::alloc::{AllocError, Global};

/// A word of a line, with its column from 1.
#[derive(Clone, Copy)]
pub struct Spot<'a> {
    pub col: u32,
    pub text: &'a [u8],
}

/// The words of a line.
pub fn words_of<'a>(alloc: Global, line: &'a [u8]) -> Result<Vec<Spot<'a>>, AllocError>
    requires { length line.now ≤ longest_text }
    ensures { IfOk result (λ words. map word_of words.items ≡ cut 1 line.now) }
{
    let mut words = Vec::new(alloc);
    let mut at = 0;
    while at < line.len() {
        if is_hash(line[at]) {
            return Ok(words);
        }
        if is_blank(line[at]) {
            at += 1;
        } else {
            let len = word_len(&line[at..]);
            words.push(Spot {
                col: at as u32 + 1,
                text: &line[at..at + len],
            })?;
            at += len;
        }
    }
    Ok(words)
}

/// The length of the word at the front.
fn word_len(rest: &[u8]) -> usize
    requires some { 0 < length rest.now }
    requires no_hash { is_hash (slice_index rest.now 0) ≡ false }
    requires no_blank { is_blank (slice_index rest.now 0) ≡ false }
    ensures word { (col : ℕ) → cut col rest.now ≡
        (record { col = col; text = take result rest.now }) ∷ cut (col + result)
        (drop result rest.now) }
    ensures some { 0 < result }
    ensures within { result ≤ length rest.now }
{
    if is_mark(rest[0]) { 1 } else { run_len(rest) }
}

/// How many bytes of a word stand at the front.
fn run_len(rest: &[u8]) -> usize
    ensures run { result ≡ prefix_len is_word_byte rest.now }
    ensures within { result ≤ length rest.now }
{
    for (k, b) in rest.iter().enumerate() {
        if !is_word_byte(*b) {
            return k;
        }
    }
    rest.len()
}

fn is_blank(b: u8) -> bool
    ensures { result ≡ is_blank b }
{
    b == b' ' || b == b'\t' || b == b'\r'
}

fn is_mark(b: u8) -> bool
    ensures { result ≡ is_mark b }
{
    b == b',' || b == b'(' || b == b')' || b == b':'
}

fn is_hash(b: u8) -> bool
    ensures { result ≡ is_hash b }
{
    b == b'#'
}

fn is_word_byte(b: u8) -> bool
    ensures { result ≡ is_word_byte b }
{
    !(is_blank(b) || is_mark(b) || is_hash(b))
}
