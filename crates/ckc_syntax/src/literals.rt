ghost use Rattle.std.specs.Prelude.{◌≡◌, ℕ, ◌+◌, ◌<◌, ◌≤◌, List, length, slice_index, MatchOption, IfOk};
ghost use Rattle.ckc_syntax.specs.Longest.{Longest, NoFront};
ghost use Rattle.ckc_syntax.specs.Literals.{is_plain, simple_escape, IsPiece, IsDigitsAfter, IsEscape, IsLiteral};
ghost use Rattle.ckc_syntax.specs.code.Decoded.{decoded};
ghost use Rattle.ckc_syntax.specs.code.DigitReading.{IsMostDigits};

use crate::digits::digit_value;
use ckc_base::Bytes;
use std::alloc::{AllocError, Global};

/// One character of a literal: how many bytes spell it, and its value.
#[derive(Clone, Copy)]
pub struct Piece {
    pub len: usize,
    pub value: u8,
}

/// The bytes of a string by its spelling, with the quotes and the escapes. Of a spelling that is no literal they are
/// those of the characters that it has in front.
pub fn string_bytes(alloc: Global, spelling: &str) -> Result<Bytes, AllocError>
    ensures value { IfOk result (λ bytes. bytes ≡ decoded spelling.now) }
    ensures literal { (values : List ℕ) → IsLiteral 34 spelling.now values
        → IfOk result (λ bytes. bytes ≡ values) }
{
    let text = spelling.as_bytes();
    let mut bytes = Bytes::new(alloc);
    if text.is_empty() {
        return Ok(bytes);
    }
    let mut at = 1;
    while let Some(piece) = piece_at(b'"', &text[at..]) {
        bytes.push(piece.value)?;
        at += piece.len;
    }
    Ok(bytes)
}

/// The longest character at the front of a text, in a literal with this quote.
pub fn piece_at(quote: u8, text: &[u8]) -> Option<Piece>
    ensures { MatchOption result
        (NoFront (IsPiece quote) text.now)
        (λ p. Longest (IsPiece quote) text.now p.len p.value) }
{
    if text.is_empty() {
        return None;
    }
    if text[0] == b'\\' {
        return escape_at(text);
    }
    if is_plain(quote, text[0]) {
        Some(Piece {
            len: 1,
            value: text[0],
        })
    } else {
        None
    }
}

fn is_plain(quote: u8, b: u8) -> bool
    ensures { result ≡ is_plain quote b }
{
    b' ' <= b && b <= b'~' && b != quote && b != b'\\'
}

fn escape_at(text: &[u8]) -> Option<Piece>
    requires some { 0 < length text.now }
    requires backslash { slice_index text.now 0 ≡ 92 }
    ensures { MatchOption result (NoFront IsEscape text.now)
        (λ p. Longest IsEscape text.now p.len p.value) }
{
    if text.len() < 2 {
        return None;
    }
    if text[1] == b'x' {
        return digits_after(2, 2, 16, text);
    }
    if digit_value(text[1]) < 8 {
        return digits_after(1, 3, 8, text);
    }
    let value = simple_escape(text[1])?;
    Some(Piece { len: 2, value })
}

fn simple_escape(b: u8) -> Option<u8>
    ensures { result ≡ simple_escape b }
{
    match b {
        b'n' => Some(b'\n'),
        b't' => Some(b'\t'),
        b'r' => Some(b'\r'),
        b'a' => Some(7),
        b'b' => Some(8),
        b'f' => Some(12),
        b'v' => Some(11),
        b'\\' | b'\'' | b'"' | b'?' => Some(b),
        _ => None,
    }
}

/// An escape with digits after `lead` bytes: as many as there are, up to `most`, with a value below 256.
fn digits_after(lead: usize, most: usize, radix: u64, text: &[u8]) -> Option<Piece>
    requires lead { lead ≤ length text.now }
    requires low { 0 < radix }
    requires high { radix ≤ 16 }
    ensures { MatchOption result
        (NoFront (IsDigitsAfter lead most radix) text.now)
        (λ p. Longest (IsDigitsAfter lead most radix) text.now p.len p.value) }
{
    let digits = digits_at(most, radix, &text[lead..]);
    if digits.len == 0 {
        return None;
    }
    Some(Piece {
        len: lead + digits.len,
        value: digits.value,
    })
}

/// As many digits as a text begins with, up to `most`, with a value below 256.
fn digits_at(most: usize, radix: u64, text: &[u8]) -> Piece
    requires low { 0 < radix }
    requires high { radix ≤ 16 }
    ensures { IsMostDigits most radix text.now result.len result.value }
{
    let mut value: u64 = 0;
    for (len, b) in text.iter().enumerate() {
        let digit = digit_value(*b);
        if len >= most || digit >= radix || value * radix + digit > 255 {
            return Piece {
                len,
                value: value as u8,
            };
        }
        value = value * radix + digit;
    }
    Piece {
        len: text.len(),
        value: value as u8,
    }
}
