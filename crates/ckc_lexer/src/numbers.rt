ghost use Rattle.std.specs.Prelude.{◌≡◌, ℕ, ◌<◌, ◌≤◌, ◌⊎◌, Bool, true, length, slice_index, MatchOption};
ghost use Rattle.ckc_syntax.specs.Bytes.{AllBytes};
ghost use Rattle.ckc_lexer.specs.Bytes.{is_word_byte};
ghost use Rattle.ckc_syntax.specs.Longest.{Longest};
ghost use Rattle.ckc_syntax.specs.Digits.{digit_value, is_digit_in, value_in};
ghost use Rattle.ckc_lexer.specs.Numbers.{has_suffix, is_hexadecimal, IsNumeral, IsNumber, IsNumberItem};

use crate::bytes::word_len;
use crate::items::{BAD_LITERAL, Found, Item};
use ckc_syntax::{TokenKind, digit_value};

/// The number at the front of a text.
pub fn number_at(text: &[u8]) -> Found
    requires some { 0 < length text.now }
    requires word { is_word_byte (slice_index text.now 0) ≡ true }
    ensures { Longest IsNumberItem text.now result.len result.item }
{
    let len = word_len(text);
    let item = match number_of(&text[..len]) {
        Some((value, unsigned)) => Item::Token(TokenKind::Number(value, unsigned)),
        None => Item::Broken(BAD_LITERAL),
    };
    Found { len, item }
}

/// The value of a number, and whether its type is `unsigned`.
fn number_of(word: &[u8]) -> Option<(u32, bool)>
    ensures { MatchOption result
        ((n : ℕ) (unsigned : Bool) → IsNumber word.now n unsigned → ⊥)
        (λ found. IsNumber word.now found.0 found.1) }
{
    let suffixed = has_suffix(word);
    let digits = if suffixed {
        &word[..word.len() - 1]
    } else {
        word
    };
    let value = numeral_of(digits)?;
    Some((value, suffixed || value >= 1 << 31))
}

fn has_suffix(word: &[u8]) -> bool
    ensures value { result ≡ has_suffix word.now }
    ensures some { result ≡ true → 0 < length word.now }
{
    match word.last() {
        Some(last) => *last == b'u' || *last == b'U',
        None => false,
    }
}

fn numeral_of(digits: &[u8]) -> Option<u32>
    ensures { MatchOption result
        ((n : ℕ) → IsNumeral digits.now n → ⊥)
        (λ n. IsNumeral digits.now n) }
{
    if is_hexadecimal(digits) {
        value_of(16, &digits[2..])
    } else if !digits.is_empty() && digits[0] == b'0' {
        value_of(8, digits)
    } else {
        value_of(10, digits)
    }
}

fn is_hexadecimal(digits: &[u8]) -> bool
    ensures value { result ≡ is_hexadecimal digits.now }
    ensures long { result ≡ true → 2 ≤ length digits.now }
{
    digits.len() > 1 && digits[0] == b'0' && (digits[1] == b'x' || digits[1] == b'X')
}

/// The value of the digits, if there are some, all are of the radix and the value is below 2^32.
fn value_of(radix: u64, digits: &[u8]) -> Option<u32>
    requires low { 0 < radix }
    requires high { radix ≤ 16 }
    ensures { MatchOption result
        (0 < length digits.now → AllBytes (is_digit_in radix) digits.now
        → value_in radix digits.now < 4294967296 → ⊥)
        (λ n. (0 < length digits.now) × AllBytes (is_digit_in radix) digits.now
        × (n ≡ value_in radix digits.now)) }
{
    if digits.is_empty() {
        return None;
    }
    let mut value: u64 = 0;
    for b in digits {
        let digit = digit_value(*b);
        if digit >= radix {
            return None;
        }
        value = value * radix + digit;
        if value > 0xFFFF_FFFF {
            return None;
        }
    }
    u32::try_from(value).ok()
}
