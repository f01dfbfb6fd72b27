ghost use Rattle.std.specs.Prelude.{◌≡◌, ℕ, ◌+◌, ◌<◌, ◌≤◌, List, [], ◌∷◌, length, slice_index, option_map, MatchOption, drop, take};
ghost use Rattle.ckc_syntax.specs.Bytes.{AllBytes};
ghost use Rattle.ckc_syntax.specs.Longest.{Longest, NoFront};
ghost use Rattle.ckc_syntax.specs.Digits.{is_digit_in, value_in};
ghost use Rattle.ckc_syntax.specs.Literals.{is_plain, simple_escape, IsPiece, IsDigitsAfter, IsEscape, IsLiteral};
ghost use Rattle.ckc_lexer.specs.Literals.{CharacterCases, TextCases};
ghost use Rattle.ckc_syntax.specs.code.DigitReading.{IsMostDigits};
ghost use Rattle.ckc_lexer.specs.code.LiteralReading.{IsOnlyLiteral};

use crate::items::{BAD_LITERAL, Found, Item};
use ckc_syntax::{Piece, TokenKind, piece_at};

/// The character at the front of a text.
pub fn character_at(text: &[u8]) -> Found
    requires some { 0 < length text.now }
    requires quote { slice_index text.now 0 ≡ 39 }
    ensures { Longest CharacterCases text.now result.len result.item }
{
    match character_of(text) {
        Some(piece) => Found {
            len: piece.len,
            item: Item::Token(TokenKind::Character(piece.value)),
        },
        None => Found {
            len: 1,
            item: Item::Broken(BAD_LITERAL),
        },
    }
}

/// The string at the front of a text.
pub fn text_at(text: &[u8]) -> Found
    requires some { 0 < length text.now }
    requires quote { slice_index text.now 0 ≡ 34 }
    ensures { Longest TextCases text.now result.len result.item }
{
    match text_len(text) {
        Some(len) => Found {
            len,
            item: Item::Token(TokenKind::Text),
        },
        None => Found {
            len: 1,
            item: Item::Broken(BAD_LITERAL),
        },
    }
}

fn character_of(text: &[u8]) -> Option<Piece>
    requires some { 0 < length text.now }
    requires quote { slice_index text.now 0 ≡ 39 }
    ensures { MatchOption result
        ((m value : ℕ) → m ≤ length text.now → IsLiteral 39 (take m text.now) (value ∷ []) → ⊥)
        (λ p. IsOnlyLiteral 39 text.now p.len (p.value ∷ [])) }
{
    let piece = piece_at(b'\'', &text[1..])?;
    let end = 1 + piece.len;
    if end < text.len() && text[end] == b'\'' {
        Some(Piece {
            len: end + 1,
            value: piece.value,
        })
    } else {
        None
    }
}

/// The length of the string at the front of a text.
fn text_len(text: &[u8]) -> Option<usize>
    requires some { 0 < length text.now }
    requires quote { slice_index text.now 0 ≡ 34 }
    ensures { MatchOption result
        ((m : ℕ) (values : List ℕ) → m ≤ length text.now → IsLiteral 34 (take m text.now) values
        → ⊥)
        (λ n. (values : List ℕ) × IsOnlyLiteral 34 text.now n values) }
{
    let mut len = 1;
    while let Some(piece) = piece_at(b'"', &text[len..]) {
        len += piece.len;
    }
    if len < text.len() && text[len] == b'"' {
        Some(len + 1)
    } else {
        None
    }
}
