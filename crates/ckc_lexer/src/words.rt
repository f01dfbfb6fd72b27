ghost use Rattle.std.specs.Prelude.{◌≡◌, ◌<◌, ◌&&◌, true, nat_le, length, slice_index, bytes_eq};
ghost use Rattle.std.specs.List.{list_any};
ghost use Rattle.ckc_lexer.specs.Bytes.{is_word_byte};
ghost use Rattle.ckc_syntax.specs.Longest.{Longest};
ghost use Rattle.ckc_lexer.specs.Words.{keywords, plain_keywords, is_keyword, word_item, IsWordItem};

use crate::bytes::word_len;
use crate::items::{Found, Item, LONG_NAME};
use ckc_syntax::TokenKind;

const LONGEST_NAME: usize = 63;

/// The fewest bytes of a keyword that does not begin with `_`.
const SHORTEST_PLAIN: usize = 2;

/// The most bytes of one.
const LONGEST_PLAIN: usize = 8;

/// The keywords that do not begin with `_`.
const PLAIN: &[&[u8]] = &[
    b"int",
    b"unsigned",
    b"char",
    b"void",
    b"struct",
    b"static",
    b"if",
    b"else",
    b"for",
    b"while",
    b"return",
    b"break",
    b"continue",
    b"sizeof",
    b"NULL",
    b"EOF",
    b"auto",
    b"case",
    b"const",
    b"default",
    b"do",
    b"double",
    b"enum",
    b"extern",
    b"float",
    b"goto",
    b"inline",
    b"long",
    b"register",
    b"restrict",
    b"short",
    b"signed",
    b"switch",
    b"typedef",
    b"union",
    b"volatile",
];

/// The keywords that begin with `_`.
const UNDERSCORED: &[&[u8]] = &[
    b"_Ptr",
    b"_Array_ptr",
    b"_Nt_array_ptr",
    b"_Checked",
    b"_Unchecked",
    b"_Nt_checked",
    b"_Bundled",
    b"_Dynamic_check",
    b"_Dynamic_bounds_cast",
    b"_Assume_bounds_cast",
    b"_Alignas",
    b"_Alignof",
    b"_Atomic",
    b"_Bool",
    b"_Complex",
    b"_Generic",
    b"_Imaginary",
    b"_Noreturn",
    b"_Static_assert",
    b"_Thread_local",
    b"_Where",
    b"_For_any",
    b"_Itype_for_any",
];

/// The words that `stdchecked.h` makes keywords.
const CHECKED_KEYWORDS: &[&[u8]] = &[
    b"ptr",
    b"array_ptr",
    b"nt_array_ptr",
    b"checked",
    b"unchecked",
    b"nt_checked",
    b"dynamic_check",
    b"dynamic_bounds_cast",
    b"assume_bounds_cast",
];

/// The name or keyword at the front of a text.
pub fn word_at(checked: bool, text: &[u8]) -> Found
    requires some { 0 < length text.now }
    requires word { is_word_byte (slice_index text.now 0) ≡ true }
    ensures { Longest (IsWordItem checked) text.now result.len result.item }
{
    let len = word_len(text);
    let item = word_item(checked, &text[..len]);
    Found { len, item }
}

fn word_item(checked: bool, word: &[u8]) -> Item
    ensures { result ≡ word_item checked word.now }
{
    if word.len() > LONGEST_NAME {
        Item::Broken(LONG_NAME)
    } else if is_keyword(checked, word) {
        Item::Token(TokenKind::Keyword)
    } else {
        Item::Token(TokenKind::Name)
    }
}

fn is_keyword(checked: bool, word: &[u8]) -> bool
    ensures { result ≡ is_keyword checked word.now }
{
    is_reserved(word) || (checked && is_in(word, CHECKED_KEYWORDS))
}

fn is_reserved(word: &[u8]) -> bool
    ensures { result ≡ list_any (λ k. bytes_eq k word.now) keywords }
{
    if !word.is_empty() && word[0] == b'_' {
        is_in(word, UNDERSCORED)
    } else {
        is_plain(word)
    }
}

/// Whether a word is a keyword that does not begin with `_`. Most words are too long or too short to be compared.
#[tactic(auto, using(crate::proofs::Keywords::none_plain))]
fn is_plain(word: &[u8]) -> bool
    ensures { result ≡ list_any (λ k. bytes_eq k word.now) plain_keywords }
{
    if fits_plain(word.len()) {
        is_in(word, PLAIN)
    } else {
        false
    }
}

/// Whether a keyword that does not begin with `_` may have so many bytes.
fn fits_plain(len: usize) -> bool
    ensures { result ≡ (nat_le 2 len && nat_le len 8) }
{
    SHORTEST_PLAIN <= len && len <= LONGEST_PLAIN
}

fn is_in(word: &[u8], table: &[&[u8]]) -> bool
    ensures { result ≡ list_any (λ k. bytes_eq k.now word.now) table.now }
{
    table.iter().any(|k| *k == word)
}
