ghost use Rattle.std.specs.Prelude.{◌≡◌, ◌||◌, ◌<◌, ◌≤◌, ◌+◌, ◌^◌, length, slice_index, IsUtf8};
ghost use Rattle.ckc_base.specs.Phases.{Exact, viewed};
ghost use Rattle.ckc_base.specs.Places.{longest_text};
ghost use Rattle.ckc_syntax.specs.Longest.{Longest};
ghost use Rattle.ckc_lexer.specs.Spelling.{Spells};
ghost use Rattle.ckc_lexer.specs.code.Reading.{moved};
ghost use Rattle.ckc_lexer.specs.Cut.{is_stdchecked};
ghost use Rattle.ckc_lexer.specs.Phase.{lexing, tokens_in};
ghost use Rattle.ckc_lexer.specs.code.Reading.{IsReading};
ghost use Rattle.ckc_lexer.specs.Places.{place_after};

use crate::bytes::{Class, class_of, is_blank};
use crate::comments::slash_at;
use crate::directives::hash_at;
use crate::items::{Context, Found, Here, Item, NO_TOKEN};
use crate::literals::{character_at, text_at};
use crate::marks::mark_at;
use crate::numbers::number_at;
use crate::words::word_at;
use ckc_base::{Fault, LONG_TEXT, LONGEST_TEXT, Pos, START, Seq, refused};
use ckc_syntax::{Directive, Token, TokenKind};
use std::alloc::Global;
use std::str;

/// The tokens of a text. Each lends its bytes of the text, and no byte is copied. Lines and columns count from
/// 1, a column counts bytes, and only LF ends a line.
///
/// A text is refused for its first fault: 201 at its start if it has over 262,144 bytes; else, in the order
/// of the text, 101 for a byte outside comments that begins no token, 102 for a comment that is open at the
/// end, 103 for a bad number, character or string, 104 for a name of over 63 bytes, 105 for a line begun by
/// `#` that is no directive, each at its first byte. Where memory runs out is left open.
pub fn lex<'a>(alloc: Global, text: &'a [u8]) -> Result<Seq<Token<'a>>, Fault>
    // Ok of exactly the tokens of the text, the bytes of each being the spelling at its place; a refusal for
    // exactly its first fault.
    ensures exact { Exact lexing text.now (viewed (tokens_in text.now) result) }
{
    if text.len() > LONGEST_TEXT {
        return Err(refused(LONG_TEXT, START));
    }
    tokens_of(alloc, text)
}

fn tokens_of<'a>(alloc: Global, text: &'a [u8]) -> Result<Seq<Token<'a>>, Fault>
    requires { length text.now ≤ longest_text }
    ensures { IsReading text.now result }
{
    let mut tokens = Seq::new(alloc);
    let mut here = Here {
        line: 1,
        col: 1,
        fresh: true,
    };
    let mut checked = false;
    let mut rest = text;
    while !rest.is_empty() {
        let context = Context {
            fresh: here.fresh,
            checked,
        };
        let found = item_at(context, rest);
        let (word, after) = rest.split_at(found.len);
        let pos = Pos {
            line: here.line,
            col: here.col,
        };
        match found.item {
            Item::Gap => {}
            Item::Token(kind) => {
                let text = text_of(word);
                tokens.push(Token { kind, text, pos })?;
            }
            Item::Broken(code) => return Err(refused(code, pos)),
        }
        checked = checked_after(checked, found.item);
        here = moved(here, word);
        rest = after;
    }
    Ok(tokens)
}

/// The place just past a text, for what is missing at its end.
pub fn end_of(text: &[u8]) -> Pos
    requires { length text.now ≤ longest_text }
    ensures { result ≡ place_after text.now }
{
    let end = moved(
        Here {
            line: 1,
            col: 1,
            fresh: true,
        },
        text,
    );
    Pos {
        line: end.line,
        col: end.col,
    }
}

/// Whether `#include <stdchecked.h>` has come.
fn checked_after(checked: bool, item: Item) -> bool
    ensures { result ≡ (checked || is_stdchecked item) }
{
    checked
        || matches!(
            item,
            Item::Token(TokenKind::Directive(Directive::Stdchecked))
        )
}

/// Bytes in ASCII as text.
fn text_of(bytes: &[u8]) -> &str
    requires { IsUtf8 bytes.now }
    ensures { result.now ≡ bytes.now }
{
    unsafe { str::from_utf8_unchecked(bytes) }
}

/// The place after a word.
fn moved(mut here: Here, word: &[u8]) -> Here
    requires line { here.line + length word.now < 2 ^ 32 }
    requires col { here.col + length word.now < 2 ^ 32 }
    ensures { result ≡ moved here word.now }
{
    for b in word {
        here = if *b == b'\n' {
            Here {
                line: here.line + 1,
                col: 1,
                fresh: true,
            }
        } else {
            Here {
                line: here.line,
                col: here.col + 1,
                fresh: here.fresh && is_blank(*b),
            }
        };
    }
    here
}

/// The item at the front of a text.
fn item_at(context: Context, text: &[u8]) -> Found
    requires { 0 < length text.now }
    ensures { Longest (Spells context) text.now result.len result.item }
{
    match class_of(text[0]) {
        Class::Blank => Found {
            len: 1,
            item: Item::Gap,
        },
        Class::Letter => word_at(context.checked, text),
        Class::Digit => number_at(text),
        Class::Apostrophe => character_at(text),
        Class::Quotation => text_at(text),
        Class::Slash => slash_at(text),
        Class::Hash => hash_at(context.fresh, text),
        Class::Mark => mark_at(text),
        Class::Other => Found {
            len: 1,
            item: Item::Broken(NO_TOKEN),
        },
    }
}
