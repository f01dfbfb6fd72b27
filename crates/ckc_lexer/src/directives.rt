ghost use Rattle.std.specs.Prelude.{◌≡◌, ◌<◌, ◌≤◌, length, drop, slice_index, option_and_then, codes};
ghost use Rattle.std.specs.List.{prefix_len};
ghost use Rattle.std.specs.Option.{option_copied};
ghost use Rattle.ckc_syntax.specs.Longest.{Longest};
ghost use Rattle.ckc_lexer.specs.Bytes.{is_space};
ghost use Rattle.ckc_lexer.specs.Directives.{HashCases, DirectiveCases};
ghost use Rattle.ckc_lexer.specs.code.DirectiveReading.{behind_spaces, behind_some_spaces, strip, header_of, scope_of, pragma_of, body_of, IsTrimmed};

use crate::bytes::is_space;
use crate::comments::line_len;
use crate::items::{BAD_DIRECTIVE, Found, Item, NO_TOKEN};
use ckc_syntax::{Directive, TokenKind};

const INCLUDE: &[u8] = b"include";

const PRAGMA: &[u8] = b"pragma";

const CHECKED_SCOPE: &[u8] = b"CHECKED_SCOPE";

const STDIO: &[u8] = b"<stdio.h>";

const STDLIB: &[u8] = b"<stdlib.h>";

const STDCHECKED: &[u8] = b"<stdchecked.h>";

const ON: &[u8] = b"on";

const UPPER_ON: &[u8] = b"ON";

const OFF: &[u8] = b"off";

const UPPER_OFF: &[u8] = b"OFF";

/// The directive at the front of a text; `fresh` says that it comes first in its line.
pub fn hash_at(fresh: bool, text: &[u8]) -> Found
    requires some { 0 < length text.now }
    requires hash { slice_index text.now 0 ≡ 35 }
    ensures { Longest (HashCases fresh) text.now result.len result.item }
{
    if !fresh {
        return Found {
            len: 1,
            item: Item::Broken(NO_TOKEN),
        };
    }
    directive_at(text)
}

fn directive_at(text: &[u8]) -> Found
    requires some { 0 < length text.now }
    requires hash { slice_index text.now 0 ≡ 35 }
    ensures { Longest DirectiveCases text.now result.len result.item }
{
    let line = line_len(text);
    let len = without_spaces(&text[..line]);
    match directive_of(&text[..len]) {
        Some(directive) => Found {
            len,
            item: Item::Token(TokenKind::Directive(directive)),
        },
        None => Found {
            len: line,
            item: Item::Broken(BAD_DIRECTIVE),
        },
    }
}

/// The length of a line without the spaces at its end.
fn without_spaces(line: &[u8]) -> usize
    ensures { IsTrimmed line.now result }
{
    let mut len = line.len();
    while len > 0 && is_space(line[len - 1]) {
        len -= 1;
    }
    len
}

/// How many spaces a text begins with.
fn spaces_len(text: &[u8]) -> usize
    ensures value { result ≡ prefix_len is_space text.now }
    ensures within { result ≤ length text.now }
{
    for (k, b) in text.iter().enumerate() {
        if !is_space(*b) {
            return k;
        }
    }
    text.len()
}

fn behind_spaces(text: &[u8]) -> &[u8]
    ensures { result.now ≡ behind_spaces text.now }
{
    &text[spaces_len(text)..]
}

fn behind_some_spaces(text: &[u8]) -> Option<&[u8]>
    ensures { option_copied result ≡ behind_some_spaces text.now }
{
    let spaces = spaces_len(text);
    if spaces == 0 {
        return None;
    }
    Some(&text[spaces..])
}

fn strip<'a>(text: &'a [u8], word: &[u8]) -> Option<&'a [u8]>
    ensures { option_copied result ≡ strip word.now text.now }
{
    if text.starts_with(word) {
        Some(&text[word.len()..])
    } else {
        None
    }
}

#[tactic(auto, unfolding(crate::specs::code::DirectiveReading::body_of, crate::specs::code::DirectiveReading::include_or_pragma))]
fn directive_of(line: &[u8]) -> Option<Directive>
    requires some { 0 < length line.now }
    ensures { result ≡ body_of (drop 1 line.now) }
{
    let body = behind_spaces(&line[1..]);
    match strip(body, INCLUDE) {
        Some(rest) => header_of(behind_spaces(rest)),
        None => pragma_at(body),
    }
}

fn pragma_at(text: &[u8]) -> Option<Directive>
    ensures { result ≡ option_and_then pragma_of (strip (codes "pragma") text.now) }
{
    let rest = strip(text, PRAGMA)?;
    pragma_of(rest)
}

#[tactic(auto, unfolding(crate::specs::code::DirectiveReading::pragma_of))]
fn pragma_of(text: &[u8]) -> Option<Directive>
    ensures { result ≡ pragma_of text.now }
{
    let rest = behind_some_spaces(text)?;
    let rest = strip(rest, CHECKED_SCOPE)?;
    let word = behind_some_spaces(rest)?;
    scope_of(word)
}

fn header_of(word: &[u8]) -> Option<Directive>
    ensures { result ≡ header_of word.now }
{
    if word == STDIO {
        Some(Directive::Stdio)
    } else if word == STDLIB {
        Some(Directive::Stdlib)
    } else if word == STDCHECKED {
        Some(Directive::Stdchecked)
    } else {
        None
    }
}

fn scope_of(word: &[u8]) -> Option<Directive>
    ensures { result ≡ scope_of word.now }
{
    if word == ON || word == UPPER_ON {
        Some(Directive::ScopeOn)
    } else if word == OFF || word == UPPER_OFF {
        Some(Directive::ScopeOff)
    } else {
        None
    }
}
