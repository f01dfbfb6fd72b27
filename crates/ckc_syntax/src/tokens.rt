ghost use Rattle.std.specs.Prelude.{◌≡◌};

use ckc_base::Pos;
use std::marker::Model;

/// What a token is. The flag of a number says that its type is `unsigned`.
#[derive(Clone, Copy, Debug)]
pub enum TokenKind {
    Name,
    Keyword,
    Number(u32, bool),
    Character(u8),
    Text,
    Mark,
    Directive(Directive),
}

/// The directives: `#include <stdio.h>`, `#include <stdlib.h>`, `#include <stdchecked.h>`, and
/// `#pragma CHECKED_SCOPE on` and `off` (Checked C specification 0.9, section 3, on the scope pragma).
#[derive(Clone, Copy, Debug)]
pub enum Directive {
    Stdio,
    Stdlib,
    Stdchecked,
    ScopeOn,
    ScopeOff,
}

/// A token: its kind, its spelling as a slice of the source, and the place of its first byte.
#[derive(Clone, Copy)]
pub struct Token<'a> {
    pub kind: TokenKind,
    pub text: &'a str,
    pub pos: Pos,
}

/// A spelling that is lent from a text, as names are in trees. Contracts see its bytes, and not where they lie in
/// memory, so that two with the same bytes are equal.
#[derive(Drop)]
pub struct Spelling<'a> {
    text: &'a str,
}

impl<'a> Model for Spelling<'a> {
    ghost use Rattle.std.specs.Prelude.{List, ℕ};
    ghost use Rattle.std.specs.Coded.{coded_list, coded_ℕ};

    ghost Value = { List ℕ };

    ghost coded = { coded_list coded_ℕ };

    ghost view = { λ s. s.text.now };
}

impl<'a> Spelling<'a> {
    /// The spelling that a text is.
    pub fn new(text: &'a str) -> Spelling<'a>
        ensures { result ≡ text.now }
    {
        Spelling { text }
    }

    /// The text, which is lent as long as the source is.
    pub fn as_str(&self) -> &'a str
        ensures { result.now ≡ self.now }
    {
        self.text
    }
}
