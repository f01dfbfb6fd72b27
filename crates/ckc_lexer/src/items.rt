use ckc_syntax::TokenKind;

/// What a part of a text is: a gap, a token, or broken, with the number of the refusal.
#[derive(Clone, Copy)]
pub enum Item {
    Gap,
    Token(TokenKind),
    Broken(u16),
}

/// What the bytes before a place decide: whether its line has only blanks yet, and whether
/// `#include <stdchecked.h>` has come.
#[derive(Clone, Copy)]
pub struct Context {
    pub fresh: bool,
    pub checked: bool,
}

/// An item at the front of a text, and how many bytes it has.
#[derive(Clone, Copy)]
pub struct Found {
    pub len: usize,
    pub item: Item,
}

/// A place in a text, and whether its line has only blanks yet.
#[derive(Clone, Copy)]
pub struct Here {
    pub line: u32,
    pub col: u32,
    pub fresh: bool,
}

/// E101: a byte begins no token.
pub const NO_TOKEN: u16 = 101;
/// E102: a comment is open at the end.
pub const OPEN_COMMENT: u16 = 102;
/// E103: a bad number, character or string.
pub const BAD_LITERAL: u16 = 103;
/// E104: a name has over 63 bytes.
pub const LONG_NAME: u16 = 104;
/// E105: a line begun by `#` is no directive.
pub const BAD_DIRECTIVE: u16 = 105;
