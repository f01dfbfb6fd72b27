ghost use Rattle.std.specs.Prelude.{◌≡◌, ◌<◌, [], ◌∷◌, true, length, slice_index};
ghost use Rattle.ckc_lexer.specs.Bytes.{is_mark};
ghost use Rattle.ckc_syntax.specs.Longest.{Longest};
ghost use Rattle.ckc_lexer.specs.Marks.{is_mark_text, IsMarkItem};

use crate::items::{Found, Item};
use ckc_syntax::TokenKind;

/// The mark at the front of a text.
pub fn mark_at(text: &[u8]) -> Found
    requires some { 0 < length text.now }
    requires mark { is_mark (slice_index text.now 0) ≡ true }
    ensures { Longest IsMarkItem text.now result.len result.item }
{
    let len = if text.len() > 1 && is_double(text[0], text[1]) {
        2
    } else {
        1
    };
    Found {
        len,
        item: Item::Token(TokenKind::Mark),
    }
}

/// Whether two bytes are a mark.
fn is_double(a: u8, b: u8) -> bool
    ensures { result ≡ is_mark_text (a ∷ b ∷ []) }
{
    match a {
        b'-' => b == b'>' || b == b'-' || b == b'=',
        b'<' => b == b'<' || b == b'=',
        b'>' | b'=' | b'!' | b'*' | b'/' | b'%' | b'^' => b == b'=',
        b'+' => b == b'+' || b == b'=',
        b'&' => b == b'&' || b == b'=',
        b'|' => b == b'|' || b == b'=',
        _ => false,
    }
}
