ghost use Rattle.std.specs.Prelude.{◌≡◌, ◌<◌, ◌≤◌, length, slice_index, not};
ghost use Rattle.ckc_lexer.specs.Bytes.{is_feed};
ghost use Rattle.ckc_syntax.specs.Longest.{Longest};
ghost use Rattle.ckc_lexer.specs.code.Longest.{IsRun};
ghost use Rattle.ckc_lexer.specs.Comments.{IsSlashItem};

use crate::items::{Found, Item, OPEN_COMMENT};
use ckc_syntax::TokenKind;

/// The comment at the front of a text, or the mark `/` or `/=`.
#[tactic(auto, using(crate::proofs::CommentFronts::slash_longest, crate::proofs::CommentFronts::division_longest))]
pub fn slash_at(text: &[u8]) -> Found
    requires some { 0 < length text.now }
    requires slash { slice_index text.now 0 ≡ 47 }
    ensures { Longest IsSlashItem text.now result.len result.item }
{
    if text.len() > 1 && text[1] == b'/' {
        return Found {
            len: line_len(text),
            item: Item::Gap,
        };
    }
    if text.len() > 1 && text[1] == b'*' {
        return block_at(text);
    }
    if text.len() > 1 && text[1] == b'=' {
        return Found {
            len: 2,
            item: Item::Token(TokenKind::Mark),
        };
    }
    Found {
        len: 1,
        item: Item::Token(TokenKind::Mark),
    }
}

/// How many bytes a text has before its first line feed.
pub fn line_len(text: &[u8]) -> usize
    ensures { IsRun (λ b. not (is_feed b)) text.now result }
{
    for (k, b) in text.iter().enumerate() {
        if *b == b'\n' {
            return k;
        }
    }
    text.len()
}

fn block_at(text: &[u8]) -> Found
    requires long { 2 ≤ length text.now }
    requires slash { slice_index text.now 0 ≡ 47 }
    requires star { slice_index text.now 1 ≡ 42 }
    ensures { Longest IsSlashItem text.now result.len result.item }
{
    let mut len = 2;
    while len + 1 < text.len() {
        if text[len] == b'*' && text[len + 1] == b'/' {
            return Found {
                len: len + 2,
                item: Item::Gap,
            };
        }
        len += 1;
    }
    Found {
        len: text.len(),
        item: Item::Broken(OPEN_COMMENT),
    }
}
