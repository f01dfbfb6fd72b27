use crate::phases::{Asked, put_answer};
use ckc_syntax::string_bytes;
use ckc_test_trials::{Judge, Page};

/// The phases of a text.
pub struct Phases;

impl Judge for Phases {
    fn answer(&self, kind: &str, given: &[Vec<u8>], page: &mut Page) {
        match (kind, given) {
            ("string", [spelling]) => put_string(spelling.as_slice(), page),
            (_, [text]) => match asked_by(kind) {
                Some(asked) => put_answer(page.alloc(), asked, text.as_slice(), page),
                None => page.refuse("an unknown kind"),
            },
            _ => page.refuse("not KIND | TEXT | WANTED"),
        }
    }
}

/// Writes the bytes of the spelling of a string.
fn put_string(spelling: &[u8], page: &mut Page) {
    let spelling = page.text_of(spelling);
    match string_bytes(page.alloc(), spelling) {
        Ok(bytes) => page.put_bytes(bytes.as_slice()),
        Err(_) => page.lacks_memory(),
    }
}

/// What a kind of cases asks.
fn asked_by(kind: &str) -> Option<Asked> {
    match kind {
        "tokens" => Some(Asked::Tokens),
        "fronts" => Some(Asked::Fronts),
        "syntax" => Some(Asked::Syntax),
        "statement" => Some(Asked::Statement),
        "value" => Some(Asked::Value),
        "limits" => Some(Asked::Limits),
        "names" => Some(Asked::Names),
        "name" => Some(Asked::Name),
        "types" => Some(Asked::Types),
        "type" => Some(Asked::Type),
        "statics" => Some(Asked::Statics),
        "scopes" => Some(Asked::Scopes),
        _ => None,
    }
}
