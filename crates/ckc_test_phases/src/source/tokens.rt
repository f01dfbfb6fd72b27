use super::put_between;
use ckc_base::Pos;
use ckc_syntax::Token;
use ckc_test_trials::Page;

/// Writes a place as `line:column`.
pub fn put_place(page: &mut Page, pos: Pos) {
    page.put_number(i64::from(pos.line));
    page.put(":");
    page.put_number(i64::from(pos.col));
}

/// Writes tokens, each by its kind, its text and its place.
pub fn put_tokens(page: &mut Page, tokens: &[Token<'_>]) {
    for (index, token) in tokens.iter().enumerate() {
        put_between(page, index, ", ");
        page.put_debug(&token.kind);
        page.put(" ");
        page.put(token.text);
        page.put(" ");
        put_place(page, token.pos);
    }
}
