ghost use Rattle.std.specs.Prelude.{◌≡◌, ◌≢◌, ◌≤◌, ◌<◌, [], ◌∷◌, map, MatchOption, MatchResult, IsNone, IsTrue, ◌↔◌};
ghost use Rattle.ckc_syntax.specs.Spelled.{spelled};
ghost use Rattle.ckc_parser_grammar.specs.code.Kinds.{kind_of_token};
ghost use Rattle.ckc_parser_grammar.specs.code.Grammar.{t, one};
ghost use Rattle.ckc_grammar.specs.Text.{syntax_error};
ghost use Rattle.ckc_parser_grammar.specs.code.Values.{token};
ghost use Rattle.ckc_parser_grammar.specs.code.Reading.{kind_of};
ghost use Rattle.ckc_parser_grammar.specs.code.Signs.{kind_after, adjacent, signs};
ghost use Rattle.ckc_parser_grammar.specs.code.Marked.{ahead, remaining, place_of, Parses};

use crate::kind::{Kind, keyword_kind, mark_kind, name_kind};
use crate::parts::Stop;
use ckc_base::{Pos, Refusal};
use ckc_syntax::{Token, TokenKind};

/// E120: the next token does not go on, or more tokens are wanted.
pub const SYNTAX_ERROR: u16 = 120;

/// Tokens that are left to read, with the kind of the first.
#[derive(Clone, Copy)]
pub struct Reader<'a> {
    kind: Kind,
    rest: &'a [Token<'a>],
}

/// The kind of a token by itself.
pub fn token_kind(token: &Token) -> Kind
    ensures { result ≡ kind_of_token (spelled token.now) }
{
    match token.kind {
        TokenKind::Name => name_kind(token.text),
        TokenKind::Keyword => keyword_kind(token.text),
        TokenKind::Number(_, _) => Kind::Number,
        TokenKind::Character(_) => Kind::Character,
        TokenKind::Text => Kind::Text,
        TokenKind::Mark => mark_kind(token.text),
        TokenKind::Directive(_) => Kind::Directive,
    }
}

/// The kind of a token after another.
fn kind_behind(before: &Token, token: &Token) -> Kind
    ensures { result ≡ kind_after (spelled before.now) (spelled token.now) }
{
    let kind = token_kind(token);
    match kind {
        Kind::Greater => {
            if is_adjacent(before, token) {
                Kind::GreaterNext
            } else {
                Kind::Greater
            }
        }
        _ => kind,
    }
}

/// Whether a token stands directly after a `>`.
fn is_adjacent(before: &Token, token: &Token) -> bool
    ensures { result ≡ adjacent (spelled before.now) (spelled token.now) }
{
    match token_kind(before) {
        Kind::Greater => {
            before.pos.line == token.pos.line
                && before.pos.col.checked_add(1) == Some(token.pos.col)
        }
        _ => false,
    }
}

impl<'a> Reader<'a> {
    /// Nothing is read yet.
    pub fn new(tokens: &'a [Token<'a>]) -> Reader<'a>
        ensures { ahead result ≡ signs (map spelled tokens.now) }
    {
        let kind = match tokens {
            [] => Kind::End,
            [first, ..] => token_kind(first),
        };
        Reader { kind, rest: tokens }
    }

    /// The kind of the next token.
    pub fn kind(&self) -> Kind
        ensures { result ≡ kind_of (ahead self.now) }
    {
        if self.rest.is_empty() {
            Kind::End
        } else {
            self.kind
        }
    }

    /// Takes the next token.
    fn next(&mut self) -> Option<Token<'a>>
        ensures taken { MatchOption result (ahead self.old ≡ [])
            (λ x. ahead self.old ≡ record { kind = kind_of (ahead self.old); token = spelled x } ∷
            ahead self.new) }
        ensures end { IsNone result → ahead self.new ≡ ahead self.old }
        ensures fewer { MatchOption result (remaining self.new ≤ remaining self.old)
            (λ x. remaining self.new < remaining self.old) }
    {
        match self.rest {
            [] => None,
            [first, rest @ ..] => {
                let kind = match rest {
                    [] => Kind::End,
                    [second, ..] => kind_behind(first, second),
                };
                self.kind = kind;
                self.rest = rest;
                Some(*first)
            }
        }
    }

    /// Takes a token of a kind.
    pub fn take(&mut self, kind: Kind) -> Result<Token<'a>, Stop>
        requires { kind ≢ Kind.End }
        ensures parses { Parses (λ x. token (spelled x)) (t (one kind)) (ahead self.old) result
            (ahead self.new) }
        ensures fewer { MatchResult result (λ x. remaining self.new < remaining self.old)
            (λ e. remaining self.new ≤ remaining self.old) }
    {
        if self.kind() != kind {
            return Err(Stop::Syntax);
        }
        match self.next() {
            Some(token) => Ok(token),
            None => Err(Stop::Syntax),
        }
    }

    /// Whether no token is left.
    pub fn is_at_end(&self) -> bool
        ensures { IsTrue result ↔ (ahead self.now ≡ []) }
    {
        self.rest.is_empty()
    }

    /// The refusal of the next token, or of the end.
    pub fn refusal(&self, end: Pos) -> Refusal
        ensures code { result.code ≡ syntax_error }
        ensures pos { result.pos ≡ place_of (ahead self.now) end }
    {
        match self.rest {
            [] => Refusal {
                code: SYNTAX_ERROR,
                pos: end,
            },
            [first, ..] => Refusal {
                code: SYNTAX_ERROR,
                pos: first.pos,
            },
        }
    }
}
