ghost use Rattle.std.specs.Prelude.{◌≡◌};
ghost use Rattle.ckc_syntax.specs.Bytes.{is_digit};
ghost use Rattle.ckc_lexer.specs.Bytes.{is_space, is_blank, is_letter, is_word_byte, is_mark, class_of};
ghost use Rattle.ckc_lexer.specs.code.Longest.{IsRun};

use ckc_syntax::is_digit;

/// What an item may be, by its first byte.
#[derive(Clone, Copy)]
pub enum Class {
    Blank,
    Letter,
    Digit,
    Apostrophe,
    Quotation,
    Slash,
    Hash,
    Mark,
    Other,
}

/// The class of an item that begins with this byte.
pub fn class_of(b: u8) -> Class
    ensures { result ≡ class_of b }
{
    if is_blank(b) {
        Class::Blank
    } else if is_letter(b) {
        Class::Letter
    } else if is_digit(b) {
        Class::Digit
    } else if b == b'\'' {
        Class::Apostrophe
    } else if b == b'"' {
        Class::Quotation
    } else if b == b'/' {
        Class::Slash
    } else if b == b'#' {
        Class::Hash
    } else if is_mark(b) {
        Class::Mark
    } else {
        Class::Other
    }
}

/// Whether a byte is a blank that does not end a line.
pub fn is_space(b: u8) -> bool
    ensures { result ≡ is_space b }
{
    b == b' ' || b == b'\t' || b == b'\r'
}

/// Whether a byte is a blank.
pub fn is_blank(b: u8) -> bool
    ensures { result ≡ is_blank b }
{
    is_space(b) || b == b'\n'
}

fn is_letter(b: u8) -> bool
    ensures { result ≡ is_letter b }
{
    b'a' <= b && b <= b'z' || b'A' <= b && b <= b'Z' || b == b'_'
}

fn is_word_byte(b: u8) -> bool
    ensures { result ≡ is_word_byte b }
{
    is_letter(b) || is_digit(b)
}

fn is_mark(b: u8) -> bool
    ensures { result ≡ is_mark b }
{
    b == b'!'
        || b == b'%'
        || b == b'&'
        || b'(' <= b && b <= b'.'
        || b':' <= b && b <= b'?'
        || b == b'['
        || b == b']'
        || b == b'^'
        || b'{' <= b && b <= b'~'
}

/// How many letters, digits and `_` a text begins with.
pub fn word_len(text: &[u8]) -> usize
    ensures { IsRun is_word_byte text.now result }
{
    for (k, b) in text.iter().enumerate() {
        if !is_word_byte(*b) {
            return k;
        }
    }
    text.len()
}
