ghost use Rattle.std.specs.Prelude.{◌≡◌, ◌≢◌, ◌∷◌, [], length};
ghost use Rattle.std.specs.Bool.{OnFalse};
ghost use Rattle.ckc_parser_grammar.specs.code.Kinds.{kind_of_name, kind_of_keyword, kind_of_checked_keyword, kind_of_checked_word, kind_of_mark, kind_of_long_operator, kind_of_changing};

/// What the grammar tells apart: keywords and marks by their spelling, a few names that have a meaning in some
/// places, and the end of the text. `GreaterNext` is a `>` that follows another directly.
#[derive(Clone, Copy, PartialEq, Eq)]
pub enum Kind {
    End,
    Name,
    Calloc,
    Count,
    ByteCount,
    Bounds,
    Unknown,
    Number,
    Character,
    Text,
    Directive,
    Other,
    Int,
    Unsigned,
    Char,
    Void,
    Struct,
    Static,
    If,
    Else,
    While,
    For,
    Return,
    Break,
    Continue,
    Sizeof,
    Null,
    Eof,
    Ptr,
    ArrayPtr,
    NtArrayPtr,
    Checked,
    Unchecked,
    NtChecked,
    Bundled,
    Check,
    Tested,
    Trusted,
    RoundOpen,
    RoundClose,
    CurlyOpen,
    CurlyClose,
    SquareOpen,
    SquareClose,
    Less,
    Greater,
    GreaterNext,
    Comma,
    Semicolon,
    Colon,
    Question,
    Equals,
    Dot,
    Arrow,
    Plus,
    Minus,
    Star,
    Slash,
    Percent,
    Ampersand,
    Bar,
    Caret,
    Tilde,
    Exclamation,
    ShiftLeft,
    LessEquals,
    GreaterEquals,
    EqualsEquals,
    NotEquals,
    AndAnd,
    BarBar,
    PlusPlus,
    MinusMinus,
    PlusEquals,
    MinusEquals,
    StarEquals,
    SlashEquals,
    PercentEquals,
    AmpersandEquals,
    BarEquals,
    CaretEquals,
}

/// The kind of a name. Most names have another length than those with a meaning.
#[tactic(auto, using(crate::proofs::Spelled::plain_name))]
pub fn name_kind(text: &str) -> Kind
    ensures { result ≡ kind_of_name text.now }
{
    if is_special_length(text.len()) {
        special_kind(text)
    } else {
        Kind::Name
    }
}

/// Whether a name with a meaning has so many bytes.
fn is_special_length(len: usize) -> bool
    ensures five { OnFalse result (len ≢ 5) }
    ensures six { OnFalse result (len ≢ 6) }
    ensures seven { OnFalse result (len ≢ 7) }
    ensures ten { OnFalse result (len ≢ 10) }
{
    5 <= len && len <= 7 || len == 10
}

/// The kind of a name that may have a meaning.
fn special_kind(text: &str) -> Kind
    ensures { result ≡ kind_of_name text.now }
{
    match text {
        "calloc" => Kind::Calloc,
        "count" => Kind::Count,
        "byte_count" => Kind::ByteCount,
        "bounds" => Kind::Bounds,
        "unknown" => Kind::Unknown,
        _ => Kind::Name,
    }
}

/// The kind of a keyword, of which those of C11 that no production has are `Other`.
pub fn keyword_kind(text: &str) -> Kind
    ensures { result ≡ kind_of_keyword text.now }
{
    match text {
        "int" => Kind::Int,
        "unsigned" => Kind::Unsigned,
        "char" => Kind::Char,
        "void" => Kind::Void,
        "struct" => Kind::Struct,
        "static" => Kind::Static,
        "if" => Kind::If,
        "else" => Kind::Else,
        "while" => Kind::While,
        "for" => Kind::For,
        "return" => Kind::Return,
        "break" => Kind::Break,
        "continue" => Kind::Continue,
        "sizeof" => Kind::Sizeof,
        "NULL" => Kind::Null,
        "EOF" => Kind::Eof,
        _ => checked_keyword_kind(text),
    }
}

/// The kind of a keyword of Checked C.
fn checked_keyword_kind(text: &str) -> Kind
    ensures { result ≡ kind_of_checked_keyword text.now }
{
    match text {
        "_Ptr" => Kind::Ptr,
        "_Array_ptr" => Kind::ArrayPtr,
        "_Nt_array_ptr" => Kind::NtArrayPtr,
        "_Checked" => Kind::Checked,
        "_Unchecked" => Kind::Unchecked,
        "_Nt_checked" => Kind::NtChecked,
        "_Bundled" => Kind::Bundled,
        "_Dynamic_check" => Kind::Check,
        "_Dynamic_bounds_cast" => Kind::Tested,
        "_Assume_bounds_cast" => Kind::Trusted,
        _ => checked_word_kind(text),
    }
}

/// The kind of a word that stands for a keyword of Checked C.
fn checked_word_kind(text: &str) -> Kind
    ensures { result ≡ kind_of_checked_word text.now }
{
    match text {
        "ptr" => Kind::Ptr,
        "array_ptr" => Kind::ArrayPtr,
        "nt_array_ptr" => Kind::NtArrayPtr,
        "checked" => Kind::Checked,
        "unchecked" => Kind::Unchecked,
        "nt_checked" => Kind::NtChecked,
        "dynamic_check" => Kind::Check,
        "dynamic_bounds_cast" => Kind::Tested,
        "assume_bounds_cast" => Kind::Trusted,
        _ => Kind::Other,
    }
}

/// The kind of a mark.
pub fn mark_kind(text: &str) -> Kind
    ensures { result ≡ kind_of_mark text.now }
{
    match text.as_bytes() {
        [b] => byte_kind(*b),
        _ => long_mark_kind(text),
    }
}

/// The kind of a mark of one byte.
fn byte_kind(b: u8) -> Kind
    ensures { result ≡ kind_of_mark (b ∷ []) }
{
    match b {
        b'(' => Kind::RoundOpen,
        b')' => Kind::RoundClose,
        b'{' => Kind::CurlyOpen,
        b'}' => Kind::CurlyClose,
        b'[' => Kind::SquareOpen,
        b']' => Kind::SquareClose,
        b'<' => Kind::Less,
        b'>' => Kind::Greater,
        b',' => Kind::Comma,
        b';' => Kind::Semicolon,
        b':' => Kind::Colon,
        b'?' => Kind::Question,
        b'=' => Kind::Equals,
        b'.' => Kind::Dot,
        b'+' => Kind::Plus,
        b'-' => Kind::Minus,
        b'*' => Kind::Star,
        b'/' => Kind::Slash,
        b'%' => Kind::Percent,
        b'&' => Kind::Ampersand,
        b'|' => Kind::Bar,
        b'^' => Kind::Caret,
        b'~' => Kind::Tilde,
        b'!' => Kind::Exclamation,
        _ => Kind::Other,
    }
}

/// The kind of a mark of two bytes.
#[tactic(auto, using(crate::proofs::Spelled::long_mark))]
fn long_mark_kind(text: &str) -> Kind
    requires { length text.now ≢ 1 }
    ensures { result ≡ kind_of_mark text.now }
{
    match text {
        "->" => Kind::Arrow,
        _ => long_operator_kind(text),
    }
}

/// The kind of an operator of two bytes.
fn long_operator_kind(text: &str) -> Kind
    ensures { result ≡ kind_of_long_operator text.now }
{
    match text {
        "<<" => Kind::ShiftLeft,
        "<=" => Kind::LessEquals,
        ">=" => Kind::GreaterEquals,
        "==" => Kind::EqualsEquals,
        "!=" => Kind::NotEquals,
        "&&" => Kind::AndAnd,
        "||" => Kind::BarBar,
        _ => changing_kind(text),
    }
}

/// The kind of a mark that changes a variable.
fn changing_kind(text: &str) -> Kind
    ensures { result ≡ kind_of_changing text.now }
{
    match text {
        "++" => Kind::PlusPlus,
        "--" => Kind::MinusMinus,
        "+=" => Kind::PlusEquals,
        "-=" => Kind::MinusEquals,
        "*=" => Kind::StarEquals,
        "/=" => Kind::SlashEquals,
        "%=" => Kind::PercentEquals,
        "&=" => Kind::AmpersandEquals,
        "|=" => Kind::BarEquals,
        "^=" => Kind::CaretEquals,
        _ => Kind::Other,
    }
}
