/// A place in a text: line and column, both from 1. A column counts bytes, a tab is one column, and only LF
/// ends a line.
#[derive(Clone, Copy, Debug)]
pub struct Pos {
    pub line: u32,
    pub col: u32,
}

/// The first place of a text.
pub const START: Pos = Pos { line: 1, col: 1 };

/// How many bytes a text may have.
pub const LONGEST_TEXT: usize = 262_144;

/// E201: the text has over 262,144 bytes.
pub const LONG_TEXT: u16 = 201;

/// Why a text is refused: the number of the refusal, as 120 for E120, and its place.
#[derive(Clone, Copy, Debug)]
pub struct Refusal {
    pub code: u16,
    pub pos: Pos,
}
