//! What a field stands for: its escapes, repetitions and names.
use crate::page::Page;

/// A name with the text that it stands for.
#[derive(Drop)]
pub struct Named {
    pub name: Vec<u8>,
    pub text: Vec<u8>,
}

/// A repetition that is open: how often its piece is wanted, and where the piece begins.
#[derive(Clone, Copy)]
struct Repetition {
    times: u32,
    start: usize,
}

/// What the next byte is: itself, the letter after a backslash, the first or second digit of `\xNN`, a digit of a
/// number of times, or a letter of the name that begins there.
#[derive(Clone, Copy)]
enum State {
    Plain,
    Escape,
    First,
    Second(u8),
    Times(u32),
    Name(usize),
}

/// A field as far as it is read.
#[derive(Drop)]
struct Field<'a> {
    names: &'a [Named],
    bytes: Vec<u8>,
    open: Vec<Repetition>,
    state: State,
}

/// The bytes that a field stands for: `\{3*ab}` is `ababab`, and `$name` is the text of the name, if there are names.
pub fn expanded(raw: &[u8], names: &[Named], page: &mut Page) -> Vec<u8> {
    let mut field = Field {
        names,
        bytes: Vec::new(page.alloc()),
        open: Vec::new(page.alloc()),
        state: State::Plain,
    };
    for byte in raw {
        field.state = field.after(*byte, page);
    }
    field.end(page);
    let Field { bytes, .. } = field;
    bytes
}

impl Field<'_> {
    /// Takes a byte.
    fn after(&mut self, byte: u8, page: &mut Page) -> State {
        match self.state {
            State::Plain => self.plain(byte, page),
            State::Escape => self.escaped(byte, page),
            State::First => State::Second(page.digit_of(byte)),
            State::Second(high) => {
                let low = page.digit_of(byte);
                self.put((high << 4) | low, page)
            }
            State::Times(times) => self.counted(times, byte, page),
            State::Name(start) => self.named(start, byte, page),
        }
    }

    fn put(&mut self, byte: u8, page: &mut Page) -> State {
        page.keep(&mut self.bytes, byte);
        State::Plain
    }

    fn plain(&mut self, byte: u8, page: &mut Page) -> State {
        match byte {
            b'\\' => State::Escape,
            b'$' if !self.names.is_empty() => State::Name(self.bytes.len()),
            b'}' => self.close(page),
            _ => self.put(byte, page),
        }
    }

    fn escaped(&mut self, byte: u8, page: &mut Page) -> State {
        match byte {
            b'x' => State::First,
            b'{' => State::Times(0),
            b'n' => self.put(b'\n', page),
            b't' => self.put(b'\t', page),
            b'r' => self.put(b'\r', page),
            b's' => self.put(b' ', page),
            b'0' => self.put(0, page),
            b'\\' | b'|' | b'$' | b'#' | b'}' => self.put(byte, page),
            _ => {
                page.refuse("an unknown escape");
                State::Plain
            }
        }
    }

    /// Takes a digit of a number of times, or the mark after it, with which the piece begins.
    fn counted(&mut self, times: u32, byte: u8, page: &mut Page) -> State {
        match byte {
            b'0'..=b'9' => {
                let tens = times.saturating_mul(10);
                State::Times(tens.saturating_add(u32::from(byte - b'0')))
            }
            b'*' => {
                let start = self.bytes.len();
                page.keep(&mut self.open, Repetition { times, start });
                State::Plain
            }
            _ => {
                page.refuse("a repetition without N*");
                State::Plain
            }
        }
    }

    /// Ends the innermost repetition. Outside of one a brace is itself.
    fn close(&mut self, page: &mut Page) -> State {
        let Some(last) = self.open.pop() else {
            return self.put(b'}', page);
        };
        let mut piece = Vec::new(page.alloc());
        page.append(&mut piece, from(self.bytes.as_slice(), last.start));
        self.bytes.truncate(last.start);
        for _ in 0..last.times {
            page.append(&mut self.bytes, piece.as_slice());
        }
        State::Plain
    }

    fn named(&mut self, start: usize, byte: u8, page: &mut Page) -> State {
        if byte.is_ascii_alphabetic() {
            let _plain = self.put(byte, page);
            return State::Name(start);
        }
        self.end_name(start, page);
        self.plain(byte, page)
    }

    /// Puts the text of the name that begins there in its place.
    fn end_name(&mut self, start: usize, page: &mut Page) {
        let text = text_named(self.names, from(self.bytes.as_slice(), start));
        self.bytes.truncate(start);
        match text {
            Some(text) => page.append(&mut self.bytes, text),
            None => page.refuse("a name that no line above gives"),
        }
    }

    fn end(&mut self, page: &mut Page) {
        match self.state {
            State::Plain => {}
            State::Name(start) => self.end_name(start, page),
            _ => page.refuse("half an escape"),
        }
        if !self.open.is_empty() {
            page.refuse("a repetition that is open at the end");
        }
    }
}

/// What stands from there on.
fn from(bytes: &[u8], start: usize) -> &[u8] {
    match bytes.get(start..) {
        Some(rest) => rest,
        None => &[],
    }
}

/// The text of a name, by the last line that gives it.
fn text_named<'a>(names: &'a [Named], name: &[u8]) -> Option<&'a [u8]> {
    let mut text = None;
    for named in names {
        if named.name.as_slice() == name {
            text = Some(named.text.as_slice());
        }
    }
    text
}
