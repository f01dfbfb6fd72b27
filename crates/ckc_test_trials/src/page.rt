use std::alloc::Global;
use std::fmt::{Debug, Display};
use std::io::Write;
use std::str;

/// What is wrong if an allocation fails.
const MEMORY: &str = "out of memory";

/// Text as it is written, and the first thing that is wrong with it or with what is read for it. No method fails, so
/// that only the end asks whether all went well.
#[derive(Drop)]
pub struct Page {
    alloc: Global,
    bytes: Vec<u8>,
    wrong: Option<&'static str>,
}

impl Page {
    /// An empty page.
    pub fn new(alloc: Global) -> Page {
        Page {
            alloc,
            bytes: Vec::new(alloc),
            wrong: None,
        }
    }

    /// Where it takes memory.
    pub fn alloc(&self) -> Global {
        self.alloc
    }

    /// What was written.
    pub fn bytes(&self) -> &[u8] {
        self.bytes.as_slice()
    }

    /// What was written, as text.
    pub fn text(&self) -> &str {
        match str::from_utf8(self.bytes.as_slice()) {
            Ok(text) => text,
            Err(_) => "not UTF-8",
        }
    }

    /// What is wrong, if something is.
    pub fn wrong(&self) -> Option<&'static str> {
        self.wrong
    }

    /// Keeps what is wrong, if nothing was before.
    pub fn refuse(&mut self, why: &'static str) {
        if self.wrong.is_none() {
            self.wrong = Some(why);
        }
    }

    /// Keeps that an allocation failed.
    pub fn lacks_memory(&mut self) {
        self.refuse(MEMORY);
    }

    /// Writes a text.
    pub fn put(&mut self, text: &str) {
        self.put_bytes(text.as_bytes());
    }

    /// Writes bytes.
    pub fn put_bytes(&mut self, bytes: &[u8]) {
        if self.bytes.extend_from_slice(bytes).is_err() {
            self.lacks_memory();
        }
    }

    /// Writes a word after the others, with a blank in front.
    pub fn put_word(&mut self, word: &str) {
        if !self.bytes.is_empty() {
            self.put(" ");
        }
        self.put(word);
    }

    /// Writes a number.
    pub fn put_number(&mut self, number: i64) {
        if write!(self.bytes, "{number}").is_err() {
            self.lacks_memory();
        }
    }

    /// Writes a word in hexadecimal digits, after `0x`.
    pub fn put_hex(&mut self, word: u32) {
        if write!(self.bytes, "{word:#x}").is_err() {
            self.lacks_memory();
        }
    }

    /// Writes a value as it shows itself.
    pub fn put_shown(&mut self, value: &impl Display) {
        if write!(self.bytes, "{value}").is_err() {
            self.lacks_memory();
        }
    }

    /// Writes a value by its names in the code.
    pub fn put_debug(&mut self, value: &impl Debug) {
        if write!(self.bytes, "{value:?}").is_err() {
            self.lacks_memory();
        }
    }

    /// Writes bytes in hexadecimal digits, two for each.
    pub fn put_digits(&mut self, bytes: &[u8]) {
        for byte in bytes {
            if write!(self.bytes, "{byte:02x}").is_err() {
                self.lacks_memory();
            }
        }
    }

    /// Writes bytes as a field of a case has them.
    pub fn put_escaped(&mut self, bytes: &[u8]) {
        for byte in bytes {
            match *byte {
                b'\n' => self.put("\\n"),
                b'\\' | b'|' | b'$' => {
                    self.put("\\");
                    self.put_bytes(&[*byte]);
                }
                b' '..=b'~' => self.put_bytes(&[*byte]),
                _ => {
                    self.put("\\x");
                    self.put_digits(&[*byte]);
                }
            }
        }
    }

    /// Adds an item to a list.
    pub fn keep<T: Drop>(&mut self, list: &mut Vec<T>, item: T) {
        if list.push(item).is_err() {
            self.lacks_memory();
        }
    }

    /// Adds bytes to others.
    pub fn append(&mut self, list: &mut Vec<u8>, bytes: &[u8]) {
        if list.extend_from_slice(bytes).is_err() {
            self.lacks_memory();
        }
    }
}
