//! Words, numbers and bytes that a field spells. If it does not, the page keeps that, and there is some other value.
use crate::page::Page;
use std::str;

impl Page {
    /// Bytes as text.
    pub fn text_of<'a>(&mut self, bytes: &'a [u8]) -> &'a str {
        match str::from_utf8(bytes) {
            Ok(text) => text,
            Err(_) => {
                self.refuse("not UTF-8");
                ""
            }
        }
    }

    /// Fields as text.
    pub fn texts_of<'a>(&mut self, fields: &'a [Vec<u8>]) -> Vec<&'a str> {
        let mut texts = Vec::new(self.alloc());
        for field in fields {
            let text = self.text_of(field.as_slice());
            self.keep(&mut texts, text);
        }
        texts
    }

    /// The words of a field, between blanks, commas and parentheses.
    pub fn words_of<'a>(&mut self, field: &'a str) -> Vec<&'a str> {
        let mut words = Vec::new(self.alloc());
        for word in field.split([' ', ',', '(', ')']) {
            if !word.is_empty() {
                self.keep(&mut words, word);
            }
        }
        words
    }

    /// What stands in front of a mark, and what stands after it.
    pub fn parts_of<'a>(&mut self, text: &'a str, mark: &str) -> (&'a str, &'a str) {
        match text.split_once(mark) {
            Some(parts) => parts,
            None => {
                self.refuse("a mark is missing");
                (text, "")
            }
        }
    }

    /// The number that is written in decimal, or after `0x` in hexadecimal.
    pub fn number_of(&mut self, text: &str) -> i64 {
        let read = match text.strip_prefix("0x") {
            Some(digits) => i64::from_str_radix(digits, 16),
            None => i64::from_str_radix(text, 10),
        };
        match read {
            Ok(number) => number,
            Err(_) => {
                self.refuse("not a number");
                0
            }
        }
    }

    /// A number below 2^32.
    pub fn word_of(&mut self, text: &str) -> u32 {
        match u32::try_from(self.number_of(text)) {
            Ok(word) => word,
            Err(_) => {
                self.refuse("not a word");
                0
            }
        }
    }

    /// A number below 2^8.
    pub fn byte_of(&mut self, text: &str) -> u8 {
        match u8::try_from(self.number_of(text)) {
            Ok(byte) => byte,
            Err(_) => {
                self.refuse("not a byte");
                0
            }
        }
    }

    /// The value of a hexadecimal digit.
    pub(crate) fn digit_of(&mut self, byte: u8) -> u8 {
        match byte {
            b'0'..=b'9' => byte - b'0',
            b'a'..=b'f' => byte - b'a' + 10,
            b'A'..=b'F' => byte - b'A' + 10,
            _ => {
                self.refuse("not a hexadecimal digit");
                0
            }
        }
    }

    /// The bytes of hexadecimal digits, two for each. Blanks may stand between them.
    pub fn bytes_of(&mut self, digits: &str) -> Vec<u8> {
        let mut bytes = Vec::new(self.alloc());
        let mut high = None;
        for byte in digits.as_bytes() {
            if *byte != b' ' {
                let digit = self.digit_of(*byte);
                high = match high {
                    None => Some(digit),
                    Some(first) => {
                        self.keep(&mut bytes, (first << 4) | digit);
                        None
                    }
                };
            }
        }
        if high.is_some() {
            self.refuse("half a byte");
        }
        bytes
    }
}
