//! The words of a program's text.
use crate::fault::TextFault;
use ckc_base::{BinOp, Check, Width};
use std::alloc::Global;
use std::str;

/// The words that are left, and whether one of those that were read has no meaning.
#[derive(Drop)]
pub struct Words<'a> {
    rest: Vec<&'a str>,
    wrong: bool,
}

impl<'a> Words<'a> {
    /// The words of a text, which blanks set apart.
    pub fn new(alloc: Global, text: &'a [u8]) -> Result<Words<'a>, TextFault> {
        let Ok(text) = str::from_utf8(text) else {
            return Err(TextFault::Malformed("not UTF-8"));
        };
        let mut words = Vec::new(alloc);
        for word in text.split(' ') {
            if !word.is_empty() {
                words.push(word)?;
            }
        }
        words.reverse();
        Ok(Words {
            rest: words,
            wrong: false,
        })
    }

    /// How many words are left.
    pub fn left(&self) -> usize {
        self.rest.len()
    }

    /// Whether no word was there where one was wanted, or one that has no meaning there.
    pub fn is_wrong(&self) -> bool {
        self.wrong
    }

    /// The next word, or an empty one at the end.
    pub fn next(&mut self) -> &'a str {
        match self.rest.pop() {
            Some(word) => word,
            None => "",
        }
    }

    /// Takes a mark.
    pub fn expect(&mut self, mark: &str) {
        if self.next() != mark {
            self.wrong = true;
        }
    }

    /// Takes a mark if it comes next.
    pub fn eat(&mut self, mark: &str) -> bool {
        match self.rest.last() {
            Some(word) if *word == mark => {
                let _mark = self.rest.pop();
                true
            }
            _ => false,
        }
    }

    /// A number.
    pub fn number(&mut self) -> u32 {
        match number_of(self.next()) {
            Some(n) => n,
            None => {
                self.wrong = true;
                0
            }
        }
    }

    /// How much a load or store moves.
    pub fn width(&mut self) -> Width {
        match self.next() {
            "byte" => Width::Byte,
            "word" => Width::Word,
            _ => {
                self.wrong = true;
                Width::Word
            }
        }
    }

    /// A check by its name.
    pub fn check(&mut self) -> Check {
        match self.next() {
            "null" => Check::Null,
            "bounds" => Check::Bounds,
            "terminator" => Check::Terminator,
            "arith" => Check::Arith,
            "divide" => Check::Divide,
            "cast" => Check::Cast,
            "dynamic" => Check::Dynamic,
            _ => {
                self.wrong = true;
                Check::Dynamic
            }
        }
    }
}

/// A number from 0 to 2^32 - 1, or the word of a negative one, or one in hexadecimal digits.
pub fn number_of(word: &str) -> Option<u32> {
    if let Some(digits) = word.strip_prefix("0x") {
        return u32::from_str_radix(digits, 16).ok();
    }
    if let Some(digits) = word.strip_prefix('-') {
        return digits.parse::<u32>().ok().map(u32::wrapping_neg);
    }
    word.parse::<u32>().ok()
}

/// An operation by its name.
pub fn operation_of(word: &str) -> Option<BinOp> {
    match word {
        "add" => Some(BinOp::Add),
        "sub" => Some(BinOp::Sub),
        "mul" => Some(BinOp::Mul),
        "divs" => Some(BinOp::DivS),
        "divu" => Some(BinOp::DivU),
        "rems" => Some(BinOp::RemS),
        "remu" => Some(BinOp::RemU),
        "and" => Some(BinOp::And),
        "or" => Some(BinOp::Or),
        "xor" => Some(BinOp::Xor),
        "shl" => Some(BinOp::Shl),
        "shrs" => Some(BinOp::ShrS),
        "shru" => Some(BinOp::ShrU),
        "lts" => Some(BinOp::LtS),
        "ltu" => Some(BinOp::LtU),
        "eq" => Some(BinOp::Eq),
        "ne" => Some(BinOp::Ne),
        _ => None,
    }
}
