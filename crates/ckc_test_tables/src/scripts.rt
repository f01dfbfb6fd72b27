//! A reader and a writer that do what words say, one word a call: `interrupted`, `timed-out` and `broken` are failures.

ghost use Rattle.std.specs.Prelude.{◌≤◌, length, IfOk};

use std::io;
use std::io::{ErrorKind, Read, Write};

/// Gives the bytes of a word, which are numbers between dots, as `7.255`. After the last word is the end.
#[derive(Drop)]
pub struct ScriptedReader<'a> {
    words: &'a [&'a str],
    at: usize,
}

impl<'a> ScriptedReader<'a> {
    /// Does what the words say, from the first.
    pub fn new(words: &'a [&'a str]) -> ScriptedReader<'a> {
        ScriptedReader { words, at: 0 }
    }
}

impl<'a> Read for ScriptedReader<'a> {
    fn read(&mut self, buf: &mut [u8]) -> io::Result<usize> {
        let word = self.words.get(self.at);
        self.at = self.at.saturating_add(1);
        match word {
            None => Ok(0),
            Some(word) => given(word, buf),
        }
    }
}

fn given(word: &str, buf: &mut [u8]) -> io::Result<usize>
    ensures { IfOk result (λ count. count ≤ length buf.new) }
{
    let mut count = 0;
    for part in word.split('.') {
        match part.parse::<u8>() {
            Ok(b) if count < buf.len() => {
                buf[count] = b;
                count += 1;
            }
            _ => return Err(failure(word)),
        }
    }
    Ok(count)
}

fn failure(word: &str) -> io::Error {
    match word {
        "interrupted" => io::Error::from(ErrorKind::Interrupted),
        "timed-out" => io::Error::from(ErrorKind::TimedOut),
        _ => io::Error::from(ErrorKind::BrokenPipe),
    }
}

/// Takes as many bytes as a word says. After the last word each call fails.
#[derive(Drop)]
pub struct ScriptedWriter<'a> {
    words: &'a [&'a str],
    at: usize,
    pub taken: Vec<u8>,
}

impl<'a> ScriptedWriter<'a> {
    /// Does what the words say, from the first, and takes bytes into `taken`.
    pub fn new(words: &'a [&'a str], taken: Vec<u8>) -> ScriptedWriter<'a> {
        ScriptedWriter {
            words,
            at: 0,
            taken,
        }
    }
}

impl<'a> Write for ScriptedWriter<'a> {
    fn write(&mut self, buf: &[u8]) -> io::Result<usize> {
        let word = self.words.get(self.at);
        self.at = self.at.saturating_add(1);
        match word {
            None => Err(io::Error::from(ErrorKind::BrokenPipe)),
            Some(word) => take(word, buf, &mut self.taken),
        }
    }

    fn flush(&mut self) -> io::Result<()> {
        Ok(())
    }
}

fn take(word: &str, buf: &[u8], taken: &mut Vec<u8>) -> io::Result<usize>
    ensures { IfOk result (λ count. count ≤ length buf.now) }
{
    match word.parse::<u8>() {
        Ok(most) => {
            let count = usize::from(most).min(buf.len());
            taken.extend_from_slice(&buf[..count])?;
            Ok(count)
        }
        Err(_) => Err(failure(word)),
    }
}
