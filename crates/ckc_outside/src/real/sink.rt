ghost use Rattle.std.specs.Prelude.{◌≡◌, ◌≤◌, None, IfOk, length};

use super::source::TRIES;
use crate::traits::{Failed, Sink};
use ckc_base_counts::one_more;
use std::io::{ErrorKind, Write};

/// A writer, as standard output or standard error. Each piece is written whole and flushed.
#[derive(Drop)]
pub struct RealSink<W> {
    writer: W,
    calls: u64,
    faults: u64,
}

impl<W: Write + Drop> RealSink<W> {
    /// Into the writer.
    pub fn new(writer: W) -> RealSink<W>
        ensures calls { result.calls ≡ 0 }
        ensures faults { result.faults ≡ 0 }
    {
        RealSink {
            writer,
            calls: 0,
            faults: 0,
        }
    }
}

impl<W: Write> Sink for RealSink<W> {
    ghost seen = { λ s. record { written = None; puts = s.calls; faults = s.faults } };

    fn put(&mut self, piece: &[u8]) -> Result<(), Failed> {
        self.calls = one_more(self.calls);
        match write_whole(&mut self.writer, piece) {
            Ok(()) => Ok(()),
            Err(_) => {
                self.faults = one_more(self.faults);
                Err(Failed)
            }
        }
    }
}

/// Writes all of a piece and flushes it. A write that takes no byte is a failure.
pub fn write_whole<W: Write>(writer: &mut W, piece: &[u8]) -> Result<(), Failed> {
    let mut rest = piece;
    for _ in 0..piece.len() {
        if rest.is_empty() {
            break;
        }
        let count = write_some(writer, rest)?;
        if count == 0 {
            return Err(Failed);
        }
        rest = &rest[count..];
    }
    if !rest.is_empty() {
        return Err(Failed);
    }
    flush(writer)
}

/// One write, begun again if it was interrupted. One that is interrupted each time is a failure.
fn write_some<W: Write>(writer: &mut W, bytes: &[u8]) -> Result<usize, Failed>
    ensures { IfOk result (λ count. count ≤ length bytes.now) }
{
    for _ in 0..TRIES {
        match writer.write(bytes) {
            Ok(count) => return Ok(count),
            Err(e) => {
                if e.kind() != ErrorKind::Interrupted {
                    return Err(Failed);
                }
            }
        }
    }
    Err(Failed)
}

/// One flush, begun again likewise.
fn flush<W: Write>(writer: &mut W) -> Result<(), Failed> {
    for _ in 0..TRIES {
        match writer.flush() {
            Ok(()) => return Ok(()),
            Err(e) => {
                if e.kind() != ErrorKind::Interrupted {
                    return Err(Failed);
                }
            }
        }
    }
    Err(Failed)
}
