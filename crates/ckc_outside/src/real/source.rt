ghost use Rattle.std.specs.Prelude.{◌≡◌, ◌≤◌, None, IfOk, length};

use crate::traits::{Failed, Source};
use ckc_base_counts::one_more;
use std::io::{ErrorKind, Read};

const ROOM: usize = 4096;

/// The bytes of a reader, as standard input. A read that gives no byte is the end, also if more could be read
/// later, as at a terminal.
#[derive(Drop)]
pub struct RealSource<R> {
    reader: R,
    room: [u8; 4096],
    from: usize,
    to: usize,
    ended: bool,
    asks: u64,
    answers: u64,
    faults: u64,
    ghost in_order: { from ≤ to },
    ghost within: { to ≤ 4096 },
}

impl<R: Read + Drop> RealSource<R> {
    /// Over what the reader gives.
    pub fn new(reader: R) -> RealSource<R>
        ensures asks { result.asks ≡ 0 }
        ensures answers { result.answers ≡ 0 }
        ensures faults { result.faults ≡ 0 }
    {
        RealSource {
            reader,
            room: [0; ROOM],
            from: 0,
            to: 0,
            ended: false,
            asks: 0,
            answers: 0,
            faults: 0,
        }
    }
}

impl<R: Read> Source for RealSource<R> {
    ghost seen = { λ s. record {
      left = None;
      ended = s.ended;
      asks = s.asks;
      answers = s.answers;
      faults = s.faults;
    } };

    fn next(&mut self) -> Result<Option<u8>, Failed> {
        self.asks = one_more(self.asks);
        if self.ended {
            return Ok(None);
        }
        if self.from == self.to {
            match read_some(&mut self.reader, &mut self.room) {
                Ok(0) => {
                    self.ended = true;
                    return Ok(None);
                }
                Ok(count) => {
                    self.from = 0;
                    self.to = count;
                }
                Err(_) => {
                    self.faults = one_more(self.faults);
                    return Err(Failed);
                }
            }
        }
        let byte = self.room[self.from];
        self.from += 1;
        self.answers = one_more(self.answers);
        Ok(Some(byte))
    }
}

/// How many times a call is made that is interrupted each time.
pub const TRIES: u32 = 1000;

/// One read, begun again if it was interrupted. One that is interrupted each time is a failure.
pub fn read_some<R: Read>(reader: &mut R, room: &mut [u8]) -> Result<usize, Failed>
    ensures { IfOk result (λ count. count ≤ length room.new) }
{
    for _ in 0..TRIES {
        match reader.read(room) {
            Ok(count) => return Ok(count),
            Err(e) => {
                if e.kind() != ErrorKind::Interrupted {
                    return Err(Failed);
                }
            }
        }
    }
    Err(Failed)
}
