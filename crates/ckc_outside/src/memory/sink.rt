ghost use Rattle.std.specs.Prelude.{◌≡◌, ◌+◌, ◌-◌, ◌≤◌, ◌++◌, length, take, min};

use super::plan::Plan;
use crate::traits::{Failed, Sink};

/// A sink into memory, which fails at the calls that are listed and if a piece does not fit.
#[derive(Drop)]
pub struct MemSink<'a> {
    room: &'a mut [u8],
    len: usize,
    plan: Plan<'a>,
    ghost within: { len ≤ length room.now },
}

impl<'a> MemSink<'a> {
    ghost use Rattle.std.specs.Prelude.{◌≡◌, [], length};
    ghost use Rattle.ckc_outside.specs.MemSink.{written_of, room_of, plan_of};

    /// Into this room. `fail` lists the numbers of the calls, from 1, that answer `Failed`.
    pub fn new(room: &'a mut [u8], fail: &'a [u64]) -> MemSink<'a>
        ensures written { written_of result ≡ [] }
        ensures room { room_of result ≡ length room.old }
        ensures listed { (plan_of result).listed ≡ fail.now }
        ensures calls { (plan_of result).calls ≡ 0 }
        ensures faults { (plan_of result).faults ≡ 0 }
    {
        MemSink {
            room,
            len: 0,
            plan: Plan::new(fail),
        }
    }

    /// The bytes written so far.
    pub fn written(&self) -> &[u8]
        ensures { result.now ≡ written_of self.now }
    {
        &self.room[..self.len]
    }
}

impl<'a> Sink for MemSink<'a> {
    ghost use Rattle.std.specs.Prelude.{◌≡◌, ℕ, ◌+◌, ◌<◌, List, Option, Some, is_err, ◌||◌, ◌++◌, if◌then◌else◌, take};
    ghost use Rattle.ckc_outside.specs.Outside.{one_more, faults_after, Puts};
    ghost use Rattle.ckc_outside.specs.Memory.{is_listed, after_call};
    ghost use Rattle.ckc_outside.specs.MemSink.{written_of, room_of, plan_of, seen_of, overflows};

    ghost seen = { seen_of };

    fn put(&mut self, piece: &[u8]) -> Result<(), Failed>
        ensures faults { (plan_of self.new).faults ≡ faults_after result (plan_of self.old).faults }
        ensures told { (bytes : List ℕ) → Some (written_of self.old) ≡ Some bytes
            → Puts bytes piece.now result (Some (written_of self.new)) }
        ensures once { (plan_of self.new).calls ≡ one_more (plan_of self.old).calls }
        // A call fails exactly when it is listed or the piece does not fit, and then the count of faults goes up
        // by one.
        ensures fails { is_err result ≡ (is_listed (plan_of self.old).listed
            (plan_of self.old).calls || overflows self.old piece.now) }
        ensures plan { plan_of self.new ≡ after_call (plan_of self.old) (is_err result) }
        ensures room { room_of self.new ≡ room_of self.old }
        // A listed call appends nothing, and a piece that does not fit appends what fits.
        ensures after { written_of self.new ≡ (if is_listed (plan_of self.old).listed
            (plan_of self.old).calls
            then written_of self.old else take (room_of self.old)
            (written_of self.old ++ piece.now)) }
    {
        if self.plan.fails() {
            return Err(Failed);
        }
        let written = append(self.room, self.len, piece);
        let fits = written - self.len == piece.len();
        self.len = written;
        if !fits {
            self.plan.fault();
            return Err(Failed);
        }
        Ok(())
    }
}

/// Copies as much of a piece as fits after the first `len` bytes, and says where it ends.
fn append(room: &mut [u8], len: usize, piece: &[u8]) -> usize
    requires { len ≤ length room.old }
    ensures bytes { take result room.new ≡ take len room.old ++ take (result - len) piece.now }
    ensures end { result ≡ min (len + length piece.now) (length room.old) }
    ensures length { length room.new ≡ length room.old }
{
    let fits = piece.len().min(room.len() - len);
    for i in 0..fits {
        room[len + i] = piece[i];
    }
    len + fits
}
