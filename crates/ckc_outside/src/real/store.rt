ghost use Rattle.std.specs.Prelude.{◌≡◌, None, false, ◌≤◌};
ghost use Rattle.ckc_outside.specs.Outside.{IsWithin};

use super::replace::put_file;
use super::source::read_some;
use crate::traits::{Fetched, Store, StoreError};
use ckc_base::Bytes;
use ckc_base_counts::one_more;
use std::alloc::Global;
use std::fs;
use std::rt::Files;

const ROOM: usize = 4096;

/// The files of the system, by their paths. A regular file is kept whole or left as it was.
#[derive(Drop)]
pub struct RealStore<'a, R> {
    rt: &'a R,
    faults: u64,
    fetches: u64,
    limit: u64,
    keeps: u64,
    kept: u64,
}

impl<'a, R: Files> RealStore<'a, R> {
    /// The files that the runtime reaches.
    pub fn new(rt: &'a R) -> RealStore<'a, R>
        ensures faults { result.faults ≡ 0 }
        ensures fetches { result.fetches ≡ 0 }
        ensures keeps { result.keeps ≡ 0 }
        ensures kept { result.kept ≡ 0 }
    {
        RealStore {
            rt,
            faults: 0,
            fetches: 0,
            limit: 0,
            keeps: 0,
            kept: 0,
        }
    }
}

impl<'a, R: Files + AllocGlobal> Store for RealStore<'a, R> {
    ghost seen = { λ s. record {
      files = None;
      steady = false;
      faults = s.faults;
      fetches = s.fetches;
      limit = s.limit;
      keeps = s.keeps;
      kept = s.kept;
    } };

    fn fetch(&mut self, alloc: Global, name: &str, limit: u64) -> Result<Fetched, StoreError> {
        self.fetches = one_more(self.fetches);
        self.limit = limit;
        match read_file(self.rt, alloc, name, limit) {
            Ok(fetched) => Ok(fetched),
            Err(StoreError::Memory) => Err(StoreError::Memory),
            Err(StoreError::Failed) => {
                self.faults = one_more(self.faults);
                Err(StoreError::Failed)
            }
        }
    }

    fn keep(&mut self, name: &str, bytes: &[u8]) -> Result<(), StoreError> {
        self.keeps = one_more(self.keeps);
        match put_file(self.rt, self.rt.alloc(), name, bytes) {
            Ok(()) => {
                self.kept = one_more(self.kept);
                Ok(())
            }
            Err(StoreError::Memory) => Err(StoreError::Memory),
            Err(StoreError::Failed) => {
                self.faults = one_more(self.faults);
                Err(StoreError::Failed)
            }
        }
    }
}

/// Reads a file, and stops after `limit + 1` bytes. Each turn takes at least one byte.
fn read_file<R: Files>(rt: &R, alloc: Global, name: &str, limit: u64) -> Result<Fetched, StoreError>
    ensures { IsWithin limit result }
{
    let Ok(mut file) = fs::open(rt, name) else {
        return Err(StoreError::Failed);
    };
    let mut bytes = Vec::new(alloc);
    let mut room = [0u8; ROOM];
    let mut more = limit;
    for _ in 0..u64::MAX {
        let most = if more < ROOM as u64 {
            more as usize + 1
        } else {
            ROOM
        };
        let Ok(count) = read_some(&mut file, &mut room[..most]) else {
            return Err(StoreError::Failed);
        };
        if count == 0 {
            return Ok(Fetched::Whole(Bytes::from_vec(bytes)));
        }
        if count as u64 > more {
            return Ok(Fetched::Longer);
        }
        more -= count as u64;
        if bytes.extend_from_slice(&room[..count]).is_err() {
            return Err(StoreError::Memory);
        }
    }
    Err(StoreError::Failed)
}
