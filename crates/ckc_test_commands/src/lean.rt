//! A store that has no memory.
ghost use Rattle.std.specs.Prelude.{None, false};

use ckc_base_counts::one_more;
use ckc_outside::{Fetched, Store, StoreError};
use std::alloc::Global;

/// A store whose calls all answer that memory ran out. It tells no files.
#[derive(Drop)]
pub struct LeanStore {
    fetches: u64,
    limit: u64,
    keeps: u64,
}

impl LeanStore {
    /// Before its first call.
    pub fn new() -> LeanStore {
        LeanStore {
            fetches: 0,
            limit: 0,
            keeps: 0,
        }
    }
}

impl Store for LeanStore {
    ghost seen = { λ s. record {
      files = None;
      steady = false;
      faults = 0;
      fetches = s.fetches;
      limit = s.limit;
      keeps = s.keeps;
      kept = 0;
    } };

    fn fetch(&mut self, _alloc: Global, _name: &str, limit: u64) -> Result<Fetched, StoreError> {
        self.fetches = one_more(self.fetches);
        self.limit = limit;
        Err(StoreError::Memory)
    }

    fn keep(&mut self, _name: &str, _bytes: &[u8]) -> Result<(), StoreError> {
        self.keeps = one_more(self.keeps);
        Err(StoreError::Memory)
    }
}
