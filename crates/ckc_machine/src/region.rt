ghost use Rattle.std.specs.Prelude.{◌≡◌, ◌≢◌, ◌<◌, ◌≤◌, ℕ, IfOk, slice_index, vec_len, vec_capacity};

use std::alloc::{AllocError, Global};

/// How many words a region has.
const REGION_WORDS: usize = 0x40_0000;

/// How many words are zeroed at once.
const PART_WORDS: usize = 0x1000;

/// The words of a region, as far as one was put; those after it are 0. It takes all its memory when it is made, and
/// touches it only as far as a word is put.
#[derive(Drop)]
pub struct Region {
    words: Vec<u32>,
    ghost room: { 4194304 ≤ vec_capacity words },
}

impl Region {
    /// A region of words that are all 0.
    pub fn new(alloc: Global) -> Result<Region, AllocError>
        ensures { IfOk result (λ r. (j : ℕ) → slice_index r.words.items j ≡ 0) }
    {
        let words = Vec::with_capacity(alloc, REGION_WORDS)?;
        Ok(Region { words })
    }

    /// The word at a place.
    #[inline(always)]
    pub fn get(&self, at: usize) -> u32
        ensures { result ≡ slice_index self.now.words.items at }
    {
        if at < self.words.len() {
            self.words[at]
        } else {
            0
        }
    }

    /// Puts a word at a place.
    #[inline(always)]
    pub fn put(&mut self, at: usize, word: u32)
        requires { at < 4194304 }
        ensures here { slice_index self.new.words.items at ≡ word }
        ensures others { (j : ℕ) → j ≢ at → slice_index self.new.words.items j
            ≡ slice_index self.old.words.items j }
    {
        if at >= self.words.len() {
            self.reach(at);
        }
        self.words[at] = word;
    }

    /// Zeroes words up to the end of the part that has the place.
    #[cold]
    #[inline(never)]
    fn reach(&mut self, at: usize)
        requires within { at < 4194304 }
        requires behind { vec_len self.old.words ≤ at }
        ensures reached { at < vec_len self.new.words }
        ensures same { (j : ℕ) → slice_index self.new.words.items j
            ≡ slice_index self.old.words.items j }
    {
        let end = (at / PART_WORDS + 1) * PART_WORDS;
        let _grown = self.words.resize(end, 0);
    }
}
