ghost use Rattle.std.specs.Prelude.{◌≡◌, [], length, OnOk, Ok};
ghost use Rattle.ckc_base.specs.Outcomes.{AnswersOutcome};
ghost use Rattle.ckc_resolve.specs.Spellings.{is_among, with_spelling, place_of, number_of};

use ckc_base::Fault;
use ckc_syntax::Spelling;
use indexmap::IndexSet;
use std::alloc::Global;
use std::marker::Model;

/// How many spellings have a number that fits a name.
const MOST: usize = 0xffff_ffff;

/// Spellings in the order in which they first come, each once, with its number from 0.
pub struct Spellings<'a> {
    set: IndexSet<&'a str>,
}

impl<'a> Model for Spellings<'a> {
    ghost use Rattle.std.specs.Prelude.{List, ℕ, ◌<◌, ◌^◌, map};
    ghost use Rattle.std.specs.Coded.{coded_list, coded_ℕ};
    ghost use Rattle.indexmap.specs.IndexSet.{index_set_len};

    ghost Value = { List (List ℕ) };

    ghost coded = { coded_list (coded_list coded_ℕ) };

    ghost view = { λ s. map (λ k. k.now) s.set.keys };

    ghost invariant = { λ s. index_set_len s.set < 2 ^ 32 };
}

// Written out, so that an exit over which a table lives has one call in place of the table's parts.
impl<'a> Drop for Spellings<'a> {
    fn drop(self) {
        let Spellings { set: _set } = self;
    }
}

impl<'a> Spellings<'a> {
    /// No spelling. It takes no memory.
    pub fn new(alloc: Global) -> Spellings<'a>
        ensures { result ≡ [] }
    {
        Spellings {
            set: IndexSet::new(alloc),
        }
    }

    /// Puts a spelling last, unless it is there. That no number is left is taken for want of memory.
    pub fn add(&mut self, s: &Spelling<'a>) -> Result<(), Fault>
        ensures added { OnOk result (self.new ≡ with_spelling self.old s.now) }
        ensures memory { AnswersOutcome result (Ok tt) }
    {
        if self.set.len() >= MOST {
            return Err(Fault::Memory);
        }
        self.set.insert(s.as_str())?;
        Ok(())
    }

    /// How many spellings there are.
    pub fn len(&self) -> usize
        ensures { result ≡ length self.now }
    {
        self.set.len()
    }

    /// Whether a spelling is there.
    pub fn contains(&self, s: &Spelling<'a>) -> bool
        ensures { result ≡ is_among self.now s.now }
    {
        self.set.contains(s.as_str())
    }

    /// The number of a spelling, if it is there.
    pub fn find(&self, s: &Spelling<'a>) -> Option<u32>
        ensures { result ≡ place_of self.now s.now }
    {
        match self.set.get_index_of(s.as_str()) {
            Some(n) => Some(n as u32),
            None => None,
        }
    }

    /// How many spellings stand before a spelling.
    pub fn number(&self, s: &Spelling<'a>) -> u32
        ensures { result ≡ number_of self.now s.now }
    {
        match self.set.get_index_of(s.as_str()) {
            Some(n) => n as u32,
            None => self.set.len() as u32,
        }
    }
}
