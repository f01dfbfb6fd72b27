ghost use Rattle.std.specs.Prelude.{◌≡◌, ℕ, List, Option, Some, None, Ok, IsTrue, is_err};
ghost use Rattle.ckc_outside.specs.Outside.{one_more, faults_after, GivesNext, GivesNothing, after_next};
ghost use Rattle.ckc_outside.specs.Memory.{is_listed, after_call};
ghost use Rattle.ckc_outside.specs.MemSource.{left_of, has_ended, plan_of, seen_of};

use super::plan::Plan;
use crate::traits::{Failed, Source};
use ckc_base_counts::one_more;

/// A source over bytes in memory, which fails at the calls that are listed.
#[derive(Drop)]
pub struct MemSource<'a> {
    left: &'a [u8],
    answers: u64,
    plan: Plan<'a>,
}

impl<'a> MemSource<'a> {
    /// Over these bytes. `fail` lists the numbers of the calls, from 1, that answer `Failed`.
    pub fn new(bytes: &'a [u8], fail: &'a [u64]) -> MemSource<'a>
        ensures left { left_of result ≡ bytes.now }
        ensures answers { result.answers ≡ 0 }
        ensures listed { (plan_of result).listed ≡ fail.now }
        ensures calls { (plan_of result).calls ≡ 0 }
        ensures faults { (plan_of result).faults ≡ 0 }
    {
        MemSource {
            left: bytes,
            answers: 0,
            plan: Plan::new(fail),
        }
    }
}

impl<'a> Source for MemSource<'a> {
    ghost seen = { seen_of };

    fn next(&mut self) -> Result<Option<u8>, Failed>
        ensures faults { (plan_of self.new).faults ≡ faults_after result (plan_of self.old).faults }
        ensures asked { (plan_of self.new).calls ≡ one_more (plan_of self.old).calls }
        ensures told { (bytes : List ℕ) → Some (left_of self.old) ≡ Some bytes
            → GivesNext bytes result (Some (left_of self.new)) }
        ensures end { result ≡ Ok None → IsTrue (has_ended self.new) }
        ensures stays { IsTrue (has_ended self.old) → IsTrue (has_ended self.new) }
        ensures nothing { IsTrue (has_ended self.old) → GivesNothing result }
        ensures answered { self.new.answers ≡ after_next result self.old.answers }
        // A call fails exactly when it is listed, and then the count of faults goes up by one.
        ensures fails { is_err result ≡ is_listed (plan_of self.old).listed
            (plan_of self.old).calls }
        ensures plan { plan_of self.new ≡ after_call (plan_of self.old) (is_err result) }
    {
        if self.plan.fails() {
            return Err(Failed);
        }
        match self.left.split_first() {
            None => Ok(None),
            Some((first, rest)) => {
                self.left = rest;
                self.answers = one_more(self.answers);
                Ok(Some(*first))
            }
        }
    }
}
