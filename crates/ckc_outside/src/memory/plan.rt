ghost use Rattle.std.specs.Prelude.{◌≡◌};
ghost use Rattle.ckc_outside.specs.Outside.{one_more};
ghost use Rattle.ckc_outside.specs.Memory.{is_listed, counted};

use ckc_base_counts::one_more;

/// Which calls of an object fail, by their numbers from 1; how many calls and faults there were. Both counts stand
/// still at their last value.
#[derive(Drop)]
pub struct Plan<'a> {
    pub fail: &'a [u64],
    pub calls: u64,
    pub faults: u64,
}

impl<'a> Plan<'a> {
    /// No call is made yet; the calls with these numbers, from 1, fail.
    pub fn new(fail: &'a [u64]) -> Plan<'a>
        ensures listed { result.fail.now ≡ fail.now }
        ensures calls { result.calls ≡ 0 }
        ensures faults { result.faults ≡ 0 }
    {
        Plan {
            fail,
            calls: 0,
            faults: 0,
        }
    }

    /// Counts a call, and says whether it is listed. A listed call is a fault.
    pub fn fails(&mut self) -> bool
        ensures answer { result ≡ is_listed self.old.fail.now self.old.calls }
        ensures listed { self.new.fail.now ≡ self.old.fail.now }
        ensures calls { self.new.calls ≡ one_more self.old.calls }
        ensures faults { self.new.faults ≡ counted self.old.faults result }
    {
        self.calls = one_more(self.calls);
        let fails = self.fail.contains(&self.calls);
        if fails {
            self.fault();
        }
        fails
    }

    /// Counts a fault.
    pub fn fault(&mut self)
        ensures listed { self.new.fail.now ≡ self.old.fail.now }
        ensures calls { self.new.calls ≡ self.old.calls }
        ensures faults { self.new.faults ≡ one_more self.old.faults }
    {
        self.faults = one_more(self.faults);
    }
}
