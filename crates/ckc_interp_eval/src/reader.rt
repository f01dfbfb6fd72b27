//! What expressions read.

ghost use Rattle.std.specs.Prelude.{◌≡◌, pos, ◌≤ℤ◌, ◌<ℤ◌, slice_index};
ghost use Rattle.ckc_source.specs.Words.{width_of};
ghost use Rattle.ckc_source.specs.Eval.{base_address, amount, end_address, reads_limited, loads, counted, loads_pointer, trusts};
ghost use Rattle.ckc_source.specs.Steps.{reads_interfaces};

use crate::accesses::{place_in, plain};
use crate::arithmetic::{elements_behind, exact};
use ckc_base::Width;
use ckc_interp_blocks::Blocks;
use ckc_source::{Base, Count, End, Halt, Integer, Interface, Limits, Pointee, Value, Variable};

/// The blocks and the locals that expressions read.
#[derive(Clone, Copy)]
pub struct Reader<'r, 'a> {
    pub blocks: &'r Blocks<'a>,
    pub locals: &'r [u32],
}

/// The value of a local, 0 if there is none.
fn local_in(locals: &[u32], x: u32) -> u32
    ensures { result ≡ slice_index locals.now x }
{
    let i = x as usize;
    if i < locals.len() { locals[i] } else { 0 }
}

/// An amount of limits, exactly.
fn amount(locals: &[u32], variable: Option<Variable>, add: i32) -> i64
    ensures value { result ≡ amount locals.now variable add }
{
    match variable {
        None => i64::from(add),
        Some(x) => exact(x.form, local_in(locals, x.local)) + i64::from(add),
    }
}

/// How many bytes an integer has.
fn width_of(form: Integer) -> Width
    ensures { result ≡ width_of form }
{
    match form {
        Integer::Int => Width::Word,
        Integer::Unsigned => Width::Word,
        Integer::Char => Width::Byte,
    }
}

impl<'r, 'a> Reader<'r, 'a> {
    ghost use Rattle.ckc_interp_eval.specs.Stores.{store_of};

    /// The value of a local, 0 if there is none.
    pub fn local(&self, x: u32) -> u32
        ensures { result ≡ slice_index self.now.locals.now x }
    {
        local_in(self.locals, x)
    }

    fn base_address(&self, own: u32, base: Base) -> u32
        ensures { result ≡ base_address self.now.locals.now own base }
    {
        match base {
            Base::Own => own,
            Base::Local(x) => self.local(x),
            Base::Fixed(a) => a,
        }
    }

    /// The address of an end of the limits of a pointer.
    fn end_address(&self, own: u32, size: u32, e: End) -> i128
        ensures { result ≡ end_address self.now.locals.now size own e }
    {
        let base = self.base_address(own, e.base);
        elements_behind(base, size, amount(self.locals, e.variable, e.add))
    }

    /// What the read of a pointer with limits gives.
    pub fn read_limited(&self, limits: &Limits, n: u32) -> Result<Value, Halt>
        ensures { result ≡ reads_limited (store_of self.now) limits.now n }
    {
        let low = self.end_address(n, limits.to.size, limits.lower);
        let high = self.end_address(n, limits.to.size, limits.upper);
        self.blocks.read(&limits.to, n, low, high)
    }

    /// Reads each interface with its limits.
    #[tactic(auto, using(crate::proofs::Interfaces::interfaces_next, crate::proofs::Interfaces::interfaces_stop))]
    pub fn read_interfaces(&self, interfaces: &[Interface]) -> Result<(), Halt>
        ensures { result ≡ reads_interfaces (store_of self.now) interfaces.now }
    {
        for i in interfaces {
            match self.read_limited(&i.limits, self.local(i.param)) {
                Ok(_) => {}
                Err(why) => return Err(why),
            }
        }
        Ok(())
    }

    /// What a load without known limits gives.
    pub fn load(&self, width: Width, a: u32) -> Result<Value, Halt>
        ensures { result ≡ loads (store_of self.now) width a }
    {
        match self.blocks.load(width, a) {
            Some(n) => Ok(plain(n)),
            None => Err(Halt::Stuck),
        }
    }

    /// How many elements a pointer has that lies in the structure which begins at an address.
    fn counted(&self, begin: u32, count: Count) -> Result<i64, Halt>
        ensures { result ≡ counted (store_of self.now) begin count }
    {
        match count {
            Count::Fixed(n) => Ok(i64::from(n)),
            Count::Member(offset, form, add) => {
                match self.blocks.load(width_of(form), place_in(begin, offset)) {
                    Some(m) => Ok(exact(form, m) + i64::from(add)),
                    None => Err(Halt::Stuck),
                }
            }
        }
    }

    /// What the read of a pointer in memory gives.
    pub fn load_pointer(
        &self,
        to: &Pointee,
        count: Count,
        begin: u32,
        a: u32,
    ) -> Result<Value, Halt>
        ensures { result ≡ loads_pointer (store_of self.now) to.now count begin a }
    {
        match self.blocks.load(Width::Word, a) {
            Some(n) => {
                let m = self.counted(begin, count)?;
                self.blocks
                    .read(to, n, i128::from(n), elements_behind(n, to.size, m))
            }
            None => Err(Halt::Stuck),
        }
    }

    /// `_Assume_bounds_cast` to so many elements.
    pub fn trust(&self, to: &Pointee, form: Integer, n: u32, k: u32) -> Result<Value, Halt>
        ensures { result ≡ trusts (store_of self.now) to.now form n k }
    {
        let high = elements_behind(n, to.size, exact(form, k));
        self.blocks.read(to, n, i128::from(n), high)
    }
}
