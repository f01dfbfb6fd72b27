//! Evaluation, from left to right.

ghost use Rattle.std.specs.Prelude.{◌≡◌};
ghost use Rattle.ckc_source.specs.Code.{expr_of, target_of};
ghost use Rattle.ckc_source.specs.Words.{truth};
ghost use Rattle.ckc_source.specs.Eval.{given, element, place_in, loads, loads_pointer, spanned, evaluated};
ghost use Rattle.ckc_source.specs.Steps.{aims_at, aimed, terminator_at};

use crate::accesses::{element, moves, operates, place_in, plain, tests};
use crate::reader::Reader;
use ckc_base::{Pos, Width};
use ckc_source::{
    Access, Count, ExprTree, Halt, Place, Pointee, Range, TargetTree, Through, Value,
};

/// 1 if a word is not zero, and else 0.
fn truth(word: u32) -> u32
    ensures { result ≡ truth word }
{
    u32::from(word != 0)
}

/// The place of the check for the terminator, if an access goes to the upper bound of an `_Nt_array_ptr`.
fn terminator_at(through: Through, range: Range, a: u32, at: Pos) -> Option<Pos>
    ensures { result ≡ terminator_at through range a at }
{
    match (through, range) {
        (Through::Terminated, Range::Within(_, high)) => {
            if u64::from(a) == high { Some(at) } else { None }
        }
        _ => None,
    }
}

/// The address of so many bytes, with their range.
fn spanned(a: u32, bytes: u32) -> Result<Value, Halt>
    ensures { result ≡ spanned a bytes }
{
    let low = u64::from(a);
    Ok(Value {
        number: a,
        range: Range::Within(low, low + u64::from(bytes)),
    })
}

/// The address that an access goes to, with the range of so many bytes.
fn address_at(bytes: u32, access: Access, p: Value, i: Value) -> Result<Value, Halt>
    ensures { result ≡ given (element access p i.number)
        (λ a. spanned (place_in a access.offset) bytes) }
{
    let a = element(access, p, i.number)?;
    spanned(place_in(a, access.offset), bytes)
}

impl<'r, 'a> Reader<'r, 'a> {
    ghost use Rattle.ckc_interp_eval.specs.Stores.{store_of};

    /// The value of an expression, or why there is none.
    pub fn evaluate(&self, e: &ExprTree) -> Result<Value, Halt>
        ensures { result ≡ evaluated (store_of self.now) (expr_of e.now) }
    {
        match e {
            ExprTree::Number(n) => Ok(plain(*n)),
            ExprTree::Local(x) => Ok(plain(self.local(*x))),
            ExprTree::Limited(x, limits) => self.read_limited(limits.get(), self.local(*x)),
            ExprTree::Array(at, bytes) => spanned(*at, *bytes),
            ExprTree::Load(width, access, p, i) => {
                let p = self.evaluate(p.get())?;
                let i = self.evaluate(i.get())?;
                self.load_at(*width, *access, p, i)
            }
            ExprTree::Member(to, count, access, p, i) => {
                let p = self.evaluate(p.get())?;
                let i = self.evaluate(i.get())?;
                self.load_pointer_at(to.get(), *count, *access, p, i)
            }
            ExprTree::Address(bytes, access, p, i) => {
                let p = self.evaluate(p.get())?;
                let i = self.evaluate(i.get())?;
                address_at(*bytes, *access, p, i)
            }
            ExprTree::Moved(shift, p, i) => {
                let p = self.evaluate(p.get())?;
                let i = self.evaluate(i.get())?;
                moves(*shift, p, i.number)
            }
            ExprTree::Added(shift, i, p) => {
                let i = self.evaluate(i.get())?;
                let p = self.evaluate(p.get())?;
                moves(*shift, p, i.number)
            }
            ExprTree::Binary(operation, is_signed, at, a, b) => {
                let a = self.evaluate(a.get())?;
                let b = self.evaluate(b.get())?;
                operates(*operation, *is_signed, *at, a.number, b.number)
            }
            ExprTree::And(a, b) => {
                let a = self.evaluate(a.get())?;
                if a.number == 0 {
                    return Ok(plain(0));
                }
                let b = self.evaluate(b.get())?;
                Ok(plain(truth(b.number)))
            }
            ExprTree::Or(a, b) => {
                let a = self.evaluate(a.get())?;
                if a.number != 0 {
                    return Ok(plain(1));
                }
                let b = self.evaluate(b.get())?;
                Ok(plain(truth(b.number)))
            }
            ExprTree::Choice(c, a, b) => {
                let c = self.evaluate(c.get())?;
                if c.number == 0 {
                    self.evaluate(b.get())
                } else {
                    self.evaluate(a.get())
                }
            }
            ExprTree::Narrow(e) => {
                let v = self.evaluate(e.get())?;
                Ok(plain(v.number % 256))
            }
            ExprTree::Bare(p) => {
                let v = self.evaluate(p.get())?;
                Ok(plain(v.number))
            }
            ExprTree::Tested(size, form, at, p, k) => {
                let p = self.evaluate(p.get())?;
                let k = self.evaluate(k.get())?;
                tests(*size, *form, *at, p, k.number)
            }
            ExprTree::Trusted(to, form, p, k) => {
                let p = self.evaluate(p.get())?;
                let k = self.evaluate(k.get())?;
                self.trust(to.get(), *form, p.number, k.number)
            }
        }
    }

    /// What a load through a pointer at an index gives.
    fn load_at(&self, width: Width, access: Access, p: Value, i: Value) -> Result<Value, Halt>
        ensures { result ≡ given (element access p i.number)
            (λ a. loads (store_of self.now) width (place_in a access.offset)) }
    {
        let a = element(access, p, i.number)?;
        self.load(width, place_in(a, access.offset))
    }

    /// What the read of a pointer in memory, through a pointer at an index, gives.
    fn load_pointer_at(
        &self,
        to: &Pointee,
        count: Count,
        access: Access,
        p: Value,
        i: Value,
    ) -> Result<Value, Halt>
        ensures { result ≡ given (element access p i.number)
            (λ a. loads_pointer (store_of self.now) to.now count a (place_in a access.offset)) }
    {
        let a = element(access, p, i.number)?;
        self.load_pointer(to, count, a, place_in(a, access.offset))
    }

    /// Where an assignment writes.
    pub fn aim(&self, target: &TargetTree) -> Result<Place, Halt>
        ensures { result ≡ aimed (store_of self.now) (target_of target.now) }
    {
        match target {
            TargetTree::Nothing => Ok(Place::Nowhere),
            TargetTree::Local(x, width) => Ok(Place::Local(*x, *width)),
            TargetTree::Memory(width, access, p, i) => {
                let p = self.evaluate(p.get())?;
                let i = self.evaluate(i.get())?;
                let a = element(*access, p, i.number)?;
                self.aim_at(*width, *access, p.range, a)
            }
        }
    }

    /// A target in memory, judged for alignment and block.
    fn aim_at(&self, width: Width, access: Access, range: Range, a: u32) -> Result<Place, Halt>
        ensures { result ≡ aims_at (store_of self.now) width access range a }
    {
        let place = place_in(a, access.offset);
        if self.blocks.lies_in(width, place) {
            let zero_alone = terminator_at(access.through, range, a, access.at);
            Ok(Place::Memory(place, width, zero_alone))
        } else {
            Err(Halt::Stuck)
        }
    }
}
