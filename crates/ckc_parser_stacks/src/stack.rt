ghost use Rattle.std.specs.Prelude.{◌≡◌, ◌==◌, nat_lt, false, [], ◌∷◌, ◌++◌, IfOk, OnOk, MatchOption, length, reverse, get_or, drop};
ghost use Rattle.ckc_syntax.specs.Spelled.{spelled};

use ckc_base::Seq;
use ckc_syntax::Token;
use std::alloc::{AllocError, Global};
use std::marker::Model;
use std::mem::forget;

/// A stack, which contracts see as the list of its elements, the top first.
#[derive(Drop)]
pub struct Stack<T> {
    items: Vec<T>,
}

impl<T> Model for Stack<T> {
    ghost use Rattle.std.specs.Prelude.{List, reverse};

    ghost Value = { List T };

    ghost view = { λ s. reverse s.items.items };
}

impl<T> Stack<T> {
    /// Nothing stands on it.
    pub fn new(alloc: Global) -> Stack<T>
        ensures { result ≡ [] }
    {
        Stack {
            items: Vec::new(alloc),
        }
    }

    /// Takes the top. What the trace of a text needs is there, so that an empty stack is only want of memory.
    #[tactic(auto, using(crate::proofs::Tops::taken))]
    pub fn take(&mut self) -> Result<T, AllocError>
        ensures { IfOk result (λ top. self.old ≡ top ∷ self.new) }
    {
        match self.items.pop() {
            Some(top) => Ok(top),
            None => Err(AllocError),
        }
    }
}

impl<T> Stack<T> {
    /// Whether nothing stands on it.
    #[inline(always)]
    pub fn is_empty(&self) -> bool
        ensures { result ≡ (length self.now == 0) }
    {
        self.items.is_empty()
    }

    /// Whether fewer than two stand on it.
    #[inline(always)]
    pub fn is_short(&self) -> bool
        ensures { result ≡ nat_lt (length self.now) 2 }
    {
        self.items.len() < 2
    }

    /// Takes the top, which is there.
    #[inline(always)]
    #[tactic(auto, using(crate::proofs::Tops::taken))]
    pub fn take_top(&mut self) -> T
        requires { (length self.old == 0) ≡ false }
        ensures { self.old ≡ result ∷ self.new }
    {
        self.items.pop().unwrap()
    }

    /// Takes the upper two, which are there.
    #[inline(always)]
    #[tactic(auto, using(crate::proofs::Tops::first_of_two, crate::proofs::Tops::second_of_two))]
    pub fn take_two(&mut self) -> (T, T)
        requires { nat_lt (length self.old) 2 ≡ false }
        ensures { self.old ≡ result.0 ∷ result.1 ∷ self.new }
    {
        let first = self.take_top();
        let second = self.take_top();
        (first, second)
    }

    /// Takes the top, if there is one.
    #[tactic(auto, using(crate::proofs::Tops::taken, crate::proofs::Tops::none))]
    pub fn pop(&mut self) -> Option<T>
        ensures { MatchOption result ((self.old ≡ []) × (self.new ≡ []))
            (λ top. self.old ≡ top ∷ self.new) }
    {
        self.items.pop()
    }

    /// The elements in the other order.
    pub fn turn(self) -> Stack<T>
        ensures { result ≡ reverse self }
    {
        let Stack { items } = self;
        let mut items = items;
        items.reverse();
        Stack { items }
    }

    /// The elements from the top.
    pub fn into_seq(self) -> Seq<T>
        ensures { result ≡ self }
    {
        let Stack { items } = self;
        let mut items = items;
        items.reverse();
        Seq::from_vec(items)
    }
}

impl<T: Drop> Stack<T> {
    /// Puts an element on top. One that has no room is not dropped, since a deep tree would be by recursion.
    #[inline(always)]
    #[tactic(auto, using(crate::proofs::Tops::put))]
    pub fn push(&mut self, item: T) -> Result<(), AllocError>
        ensures { OnOk result (self.new ≡ item ∷ self.old) }
    {
        if self.items.len() == self.items.capacity() {
            match self.items.reserve(1) {
                Ok(()) => {}
                Err(e) => {
                    forget(item);
                    return Err(e);
                }
            }
        }
        self.items.push_reserved(item);
        Ok(())
    }

    /// Puts a whole stack on top.
    #[tactic(auto, using(crate::proofs::Tops::stood_on))]
    pub fn put_all(&mut self, upper: Stack<T>) -> Result<(), AllocError>
        ensures { OnOk result (self.new ≡ upper ++ self.old) }
    {
        let mut upper = upper;
        self.items.append(&mut upper.items)
    }
}

impl<T: Drop> Stack<Stack<T>> {
    /// Puts an element on the stack that stands on top.
    pub fn push_in(&mut self, item: T) -> Result<(), AllocError>
        ensures { OnOk result (self.new ≡ (item ∷ get_or self.old 0 []) ∷ drop 1 self.old) }
    {
        let Some(top) = self.pop() else {
            forget(item);
            return Err(AllocError);
        };
        let mut list = top;
        match list.push(item) {
            Ok(()) => self.push(list),
            Err(e) => {
                forget(list);
                Err(e)
            }
        }
    }
}

/// A stack of tokens.
#[derive(Drop)]
pub struct Tokens<'a> {
    items: Vec<Token<'a>>,
}

impl<'a> Model for Tokens<'a> {
    ghost use Rattle.std.specs.Prelude.{List, reverse, map};
    ghost use Rattle.ckc_syntax.specs.Spelled.{Spelled, spelled};

    ghost Value = { List Spelled };

    ghost view = { λ s. map spelled (reverse s.items.items) };
}

impl<'a> Tokens<'a> {
    /// Nothing stands on it.
    pub fn new(alloc: Global) -> Tokens<'a>
        ensures { result ≡ [] }
    {
        Tokens {
            items: Vec::new(alloc),
        }
    }

    /// Whether nothing stands on it.
    #[inline(always)]
    pub fn is_empty(&self) -> bool
        ensures { result ≡ (length self.now == 0) }
    {
        self.items.is_empty()
    }

    /// Whether fewer than two stand on it.
    #[inline(always)]
    pub fn is_short(&self) -> bool
        ensures { result ≡ nat_lt (length self.now) 2 }
    {
        self.items.len() < 2
    }

    /// Takes the top, which is there.
    #[inline(always)]
    #[tactic(auto, using(crate::proofs::Tops::taken_token))]
    pub fn take_top(&mut self) -> Token<'a>
        requires { (length self.old == 0) ≡ false }
        ensures { self.old ≡ spelled result ∷ self.new }
    {
        self.items.pop().unwrap()
    }

    /// Takes the upper two, which are there.
    #[inline(always)]
    #[tactic(auto, using(crate::proofs::Tops::first_of_two, crate::proofs::Tops::second_of_two))]
    pub fn take_two(&mut self) -> (Token<'a>, Token<'a>)
        requires { nat_lt (length self.old) 2 ≡ false }
        ensures { self.old ≡ spelled result.0 ∷ spelled result.1 ∷ self.new }
    {
        let first = self.take_top();
        let second = self.take_top();
        (first, second)
    }

    /// Takes the top.
    #[tactic(auto, using(crate::proofs::Tops::taken_token))]
    pub fn take(&mut self) -> Result<Token<'a>, AllocError>
        ensures { IfOk result (λ top. self.old ≡ spelled top ∷ self.new) }
    {
        match self.items.pop() {
            Some(top) => Ok(top),
            None => Err(AllocError),
        }
    }

    /// Puts a token on top.
    #[inline(always)]
    #[tactic(auto, using(crate::proofs::Tops::put_token))]
    pub fn push(&mut self, item: Token<'a>) -> Result<(), AllocError>
        ensures { OnOk result (self.new ≡ spelled item.entry ∷ self.old) }
    {
        if self.items.len() == self.items.capacity() {
            self.items.reserve(1)?;
        }
        self.items.push_reserved(item);
        Ok(())
    }
}
