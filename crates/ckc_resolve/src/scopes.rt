ghost use Rattle.std.specs.Prelude.{◌≡◌, ◌+◌, ℕ, List, OnOk, Ok, length};
ghost use Rattle.ckc_resolve.specs.declared.scopes.Scopes.{Scopes};
ghost use Rattle.ckc_base.specs.Outcomes.{AnswersOutcome};
ghost use Rattle.ckc_resolve.specs.Scoping.{is_reserved, is_taken_here, with_name, with_local, opened, closed, no_scope};

use crate::visible::{Entry, Visible};
use ckc_base::Fault;
use ckc_syntax::{Name, Spelling};
use std::alloc::Global;

/// The declarations that are visible beside those of the whole text. The innermost scope begins at `base`. The next
/// local gets the number `next`.
pub struct Scopes<'a> {
    pub visible: Visible<'a>,
    pub base: usize,
    pub next: u32,
}

/// What is to be visible again where a scope ends.
#[derive(Clone, Copy)]
pub struct Mark {
    len: usize,
    base: usize,
}

// Written out, so that an exit over which scopes live has one call in place of their parts.
impl<'a> Drop for Scopes<'a> {
    fn drop(self) {
        let Scopes {
            visible: _visible,
            base: _,
            next: _,
        } = self;
    }
}

impl<'a> Scopes<'a> {
    /// No declaration.
    pub fn new(alloc: Global) -> Scopes<'a>
        ensures { result ≡ no_scope }
    {
        Scopes {
            visible: Visible::new(alloc),
            base: 0,
            next: 0,
        }
    }

    /// Whether the innermost scope may not declare a spelling.
    pub fn is_taken(&self, s: &Spelling<'a>) -> bool
        ensures { result ≡ is_taken_here self.now s.now }
    {
        is_reserved(s) || self.visible.has_behind(self.base, s)
    }

    /// Makes the declaration of a name visible.
    pub fn show(&mut self, s: &Spelling<'a>, name: Name) -> Result<(), Fault>
        ensures shown { OnOk result (self.new ≡ with_name self.old s.now name) }
        ensures memory { AnswersOutcome result (Ok tt) }
    {
        self.visible.push(Entry {
            spelling: Spelling::new(s.as_str()),
            name,
        })
    }

    /// Declares a local.
    pub fn declare(&mut self, s: &Spelling<'a>) -> Result<(), Fault>
        ensures declared { OnOk result (self.new ≡ with_local self.old s.now) }
        ensures memory { AnswersOutcome result (Ok tt) }
    {
        let next = following(self.next)?;
        self.show(s, Name::Local(self.next))?;
        self.next = next;
        Ok(())
    }

    /// Takes the last declaration back.
    pub fn withdraw(&mut self)
        ensures { (before : Scopes) (s : List ℕ) → self.old ≡ with_local before s → self.new
            ≡ before }
    {
        let len = self.visible.len();
        self.visible.truncate(len.saturating_sub(1));
        self.next = self.next.saturating_sub(1);
    }

    /// Begins a scope.
    pub fn open(&mut self) -> Mark
        ensures opened { self.new ≡ opened self.old }
        ensures len { result.len ≡ length self.old.visible }
        ensures base { result.base ≡ self.old.base }
    {
        let mark = Mark {
            len: self.visible.len(),
            base: self.base,
        };
        self.base = mark.len;
        mark
    }

    /// Ends a scope, so that what was visible at its mark is visible again.
    pub fn close(&mut self, mark: Mark)
        ensures { (outer : Scopes) → mark.len ≡ length outer.visible → mark.base ≡ outer.base
            → self.new ≡ closed outer self.old }
    {
        self.visible.truncate(mark.len);
        self.base = mark.base;
    }
}

/// The number after a number; if it does not fit, that is taken for want of memory.
fn following(n: u32) -> Result<u32, Fault>
    ensures { AnswersOutcome result (Ok (n + 1)) }
{
    match n.checked_add(1) {
        Some(next) => Ok(next),
        None => Err(Fault::Memory),
    }
}

/// Whether no text may declare a spelling.
pub fn is_reserved<'a>(s: &Spelling<'a>) -> bool
    ensures { result ≡ is_reserved s.now }
{
    s.as_str() == "getchar" || s.as_str() == "putchar" || s.as_str() == "calloc"
}
