ghost use Rattle.std.specs.Prelude.{◌≡◌, ◌-◌, [], ◌∷◌, ◌++◌, OnOk, Ok, length, take, drop};
ghost use Rattle.ckc_base.specs.Outcomes.{AnswersOutcome};
ghost use Rattle.ckc_resolve.specs.Scoping.{found, is_declared};
ghost use Rattle.ckc_resolve.specs.Indexed.{last_at};

use ckc_base::Fault;
use ckc_syntax::{Name, Spelling};
use indexmap::IndexMap;
use std::alloc::Global;
use std::marker::Model;

/// A declaration that is visible, with what it declares.
#[derive(Drop)]
pub struct Entry<'a> {
    pub spelling: Spelling<'a>,
    pub name: Name,
}

/// A declaration, with the place of the one of the same spelling that it hides.
#[derive(Drop)]
pub struct Slot<'a> {
    spelling: Spelling<'a>,
    name: Name,
    hidden: Option<usize>,
}

/// The declarations that are visible, in the order of declaration. The last one of each spelling is found by a table,
/// which the end of a scope sets back.
pub struct Visible<'a> {
    slots: Vec<Slot<'a>>,
    last: IndexMap<&'a str, Option<usize>>,
}

impl<'a> Model for Visible<'a> {
    ghost use Rattle.std.specs.Prelude.{List};
    ghost use Rattle.std.specs.Str.{bytes_eq};
    ghost use Rattle.indexmap.specs.IndexMap.{get_by};
    ghost use Rattle.ckc_resolve.specs.declared.visible.Entry.{Entry};

    ghost Value = { List Entry };

    ghost use Rattle.ckc_resolve.specs.Indexed.{entries_of, IsIndexed};

    ghost view = { λ v. entries_of v.slots.items };

    ghost invariant = { λ v. IsIndexed v.slots.items (λ s. get_by (λ k. bytes_eq s k.now) v.last) };
}

// Written out, so that an exit over which a table lives has one call in place of the table's parts.
impl<'a> Drop for Visible<'a> {
    fn drop(self) {
        let Visible {
            slots: _slots,
            last: _last,
        } = self;
    }
}

impl<'a> Visible<'a> {
    /// No declaration. It takes no memory.
    pub fn new(alloc: Global) -> Visible<'a>
        ensures { result ≡ [] }
    {
        Visible {
            slots: Vec::new(alloc),
            last: IndexMap::new(alloc),
        }
    }

    /// How many declarations are visible.
    pub fn len(&self) -> usize
        ensures { result ≡ length self.now }
    {
        self.slots.len()
    }

    /// The place of the last declaration of a spelling.
    fn place(&self, s: &Spelling<'a>) -> Option<usize>
        ensures { result ≡ last_at s.now self.now }
    {
        match self.last.get(s.as_str()) {
            Some(place) => *place,
            None => None,
        }
    }

    /// Adds a declaration.
    pub fn push(&mut self, entry: Entry<'a>) -> Result<(), Fault>
        ensures pushed { OnOk result (self.new ≡ self.old ++ entry.entry ∷ []) }
        ensures memory { AnswersOutcome result (Ok tt) }
    {
        let Entry { spelling, name } = entry;
        let text = spelling.as_str();
        let hidden = self.place(&spelling);
        let place = self.slots.len();
        self.slots.push(Slot {
            spelling,
            name,
            hidden,
        })?;
        match self.last.insert(text, Some(place)) {
            Ok(_) => Ok(()),
            Err(_) => {
                let _ = self.slots.pop();
                Err(Fault::Memory)
            }
        }
    }

    /// Forgets the last declaration.
    fn forget_last(&mut self)
        ensures { self.new ≡ take (length self.old - 1) self.old }
    {
        if let Some(slot) = self.slots.pop() {
            match self.last.insert(slot.spelling.as_str(), slot.hidden) {
                Ok(_) => {}
                Err(_) => unreachable!(),
            }
        }
    }

    /// Forgets all but the first declarations.
    pub fn truncate(&mut self, len: usize)
        ensures { self.new ≡ take len self.old }
    {
        while self.len() > len {
            self.forget_last();
        }
    }

    /// What the last declaration of a spelling declares.
    pub fn find(&self, s: &Spelling<'a>) -> Option<Name>
        ensures { result ≡ found self.now s.now }
    {
        match self.place(s) {
            Some(place) => Some(self.slots[place].name),
            None => None,
        }
    }

    /// Whether a spelling is declared after the first declarations.
    pub fn has_behind(&self, base: usize, s: &Spelling<'a>) -> bool
        ensures { result ≡ is_declared (drop base self.now) s.now }
    {
        match self.place(s) {
            Some(place) => base <= place,
            None => false,
        }
    }
}
