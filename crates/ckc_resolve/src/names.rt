ghost use Rattle.std.specs.Prelude.{◌≡◌, Ok, OnOk, fold};
ghost use Rattle.ckc_base.specs.Outcomes.{AnswersOutcome};
ghost use Rattle.ckc_resolve.specs.Scoping.{no_names, noted, with_member};

use crate::spellings::Spellings;
use ckc_base::Fault;
use ckc_syntax::{Decl, Item, Spelling};
use std::alloc::Global;

/// The names that items declare: statics, functions and those with a body, tags and those with a body, and the
/// members of all structures.
pub struct Names<'a> {
    pub statics: Spellings<'a>,
    pub functions: Spellings<'a>,
    pub defined: Spellings<'a>,
    pub tags: Spellings<'a>,
    pub structs: Spellings<'a>,
    pub members: Spellings<'a>,
}

// Written out, so that an exit over which names live has one call in place of six tables.
impl<'a> Drop for Names<'a> {
    fn drop(self) {
        let Names {
            statics: _statics,
            functions: _functions,
            defined: _defined,
            tags: _tags,
            structs: _structs,
            members: _members,
        } = self;
    }
}

impl<'a> Names<'a> {
    /// No names.
    pub fn new(alloc: Global) -> Names<'a>
        ensures { result ≡ no_names }
    {
        Names {
            statics: Spellings::new(alloc),
            functions: Spellings::new(alloc),
            defined: Spellings::new(alloc),
            tags: Spellings::new(alloc),
            structs: Spellings::new(alloc),
            members: Spellings::new(alloc),
        }
    }

    /// Adds what an item declares.
    pub fn note(&mut self, item: &Item<Spelling<'a>, ()>) -> Result<(), Fault>
        ensures noted { OnOk result (self.new ≡ noted self.old item.now) }
        ensures memory { AnswersOutcome result (Ok tt) }
    {
        match item {
            Item::Directive(_) => Ok(()),
            Item::Tag(n, _) => self.tags.add(n),
            Item::Struct(n, members, _) => {
                self.tags.add(n)?;
                self.structs.add(n)?;
                add_members(&mut self.members, members.as_slice())
            }
            Item::Static(decl) => self.statics.add(&decl.get().name),
            Item::Proto(head) => self.functions.add(&head.get().name),
            Item::Function(head, _) => {
                self.functions.add(&head.get().name)?;
                self.defined.add(&head.get().name)
            }
        }
    }
}

/// Adds the spellings of members.
fn add_members<'a>(all: &mut Spellings<'a>, members: &[Decl<Spelling<'a>, ()>]) -> Result<(), Fault>
    ensures added { OnOk result (all.new ≡ fold with_member all.old members.now) }
    ensures memory { AnswersOutcome result (Ok tt) }
{
    for member in members {
        all.add(&member.name)?;
    }
    Ok(())
}
