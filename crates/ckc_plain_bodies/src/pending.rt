//! Statements that go before the one that is being made.

ghost use Rattle.std.specs.Prelude.{◌≡◌};
ghost use Rattle.ckc_plain_bodies.specs.Taken.{none_pending};

use ckc_base::Seq;
use ckc_syntax::{Name, Stmt};
use std::alloc::Global;

/// Statements that are pending, and the number of the next fresh local.
pub struct Pending {
    pub stmts: Seq<Stmt<Name, ()>>,
    pub next: u32,
}

// Written out, so that an exit over which statements are pending has one call in place of the parts.
impl Drop for Pending {
    fn drop(self) {
        let Pending {
            stmts: _stmts,
            next: _next,
        } = self;
    }
}

impl Pending {
    /// Nothing is pending, and the next local has this number.
    pub fn none(alloc: Global, next: u32) -> Pending
        ensures { result ≡ none_pending next }
    {
        Pending {
            stmts: Seq::new(alloc),
            next,
        }
    }

    /// The statements that are pending.
    pub fn into_stmts(self) -> Seq<Stmt<Name, ()>>
        ensures { result ≡ self.stmts }
    {
        let Pending { stmts, next: _next } = self;
        stmts
    }
}
