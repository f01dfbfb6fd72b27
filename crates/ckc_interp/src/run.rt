//! A run, and the parts of its steps.

use crate::frame::{Caller, Frame};
use ckc_interp_blocks::Blocks;
use ckc_interp_eval::Reader;
use ckc_source::{Halt, Place};

/// What a step asks of the outside: nothing; to put the lowest byte of a word and write it; to get a byte and write
/// it; or that the run ends with a value or halts.
#[derive(Clone, Copy)]
pub enum Turn {
    Quiet,
    Put(Place, u32),
    Get(Place),
    Ends(u32),
    Halted(Halt),
}

/// A run: its blocks, the innermost call, and those that wait for it, the innermost last.
pub struct Run<'a> {
    pub blocks: Blocks<'a>,
    pub frame: Frame<'a>,
    pub callers: Vec<Caller<'a>>,
}

impl Drop for Run<'_> {
    fn drop(self) {
        let Run {
            blocks: _blocks,
            frame: _frame,
            callers: _callers,
        } = self;
    }
}

impl<'a> Run<'a> {
    ghost use Rattle.std.specs.Prelude.{◌≡◌};
    ghost use Rattle.ckc_source.specs.Steps.{store_of};
    ghost use Rattle.ckc_interp_blocks.specs.Views.{shapes_of};
    ghost use Rattle.ckc_interp_eval.specs.Stores as stores;
    ghost use Rattle.ckc_interp.specs.code.Views.{core_of};

    /// What expressions of the innermost call read.
    pub fn reader(&self) -> Reader<'_, 'a>
        ensures { stores.store_of result ≡ store_of (shapes_of self.now.blocks) (core_of self.now) }
    {
        Reader {
            blocks: &self.blocks,
            locals: self.frame.locals.as_slice(),
        }
    }
}
