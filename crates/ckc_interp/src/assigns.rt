//! Assignments, and bundles of them.

ghost use Rattle.std.specs.Prelude.{◌≡◌, ◌^◌, ◌<◌, ◌≤◌, ◌++◌, [], ◌∷◌, map, slice_set, IfOk};
ghost use Rattle.ckc_base.specs.Memory.{kept_part};
ghost use Rattle.ckc_source.specs.Code.{target_of, right_of, assign_of};
ghost use Rattle.ckc_source.specs.Steps.{allowed, refuses, writes, writes_allowed, all_written, drawn, allocated, planned, bundled};
ghost use Rattle.ckc_interp_blocks.specs.Views.{shapes_of};
ghost use Rattle.ckc_interp.specs.code.Turns.{reached, drawn_as, planned_as, planned_one, planned_one_as};

use crate::run::Run;
use ckc_base::{Check, Width};
use ckc_interp_eval::Reader;
use ckc_source::{Assign, Halt, Place, Pointee, RightTree};
use std::alloc::{AllocError, Global};

/// What of a value a store of the width keeps.
fn kept_part(width: Width, n: u32) -> u32
    ensures { result ≡ kept_part width n }
{
    match width {
        Width::Byte => n % 256,
        Width::Word => n,
    }
}

/// Where a value may be written: what is not zero stops where only zero may be written.
fn allowed(to: Place, n: u32) -> Result<Place, Halt>
    ensures { result ≡ allowed to n }
{
    match to {
        Place::Memory(_, width, Some(at)) => {
            if kept_part(width, n) == 0 {
                Ok(to)
            } else {
                Err(Halt::Stopped(Check::Terminator, at))
            }
        }
        Place::Memory(_, _, None) => Ok(to),
        Place::Local(_, _) => Ok(to),
        Place::Nowhere => Ok(to),
    }
}

/// Writes a local, if there is one.
fn write_local(locals: &mut [u32], x: u32, n: u32)
    ensures { locals.new ≡ slice_set locals.old x n }
{
    let i = x as usize;
    if i < locals.len() {
        locals[i] = n;
    }
}

impl<'a> Run<'a> {
    ghost use Rattle.ckc_interp.specs.code.Views.{core_of};

    /// Writes a value.
    pub fn write(&mut self, to: Place, n: u32) -> Result<(), Halt>
        ensures done { writes to n (core_of self.old) ≡ reached result (core_of self.new) }
        ensures shapes { shapes_of self.new.blocks ≡ shapes_of self.old.blocks }
    {
        match to {
            Place::Nowhere => Ok(()),
            Place::Local(x, width) => {
                write_local(self.frame.locals.as_mut_slice(), x, kept_part(width, n));
                Ok(())
            }
            Place::Memory(a, width, _) => {
                if self.blocks.store(width, a, n) {
                    Ok(())
                } else {
                    Err(Halt::Stuck)
                }
            }
        }
    }

    /// Writes a value where it may be written.
    pub fn write_allowed(&mut self, to: Place, n: u32) -> Result<(), Halt>
        ensures done { writes_allowed to n (core_of self.old) ≡ reached result (core_of self.new) }
        ensures shapes { shapes_of self.new.blocks ≡ shapes_of self.old.blocks }
    {
        match allowed(to, n) {
            Ok(to) => self.write(to, n),
            Err(why) => Err(why),
        }
    }

    /// The place of a block of so many elements, or null if there is no room for one.
    fn allocate(&mut self, alloc: Global, to: &'a Pointee, count: u32) -> Result<u32, AllocError>
        ensures done { IfOk result (λ n. allocated
            (core_of self.old) to.entry.now count ≡ record {
              number = n;
              state = core_of
                  self.new;
            }) }
        ensures shapes { shapes_of self.new.blocks ≡ shapes_of self.old.blocks }
    {
        if !self.blocks.has_room(to, count) {
            return Ok(0);
        }
        let place = self.blocks.next();
        self.blocks.add(alloc, to, count)?;
        Ok(place)
    }

    /// The value of the right side of an assignment.
    fn draw(&mut self, alloc: Global, right: &'a RightTree) -> Result<Result<u32, Halt>, AllocError>
        ensures done { IfOk result (λ n. drawn (shapes_of self.old.blocks) (core_of self.old)
            (right_of right.entry.now) ≡ drawn_as n (core_of self.new)) }
        ensures shapes { shapes_of self.new.blocks ≡ shapes_of self.old.blocks }
    {
        match right {
            RightTree::Value(e) => match self.reader().evaluate(e.get()) {
                Ok(v) => Ok(Ok(v.number)),
                Err(why) => Ok(Err(why)),
            },
            RightTree::Fresh(to, e) => match self.reader().evaluate(e.get()) {
                Ok(v) => {
                    let n = self.allocate(alloc, to.get(), v.number)?;
                    Ok(Ok(n))
                }
                Err(why) => Ok(Err(why)),
            },
        }
    }

    /// Where an assignment writes, and what.
    fn plan_one(
        &mut self,
        alloc: Global,
        a: &'a Assign,
    ) -> Result<Result<(Place, u32), Halt>, AllocError>
        ensures done { IfOk result (λ w. planned_one (shapes_of self.old.blocks) (core_of self.old)
            (assign_of a.entry.now) ≡ planned_one_as w (core_of self.new)) }
        ensures shapes { shapes_of self.new.blocks ≡ shapes_of self.old.blocks }
    {
        let to = match self.reader().aim(&a.target) {
            Ok(to) => to,
            Err(why) => return Ok(Err(why)),
        };
        match self.draw(alloc, &a.right)? {
            Ok(n) => match allowed(to, n) {
                Ok(to) => Ok(Ok((to, n))),
                Err(why) => Ok(Err(why)),
            },
            Err(why) => Ok(Err(why)),
        }
    }

    /// One assignment.
    pub fn assign(&mut self, alloc: Global, a: &'a Assign) -> Result<Result<(), Halt>, AllocError>
        ensures done { IfOk result (λ done. bundled (shapes_of self.old.blocks) (core_of self.old)
            (assign_of a.entry.now ∷ []) ≡ reached done (core_of self.new)) }
        ensures shapes { shapes_of self.new.blocks ≡ shapes_of self.old.blocks }
    {
        match self.plan_one(alloc, a)? {
            Ok((to, n)) => Ok(self.write(to, n)),
            Err(why) => Ok(Err(why)),
        }
    }

    /// Where assignments write, and what: all of them with the values before them.
    #[tactic(auto, using(crate::proofs::Planning::plans_none, crate::proofs::Planning::plans_end, crate::proofs::Planning::plans_next, crate::proofs::Planning::plans_stops))]
    fn plan(
        &mut self,
        alloc: Global,
        assigns: &'a [Assign],
        writes: &mut Vec<(Place, u32)>,
    ) -> Result<Result<(), Halt>, AllocError>
        requires { writes.old.items ≡ [] }
        ensures done { IfOk result (λ done. planned (shapes_of self.old.blocks) (core_of self.old)
            (map assign_of assigns.entry.now) ≡ planned_as done writes.new.items
            (core_of self.new)) }
        ensures shapes { shapes_of self.new.blocks ≡ shapes_of self.old.blocks }
    {
        for a in assigns {
            match self.plan_one(alloc, a)? {
                Ok(write) => writes.push(write)?,
                Err(why) => return Ok(Err(why)),
            }
        }
        Ok(Ok(()))
    }

    /// Writes values one after another.
    #[tactic(auto, using(crate::proofs::Acting::written_next, crate::proofs::Acting::written_stops))]
    fn write_all(&mut self, all: &[(Place, u32)]) -> Result<(), Halt>
        ensures done { all_written all.now (core_of self.old) ≡ reached result (core_of self.new) }
        ensures shapes { shapes_of self.new.blocks ≡ shapes_of self.old.blocks }
    {
        for (to, n) in all {
            self.write(*to, *n)?;
        }
        Ok(())
    }

    /// Assignments that are done at once.
    pub fn bundle(
        &mut self,
        alloc: Global,
        assigns: &'a [Assign],
    ) -> Result<Result<(), Halt>, AllocError>
        ensures done { IfOk result (λ done. bundled (shapes_of self.old.blocks) (core_of self.old)
            (map assign_of assigns.entry.now) ≡ reached done (core_of self.new)) }
        ensures shapes { shapes_of self.new.blocks ≡ shapes_of self.old.blocks }
    {
        let mut writes = Vec::new(alloc);
        match self.plan(alloc, assigns, &mut writes)? {
            Ok(()) => Ok(self.write_all(writes.as_slice())),
            Err(why) => Ok(Err(why)),
        }
    }
}
