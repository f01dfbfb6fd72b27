//! One step of a run.

ghost use Rattle.std.specs.Prelude.{◌≡◌, ◌==◌, [], ◌∷◌, map, Some, if◌then◌else◌, IfOk, OnOk};
ghost use Rattle.std.specs.Option.{option_copied, option_map};
ghost use Rattle.ckc_base.specs.Steps.{Goes, Halts};
ghost use Rattle.ckc_base.specs.Traces as standing;
ghost use Rattle.ckc_source.specs.Code.{program_of, code_of, expr_of, function_of, target_of, assign_of};
ghost use Rattle.ckc_source.specs.States.{State, Rest, settled};
ghost use Rattle.ckc_source.specs.States as states;
ghost use Rattle.ckc_source.specs.Eval.{evaluated, all_evaluated};
ghost use Rattle.ckc_source.specs.Steps.{store_of, aimed, bundled, returns, hands, reads_result, calls, enters, kept_place, spot_in, spot_of, at_work, and_moves, comes_to};
ghost use Rattle.ckc_interp_blocks.specs.Views.{shapes_of};
ghost use Rattle.ckc_interp_eval.specs.Stores as stores;
ghost use Rattle.ckc_interp.specs.code.Turns.{Does, asked, asked_next, gets_at, puts_at, turn_asks, reached, noted, spot_with, values_as};

use crate::frame::{Caller, Frame, enter};
use crate::run::{Run, Turn};
use crate::work::{Work, push_rest, push_turn, settle, take_front};
use ckc_base::{Check, Mode, Pos};
use ckc_interp_eval::Reader;
use ckc_source::{
    Assign, ExprTree, FunctionTree, Halt, Kept, Limits, Place, Program, Spot, StmtTree, TargetTree,
};
use std::alloc::{AllocError, Global};
use std::mem;

/// How many calls may be active.
const MOST_CALLS: usize = 1024;

/// The place of the last step, and that of the first step of mode unchecked.
#[derive(Clone, Copy)]
pub struct Marks {
    pub at: Pos,
    pub blame: Option<Pos>,
}

/// The turn that comes of assignments.
fn quiet(done: Result<(), Halt>) -> Turn
    ensures { (s : State) → turn_asks result s ≡ Does (comes_to [] (reached done s)) }
{
    match done {
        Ok(()) => Turn::Quiet,
        Err(why) => Turn::Halted(why),
    }
}

/// Where the result of a call goes.
fn kept_place(target: Kept) -> Place
    ensures { result ≡ kept_place target }
{
    match target {
        Kept::Local(x, width) => Place::Local(x, width),
        Kept::Static(a, width) => Place::Memory(a, width, None),
    }
}

/// The numbers of expressions, from left to right.
#[tactic(auto, using(crate::proofs::Planning::listed_none, crate::proofs::Planning::listed_end, crate::proofs::Planning::listed_next, crate::proofs::Planning::listed_stops))]
fn evaluate_all(
    alloc: Global,
    reader: Reader,
    all: &[ExprTree],
) -> Result<Result<Vec<u32>, Halt>, AllocError>
    ensures { IfOk result (λ done. all_evaluated (stores.store_of reader.entry)
        (map expr_of all.now) ≡ values_as done) }
{
    let mut numbers = Vec::new(alloc);
    for e in all {
        match reader.evaluate(e) {
            Ok(v) => numbers.push(v.number)?,
            Err(why) => return Ok(Err(why)),
        }
    }
    Ok(Ok(numbers))
}

/// Where the step of a statement stands.
fn spot_at(end: Spot, statement: &StmtTree) -> Spot
    ensures { result ≡ spot_in end (code_of (statement.now ∷ [])) }
{
    match statement {
        StmtTree::Assign(spot, _) => *spot,
        StmtTree::Bundle(spot, _) => *spot,
        StmtTree::Get(spot, _) => *spot,
        StmtTree::Put(spot, _, _) => *spot,
        StmtTree::Call(spot, _, _, _) => *spot,
        StmtTree::If(spot, _, _, _) => *spot,
        StmtTree::Loop(spot, _, _, _) => *spot,
        StmtTree::Break => end,
        StmtTree::Continue => end,
        StmtTree::Return(spot, _) => *spot,
        StmtTree::Check(spot, _) => *spot,
    }
}

/// Where the step of statements stands.
fn spot_in(end: Spot, code: &[StmtTree]) -> Spot
    ensures { result ≡ spot_in end (code_of code.now) }
{
    match code.split_first() {
        None => end,
        Some((first, _)) => spot_at(end, first),
    }
}

/// Where unchecked code ran first, after one more step at a place.
fn noted(blame: Option<Pos>, spot: Spot) -> Option<Pos>
    ensures { result ≡ noted blame spot }
{
    match blame {
        Some(at) => Some(at),
        None => match spot.mode {
            Mode::Unchecked => Some(spot.at),
            Mode::Checked => None,
        },
    }
}

impl<'a> Run<'a> {
    ghost use Rattle.ckc_interp.specs.code.Views.{work_of, frame_of, core_of};

    /// Where the next step stands, of which the work is in front.
    fn spot(&self, front: Option<Work>) -> Spot
        ensures { result ≡ spot_with self.now.frame.function.now.end
            (option_map work_of front.entry) }
    {
        let end = self.frame.function.end;
        match front {
            Some(Work::Rest(code)) => spot_in(end, code),
            Some(Work::Turn(_)) => end,
            None => end,
        }
    }

    /// The next step but for what it asks of the outside.
    pub fn turn(
        &mut self,
        alloc: Global,
        program: &'a Program,
        marks: &mut Marks,
    ) -> Result<Turn, AllocError>
        requires { shapes_of self.old.blocks ≡ program.now.shapes }
        ensures moves { IfOk result (λ turn. asked_next (program_of program.entry.now)
            (core_of self.old) (settled (core_of self.old).frame.work) ≡ turn_asks turn
            (core_of self.new)) }
        ensures shapes { shapes_of self.new.blocks ≡ shapes_of self.old.blocks }
        ensures at { IfOk result (λ turn. marks.new.at ≡ (spot_of (core_of self.old)).at) }
        ensures blame { IfOk result (λ turn. marks.new.blame ≡ noted marks.old.blame (spot_of
            (core_of self.old))) }
    {
        settle(&mut self.frame.work)?;
        let front = take_front(&mut self.frame.work);
        let spot = self.spot(front);
        marks.at = spot.at;
        marks.blame = noted(marks.blame, spot);
        match front {
            Some(Work::Rest(code)) => self.act(alloc, program, code),
            Some(Work::Turn(_)) => Ok(Turn::Halted(Halt::Stuck)),
            None => Ok(self.give_back(0)),
        }
    }

    /// Puts statements in front of what comes next.
    fn next(&mut self, code: &'a [StmtTree]) -> Result<(), AllocError>
        ensures state { OnOk result (core_of self.new ≡ at_work (core_of self.old) (Rest
            (code_of code.entry.now) ∷ (core_of self.old).frame.work)) }
        ensures shapes { shapes_of self.new.blocks ≡ shapes_of self.old.blocks }
    {
        push_rest(&mut self.frame.work, code)?;
        Ok(())
    }

    /// The step of the statement in front.
    fn act(
        &mut self,
        alloc: Global,
        program: &'a Program,
        code: &'a [StmtTree],
    ) -> Result<Turn, AllocError>
        requires { shapes_of self.old.blocks ≡ program.now.shapes }
        ensures moves { IfOk result (λ turn. asked (program_of program.entry.now) (core_of self.old)
            (core_of self.old).frame.work (code_of code.entry.now) ≡ turn_asks turn
            (core_of self.new)) }
        ensures shapes { shapes_of self.new.blocks ≡ shapes_of self.old.blocks }
    {
        let Some((first, rest)) = code.split_first() else {
            return Ok(Turn::Halted(Halt::Stuck));
        };
        match first {
            StmtTree::Assign(_, a) => self.act_assign(alloc, a.get(), rest),
            StmtTree::Bundle(_, assigns) => self.act_bundle(alloc, assigns.as_slice(), rest),
            StmtTree::Get(_, target) => self.act_get(target.get(), rest),
            StmtTree::Put(_, target, e) => self.act_put(target.get(), e.get(), rest),
            StmtTree::Call(spot, target, callee, arguments) => {
                self.act_call(
                    alloc,
                    program,
                    spot.at,
                    *target,
                    *callee,
                    arguments.as_slice(),
                    rest,
                )
            }
            StmtTree::If(_, e, one, two) => {
                self.act_if(e.get(), one.as_slice(), two.as_slice(), rest)
            }
            StmtTree::Loop(_, e, body, _) => self.act_loop(e.get(), body.as_slice(), rest, code),
            StmtTree::Return(_, e) => Ok(self.act_return(e.get())),
            StmtTree::Check(spot, e) => self.act_check(spot.at, e.get(), rest),
            StmtTree::Break => Ok(Turn::Halted(Halt::Stuck)),
            StmtTree::Continue => Ok(Turn::Halted(Halt::Stuck)),
        }
    }

    fn act_assign(
        &mut self,
        alloc: Global,
        a: &'a Assign,
        rest: &'a [StmtTree],
    ) -> Result<Turn, AllocError>
        ensures moves { IfOk result (λ turn. Does (comes_to [] (bundled (shapes_of self.old.blocks)
            (at_work (core_of self.old) (Rest (code_of rest.entry.now) ∷
            (core_of self.old).frame.work)) (assign_of a.entry.now ∷ []))) ≡ turn_asks turn
            (core_of self.new)) }
        ensures shapes { shapes_of self.new.blocks ≡ shapes_of self.old.blocks }
    {
        self.next(rest)?;
        let done = self.assign(alloc, a)?;
        Ok(quiet(done))
    }

    fn act_bundle(
        &mut self,
        alloc: Global,
        assigns: &'a [Assign],
        rest: &'a [StmtTree],
    ) -> Result<Turn, AllocError>
        ensures moves { IfOk result (λ turn. Does (comes_to [] (bundled (shapes_of self.old.blocks)
            (at_work (core_of self.old) (Rest (code_of rest.entry.now) ∷
            (core_of self.old).frame.work)) (map assign_of assigns.entry.now))) ≡ turn_asks turn
            (core_of self.new)) }
        ensures shapes { shapes_of self.new.blocks ≡ shapes_of self.old.blocks }
    {
        self.next(rest)?;
        let done = self.bundle(alloc, assigns)?;
        Ok(quiet(done))
    }

    fn act_get(&mut self, target: &TargetTree, rest: &'a [StmtTree]) -> Result<Turn, AllocError>
        ensures moves { IfOk result (λ turn. gets_at (at_work (core_of self.old) (Rest
            (code_of rest.entry.now) ∷ (core_of self.old).frame.work)) (aimed (store_of
            (shapes_of self.old.blocks) (core_of self.old)) (target_of target.now)) ≡ turn_asks turn
            (core_of self.new)) }
        ensures shapes { shapes_of self.new.blocks ≡ shapes_of self.old.blocks }
    {
        match self.reader().aim(target) {
            Ok(to) => {
                self.next(rest)?;
                Ok(Turn::Get(to))
            }
            Err(why) => Ok(Turn::Halted(why)),
        }
    }

    fn act_put(
        &mut self,
        target: &TargetTree,
        e: &ExprTree,
        rest: &'a [StmtTree],
    ) -> Result<Turn, AllocError>
        ensures moves { IfOk result (λ turn. puts_at (at_work (core_of self.old) (Rest
            (code_of rest.entry.now) ∷ (core_of self.old).frame.work)) (aimed (store_of
            (shapes_of self.old.blocks) (core_of self.old)) (target_of target.now)) (evaluated
            (store_of (shapes_of self.old.blocks) (core_of self.old))
            (expr_of e.now)) ≡ turn_asks turn (core_of self.new)) }
        ensures shapes { shapes_of self.new.blocks ≡ shapes_of self.old.blocks }
    {
        let to = match self.reader().aim(target) {
            Ok(to) => to,
            Err(why) => return Ok(Turn::Halted(why)),
        };
        match self.reader().evaluate(e) {
            Ok(v) => {
                self.next(rest)?;
                Ok(Turn::Put(to, v.number))
            }
            Err(why) => Ok(Turn::Halted(why)),
        }
    }

    fn act_if(
        &mut self,
        e: &ExprTree,
        one: &'a [StmtTree],
        two: &'a [StmtTree],
        rest: &'a [StmtTree],
    ) -> Result<Turn, AllocError>
        ensures moves { IfOk result (λ turn. Does (and_moves (evaluated (store_of
            (shapes_of self.old.blocks) (core_of self.old)) (expr_of e.now))
            (λ v. Goes [] (at_work (core_of self.old) (Rest
            (if v.number == 0 then code_of two.entry.now else code_of one.entry.now) ∷ Rest
            (code_of rest.entry.now) ∷ (core_of self.old).frame.work)))) ≡ turn_asks turn
            (core_of self.new)) }
        ensures shapes { shapes_of self.new.blocks ≡ shapes_of self.old.blocks }
    {
        match self.reader().evaluate(e) {
            Ok(v) => {
                self.next(rest)?;
                if v.number == 0 {
                    self.next(two)?;
                } else {
                    self.next(one)?;
                }
                Ok(Turn::Quiet)
            }
            Err(why) => Ok(Turn::Halted(why)),
        }
    }

    fn act_loop(
        &mut self,
        e: &ExprTree,
        body: &'a [StmtTree],
        rest: &'a [StmtTree],
        code: &'a [StmtTree],
    ) -> Result<Turn, AllocError>
        ensures moves { IfOk result (λ turn. Does (and_moves (evaluated (store_of
            (shapes_of self.old.blocks) (core_of self.old)) (expr_of e.now))
            (λ v. Goes [] (at_work (core_of self.old) (if v.number == 0 then Rest
            (code_of rest.entry.now) ∷ (core_of self.old).frame.work
            else Rest (code_of body.entry.now) ∷ states.Turn (code_of code.entry.now) ∷
            (core_of self.old).frame.work)))) ≡ turn_asks turn (core_of self.new)) }
        ensures shapes { shapes_of self.new.blocks ≡ shapes_of self.old.blocks }
    {
        match self.reader().evaluate(e) {
            Ok(v) => {
                if v.number == 0 {
                    self.next(rest)?;
                } else {
                    push_turn(&mut self.frame.work, code)?;
                    self.next(body)?;
                }
                Ok(Turn::Quiet)
            }
            Err(why) => Ok(Turn::Halted(why)),
        }
    }

    fn act_check(&mut self, at: Pos, e: &ExprTree, rest: &'a [StmtTree]) -> Result<Turn, AllocError>
        ensures moves { IfOk result (λ turn. Does (and_moves (evaluated (store_of
            (shapes_of self.old.blocks) (core_of self.old)) (expr_of e.now))
            (λ v. if v.number == 0 then Halts [] (standing.Stopped Check.Dynamic at) else Goes []
            (at_work (core_of self.old) (Rest (code_of rest.entry.now) ∷
            (core_of self.old).frame.work)))) ≡ turn_asks turn (core_of self.new)) }
        ensures shapes { shapes_of self.new.blocks ≡ shapes_of self.old.blocks }
    {
        match self.reader().evaluate(e) {
            Ok(v) => {
                if v.number == 0 {
                    return Ok(Turn::Halted(Halt::Stopped(Check::Dynamic, at)));
                }
                self.next(rest)?;
                Ok(Turn::Quiet)
            }
            Err(why) => Ok(Turn::Halted(why)),
        }
    }

    fn act_return(&mut self, e: &ExprTree) -> Turn
        ensures moves { Does (and_moves (evaluated (store_of (shapes_of self.old.blocks)
            (core_of self.old)) (expr_of e.now))
            (λ v. returns (shapes_of self.old.blocks) (core_of self.old)
            (core_of self.old).callers v.number)) ≡ turn_asks result (core_of self.new) }
        ensures shapes { shapes_of self.new.blocks ≡ shapes_of self.old.blocks }
    {
        match self.reader().evaluate(e) {
            Ok(v) => self.give_back(v.number),
            Err(why) => Turn::Halted(why),
        }
    }

    fn act_call(
        &mut self,
        alloc: Global,
        program: &'a Program,
        at: Pos,
        target: Option<Kept>,
        callee: u32,
        arguments: &'a [ExprTree],
        rest: &'a [StmtTree],
    ) -> Result<Turn, AllocError>
        requires { shapes_of self.old.blocks ≡ program.now.shapes }
        ensures moves { IfOk result (λ turn. Does (and_moves (all_evaluated (store_of
            (shapes_of self.old.blocks) (core_of self.old)) (map expr_of arguments.entry.now))
            (calls (program_of program.entry.now) (at_work (core_of self.old) (Rest
            (code_of rest.entry.now) ∷ (core_of self.old).frame.work)) target callee at)) ≡
            turn_asks turn (core_of self.new)) }
        ensures shapes { shapes_of self.new.blocks ≡ shapes_of self.old.blocks }
    {
        match evaluate_all(alloc, self.reader(), arguments)? {
            Ok(values) => {
                self.next(rest)?;
                self.call(alloc, program, at, target, callee, values)
            }
            Err(why) => Ok(Turn::Halted(why)),
        }
    }

    /// A call with these arguments.
    fn call(
        &mut self,
        alloc: Global,
        program: &'a Program,
        at: Pos,
        target: Option<Kept>,
        callee: u32,
        values: Vec<u32>,
    ) -> Result<Turn, AllocError>
        requires { shapes_of self.old.blocks ≡ program.now.shapes }
        ensures moves { IfOk result (λ turn. Does (calls (program_of program.entry.now)
            (core_of self.old) target callee at values.items) ≡ turn_asks turn (core_of self.new)) }
        ensures shapes { shapes_of self.new.blocks ≡ shapes_of self.old.blocks }
    {
        if self.callers.len() >= MOST_CALLS - 1 {
            return Ok(Turn::Halted(Halt::Stopped(Check::Depth, at)));
        }
        match program.functions.get(callee as usize) {
            Some(function) => self.enter_function(alloc, function, target, values),
            None => Ok(Turn::Halted(Halt::Stuck)),
        }
    }

    /// A function is entered, and its interfaces are read.
    fn enter_function(
        &mut self,
        alloc: Global,
        function: &'a FunctionTree,
        target: Option<Kept>,
        values: Vec<u32>,
    ) -> Result<Turn, AllocError>
        ensures moves { IfOk result (λ turn. Does (enters (shapes_of self.old.blocks)
            (core_of self.old) target values.items (Some (function_of function.entry.now))) ≡
            turn_asks turn (core_of self.new)) }
        ensures shapes { shapes_of self.new.blocks ≡ shapes_of self.old.blocks }
    {
        let frame = enter(alloc, function, values)?;
        self.suspend(frame, target)?;
        match self
            .reader()
            .read_interfaces(function.interfaces.as_slice())
        {
            Ok(()) => Ok(Turn::Quiet),
            Err(why) => Ok(Turn::Halted(why)),
        }
    }

    /// The innermost call waits for another one.
    fn suspend(&mut self, frame: Frame<'a>, target: Option<Kept>) -> Result<(), AllocError>
        ensures state { OnOk result (core_of self.new ≡ record
            (core_of self.old) {
              frame = frame_of frame.entry;
              callers = record {
                frame = frame_of
                    self.old.frame;
                target = target;
              } ∷ (core_of self.old).callers;
            }) }
        ensures shapes { shapes_of self.new.blocks ≡ shapes_of self.old.blocks }
    {
        let waits = mem::replace(&mut self.frame, frame);
        self.callers.push(Caller {
            frame: waits,
            target,
        })?;
        Ok(())
    }

    /// A call returns a value.
    fn give_back(&mut self, n: u32) -> Turn
        ensures moves { Does (returns (shapes_of self.old.blocks) (core_of self.old)
            (core_of self.old).callers n) ≡ turn_asks result (core_of self.new) }
        ensures shapes { shapes_of self.new.blocks ≡ shapes_of self.old.blocks }
    {
        match self.callers.pop() {
            None => Turn::Ends(n),
            Some(caller) => {
                let Caller { frame, target } = caller;
                let done = mem::replace(&mut self.frame, frame);
                quiet(self.hand(
                    done.function.result.as_ref(),
                    done.entry.as_slice(),
                    target,
                    n,
                ))
            }
        }
    }

    /// The result of a call goes to where its caller keeps it.
    fn hand(
        &mut self,
        limits: Option<&Limits>,
        entry: &[u32],
        target: Option<Kept>,
        n: u32,
    ) -> Result<(), Halt>
        ensures done { hands (shapes_of self.old.blocks) (core_of self.old)
            (option_copied limits.entry) entry.now target n ≡ reached result (core_of self.new) }
        ensures shapes { shapes_of self.new.blocks ≡ shapes_of self.old.blocks }
    {
        match target {
            None => Ok(()),
            Some(target) => match self.read_result(limits, entry, n) {
                Ok(n) => self.write(kept_place(target), n),
                Err(why) => Err(why),
            },
        }
    }

    /// The result of a call, read with the values that its parameters had at its entry.
    fn read_result(&self, limits: Option<&Limits>, entry: &[u32], n: u32) -> Result<u32, Halt>
        ensures { reads_result (shapes_of self.now.blocks) (core_of self.now)
            (option_copied limits.entry) entry.now n ≡ result }
    {
        match limits {
            None => Ok(n),
            Some(limits) => {
                let reader = Reader {
                    blocks: &self.blocks,
                    locals: entry,
                };
                match reader.read_limited(limits, n) {
                    Ok(v) => Ok(v.number),
                    Err(why) => Err(why),
                }
            }
        }
    }
}
