ghost use Rattle.std.specs.Prelude.{◌≡◌, ◌<◌};
ghost use Rattle.ckc_rv.specs.Effects.{load_bytes, store_bytes};

use crate::memory::{Memory, is_writable};
use crate::observed::{FaultKind, Observed};
use ckc_base::{Pos, check_of};
use ckc_base_counts::{byte_or_end, one_more};
use ckc_image::View;
use ckc_outside::{Sink, Source};
use ckc_rv::{LoadOp, Outcome, Regs, StoreOp, word_effect};
use std::alloc::{AllocError, Global};

/// A machine: its memory, registers and pc, and what it last answered.
#[derive(Drop)]
pub struct Machine<'a> {
    memory: Memory<'a>,
    regs: Regs,
    pc: u32,
    answer: Observed,
}

/// What one instruction asks: to write a register and go on at a pc; to store a value and go on; to put a byte; to get
/// a byte into x10; or to halt.
#[derive(Clone, Copy)]
pub enum Turn {
    Next(u8, u32, u32),
    Store(StoreOp, u32, u32),
    Put(u8),
    Get,
    Halt(Observed),
}

impl<'a> Machine<'a> {
    ghost use Rattle.std.specs.Prelude.{◌≡◌, ◌≢◌, ◌↔◌, ◌<◌, ◌≤◌, ◌+◌, ◌%◌, ℕ, List, Option, Some, IfOk, IsTrue, slice_index};
    ghost use Rattle.ckc_base.specs.Checks.{check_with};
    ghost use Rattle.ckc_rv.specs.declared.registers.Outcome.TheVariants as outcome;
    ghost use Rattle.ckc_rv.specs.Machine.{Parts, by_outcome, calls, stops, register, with_register, next_with, stored, data_start, memory_end};
    ghost use Rattle.ckc_machine.specs.Points.{state_at};
    ghost use Rattle.ckc_machine.specs.Runs.{IsAt, AsksFor, AsksNothing, OverAny, Runs, answer_of, state_of, read_faults, write_faults};
    ghost use Rattle.ckc_machine.specs.code.Runs.{IsFed};
    ghost use Rattle.ckc_rv.specs.Outcomes.{NamesRegister};
    ghost use Rattle.ckc_machine.specs.code.Turns.{Turns, TurnsBy};

    /// The machine of an image before its first instruction. It takes all the memory that the machine needs.
    pub fn load(alloc: Global, view: View<'a>) -> Result<Machine<'a>, AllocError>
        ensures start { IfOk result
            (λ m. (parts : Parts) (input : List ℕ) → parts.entry ≡ view.entry.entry → parts.code
            ≡ view.entry.code.now
            → parts.initial ≡ view.entry.initial.now → IsAt parts input 0 m (Some input)) }
        ensures going { IfOk result (λ m. answer_of m ≡ Observed.Going) }
    {
        let memory = Memory::new(alloc, view.code, view.initial)?;
        Ok(Machine {
            memory,
            regs: Regs { x: [0; 32] },
            pc: view.entry,
            answer: Observed::Going,
        })
    }

    /// Executes at most `limit` instructions. What the machine has answered other than Going it answers from then on,
    /// with no call of the objects.
    pub fn run<S: Source, O: Sink>(&mut self, limit: u64, input: &mut S, out: &mut O) -> Observed
        ensures answer { answer_of self.new ≡ result }
        ensures settled { answer_of self.old ≢ Observed.Going → (self.new ≡ self.old)
            × (input.new ≡ input.old) × (out.new ≡ out.old) }

        // From k of any parts and input on, the run goes on to k + limit, or a fault of an object ends it before.
        ensures exact { (parts : Parts) (given : List ℕ) (k : ℕ)
            → IsAt parts given k self.old (S.seen input.old).left
            → Runs parts given k limit self.new (S.seen input.old).left (S.seen input.new).left
            (O.seen out.old).written (O.seen out.new).written
            (S.seen input.old).asks (S.seen input.new).asks
            (O.seen out.old).puts (O.seen out.new).puts result }

        // If none of those instructions asks for a byte, the same holds over any source, which is left as it is.
        ensures silent { (parts : Parts) (given : List ℕ) (k : ℕ) (left : Option (List ℕ))
            → IsAt parts given k self.old left → AsksNothing parts given k limit
            → (input.new ≡ input.old)
            × Runs parts given k limit self.new left left
            (O.seen out.old).written (O.seen out.new).written
            (S.seen input.old).asks (S.seen input.new).asks
            (O.seen out.old).puts (O.seen out.new).puts result }

        // Over any source, whatever may come after the bytes that it gave, the same holds of the input with both.
        ensures any { OverAny (S.seen input.old) (S.seen input.new)
            (λ left left'. (parts : Parts) (given : List ℕ) (k : ℕ)
            → IsAt parts given k self.old (Some left)
            → Runs parts given k limit self.new (Some left) (Some left')
            (O.seen out.old).written (O.seen out.new).written
            (S.seen input.old).asks (S.seen input.new).asks
            (O.seen out.old).puts (O.seen out.new).puts result) }

        // An object fails exactly if that is first answered, and then once.
        ensures reads { answer_of self.old ≡ Observed.Going
            → (S.seen input.new).faults ≡ read_faults result (S.seen input.old).faults }
        ensures writes { answer_of self.old ≡ Observed.Going
            → (O.seen out.new).faults ≡ write_faults result (O.seen out.old).faults }
    {
        if !self.goes() {
            return self.answer;
        }
        let mut done = 0;
        while done < limit {
            self.step(input, out);
            if !self.goes() {
                return self.answer;
            }
            done = one_more(done);
        }
        self.answer
    }

    /// Whether the machine goes on.
    #[inline(always)]
    fn goes(&self) -> bool
        ensures { IsTrue result ↔ (answer_of self.now ≡ Observed.Going) }
    {
        matches!(self.answer, Observed::Going)
    }

    /// Executes the next instruction of a machine that goes on.
    #[inline(always)]
    fn step<S: Source, O: Sink>(&mut self, input: &mut S, out: &mut O)
        requires { answer_of self.old ≡ Observed.Going }
        ensures exact { (parts : Parts) (given : List ℕ) (k : ℕ) (left left' : Option (List ℕ))
            → IsAt parts given k self.old left
            → IsFed (S.seen input.old).left (S.seen input.new).left
            (¬ AsksFor parts (state_at parts given k) 2) left left'
            → Runs parts given k 1 self.new left left'
            (O.seen out.old).written (O.seen out.new).written
            (S.seen input.old).asks (S.seen input.new).asks
            (O.seen out.old).puts (O.seen out.new).puts (answer_of self.new) }
        ensures any { OverAny (S.seen input.old) (S.seen input.new)
            (λ left left'. (parts : Parts) (given : List ℕ) (k : ℕ)
            → IsAt parts given k self.old (Some left)
            → Runs parts given k 1 self.new (Some left) (Some left')
            (O.seen out.old).written (O.seen out.new).written
            (S.seen input.old).asks (S.seen input.new).asks
            (O.seen out.old).puts (O.seen out.new).puts (answer_of self.new)) }
        ensures silent { (parts : Parts) (given : List ℕ) (k : ℕ) (left : Option (List ℕ))
            → IsAt parts given k self.old left
            → ¬ AsksFor parts (state_at parts given k) 2 → input.new ≡ input.old }
        ensures reads { (S.seen input.new).faults
            ≡ read_faults (answer_of self.new) (S.seen input.old).faults }
        ensures writes { (O.seen out.new).faults
            ≡ write_faults (answer_of self.new) (O.seen out.old).faults }
    {
        match self.turn() {
            Turn::Next(rd, value, pc) => self.go_on(rd, value, pc),
            Turn::Store(op, a, value) => self.store(op, a, value),
            Turn::Put(byte) => self.put(byte, out),
            Turn::Get => self.get(input),
            Turn::Halt(answer) => self.halt(answer),
        }
    }

    /// Puts a byte and goes on.
    fn put<O: Sink>(&mut self, byte: u8, out: &mut O)
        requires { answer_of self.old ≡ Observed.Going }
        ensures exact { (parts : Parts) (given : List ℕ) (k : ℕ) (left : Option (List ℕ))
            (asks : ℕ) → IsAt parts given k self.old left
            → AsksFor parts (state_at parts given k) 1 → byte ≡ slice_index self.old.regs.x 10 % 256
            → Runs parts given k 1 self.new left left
            (O.seen out.old).written (O.seen out.new).written
            asks asks (O.seen out.old).puts (O.seen out.new).puts (answer_of self.new) }
        ensures reads { answer_of self.new ≢ Observed.ReadFault }
        ensures writes { (O.seen out.new).faults
            ≡ write_faults (answer_of self.new) (O.seen out.old).faults }
    {
        match out.put(&[byte]) {
            Ok(()) => self.go_on(0, 0, self.pc.wrapping_add(4)),
            Err(_) => self.halt(Observed::WriteFault),
        }
    }

    /// Gets a byte, or -1 at the end, into x10, and goes on.
    fn get<S: Source>(&mut self, input: &mut S)
        requires { answer_of self.old ≡ Observed.Going }
        ensures exact { (parts : Parts) (given : List ℕ) (k : ℕ) (written : Option (List ℕ))
            (puts : ℕ) → IsAt parts given k self.old (S.seen input.old).left
            → AsksFor parts (state_at parts given k) 2
            → Runs parts given k 1 self.new
            (S.seen input.old).left (S.seen input.new).left written written
            (S.seen input.old).asks (S.seen input.new).asks puts puts (answer_of self.new) }
        ensures any { OverAny (S.seen input.old) (S.seen input.new)
            (λ left left'. (parts : Parts) (given : List ℕ) (k : ℕ) (written : Option (List ℕ))
            (puts : ℕ) → IsAt parts given k self.old (Some left)
            → AsksFor parts (state_at parts given k) 2
            → Runs parts given k 1 self.new (Some left) (Some left') written written
            (S.seen input.old).asks (S.seen input.new).asks
            puts puts (answer_of self.new)) }
        ensures reads { (S.seen input.new).faults
            ≡ read_faults (answer_of self.new) (S.seen input.old).faults }
        ensures writes { answer_of self.new ≢ Observed.WriteFault }
    {
        match input.next() {
            Ok(next) => self.go_on(10, byte_or_end(next), self.pc.wrapping_add(4)),
            Err(_) => self.halt(Observed::ReadFault),
        }
    }

    /// Stores a value and goes on.
    #[inline(always)]
    fn store(&mut self, op: StoreOp, a: u32, value: u32)
        requires aligned { a % store_bytes op ≡ 0 }
        requires start { data_start ≤ a }
        requires end { a < memory_end }
        ensures state { (input : List ℕ) → let s = state_of self.old input in
            state_of self.new input
            ≡ record (next_with s 0 0) { memory = stored s.memory (store_bytes op) a value } }
        ensures code { self.new.memory.code.now ≡ self.old.memory.code.now }
        ensures answer { answer_of self.new ≡ answer_of self.old }
    {
        match op {
            StoreOp::Sb => self.memory.store(StoreOp::Sb, a, value),
            StoreOp::Sh => self.memory.store(StoreOp::Sh, a, value),
            StoreOp::Sw => self.memory.store(StoreOp::Sw, a, value),
        }
        self.pc = self.pc.wrapping_add(4);
    }

    /// Writes a register, but for register 0, and goes on at a pc.
    #[inline(always)]
    fn go_on(&mut self, rd: u8, value: u32, pc: u32)
        requires { rd < 32 }
        ensures state { (input : List ℕ) → let s = state_of self.old input in
            state_of self.new input ≡ record s { x = with_register s.x rd value; pc = pc } }
        ensures code { self.new.memory.code.now ≡ self.old.memory.code.now }
        ensures answer { answer_of self.new ≡ answer_of self.old }
    {
        if rd != 0 {
            self.regs.x[usize::from(rd)] = value;
        }
        self.pc = pc;
    }

    /// Keeps the answer.
    fn halt(&mut self, answer: Observed)
        ensures state { (input : List ℕ) → state_of self.new input ≡ state_of self.old input }
        ensures code { self.new.memory.code.now ≡ self.old.memory.code.now }
        ensures answer { answer_of self.new ≡ answer }
    {
        self.answer = answer;
    }

    /// What the next instruction asks.
    #[inline(always)]
    fn turn(&self) -> Turn
        ensures { (parts : Parts) (input : List ℕ) → parts.code ≡ self.now.memory.code.now
            → Turns parts (state_of self.now input) result }
    {
        let Some(word) = self.memory.fetch(self.pc) else {
            return self.fault(FaultKind::Fetch);
        };
        match word_effect(word, self.pc, &self.regs) {
            Some(out) => self.turn_by(out),
            None => self.fault(FaultKind::Word),
        }
    }

    /// What comes of an effect.
    #[inline(always)]
    fn turn_by(&self, out: Outcome) -> Turn
        requires { NamesRegister out }
        ensures { (input : List ℕ)
            → TurnsBy out (state_of self.now input) (by_outcome (state_of self.now input) out)
            result }
    {
        match out {
            Outcome::Next(rd, value, pc) => Turn::Next(rd, value, pc),
            Outcome::Load(op, rd, a) => self.load_turn(op, rd, a),
            Outcome::Store(op, a, value) => self.store_turn(op, a, value),
            Outcome::Call => self.call(),
            Outcome::Break => self.fault(FaultKind::Break),
            Outcome::BadTarget => self.fault(FaultKind::Align),
        }
    }

    /// A load. Each operation has its own code, so that nothing but the jump to it depends on which it is.
    #[inline(always)]
    fn load_turn(&self, op: LoadOp, rd: u8, a: u32) -> Turn
        requires { rd < 32 }
        ensures { (input : List ℕ)
            → TurnsBy (outcome.Load op rd a) (state_of self.now input)
            (by_outcome (state_of self.now input) (outcome.Load op rd a)) result }
    {
        match op {
            LoadOp::Lb => self.load_as(LoadOp::Lb, rd, a),
            LoadOp::Lh => self.load_as(LoadOp::Lh, rd, a),
            LoadOp::Lw => self.load_as(LoadOp::Lw, rd, a),
            LoadOp::Lbu => self.load_as(LoadOp::Lbu, rd, a),
            LoadOp::Lhu => self.load_as(LoadOp::Lhu, rd, a),
        }
    }

    /// A load by one operation. A misaligned address is a fault before an unmapped one.
    #[inline(always)]
    fn load_as(&self, op: LoadOp, rd: u8, a: u32) -> Turn
        requires { rd < 32 }
        ensures { (input : List ℕ)
            → TurnsBy (outcome.Load op rd a) (state_of self.now input)
            (by_outcome (state_of self.now input) (outcome.Load op rd a)) result }
    {
        if a % load_size(op) != 0 {
            return self.fault(FaultKind::Align);
        }
        match self.memory.load(op, a) {
            Some(value) => Turn::Next(rd, value, self.pc.wrapping_add(4)),
            None => self.fault(FaultKind::Load),
        }
    }

    /// A store, to the data region or the stack alone. Each operation has its own code, as with loads.
    #[inline(always)]
    fn store_turn(&self, op: StoreOp, a: u32, value: u32) -> Turn
        ensures { (input : List ℕ)
            → TurnsBy (outcome.Store op a value) (state_of self.now input)
            (by_outcome (state_of self.now input) (outcome.Store op a value)) result }
    {
        match op {
            StoreOp::Sb => self.store_turn_as(StoreOp::Sb, a, value),
            StoreOp::Sh => self.store_turn_as(StoreOp::Sh, a, value),
            StoreOp::Sw => self.store_turn_as(StoreOp::Sw, a, value),
        }
    }

    /// A store by one operation. A misaligned address is a fault before an unmapped one.
    #[inline(always)]
    fn store_turn_as(&self, op: StoreOp, a: u32, value: u32) -> Turn
        ensures { (input : List ℕ)
            → TurnsBy (outcome.Store op a value) (state_of self.now input)
            (by_outcome (state_of self.now input) (outcome.Store op a value)) result }
    {
        if a % store_size(op) != 0 {
            self.fault(FaultKind::Align)
        } else if is_writable(a) {
            Turn::Store(op, a, value)
        } else {
            self.fault(FaultKind::Store)
        }
    }

    /// An environment call: its number is in x17.
    fn call(&self) -> Turn
        ensures { (input : List ℕ)
            → TurnsBy outcome.Call (state_of self.now input) (calls (state_of self.now input))
            result }
    {
        let x = &self.regs.x;
        match x[17] {
            0 => Turn::Halt(Observed::Ended(x[10])),
            1 => Turn::Put((x[10] % 256) as u8),
            2 => Turn::Get,
            3 => self.stop(),
            _ => self.fault(FaultKind::Call),
        }
    }

    /// A stop at the check with the number in x10, at the line in x11 and the column in x12.
    fn stop(&self) -> Turn
        ensures { (input : List ℕ) → let s = state_of self.now input in
            TurnsBy outcome.Call s (stops s (check_with (register s 10))) result }
    {
        let x = &self.regs.x;
        match check_of(x[10]) {
            Some(check) => Turn::Halt(Observed::Stopped(
                check,
                Pos {
                    line: x[11],
                    col: x[12],
                },
            )),
            None => self.fault(FaultKind::Call),
        }
    }

    /// A fault at the next instruction.
    #[inline(always)]
    fn fault(&self, kind: FaultKind) -> Turn
        ensures { result ≡ Turn.Halt (Observed.Fault kind self.now.pc) }
    {
        Turn::Halt(Observed::Fault(kind, self.pc))
    }
}

/// How many bytes a load moves.
#[inline(always)]
fn load_size(op: LoadOp) -> u32
    ensures { result ≡ load_bytes op }
{
    match op {
        LoadOp::Lb => 1,
        LoadOp::Lh => 2,
        LoadOp::Lw => 4,
        LoadOp::Lbu => 1,
        LoadOp::Lhu => 2,
    }
}

/// How many bytes a store moves.
#[inline(always)]
fn store_size(op: StoreOp) -> u32
    ensures { result ≡ store_bytes op }
{
    match op {
        StoreOp::Sb => 1,
        StoreOp::Sh => 2,
        StoreOp::Sw => 4,
    }
}
