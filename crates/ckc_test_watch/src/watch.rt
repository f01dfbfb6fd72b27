//! The machine itself.
ghost use Rattle.std.specs.Prelude.{◌<◌, ◌≤◌, length};
ghost use Rattle.ckc_rv.specs.Outcomes.{NamesRegister};

use crate::memory::Memory;
use crate::places::{Kind, Places};
use ckc_base::memory_map::{DATA_START, MEMORY_END};
use ckc_base::{Check, Pos, check_of};
use ckc_image::View;
use ckc_rv::{LoadOp, Outcome, Regs, StoreOp, word_effect};
use std::alloc::{AllocError, Global};

/// The register of the stack pointer.
const SP: usize = 2;

/// How a run comes to its end: with a value, at a check, at a fault of the instruction at an address, or for want of
/// memory of the host; or it goes on.
#[derive(Clone, Copy)]
pub enum End {
    Ended(u32),
    Stopped(Check, Pos),
    Fault(u32),
    Memory,
    Going,
}

/// The stores of a run: how many went to the heap word, into blocks and into frames, and the address of the first one
/// that went elsewhere.
#[derive(Clone, Copy)]
pub struct Stores {
    pub heap_word: u32,
    pub blocks: u32,
    pub frames: u32,
    pub outside: Option<u32>,
}

/// A machine: its memory, registers and pc, the input that is left and what it put out, where its stores may go, and
/// where they went.
pub struct Watch<'a> {
    memory: Memory<'a>,
    regs: Regs,
    pc: u32,
    input: &'a [u8],
    out: Vec<u8>,
    places: Places,
    stores: Stores,
}

impl Drop for Watch<'_> {
    fn drop(self) {
        let Watch {
            memory: _memory,
            regs: _,
            pc: _,
            input: _,
            out: _out,
            places: _places,
            stores: _,
        } = self;
    }
}

impl<'a> Watch<'a> {
    /// The machine of an image before its first instruction.
    pub fn load(
        alloc: Global,
        view: View<'a>,
        input: &'a [u8],
        places: Places,
    ) -> Result<Watch<'a>, AllocError> {
        let memory = Memory::new(alloc, view.code, view.initial)?;
        Ok(Watch {
            memory,
            regs: Regs { x: [0; 32] },
            pc: view.entry,
            input,
            out: Vec::new(alloc),
            places,
            stores: Stores {
                heap_word: 0,
                blocks: 0,
                frames: 0,
                outside: None,
            },
        })
    }

    /// What it put out.
    pub fn out(&self) -> &[u8] {
        self.out.as_slice()
    }

    /// Where its stores went.
    pub fn stores(&self) -> Stores {
        self.stores
    }

    /// Executes at most `limit` instructions.
    pub fn run(&mut self, limit: u32) -> End {
        for _ in 0..limit {
            match self.step() {
                Ok(End::Going) => {}
                Ok(end) => return end,
                Err(_) => return End::Memory,
            }
        }
        End::Going
    }

    /// Executes the next instruction.
    fn step(&mut self) -> Result<End, AllocError> {
        let Some(word) = self.memory.instruction(self.pc) else {
            return Ok(End::Fault(self.pc));
        };
        match word_effect(word, self.pc, &self.regs) {
            Some(outcome) => self.act(outcome),
            None => Ok(End::Fault(self.pc)),
        }
    }

    /// Does what an instruction asks.
    fn act(&mut self, outcome: Outcome) -> Result<End, AllocError>
        requires { NamesRegister outcome }
    {
        match outcome {
            Outcome::Next(rd, value, pc) => Ok(self.go_on(rd, value, pc)),
            Outcome::Load(op, rd, a) => Ok(self.load_into(op, rd, a)),
            Outcome::Store(op, a, value) => self.store(op, a, value),
            Outcome::Call => self.call(),
            Outcome::Break | Outcome::BadTarget => Ok(End::Fault(self.pc)),
        }
    }

    /// Writes a register, but for register 0, and goes on at a pc.
    fn go_on(&mut self, rd: u8, value: u32, pc: u32) -> End
        requires { rd < 32 }
    {
        if rd != 0 {
            self.regs.x[usize::from(rd)] = value;
        }
        self.pc = pc;
        End::Going
    }

    /// Goes on at the next instruction, with a value in a register.
    fn go_on_with(&mut self, rd: u8, value: u32) -> End
        requires { rd < 32 }
    {
        self.go_on(rd, value, self.pc.wrapping_add(4))
    }

    /// A load. A misaligned one is a fault, and one of bytes that are not mapped.
    fn load_into(&mut self, op: LoadOp, rd: u8, a: u32) -> End
        requires { rd < 32 }
    {
        match self.loaded(op, a) {
            Some(value) => self.go_on_with(rd, value),
            None => End::Fault(self.pc),
        }
    }

    fn loaded(&self, op: LoadOp, a: u32) -> Option<u32> {
        match op {
            LoadOp::Lb => Some(i32::from(self.memory.byte(a)?.cast_signed()).cast_unsigned()),
            LoadOp::Lbu => Some(u32::from(self.memory.byte(a)?)),
            LoadOp::Lh if a % 2 == 0 => {
                Some(i32::from(self.memory.half(a)?.cast_signed()).cast_unsigned())
            }
            LoadOp::Lhu if a % 2 == 0 => Some(u32::from(self.memory.half(a)?)),
            LoadOp::Lw if a % 4 == 0 => self.memory.word(a),
            _ => None,
        }
    }

    /// A store.
    fn store(&mut self, op: StoreOp, a: u32, value: u32) -> Result<End, AllocError> {
        let bytes = value.to_le_bytes();
        match op {
            StoreOp::Sb => self.store_bytes(a, &bytes[..1], value),
            StoreOp::Sh => self.store_bytes(a, &bytes[..2], value),
            StoreOp::Sw => self.store_bytes(a, &bytes, value),
        }
    }

    /// Stores bytes and goes on. A misaligned store is a fault, and one outside the data region and the stack.
    fn store_bytes(&mut self, a: u32, bytes: &[u8], value: u32) -> Result<End, AllocError>
        requires { (0 < length bytes.now) × (length bytes.now ≤ 4) }
    {
        let count = bytes.len() as u32;
        if a % count != 0 || a < DATA_START || a >= MEMORY_END {
            return Ok(End::Fault(self.pc));
        }
        self.note(a, count, value)?;
        self.memory.put(a, bytes)?;
        Ok(self.go_on_with(0, 0))
    }

    /// Keeps where a store goes.
    fn note(&mut self, a: u32, count: u32, value: u32) -> Result<(), AllocError> {
        let stores = &mut self.stores;
        match self.places.kind_of(a, count, self.regs.x[SP]) {
            Kind::HeapWord => {
                stores.heap_word = stores.heap_word.saturating_add(1);
                return self.places.give(value);
            }
            Kind::Block => stores.blocks = stores.blocks.saturating_add(1),
            Kind::Frame => stores.frames = stores.frames.saturating_add(1),
            Kind::Outside => {
                if stores.outside.is_none() {
                    stores.outside = Some(a);
                }
            }
        }
        Ok(())
    }

    /// An environment call: its number is in x17.
    fn call(&mut self) -> Result<End, AllocError> {
        let value = self.regs.x[10];
        match self.regs.x[17] {
            0 => Ok(End::Ended(value)),
            1 => {
                self.out.push((value % 256) as u8)?;
                Ok(self.go_on_with(0, 0))
            }
            2 => Ok(self.get()),
            3 => Ok(self.stop(value)),
            _ => Ok(End::Fault(self.pc)),
        }
    }

    /// Gets a byte, or -1 at the end of the input.
    fn get(&mut self) -> End {
        match self.input.split_first() {
            Some((byte, rest)) => {
                self.input = rest;
                self.go_on_with(10, u32::from(*byte))
            }
            None => self.go_on_with(10, u32::MAX),
        }
    }

    /// A stop at the check with the number, at the line in x11 and the column in x12.
    fn stop(&self, number: u32) -> End {
        match check_of(number) {
            Some(check) => End::Stopped(
                check,
                Pos {
                    line: self.regs.x[11],
                    col: self.regs.x[12],
                },
            ),
            None => End::Fault(self.pc),
        }
    }
}
