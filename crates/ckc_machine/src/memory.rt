ghost use Rattle.std.specs.Prelude.{◌≡◌, IfOk, ℕ, ◌+◌, ◌-◌, ◌*◌, ◌/◌, ◌%◌, ◌^◌, ◌<◌, ◌≤◌, length, slice_index, vec_len};
ghost use Rattle.ckc_base.specs.MemoryMap.{longest_code, longest_data};
ghost use Rattle.ckc_machine.specs.Bytes.{byte_of, byte_in};
ghost use Rattle.ckc_machine.specs.code.Bytes.{part_of, IsMerged};
ghost use Rattle.ckc_rv.specs.Machine.{is_writable as is_writable_address};
ghost use Rattle.ckc_rv.specs.Effects.{load_bytes, load_value, store_bytes};

use crate::region::Region;
use byteorder::{ByteOrder, LittleEndian};
use ckc_base::memory_map::{CODE_START, DATA_START, MEMORY_END, STACK_START};
use ckc_rv::{LoadOp, StoreOp};
use std::alloc::{AllocError, Global};

/// The memory of a machine: the lent code, the words of the data region upwards, and those of the stack downwards from
/// the end of memory.
#[derive(Drop)]
pub struct Memory<'a> {
    code: &'a [u8],
    statics: Region,
    stack: Region,
    ghost code_is_words: { length code.now % 4 ≡ 0 },
    ghost code_fits: { length code.now ≤ longest_code },
}

/// Whether a store may go to an address: it lies in the data region or the stack.
#[inline(always)]
pub fn is_writable(a: u32) -> bool
    ensures { result ≡ is_writable_address a }
{
    DATA_START <= a && a < MEMORY_END
}

/// Puts bytes into the words of a region that are 0, four into each, the lowest first.
fn fill(region: &mut Region, bytes: &[u8])
    requires zero { (j : ℕ) → slice_index region.old.words.items j ≡ 0 }
    requires few { length bytes.now ≤ longest_data }
    ensures { (k : ℕ) → byte_in region.new.words.items k ≡ slice_index bytes.now k }
{
    for i in 0..(bytes.len() + 3) / 4 {
        region.put(i, first_word(&bytes[4 * i..]));
    }
}

/// The word of the first four bytes; if there are fewer, the others are 0.
fn first_word(bytes: &[u8]) -> u32
    ensures { (i : ℕ) → i < 4 → byte_of result i ≡ slice_index bytes.now i }
{
    let mut word = [0; 4];
    for i in 0..bytes.len().min(4) {
        word[i] = bytes[i];
    }
    LittleEndian::read_u32(&word)
}

/// The word at a place of the code.
#[inline(always)]
fn code_word(code: &[u8], at: usize) -> u32
    requires { at + 3 < length code.now }
    ensures { (i : ℕ) → i < 4 → byte_of result i ≡ slice_index code.now (at + i) }
{
    LittleEndian::read_u32(&code[at..])
}

impl<'a> Memory<'a> {
    ghost use Rattle.std.specs.Prelude.{◌≡◌, ◌<◌, ◌≤◌, ◌%◌, MatchOption, true, false, IfOk};
    ghost use Rattle.std.specs.Option.{option_map};
    ghost use Rattle.ckc_rv.specs.Machine.{Parts, flat, is_code, loaded, stored, is_writable, code_start, data_start, stack_start, memory_end};
    ghost use Rattle.ckc_machine.specs.code.Bytes.{Holds, IsUnmapped, IsChanged};
    ghost use Rattle.ckc_machine.specs.Memories.{memory_of};

    /// The memory of the code, with the first bytes of the data region; all other bytes of the two regions are 0.
    pub fn new(alloc: Global, code: &'a [u8], initial: &[u8]) -> Result<Memory<'a>, AllocError>
        requires words { length code.now % 4 ≡ 0 }
        requires code_fits { length code.now ≤ longest_code }
        requires initial_fits { length initial.now ≤ longest_data }
        ensures flat { IfOk result
            (λ m. (parts : Parts) → parts.code ≡ code.now → parts.initial ≡ initial.now
            → memory_of m ≡ flat parts) }
        ensures code { IfOk result (λ m. m.code.now ≡ code.now) }
    {
        let mut statics = Region::new(alloc)?;
        fill(&mut statics, initial);
        let stack = Region::new(alloc)?;
        Ok(Memory {
            code,
            statics,
            stack,
        })
    }

    /// The word at an address of the code, if an instruction lies there.
    #[inline(always)]
    pub fn fetch(&self, pc: u32) -> Option<u32>
        ensures { (parts : Parts) → parts.code ≡ self.now.code.now
            → MatchOption result (is_code parts pc ≡ false)
            (λ w. (is_code parts pc ≡ true) × (loaded (memory_of self.now) 4 pc ≡ Some w)) }
    {
        if pc < CODE_START {
            return None;
        }
        let at = (pc - CODE_START) as usize;
        if at + 3 < self.code.len() {
            Some(code_word(self.code, at))
        } else {
            None
        }
    }

    /// The word at an address that is a multiple of 4 in the data region or the stack.
    #[inline(always)]
    fn own_word(&self, a: u32) -> u32
        requires aligned { a % 4 ≡ 0 }
        requires start { data_start ≤ a }
        requires end { a < memory_end }
        ensures { Holds (memory_of self.now) a result }
    {
        if a < STACK_START {
            self.statics.get(((a - DATA_START) / 4) as usize)
        } else {
            self.stack.get(((MEMORY_END - 1 - a) / 4) as usize)
        }
    }

    /// The word at an address that is a multiple of 4, if it is mapped.
    #[inline(always)]
    fn word(&self, a: u32) -> Option<u32>
        requires { a % 4 ≡ 0 }
        ensures { MatchOption result (IsUnmapped (memory_of self.now) a)
            (λ w. Holds (memory_of self.now) a w) }
    {
        if a >= DATA_START {
            if a < MEMORY_END {
                Some(self.own_word(a))
            } else {
                None
            }
        } else if a < CODE_START {
            None
        } else {
            let at = (a - CODE_START) as usize;
            if at < self.code.len() {
                Some(code_word(self.code, at))
            } else {
                None
            }
        }
    }

    /// What a load at an aligned address gives, if its bytes are mapped.
    #[inline(always)]
    pub fn load(&self, op: LoadOp, a: u32) -> Option<u32>
        requires { a % load_bytes op ≡ 0 }
        ensures { result ≡ option_map (load_value op)
            (loaded (memory_of self.now) (load_bytes op) a) }
    {
        match self.word(a - a % 4) {
            Some(word) => Some(loaded_part(op, word, a % 4)),
            None => None,
        }
    }

    /// Puts a word at an address that is a multiple of 4 in the data region or the stack.
    #[inline(always)]
    fn put_word(&mut self, a: u32, word: u32)
        requires aligned { a % 4 ≡ 0 }
        requires start { data_start ≤ a }
        requires end { a < memory_end }
        ensures changed { IsChanged (memory_of self.old) (memory_of self.new) a word }
        ensures code { self.new.code.now ≡ self.old.code.now }
    {
        if a < STACK_START {
            self.statics.put(((a - DATA_START) / 4) as usize, word);
        } else {
            self.stack.put(((MEMORY_END - 1 - a) / 4) as usize, word);
        }
    }

    /// Stores the lowest bytes of a value at an aligned address in the data region or the stack.
    #[inline(always)]
    pub fn store(&mut self, op: StoreOp, a: u32, value: u32)
        requires aligned { a % store_bytes op ≡ 0 }
        requires start { data_start ≤ a }
        requires end { a < memory_end }
        ensures bytes { memory_of self.new ≡ stored (memory_of self.old) (store_bytes op) a value }
        ensures code { self.new.code.now ≡ self.old.code.now }
    {
        let word = self.own_word(a - a % 4);
        self.put_word(a - a % 4, with_part(op, word, a % 4, value));
    }
}

/// What a load gives of a word, from a place in it on.
#[inline(always)]
fn loaded_part(op: LoadOp, word: u32, place: u32) -> u32
    requires aligned { place % load_bytes op ≡ 0 }
    requires within { place < 4 }
    ensures { result ≡ load_value op (part_of word place (load_bytes op)) }
{
    let part = word >> (8 * place);
    match op {
        LoadOp::Lb => i32::from(((part % 0x100) as u8).cast_signed()).cast_unsigned(),
        LoadOp::Lh => i32::from(((part % 0x1_0000) as u16).cast_signed()).cast_unsigned(),
        LoadOp::Lw => part,
        LoadOp::Lbu => part % 0x100,
        LoadOp::Lhu => part % 0x1_0000,
    }
}

/// A word with the lowest bytes of a value from a place on.
#[inline(always)]
fn with_part(op: StoreOp, word: u32, place: u32, value: u32) -> u32
    requires aligned { place % store_bytes op ≡ 0 }
    requires within { place < 4 }
    ensures { IsMerged word place (store_bytes op) value result }
{
    match op {
        StoreOp::Sb => with_byte(word, place, value),
        StoreOp::Sh => with_half(word, place, value),
        StoreOp::Sw => value,
    }
}

#[inline(always)]
fn with_byte(word: u32, place: u32, value: u32) -> u32
    requires { place < 4 }
    ensures { IsMerged word place 1 value result }
{
    let shift = 8 * place;
    let above = (word >> shift) >> 8;
    let upper = ((above << 8) + value % 0x100) << shift;
    upper.wrapping_add(word % (1 << shift))
}

#[inline(always)]
fn with_half(word: u32, place: u32, value: u32) -> u32
    requires even { place % 2 ≡ 0 }
    requires within { place < 4 }
    ensures { IsMerged word place 2 value result }
{
    let shift = 8 * place;
    let above = (word >> shift) >> 16;
    let upper = ((above << 16) + value % 0x1_0000) << shift;
    upper.wrapping_add(word % (1 << shift))
}
