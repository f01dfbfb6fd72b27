//! The memory of the machine, byte by byte.
ghost use Rattle.std.specs.Prelude.{◌<◌};

use ckc_base::memory_map::{CODE_START, DATA_START, MEMORY_END, STACK_START};
use std::alloc::{AllocError, Global};

/// How many bytes are zeroed at once.
const PART: usize = 4096;

/// The code, the bytes of the data region upwards, and those of the stack downwards from the end of memory. Bytes that
/// were not written are 0.
#[derive(Drop)]
pub struct Memory<'a> {
    code: &'a [u8],
    data: Vec<u8>,
    stack: Vec<u8>,
}

/// The byte at a place, if there is one.
fn byte_at(bytes: &[u8], at: u32) -> Option<u8> {
    let at = at as usize;
    if at < bytes.len() {
        Some(bytes[at])
    } else {
        None
    }
}

/// The byte at a place, or 0.
fn byte_or_zero(bytes: &[u8], at: u32) -> u8 {
    match byte_at(bytes, at) {
        Some(byte) => byte,
        None => 0,
    }
}

/// Puts a byte at a place, with zeros before it if there are too few bytes.
fn put_at(bytes: &mut Vec<u8>, at: usize, byte: u8) -> Result<(), AllocError>
    requires { at < 16777216 }
{
    if at >= bytes.len() {
        bytes.resize((at / PART + 1) * PART, 0)?;
    }
    bytes[at] = byte;
    Ok(())
}

impl<'a> Memory<'a> {
    /// The memory of the code and the first bytes of the data region.
    pub fn new(alloc: Global, code: &'a [u8], initial: &[u8]) -> Result<Memory<'a>, AllocError> {
        let data = Vec::from_slice(alloc, initial)?;
        Ok(Memory {
            code,
            data,
            stack: Vec::new(alloc),
        })
    }

    /// The byte at an address, if it is mapped.
    pub fn byte(&self, a: u32) -> Option<u8> {
        if a < CODE_START {
            None
        } else if a < DATA_START {
            byte_at(self.code, a - CODE_START)
        } else if a < STACK_START {
            Some(byte_or_zero(self.data.as_slice(), a - DATA_START))
        } else if a < MEMORY_END {
            Some(byte_or_zero(self.stack.as_slice(), MEMORY_END - 1 - a))
        } else {
            None
        }
    }

    /// The number of the two bytes from an address on.
    pub fn half(&self, a: u32) -> Option<u16> {
        let low = self.byte(a)?;
        let high = self.byte(a.wrapping_add(1))?;
        Some(u16::from_le_bytes([low, high]))
    }

    /// The word from an address on.
    pub fn word(&self, a: u32) -> Option<u32> {
        let first = self.byte(a)?;
        let second = self.byte(a.wrapping_add(1))?;
        let third = self.byte(a.wrapping_add(2))?;
        let fourth = self.byte(a.wrapping_add(3))?;
        Some(u32::from_le_bytes([first, second, third, fourth]))
    }

    /// The word at an address of the code, if an instruction lies there.
    pub fn instruction(&self, pc: u32) -> Option<u32> {
        if pc < DATA_START { self.word(pc) } else { None }
    }

    /// Puts bytes from an address on. Nothing is put outside the data region and the stack.
    pub fn put(&mut self, a: u32, bytes: &[u8]) -> Result<(), AllocError> {
        let mut at = a;
        for byte in bytes {
            self.put_byte(at, *byte)?;
            at = at.wrapping_add(1);
        }
        Ok(())
    }

    fn put_byte(&mut self, a: u32, byte: u8) -> Result<(), AllocError> {
        if a < DATA_START || a >= MEMORY_END {
            Ok(())
        } else if a < STACK_START {
            put_at(&mut self.data, (a - DATA_START) as usize, byte)
        } else {
            put_at(&mut self.stack, (MEMORY_END - 1 - a) as usize, byte)
        }
    }
}
