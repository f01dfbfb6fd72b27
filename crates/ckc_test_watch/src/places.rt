//! Where a store may go: to the heap word, into a block of the image, and into a frame.
ghost use Rattle.std.specs.Prelude.{◌≤◌};

use ckc_base::memory_map::{DATA_END, DATA_START, FIRST_PLACE, MEMORY_END};
use ckc_source::{Object, Program};
use std::alloc::{AllocError, Global};

/// How many bytes a frame has.
const FRAME: u32 = 16_384;

/// How many calls may be active.
const MOST_CALLS: u32 = 1_024;

/// A block: its first address, and the one after its last byte.
#[derive(Clone, Copy)]
struct Block {
    begin: u64,
    end: u64,
}

/// Where a store goes.
#[derive(Clone, Copy)]
pub enum Kind {
    HeapWord,
    Block,
    Frame,
    Outside,
}

/// The blocks of an image so far: its static objects, its string literals, and what the allocator gave. And the place of
/// the next block.
#[derive(Drop)]
pub struct Places {
    blocks: Vec<Block>,
    next: u64,
}

/// The block of an object.
fn block_of(o: &Object) -> Block {
    let begin = u64::from(o.at);
    let size = u64::from(o.size).saturating_mul(u64::from(o.count));
    let end = begin.saturating_add(size.max(o.initial.len() as u64));
    Block { begin, end }
}

/// Where the frame of the call with a number begins: the first is the highest.
fn frame_start(call: u32) -> u32
    requires { call ≤ 1024 }
{
    MEMORY_END - FRAME * call
}

/// Whether the bytes lie in the frame of the call with a number.
fn is_in_frame(call: u32, at: u32, count: u32) -> bool
    requires { call ≤ 1024 }
{
    let start = u64::from(frame_start(call));
    let end = u64::from(at) + u64::from(count);
    start <= u64::from(at) && end <= start + u64::from(FRAME)
}

/// Whether the bytes lie in the frame that the stack pointer is at, or in that of one more call, if it may be active.
fn is_in_frames(sp: u32, at: u32, count: u32) -> bool {
    if sp > MEMORY_END || sp % FRAME != 0 {
        return false;
    }
    let active = (MEMORY_END - sp) / FRAME;
    if active > MOST_CALLS {
        return false;
    }
    is_in_frame(active, at, count) || (active < MOST_CALLS && is_in_frame(active + 1, at, count))
}

impl Places {
    /// The blocks of a program before its first step.
    pub fn new(alloc: Global, program: &Program) -> Result<Places, AllocError> {
        let mut blocks = Vec::new(alloc);
        let mut next = u64::from(FIRST_PLACE);
        for o in program.objects.as_slice() {
            let block = block_of(o);
            next = block.end.saturating_add(15) / 8 * 8;
            blocks.push(block)?;
        }
        Ok(Places { blocks, next })
    }

    /// Takes the next value of the heap word: the allocator gave the block before it, which ends at least 8 bytes before
    /// the place of the next one.
    pub fn give(&mut self, heap_word: u32) -> Result<(), AllocError> {
        let heap_word = u64::from(heap_word);
        let end = heap_word.saturating_sub(8).min(u64::from(DATA_END));
        let begin = self.next;
        self.next = heap_word;
        if begin < end {
            self.blocks.push(Block { begin, end })?;
        }
        Ok(())
    }

    /// Where a store of so many bytes goes, with this stack pointer.
    pub fn kind_of(&self, at: u32, count: u32, sp: u32) -> Kind {
        if at == DATA_START && count == 4 {
            Kind::HeapWord
        } else if self.is_in_block(at, count) {
            Kind::Block
        } else if is_in_frames(sp, at, count) {
            Kind::Frame
        } else {
            Kind::Outside
        }
    }

    fn is_in_block(&self, at: u32, count: u32) -> bool {
        let begin = u64::from(at);
        let end = begin + u64::from(count);
        for block in self.blocks.as_slice() {
            if block.begin <= begin && end <= block.end {
                return true;
            }
        }
        false
    }
}
