//! All blocks of a run.

ghost use Rattle.std.specs.Prelude.{◌≡◌, true, false, ℕ, ◌+◌, ◌-◌, ◌*◌, ◌/◌, ◌%◌, ◌<◌, ◌≤◌, ◌^◌, [], ◌∷◌, ◌++◌, map, length, slice_get, replicate, Some, None, Err, if◌then◌else◌, IfOk, OnOk, OnErr, MatchOption, MatchBool, ⊤, vec_len};
ghost use Rattle.ckc_base.specs.Memory.{data_end, width_bytes};
ghost use Rattle.ckc_source.specs.Blocks.{is_aligned, block_of};
ghost use Rattle.ckc_interp_blocks.specs.Held.{view, are_apart};
ghost use Rattle.ckc_interp_blocks.specs.code.Held.{BeginsBehind, IsLast};

use crate::block::{Block, Span};
use ckc_base::{Seq, Width, memory_map};
use ckc_source::{Halt, Object, Pointee, Range, Shape, Value};
use std::alloc::{AllocError, Global};

/// The end of the data region.
const DATA_END: u64 = memory_map::DATA_END as u64;

/// The place of the first block.
const FIRST_PLACE: u64 = memory_map::FIRST_PLACE as u64;

/// The greatest address.
const LAST_WORD: u128 = 0xFFFF_FFFF;

/// The blocks of a run in the order of their addresses, the members of structures that are runs, and the place of
/// the next block.
#[derive(Drop)]
pub struct Blocks<'a> {
    shapes: &'a Seq<Shape>,
    blocks: Vec<Block<'a>>,
    next: u32,
    ghost apart: { are_apart 0 (map view blocks.items) next ≡ true },
    ghost below: { next ≤ data_end + 8 },
}

/// The index of the last block that begins at an address or before it.
fn last_at(blocks: &[Block], a: u32) -> Option<usize>
    ensures { MatchOption result (BeginsBehind a (map view blocks.now))
        (λ i. (i < length blocks.now) × IsLast a (map view blocks.now) i) }
{
    let mut low = 0;
    let mut high = blocks.len();
    while low < high {
        let middle = low + (high - low) / 2;
        if blocks[middle].base <= a {
            low = middle + 1;
        } else {
            high = middle;
        }
    }
    if low == 0 { None } else { Some(low - 1) }
}

/// Whether an address is a multiple of the width.
fn is_aligned(width: Width, a: u32) -> bool
    ensures { result ≡ is_aligned width a }
{
    match width {
        Width::Byte => true,
        Width::Word => a % 4 == 0,
    }
}

/// So many zeros.
fn zeros(alloc: Global, count: usize) -> Result<Vec<u8>, AllocError>
    ensures { IfOk result (λ v. v.items ≡ replicate count 0) }
{
    let bytes = vec![in alloc; 0; count]?;
    Ok(bytes)
}

/// The block of an object: its first bytes, and then zeros.
fn first_block<'a>(alloc: Global, o: &'a Object) -> Result<Block<'a>, AllocError>
    ensures { IfOk result (λ b. view b ≡ block_of o.now) }
{
    let mut bytes = Vec::from_slice(alloc, o.initial.as_slice())?;
    let total = (u64::from(o.size) * u64::from(o.count)) as usize;
    let rest = zeros(alloc, total.saturating_sub(bytes.len()))?;
    bytes.extend_from_slice(rest.as_slice())?;
    Ok(Block {
        base: o.at,
        element: &o.element,
        size: o.size,
        count: o.count,
        terminated: o.terminated,
        is_run: o.is_run,
        bytes,
    })
}

impl<'a> Blocks<'a> {
    ghost use Rattle.std.specs.Prelude.{List};
    ghost use Rattle.ckc_base.specs.Memory.{heap_has_room, next_place};
    ghost use Rattle.ckc_source.specs.Blocks.{end_of, block_of, loaded, lies_in, stored, fresh, place_behind, first_place};
    ghost use Rattle.ckc_source.specs.Runs.{is_true};
    ghost use Rattle.ckc_source.specs.Eval.{reads, ranged};
    ghost use Rattle.ckc_source.specs.LaidOut.{AreApart};
    ghost use Rattle.ckc_interp_blocks.specs.Views.{blocks_of, next_of, shapes_of};
    ghost use Rattle.ckc_interp_blocks.specs.code.Views.{IsHolder};

    /// Whether an access of the width at an address is aligned and lies in one block.
    pub fn lies_in(&self, width: Width, a: u32) -> bool
        ensures { result ≡ lies_in width a (blocks_of self.now) }
    {
        match self.holder(width, a) {
            Some(_) => true,
            None => false,
        }
    }

    /// The number at an address, if the access is aligned and lies in one block.
    pub fn load(&self, width: Width, a: u32) -> Option<u32>
        ensures { result ≡ loaded width a (blocks_of self.now) }
    {
        match self.holder(width, a) {
            Some(i) => Some(self.blocks[i].load(width, a)),
            None => None,
        }
    }

    /// Stores the lowest bytes of a number at an address, if the access is aligned and lies in one block; says
    /// whether it did.
    pub fn store(&mut self, width: Width, a: u32, n: u32) -> bool
        ensures stored { stored width a n (blocks_of self.old) ≡ (if result then Some
            (blocks_of self.new) else None) }
        ensures refused { MatchBool result ⊤ (blocks_of self.new ≡ blocks_of self.old) }
        ensures next { next_of self.new ≡ next_of self.old }
        ensures shapes { shapes_of self.new ≡ shapes_of self.old }
    {
        match self.holder(width, a) {
            Some(i) => {
                self.blocks[i].store(width, a, n);
                true
            }
            None => false,
        }
    }

    /// The index of the block in which an access lies, if it is aligned and there is one.
    fn holder(&self, width: Width, a: u32) -> Option<usize>
        ensures { MatchOption result (lies_in width a (blocks_of self.now) ≡ false)
            (λ i. (i < vec_len self.now.blocks) × IsHolder width a (blocks_of self.now) i) }
    {
        if !is_aligned(width, a) {
            return None;
        }
        match last_at(self.blocks.as_slice(), a) {
            Some(i) => {
                if self.blocks[i].has(width, a) {
                    Some(i)
                } else {
                    None
                }
            }
            None => None,
        }
    }

    /// Whether some run has a span.
    fn is_true(&self, to: &Pointee, s: Span) -> bool
        ensures { result ≡ is_true (shapes_of self.now)
            (blocks_of self.now) to.now s.number s.low s.high }
    {
        match last_at(self.blocks.as_slice(), s.low) {
            Some(i) => self.blocks[i].is_in(self.shapes, to, s),
            None => false,
        }
    }

    /// What the read of a checked pointer with known limits gives.
    pub fn read(&self, to: &Pointee, n: u32, low: i128, high: i128) -> Result<Value, Halt>
        ensures { result ≡ reads (shapes_of self.now) (blocks_of self.now) to.now n low high }
    {
        if n == 0 {
            return Ok(Value {
                number: 0,
                range: Range::Without,
            });
        }
        if low < 0 {
            return Err(Halt::Stuck);
        }
        if high < 0 {
            return Err(Halt::Stuck);
        }
        self.read_within(to, n, low.cast_unsigned(), high.cast_unsigned())
    }

    /// The same, for a pointer that is not null. No block ends past the last word.
    fn read_within(&self, to: &Pointee, n: u32, low: u128, high: u128) -> Result<Value, Halt>
        ensures { result ≡ (if is_true (shapes_of self.now)
            (blocks_of self.now) to.now n low high then ranged n low high else Err Halt.Stuck) }
    {
        if low > LAST_WORD {
            return Err(Halt::Stuck);
        }
        if high > LAST_WORD {
            return Err(Halt::Stuck);
        }
        let s = Span {
            number: n,
            low: low as u32,
            high: high as u32,
        };
        if self.is_true(to, s) {
            Ok(Value {
                number: n,
                range: Range::Within(u64::from(s.low), u64::from(s.high)),
            })
        } else {
            Err(Halt::Stuck)
        }
    }

    /// The place of the next block.
    pub fn next(&self) -> u32
        ensures { result ≡ next_of self.now }
    {
        self.next
    }

    /// Whether a block of so many elements has room. The count is read as a signed word.
    pub fn has_room(&self, to: &Pointee, count: u32) -> bool
        ensures { result ≡ heap_has_room (next_of self.now) count to.now.size }
    {
        let size = u64::from(count) * u64::from(to.size);
        0 < count
            && count < 0x8000_0000
            && size <= DATA_END
            && u64::from(self.next) + size <= DATA_END
    }

    /// Adds a block of so many zero elements at the place of the next one.
    pub fn add(&mut self, alloc: Global, to: &'a Pointee, count: u32) -> Result<(), AllocError>
        requires { heap_has_room (next_of self.old) count to.now.size ≡ true }
        ensures blocks { OnOk result (blocks_of self.new ≡ blocks_of self.old ++ fresh to.now
            (next_of self.old) count ∷ []) }
        ensures next { OnOk result (next_of self.new ≡ next_place
            (next_of self.old) count to.now.size) }
        ensures shapes { shapes_of self.new ≡ shapes_of self.old }
    {
        let size = u64::from(count) * u64::from(to.size);
        let block = Block {
            base: self.next,
            element: &to.element,
            size: to.size,
            count,
            terminated: to.terminated,
            is_run: true,
            bytes: zeros(alloc, size as usize)?,
        };
        self.push(block, ((u64::from(self.next) + size + 15) / 8 * 8) as u32)
    }

    /// Adds a block at the place of the next one.
    fn push(&mut self, block: Block<'a>, next: u32) -> Result<(), AllocError>
        requires base { block.base ≡ next_of self.old }
        requires end { end_of (view block) + 1 ≤ next }
        requires below { next ≤ data_end + 8 }
        ensures blocks { OnOk result (blocks_of self.new ≡ blocks_of self.old ++ view block.entry ∷
            []) }
        ensures next { OnOk result (next_of self.new ≡ next) }
        ensures shapes { shapes_of self.new ≡ shapes_of self.old }
    {
        self.blocks.push(block)?;
        self.next = next;
        Ok(())
    }

    /// The blocks of the objects of a program, which lie apart.
    pub fn new(
        alloc: Global,
        shapes: &'a Seq<Shape>,
        objects: &'a [Object],
    ) -> Result<Blocks<'a>, AllocError>
        requires apart { AreApart first_place (map block_of objects.now) (place_behind first_place
            (map block_of objects.now)) }
        requires below { place_behind first_place (map block_of objects.now) ≤ data_end }
        ensures blocks { IfOk result (λ b. blocks_of b ≡ map block_of objects.now) }
        ensures next { IfOk result (λ b. next_of b ≡ place_behind first_place
            (map block_of objects.now)) }
        ensures shapes { IfOk result (λ b. shapes_of b ≡ shapes.now) }
    {
        let mut blocks = Vec::new(alloc);
        let mut next = FIRST_PLACE;
        for o in objects {
            let block = first_block(alloc, o)?;
            next = (block.end() + 15) / 8 * 8;
            blocks.push(block)?;
        }
        Ok(Blocks {
            shapes,
            blocks,
            next: next as u32,
        })
    }
}
