//! One block, and the ranges that are true in it.

ghost use Rattle.std.specs.Prelude.{◌≡◌, true, ◌+◌, ◌-◌, ◌*◌, ◌/◌, ◌%◌, ◌<◌, ◌≤◌, ◌^◌, length, slice_get};
ghost use Rattle.std.specs.List.{list_any};
ghost use Rattle.ckc_base.specs.Memory.{width_bytes};
ghost use Rattle.ckc_source.specs.Blocks.{end_of, has, number_at, with_number};
ghost use Rattle.ckc_types.specs.declared.types.CType.{out-CType};
ghost use Rattle.ckc_source.specs.Runs.{is_within, is_in_block, is_in_member, is_in, runs_of, runs_in, is_in_some_element};
ghost use Rattle.ckc_interp_blocks.specs.Held.{view};
ghost use Rattle.ckc_interp_blocks.specs.code.Held.{is_at_element};

use ckc_base::{Seq, Width};
use ckc_source::{MemberRun, Pointee, Shape};
use ckc_types::{CType, same_type};

/// A block: its base, the type and the size of an element, how many there are, whether they are a null-terminated
/// array, whether checked pointers with known limits may point into it, and its bytes.
#[derive(Drop)]
pub struct Block<'a> {
    pub base: u32,
    pub element: &'a CType,
    pub size: u32,
    pub count: u32,
    pub terminated: bool,
    pub is_run: bool,
    pub bytes: Vec<u8>,
}

/// A pointer that is not null, with its range.
#[derive(Clone, Copy)]
pub struct Span {
    pub number: u32,
    pub low: u32,
    pub high: u32,
}

/// Whether a span lies in the run from begin to end of elements of a size.
fn is_within(begin: u64, end: u64, size: u32, s: Span) -> bool
    ensures { result ≡ is_within begin end size s.number s.low s.high }
{
    let size = u64::from(size);
    if size == 0 {
        return false;
    }
    begin <= u64::from(s.low)
        && s.low <= s.high
        && u64::from(s.high) <= end
        && u64::from(s.low) % size == begin % size
        && u64::from(s.high) % size == begin % size
        && u64::from(s.number) % size == begin % size
}

/// How many bytes an access of the width has.
fn width_bytes(width: Width) -> u64
    ensures { result ≡ width_bytes width }
{
    match width {
        Width::Byte => 1,
        Width::Word => 4,
    }
}

/// The number that the bytes from an index on spell, the lowest first.
fn number_at(width: Width, bytes: &[u8], i: usize) -> u32
    requires { i + width_bytes width ≤ length bytes.now }
    ensures { result ≡ number_at width bytes.now i }
{
    match width {
        Width::Byte => u32::from(bytes[i]),
        Width::Word => {
            let low = u32::from(bytes[i]) + 256 * u32::from(bytes[i + 1]);
            low + 0x1_0000 * (u32::from(bytes[i + 2]) + 256 * u32::from(bytes[i + 3]))
        }
    }
}

/// Puts the lowest bytes of a number from an index on.
fn put_number(width: Width, bytes: &mut [u8], i: usize, n: u32)
    requires { i + width_bytes width ≤ length bytes.old }
    ensures { bytes.new ≡ with_number width bytes.old i n }
{
    match width {
        Width::Byte => bytes[i] = (n % 256) as u8,
        Width::Word => {
            bytes[i] = (n % 256) as u8;
            bytes[i + 1] = (n / 256 % 256) as u8;
            bytes[i + 2] = (n / 0x1_0000 % 256) as u8;
            bytes[i + 3] = (n / 0x100_0000 % 256) as u8;
        }
    }
}

/// The members of a structure that are runs.
fn runs_of(shapes: &Seq<Shape>, tag: u32) -> &[MemberRun]
    ensures { result.now ≡ runs_of (slice_get shapes.now tag) }
{
    match shapes.get(tag as usize) {
        Some(shape) => shape.runs.as_slice(),
        None => &[],
    }
}

/// The members of the elements of a block that are runs.
fn runs_in<'a>(shapes: &'a Seq<Shape>, element: &CType) -> &'a [MemberRun]
    ensures { result.now ≡ runs_in shapes.now (out-CType element.now) }
{
    match element {
        CType::Struct(tag) => runs_of(shapes, *tag),
        _ => &[],
    }
}

impl<'a> Block<'a> {
    /// The address after the last byte.
    pub fn end(&self) -> u64
        requires { length self.now.bytes.items < 2 ^ 63 }
        ensures { result ≡ end_of (view self.now) }
    {
        u64::from(self.base) + self.bytes.len() as u64
    }

    /// Whether an access of the width at an address lies in the block.
    pub fn has(&self, width: Width, a: u32) -> bool
        ensures { result ≡ has width a (view self.now) }
    {
        self.base <= a && u64::from(a) + width_bytes(width) <= self.end()
    }

    /// The number at an address.
    pub fn load(&self, width: Width, a: u32) -> u32
        requires { has width a (view self.now) ≡ true }
        ensures { result ≡ number_at width self.now.bytes.items (a - self.now.base) }
    {
        number_at(width, self.bytes.as_slice(), (a - self.base) as usize)
    }

    /// Stores the lowest bytes of a number at an address.
    pub fn store(&mut self, width: Width, a: u32, n: u32)
        requires { has width a (view self.old) ≡ true }
        ensures { view self.new ≡ record (view self.old) {
          bytes = with_number width
              self.old.bytes.items (a - self.old.base) n;
        } }
    {
        let i = (a - self.base) as usize;
        put_number(width, self.bytes.as_mut_slice(), i, n);
    }

    /// Whether the whole block is a run in which a span lies.
    fn is_in_block(&self, to: &Pointee, s: Span) -> bool
        ensures { result ≡ is_in_block to.now s.number s.low s.high (view self.now) }
    {
        if !same_type(&to.element, self.element) {
            return false;
        }
        let begin = u64::from(self.base);
        if self.terminated {
            let end = self.end().saturating_sub(u64::from(self.size));
            is_within(begin, end, to.size, s)
        } else {
            !to.terminated && is_within(begin, self.end(), to.size, s)
        }
    }

    /// Whether a span lies in the run of a size after the begin of an element, which is not after its low end.
    fn is_at_element(&self, offset: u32, size: u32, s: Span, i: u64) -> bool
        requires { self.now.base + (i * self.now.size + offset) ≤ s.low }
        ensures { result ≡ is_at_element (view self.now) offset size s.number s.low s.high i }
    {
        if i >= u64::from(self.count) {
            return false;
        }
        let begin = u64::from(self.base) + (i * u64::from(self.size) + u64::from(offset));
        let end = begin + u64::from(size);
        end <= self.end() && is_within(begin, end, size, s)
    }

    /// Whether a span lies in a member of an element of the block. The element is the last one in which the member
    /// begins before the span, or the one before that.
    fn is_in_member(&self, to: &Pointee, s: Span, m: &MemberRun) -> bool
        ensures { result ≡ is_in_member to.now s.number s.low s.high (view self.now) m.now }
    {
        if !same_type(&to.element, &m.ctype) {
            return false;
        }
        if u64::from(m.offset) + u64::from(to.size) > u64::from(self.size) {
            return false;
        }
        self.is_in_some_element(m.offset, to.size, s)
    }

    fn is_in_some_element(&self, offset: u32, size: u32, s: Span) -> bool
        requires { offset + size ≤ self.now.size }
        ensures { result ≡ is_in_some_element (view self.now) offset size s.number s.low s.high }
    {
        if size == 0 {
            return false;
        }
        let first = u64::from(self.base) + u64::from(offset);
        if u64::from(s.low) < first {
            return false;
        }
        let last = (u64::from(s.low) - first) / u64::from(self.size);
        self.is_near(offset, size, s, last)
    }

    /// The same, if the last element in which the run begins before the span is given.
    fn is_near(&self, offset: u32, size: u32, s: Span, last: u64) -> bool
        requires some { 0 < size }
        requires fits { offset + size ≤ self.now.size }
        requires begins { self.now.base + offset ≤ s.low }
        requires last { last ≡ (s.low - (self.now.base + offset)) / self.now.size }
        ensures { result ≡ is_in_some_element (view self.now) offset size s.number s.low s.high }
    {
        if self.is_at_element(offset, size, s, last) {
            return true;
        }
        if last == 0 {
            return false;
        }
        self.is_at_element(offset, size, s, last - 1)
    }

    /// Whether a span lies in a member of an element of the block.
    fn is_in_members(&self, to: &Pointee, s: Span, members: &[MemberRun]) -> bool
        ensures { result ≡ list_any (is_in_member to.now s.number s.low s.high
            (view self.now)) members.now }
    {
        for m in members {
            if self.is_in_member(to, s, m) {
                return true;
            }
        }
        false
    }

    /// Whether a span lies in a run of the block.
    pub fn is_in(&self, shapes: &Seq<Shape>, to: &Pointee, s: Span) -> bool
        ensures { result ≡ is_in shapes.now to.now s.number s.low s.high (view self.now) }
    {
        if !self.is_run {
            return false;
        }
        self.is_in_block(to, s)
            || (!to.terminated && self.is_in_members(to, s, runs_in(shapes, self.element)))
    }
}
