//! Places for registers by linear scan: in the order in which their ranges begin, each takes a machine register whose
//! last range has ended. If there is none, one of those that meet gets a slot of its own: the one to which a machine
//! register is worth least.
ghost use Rattle.std.specs.Prelude.{◌≡◌, ◌≤◌, ◌<◌, length, set, IfOk, IfSome, None, ℕ};
ghost use Rattle.ckc_frame.specs.declared.code.Place.TheVariants.{Reg, Slot};
ghost use Rattle.ckc_assign.specs.code.Homes.{AreBusy, AreFirst, BeginLate, HasStarts, HaveBegun, IsFair, IsGiven};
ghost use Rattle.ckc_assign.specs.code.Ranges.{range_of};
ghost use Rattle.ckc_assign.specs.code.Homes.{IsOrder, IsScan, LieApart, first_home, holder_of, home_of};

use crate::ranges::Range;
use crate::worths::worths_of;
use ckc_frame::Place;
use ckc_tac::TacFunc;
use std::alloc::{AllocError, Global};

/// A register with the first place of its range.
#[derive(Clone, Copy)]
struct Start {
    first: u32,
    register: u32,
}

/// A place for each register, so that those whose ranges meet have places of their own, and slots are for those with
/// more than sixteen ranges at some place.
pub fn homes_of(alloc: Global, f: &TacFunc, ranges: &[Range]) -> Result<Vec<Place>, AllocError>
    requires few { length ranges.now ≤ 4064 }
    requires late { BeginLate ranges.now }
    ensures apart { IfOk result (λ homes. LieApart ranges.now homes.items) }
    ensures fair { IfOk result (λ homes. (r : ℕ) → IsFair ranges.now homes.items r) }
{
    let worths = worths_of(alloc, f, ranges)?;
    let mut homes = first_homes(alloc, ranges)?;
    let order = order_of(alloc, ranges)?;
    scan(
        order.as_slice(),
        ranges,
        worths.as_slice(),
        homes.as_mut_slice(),
    );
    Ok(homes)
}

/// A slot for each register with a range, and the first machine register for the others, which need no place.
fn first_homes(alloc: Global, ranges: &[Range]) -> Result<Vec<Place>, AllocError>
    requires { length ranges.now ≤ 4064 }
    ensures { IfOk result (λ homes. AreFirst ranges.now (length ranges.now) homes.items) }
{
    let mut homes = Vec::new(alloc);
    for r in 0..ranges.len() {
        homes.push(first_place(ranges[r], r as u16))?;
    }
    Ok(homes)
}

fn first_place(range: Range, r: u16) -> Place
    ensures { result ≡ first_home range r }
{
    if range.last < range.first {
        Place::Reg(0)
    } else {
        Place::Slot(r)
    }
}

/// The registers that have a range, in the order in which the ranges begin.
fn order_of(alloc: Global, ranges: &[Range]) -> Result<Vec<Start>, AllocError>
    requires { length ranges.now ≤ 4064 }
    ensures { IfOk result (λ order. IsOrder ranges.now order.items) }
{
    let mut order = starts_of(alloc, ranges)?;
    order.sort_unstable_by_key(|start| start.first);
    Ok(order)
}

fn starts_of(alloc: Global, ranges: &[Range]) -> Result<Vec<Start>, AllocError>
    requires { length ranges.now ≤ 4064 }
    ensures { IfOk result (λ starts. HasStarts ranges.now (length ranges.now) starts.items) }
{
    let mut starts = Vec::new(alloc);
    for r in 0..ranges.len() {
        let range = ranges[r];
        if range.first <= range.last {
            starts.push(Start {
                first: range.first,
                register: r as u32,
            })?;
        }
    }
    Ok(starts)
}

fn scan(order: &[Start], ranges: &[Range], worths: &[u64], homes: &mut [Place])
    requires first { AreFirst ranges.now (length ranges.now) homes.old }
    requires few { length ranges.now ≤ 4064 }
    requires late { BeginLate ranges.now }
    requires order { IsOrder ranges.now order.now }
    ensures apart { LieApart ranges.now homes.new }
    ensures fair { (r : ℕ) → IsFair ranges.now homes.new r }
{
    let mut holders = [ranges.len() as u32; 16];
    for start in order {
        place_one(start.register, ranges, worths, &mut holders, homes);
    }
}

/// Gives a register in a slot a machine register that is free, or that of another register.
fn place_one(r: u32, ranges: &[Range], worths: &[u64], holders: &mut [u32], homes: &mut [Place])
    requires late { BeginLate ranges.now }
    requires scan { IsScan ranges.now holders.old homes.old }
    requires begun { HaveBegun ranges.now holders.old (range_of ranges.now r).first }
    ensures scan { IsScan ranges.now holders.new homes.new }
    ensures given { IsGiven ranges.now r holders.old homes.old holders.new homes.new }
{
    if (r as usize) < ranges.len() {
        match homes[r as usize] {
            Place::Slot(_) => take(r, ranges, worths, holders, homes),
            Place::Reg(_) => {}
        }
    }
}

fn take(r: u32, ranges: &[Range], worths: &[u64], holders: &mut [u32], homes: &mut [Place])
    requires late { BeginLate ranges.now }
    requires scan { IsScan ranges.now holders.old homes.old }
    requires begun { HaveBegun ranges.now holders.old (range_of ranges.now r).first }
    requires there { r < length ranges.now }
    requires slot { home_of homes.old r ≡ Slot r }
    ensures scan { IsScan ranges.now holders.new homes.new }
    ensures given { IsGiven ranges.now r holders.old homes.old holders.new homes.new }
{
    let place = first_of(ranges, r);
    match free(holders, ranges, place) {
        Some(h) => give(h, r, holders, homes),
        None => take_over(r, ranges, worths, holders, homes),
    }
}

/// Gives a register the machine register of another one, if that is worth less to it.
fn take_over(r: u32, ranges: &[Range], worths: &[u64], holders: &mut [u32], homes: &mut [Place])
    requires late { BeginLate ranges.now }
    requires scan { IsScan ranges.now holders.old homes.old }
    requires begun { HaveBegun ranges.now holders.old (range_of ranges.now r).first }
    requires there { r < length ranges.now }
    requires slot { home_of homes.old r ≡ Slot r }
    requires busy { AreBusy ranges.now holders.old (range_of ranges.now r).first }
    ensures scan { IsScan ranges.now holders.new homes.new }
    ensures given { IsGiven ranges.now r holders.old homes.old holders.new homes.new }
{
    match least(holders, worths, r) {
        Some(h) => {
            let other = holder_at(holders, h);
            put_out(other, homes);
            give(h, r, holders, homes);
        }
        None => {}
    }
}

/// The register that holds a machine register.
fn holder_at(holders: &[u32], h: usize) -> u32
    requires { h < length holders.now }
    ensures { result ≡ holder_of holders.now h }
{
    holders[h]
}

/// A register gets a slot of its own.
fn put_out(q: u32, homes: &mut [Place])
    requires there { q < length homes.old }
    requires few { length homes.old ≤ 4064 }
    ensures { homes.new ≡ set homes.old q (Slot q) }
{
    homes[q as usize] = Place::Slot(q as u16);
}

/// A register gets a machine register.
fn give(h: usize, r: u32, holders: &mut [u32], homes: &mut [Place])
    requires machine { h < length holders.old }
    requires few { length holders.old ≤ 16 }
    requires register { r < length homes.old }
    ensures holders { holders.new ≡ set holders.old h r }
    ensures homes { homes.new ≡ set homes.old r (Reg h) }
{
    holders[h] = r;
    homes[r as usize] = Place::Reg(h as u8);
}

/// The machine register that is worth least to the register that holds it, if it is worth more to another one.
fn least(holders: &[u32], worths: &[u64], r: u32) -> Option<usize>
    ensures { IfSome result (λ h. h < length holders.now) }
{
    let mut found = None;
    let mut low = worth_of(worths, r);
    for h in 0..holders.len() {
        let worth = worth_of(worths, holders[h]);
        if worth < low {
            low = worth;
            found = Some(h);
        }
    }
    found
}

fn worth_of(worths: &[u64], r: u32) -> u64 {
    if (r as usize) < worths.len() {
        worths[r as usize]
    } else {
        0
    }
}

/// A machine register that no range holds at a place, if there is one.
fn free(holders: &[u32], ranges: &[Range], place: u32) -> Option<usize>
    ensures free { IfSome result
        (λ h. (h < length holders.now) × ((range_of ranges.now (holder_of holders.now h)).last < place)) }
    ensures busy { result ≡ None → AreBusy ranges.now holders.now place }
{
    for h in 0..holders.len() {
        if last_of(ranges, holders[h]) < place {
            return Some(h);
        }
    }
    None
}

/// The first place of the range of a register.
fn first_of(ranges: &[Range], r: u32) -> u32
    requires { r < length ranges.now }
    ensures { result ≡ (range_of ranges.now r).first }
{
    ranges[r as usize].first
}

/// The last place of the range of a register.
fn last_of(ranges: &[Range], r: u32) -> u32
    ensures { result ≡ (range_of ranges.now r).last }
{
    if (r as usize) < ranges.len() {
        ranges[r as usize].last
    } else {
        0
    }
}
