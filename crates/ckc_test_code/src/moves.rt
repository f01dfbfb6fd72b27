//! Other places for the registers of placed code, as text.
ghost use Rattle.std.specs.Prelude.{◌≡◌, Bool, List, length, All, IfOk};
ghost use Rattle.ckc_frame.specs.WellFormed.{IsPlace, IsPlacedWhole, IsWellFormed, code_of};

use crate::exprs::local_of;
use crate::fault::TextFault;
use crate::words::Words;
use ckc_base::Seq;
use ckc_frame::{Place, Placed, PlacedFunc};
use std::alloc::{AllocError, Global};

/// A change: the place of a register, or whether a call keeps one.
#[derive(Clone, Copy)]
enum Move {
    Home(u32, Place),
    Mark(u32, u32, bool),
}

/// The same code with other places in its last function: `x3 r5` or `x3 s9` for a register, `keep 0 x3` or
/// `lose 0 x3` for a call of the function and a register. Nothing says that it does the same.
#[tactic(auto, using(crate::proofs::SwappedLast::last_whole, crate::proofs::SwappedLast::swapped_code, crate::proofs::SwappedLast::swapped_whole))]
pub fn with_moves(alloc: Global, placed: Placed, text: &[u8]) -> Result<Placed, TextFault>
    requires { IsWellFormed placed }
    ensures whole { IfOk result (λ p. IsWellFormed p) }
    ensures code { IfOk result (λ p. code_of p ≡ code_of placed) }
{
    let moves = moves_in(alloc, text)?;
    let Placed {
        initial,
        mut funcs,
        main,
    } = placed;
    match funcs.pop() {
        None => Err(TextFault::Malformed("no function")),
        Some(last) => {
            let other = function_with(alloc, last, moves.as_slice())?;
            funcs.push(other)?;
            Ok(Placed {
                initial,
                funcs,
                main,
            })
        }
    }
}

fn function_with(alloc: Global, f: PlacedFunc, moves: &[Move]) -> Result<PlacedFunc, AllocError>
    requires { IsPlacedWhole f }
    ensures code { IfOk result (λ g. g.code ≡ f.code) }
    ensures whole { IfOk result (λ g. IsPlacedWhole g) }
{
    let PlacedFunc { code, homes, kept } = f;
    let count = homes.len();
    let homes = homes_with(alloc, homes.as_slice(), moves)?;
    let kept = rows_with(alloc, kept.as_slice(), count, moves)?;
    Ok(PlacedFunc {
        code,
        homes: Seq::from_vec(homes),
        kept: Seq::from_vec(kept),
    })
}

fn homes_with(alloc: Global, homes: &[Place], moves: &[Move]) -> Result<Vec<Place>, AllocError>
    ensures count { IfOk result (λ new. length new.items ≡ length homes.now) }
    ensures places { IfOk result (λ new. All IsPlace new.items) }
{
    let mut new = Vec::new(alloc);
    for old in homes {
        let place = home_of(*old, new.len(), moves);
        new.push(place)?;
    }
    Ok(new)
}

/// The new place of a register, which is one that a frame has.
fn home_of(old: Place, register: usize, moves: &[Move]) -> Place
    ensures { IsPlace result }
{
    match wanted_home(register, moves).unwrap_or(old) {
        Place::Reg(r) if r < 16 => Place::Reg(r),
        Place::Slot(s) if s < 4064 => Place::Slot(s),
        _ => Place::Slot(0),
    }
}

fn wanted_home(register: usize, moves: &[Move]) -> Option<Place> {
    for change in moves {
        match change {
            Move::Home(x, place) if *x as usize == register => return Some(*place),
            _ => {}
        }
    }
    None
}

/// A row of so many marks for each call.
fn rows_with(
    alloc: Global,
    kept: &[Seq<bool>],
    count: usize,
    moves: &[Move],
) -> Result<Vec<Seq<bool>>, AllocError>
    ensures count { IfOk result (λ new. length new.items ≡ length kept.now) }
    ensures marks { IfOk result (λ new. All (λ (row : List Bool). length row ≡ count) new.items) }
{
    let mut new = Vec::new(alloc);
    for old in kept {
        let row = row_with(alloc, old.as_slice(), count, new.len(), moves)?;
        new.push(Seq::from_vec(row))?;
    }
    Ok(new)
}

fn row_with(
    alloc: Global,
    old: &[bool],
    count: usize,
    call: usize,
    moves: &[Move],
) -> Result<Vec<bool>, AllocError>
    ensures { IfOk result (λ new. length new.items ≡ count) }
{
    let mut new = Vec::new(alloc);
    for register in 0..count {
        let mark = mark_of(old, register, call, moves);
        new.push(mark)?;
    }
    Ok(new)
}

fn mark_of(old: &[bool], register: usize, call: usize, moves: &[Move]) -> bool {
    for change in moves {
        match change {
            Move::Mark(c, x, keeps) if *c as usize == call && *x as usize == register => {
                return *keeps;
            }
            _ => {}
        }
    }
    match old.get(register) {
        Some(mark) => *mark,
        None => false,
    }
}

fn moves_in(alloc: Global, text: &[u8]) -> Result<Vec<Move>, TextFault> {
    let mut words = Words::new(alloc, text)?;
    let mut moves = Vec::new(alloc);
    for _turn in 0..words.left() {
        if words.left() == 0 {
            break;
        }
        match next_move(&mut words) {
            Some(change) => moves.push(change)?,
            None => return Err(TextFault::Malformed("no such place")),
        }
    }
    if words.is_wrong() {
        return Err(TextFault::Malformed("no such call"));
    }
    Ok(moves)
}

fn next_move(words: &mut Words) -> Option<Move> {
    match words.next() {
        "keep" => next_mark(words, true),
        "lose" => next_mark(words, false),
        word => {
            let x = local_of(word)?;
            let place = place_of(words.next())?;
            Some(Move::Home(x, place))
        }
    }
}

fn next_mark(words: &mut Words, keeps: bool) -> Option<Move> {
    let call = words.number();
    let x = local_of(words.next())?;
    Some(Move::Mark(call, x, keeps))
}

/// A place of a frame: a machine register, as `r5`, or a slot, as `s9`.
fn place_of(word: &str) -> Option<Place> {
    if let Some(digits) = word.strip_prefix('r') {
        return match digits.parse::<u8>() {
            Ok(r) if r < 16 => Some(Place::Reg(r)),
            _ => None,
        };
    }
    let digits = word.strip_prefix('s')?;
    match digits.parse::<u16>() {
        Ok(s) if s < 4064 => Some(Place::Slot(s)),
        _ => None,
    }
}
