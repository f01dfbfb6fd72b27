//! Accesses through pointers, and pointer arithmetic, with their checks.

ghost use Rattle.std.specs.Prelude.{◌≡◌, ◌%◌, ◌^◌, Ok};
ghost use Rattle.ckc_source.specs.Eval.{plain, at_address, exact_element, in_range, element, place_in, moved_exactly, moves_checked, moves, operates, tests_within, tests};

use crate::arithmetic::{as_address, computed, elements_behind, exact};
use ckc_base::{Check, Pos};
use ckc_source::operators::divides;
use ckc_source::{Access, Halt, Integer, Operation, Range, Shift, Through, Value};

/// A value without a range.
pub fn plain(n: u32) -> Value
    ensures { Ok result ≡ plain n }
{
    Value {
        number: n,
        range: Range::Without,
    }
}

/// An address, if there is one, and else a stop.
fn at_address(a: Option<u32>, at: Pos) -> Result<u32, Halt>
    ensures { result ≡ at_address a at }
{
    match a {
        Some(a) => Ok(a),
        None => Err(Halt::Stopped(Check::Arith, at)),
    }
}

/// The exact address of an element, from a pointer that is not null.
fn exact_element(access: Access, p: Value, i: u32) -> Result<u32, Halt>
    ensures { result ≡ exact_element access p i }
{
    if p.number == 0 {
        return Err(Halt::Stopped(Check::Null, access.at));
    }
    let place = elements_behind(p.number, access.size, exact(access.index, i));
    at_address(as_address(place), access.at)
}

/// An address in a range, of which the upper bound counts too if the flag says so.
fn in_range(last: bool, range: Range, at: Pos, a: u32) -> Result<u32, Halt>
    ensures { result ≡ in_range last range at a }
{
    match range {
        Range::Within(low, high) => {
            let place = u64::from(a);
            if low <= place && (if last { place <= high } else { place < high }) {
                Ok(a)
            } else {
                Err(Halt::Stopped(Check::Bounds, at))
            }
        }
        Range::Without => Err(Halt::Stuck),
    }
}

/// The address of the element that an access goes to.
pub fn element(access: Access, p: Value, i: u32) -> Result<u32, Halt>
    ensures { result ≡ element access p i }
{
    match access.through {
        Through::Named => Ok(p.number),
        Through::Raw => Ok(p.number.wrapping_add(access.size.wrapping_mul(i))),
        Through::One => exact_element(access, p, i),
        Through::Array => {
            let a = exact_element(access, p, i)?;
            in_range(false, p.range, access.at, a)
        }
        Through::Terminated => {
            let a = exact_element(access, p, i)?;
            in_range(true, p.range, access.at, a)
        }
    }
}

/// The place that an access goes to, in the element.
pub fn place_in(a: u32, offset: u32) -> u32
    ensures { result ≡ place_in a offset }
{
    a.wrapping_add(offset)
}

/// The exact address that pointer arithmetic leads to.
fn moved_exactly(shift: Shift, n: u32, i: i64) -> i128
    ensures { result ≡ moved_exactly shift n i }
{
    if shift.back {
        i128::from(n) - i128::from(shift.size) * i128::from(i)
    } else {
        elements_behind(n, shift.size, i)
    }
}

/// Arithmetic on a checked pointer.
fn moves_checked(shift: Shift, p: Value, i: u32) -> Result<Value, Halt>
    ensures { result ≡ moves_checked shift p i }
{
    if p.number == 0 {
        return Err(Halt::Stopped(Check::Arith, shift.at));
    }
    let place = moved_exactly(shift, p.number, exact(shift.index, i));
    let number = at_address(as_address(place), shift.at)?;
    Ok(Value {
        number,
        range: p.range,
    })
}

/// Pointer arithmetic.
pub fn moves(shift: Shift, p: Value, i: u32) -> Result<Value, Halt>
    ensures { result ≡ moves shift p i }
{
    if shift.checked {
        return moves_checked(shift, p, i);
    }
    let bytes = shift.size.wrapping_mul(i);
    if shift.back {
        Ok(plain(p.number.wrapping_sub(bytes)))
    } else {
        Ok(plain(p.number.wrapping_add(bytes)))
    }
}

/// An operation on two words, which stops at a divisor of zero.
pub fn operates(
    operation: Operation,
    is_signed: bool,
    at: Pos,
    a: u32,
    b: u32,
) -> Result<Value, Halt>
    ensures { result ≡ operates operation is_signed at a b }
{
    if divides(operation) && b == 0 {
        Err(Halt::Stopped(Check::Divide, at))
    } else {
        Ok(plain(computed(operation, is_signed, a, b)))
    }
}

/// The new range, if it lies in the old one.
fn tests_within(range: Range, at: Pos, n: u32, upper: i128) -> Result<Value, Halt>
    ensures { result ≡ tests_within range at n upper }
{
    match range {
        Range::Within(low, high) => {
            let place = u64::from(n);
            if low <= place && i128::from(n) <= upper && upper <= i128::from(high) {
                Ok(Value {
                    number: n,
                    range: Range::Within(place, upper as u64),
                })
            } else {
                Err(Halt::Stopped(Check::Cast, at))
            }
        }
        Range::Without => Err(Halt::Stuck),
    }
}

/// `_Dynamic_bounds_cast` to so many elements.
pub fn tests(size: u32, form: Integer, at: Pos, p: Value, k: u32) -> Result<Value, Halt>
    ensures { result ≡ tests size form at p k }
{
    if p.number == 0 {
        return Ok(plain(0));
    }
    let upper = elements_behind(p.number, size, exact(form, k));
    tests_within(p.range, at, p.number, upper)
}
