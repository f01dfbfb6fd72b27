//! What names stand for.

ghost use Rattle.std.specs.Prelude.{◌≡◌, ◌-◌, IfOk, find, if◌then◌else◌};
ghost use Rattle.std.specs.Option.{option_copied};
ghost use Rattle.ckc_build_values.specs.Names.{address_of, array_of, bytes_in, bytes_of, declares, limits_declared, fixed_by, fixed_count, count_of_static};

use crate::kinds::{count_by_kind, size_behind};
use crate::numbers::{elements, product};
use crate::texts::Text;
use ckc_base::Boxed;
use ckc_source::Count;
use ckc_syntax::{Item, Limits, Name};
use ckc_typed::amounts::amount_of_limits;
use ckc_typed::constants::size_of;
use ckc_typed::lookups::same_name;
use ckc_typed::{Amount, Note, StaticObject, Typed};
use ckc_types::{CType, Kind};
use std::alloc::{AllocError, Global};

/// The address of the static object with a number.
pub fn address_of(typed: &Typed, k: u32) -> u32
    ensures { result ≡ address_of typed.now k }
{
    match typed.statics.get(k as usize) {
        Some(o) => o.at,
        None => 0,
    }
}

/// The kind of pointer that the use of a static object gives, if it is an array.
pub fn array_of(typed: &Typed, k: u32) -> Option<Kind>
    ensures { result ≡ array_of typed.now k }
{
    match typed.statics.get(k as usize) {
        Some(o) => o.array,
        None => None,
    }
}

/// How many elements lie before the upper bound.
fn bounded(o: &StaticObject) -> u32
    ensures { result ≡ o.now.count - (if o.now.terminated then 1 else 0) }
{
    if o.terminated {
        o.count.saturating_sub(1)
    } else {
        o.count
    }
}

/// How many bytes the upper bound of a static array lies after its begin.
pub fn bytes_of(typed: &Typed, k: u32) -> Result<u32, AllocError>
    ensures { IfOk result (λ n. n ≡ bytes_of typed.now k) }
{
    match typed.statics.get(k as usize) {
        Some(o) => product(size_of(&typed.layout, &o.element), bounded(o)),
        None => Ok(0),
    }
}

fn declares(n: Name, item: &Item<Name, Note>) -> bool
    ensures { result ≡ declares n item.now }
{
    match item {
        Item::Static(d) => same_name(d.get().name, n),
        Item::Directive(_) | Item::Tag(_, _) | Item::Struct(_, _, _) => false,
        Item::Proto(_) | Item::Function(_, _) => false,
    }
}

fn declaration(items: &[Item<Name, Note>], n: Name) -> Option<&Item<Name, Note>>
    ensures { option_copied result ≡ find (declares n) items.now }
{
    items.iter().find(|i| declares(n, *i))
}

fn limits_of(bounds: &Option<Boxed<Limits<Name, Note>>>) -> Option<&Limits<Name, Note>>
    ensures { option_copied result ≡ bounds.now }
{
    match bounds {
        None => None,
        Some(l) => Some(l.get()),
    }
}

/// The bounds that a static object is declared with, by a walk through the text.
pub fn limits_by_walk(typed: &Typed, n: Name) -> Option<&Limits<Name, Note>>
    ensures { option_copied result ≡ limits_declared typed.now n }
{
    match declaration(typed.tree.items.as_slice(), n) {
        Some(Item::Static(d)) => limits_of(&d.get().bounds),
        _ => None,
    }
}

fn fixed_by(variable: Option<Name>, number: i64) -> Result<Option<Count>, AllocError>
    ensures { IfOk result (λ c. c ≡ fixed_by variable number) }
{
    match variable {
        None => {
            let c = elements(number)?;
            Ok(Some(Count::Fixed(c)))
        }
        Some(_) => Ok(None),
    }
}

fn fixed_count(a: Option<Amount>) -> Result<Option<Count>, AllocError>
    ensures { IfOk result (λ c. c ≡ fixed_count a) }
{
    match a {
        None => Ok(None),
        Some(a) => fixed_by(a.variable, a.number),
    }
}

/// How many elements a static pointer has, if that is known.
pub fn count_of_static(
    alloc: Global,
    typed: &Text,
    t: &CType,
    n: Name,
) -> Result<Option<Count>, AllocError>
    ensures { IfOk result (λ c. c ≡ count_of_static typed.now t.now n) }
{
    match typed.limits_declared(n) {
        None => Ok(count_by_kind(t)),
        Some(l) => {
            let size = size_behind(typed.layout(), t);
            let a = amount_of_limits(alloc, typed.layout(), size, l)?;
            fixed_count(a)
        }
    }
}
