//! How many elements an object of file scope has, and what it may begin as.

ghost use Rattle.std.specs.Prelude.{◌≡◌, ◌+◌, IfOk, length, not, ◌&&◌, nat_le};
ghost use Rattle.std.specs.Option.{option_copied, option_map};
ghost use Rattle.std.specs.List.{list_all};
ghost use Rattle.ckc_typed.specs.Types.{type_written, is_scalar};
ghost use Rattle.ckc_typed.specs.Declarations.{string_in, length_of_init, length_or, count_of, kept_zero, is_element_for, is_start, string_fits, one_fits, init_fits, count_fits};

use ckc_base::Bytes;
use ckc_syntax::{Decl, Expr, Init, Length, Name, Node};
use ckc_typed::Note;
use ckc_typed::constants::{constant, is_null};
use ckc_typed::types::{is_char, is_integer, is_object_type, is_plain, is_pointer, is_scalar};
use ckc_types::{CType, Structs};
use std::alloc::{AllocError, Global};

/// The bytes of a string literal.
pub fn string_in(e: &Expr<Name, Note>) -> Option<&Bytes>
    ensures { option_copied result ≡ string_in e.now }
{
    match &e.node {
        Node::Text(bytes) => Some(bytes),
        _ => None,
    }
}

fn length_of_string(e: &Expr<Name, Note>) -> Option<usize>
    ensures { result ≡ option_map (λ bytes. length bytes + 1) (string_in e.now) }
{
    match string_in(e) {
        None => None,
        Some(bytes) => Some(bytes.as_slice().len() + 1),
    }
}

fn length_of_init(init: &Init<Name, Note>) -> Option<usize>
    ensures { result ≡ length_of_init init.now }
{
    match init {
        Init::Nothing => None,
        Init::One(e) => length_of_string(e.get()),
        Init::Many(es) => Some(es.len()),
    }
}

fn length_or(length: Option<u32>, init: &Init<Name, Note>) -> Option<usize>
    ensures { result ≡ length_or length init.now }
{
    match length {
        Some(n) => Some(n as usize),
        None => length_of_init(init),
    }
}

/// How many elements an object of file scope has, if that is known.
pub fn count_of(d: &Decl<Name, Note>) -> Option<usize>
    ensures { result ≡ count_of d.now }
{
    match d.length {
        Length::Plain => Some(1),
        Length::Raw(n, _) => length_or(n, &d.init),
        Length::Checked(n) => length_or(n, &d.init),
        Length::Nt(n) => length_or(n, &d.init),
    }
}

fn kept_zero(length: Length) -> usize
    ensures { result ≡ kept_zero length }
{
    match length {
        Length::Nt(_) => 1,
        Length::Plain | Length::Raw(_, _) | Length::Checked(_) => 0,
    }
}

/// Whether a type may be that of the elements of an object with such a length.
pub fn is_element_for(length: Length, t: &CType) -> bool
    ensures { result ≡ is_element_for length t.now }
{
    match length {
        Length::Nt(_) => is_integer(t),
        Length::Plain | Length::Raw(_, _) | Length::Checked(_) => is_object_type(t),
    }
}

fn is_start(
    alloc: Global,
    structs: &Structs,
    t: &CType,
    e: &Expr<Name, Note>,
) -> Result<bool, AllocError>
    ensures { IfOk result (λ b. b ≡ is_start structs.now t.now e.now) }
{
    let c = constant(alloc, structs, e)?;
    if is_integer(t) && c.is_some() {
        return Ok(true);
    }
    Ok(is_pointer(t) && is_null(e))
}

fn are_starts(
    alloc: Global,
    structs: &Structs,
    t: &CType,
    es: &[Expr<Name, Note>],
) -> Result<bool, AllocError>
    ensures { IfOk result (λ b. b ≡ list_all (is_start structs.now t.now) es.now) }
{
    for e in es {
        let fits = is_start(alloc, structs, t, e)?;
        if !fits {
            return Ok(false);
        }
    }
    Ok(true)
}

fn string_fits(t: &CType, room: usize, e: &Expr<Name, Note>) -> bool
    ensures { result ≡ string_fits t.now room (string_in e.now) }
{
    match string_in(e) {
        None => false,
        Some(bytes) => is_char(t) && bytes.len() <= room,
    }
}

fn one_fits(
    alloc: Global,
    structs: &Structs,
    t: &CType,
    plain: bool,
    room: usize,
    e: &Expr<Name, Note>,
) -> Result<bool, AllocError>
    ensures { IfOk result (λ b. b ≡ one_fits structs.now t.now plain room e.now) }
{
    if !plain {
        return Ok(string_fits(t, room, e));
    }
    let starts = is_start(alloc, structs, t, e)?;
    Ok(is_scalar(t) && starts)
}

fn many_fit(
    alloc: Global,
    structs: &Structs,
    t: &CType,
    plain: bool,
    room: usize,
    es: &[Expr<Name, Note>],
) -> Result<bool, AllocError>
    ensures { IfOk result
        (λ b. b ≡ (not plain &&
        (is_scalar t.now && (nat_le (length es.now) room && list_all (is_start structs.now t.now)
        es.now)))) }
{
    if plain || !is_scalar(t) || es.len() > room {
        return Ok(false);
    }
    are_starts(alloc, structs, t, es)
}

fn init_fits(
    alloc: Global,
    structs: &Structs,
    t: &CType,
    plain: bool,
    room: usize,
    init: &Init<Name, Note>,
) -> Result<bool, AllocError>
    ensures { IfOk result (λ b. b ≡ init_fits structs.now t.now plain room init.now) }
{
    match init {
        Init::Nothing => Ok(true),
        Init::One(e) => one_fits(alloc, structs, t, plain, room, e.get()),
        Init::Many(es) => many_fit(alloc, structs, t, plain, room, es.as_slice()),
    }
}

/// Whether an object of file scope has elements of which the type is given, and its initialiser fits their number.
pub fn count_fits(
    alloc: Global,
    structs: &Structs,
    t: &CType,
    d: &Decl<Name, Note>,
) -> Result<bool, AllocError>
    ensures { t.now ≡ type_written d.now.ctype
        → IfOk result (λ b. b ≡ count_fits structs.now d.now (count_of d.now)) }
{
    match count_of(d) {
        None => Ok(false),
        Some(n) => {
            if n < 1 {
                return Ok(false);
            }
            let room = n - kept_zero(d.length);
            init_fits(alloc, structs, t, is_plain(d.length), room, &d.init)
        }
    }
}
