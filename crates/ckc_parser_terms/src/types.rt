ghost use Rattle.std.specs.Prelude.{◌≡◌, ◌∷◌, OnOk};
ghost use Rattle.ckc_parser_values.specs.declared.held.Form.TheVariants as form;
ghost use Rattle.ckc_parser_values.specs.code.Acts as a;

use crate::expressions::{mark, named_chain, skip};
use ckc_base::Boxed;
use ckc_parser_grammar::struct_type;
use ckc_parser_values::{Form, Held, Stack, starred};
use ckc_syntax::{Limits, Spelling, TypeTree};
use std::alloc::{AllocError, Global};

/// A type.
#[inline(never)]
pub fn put_type<'a>(
    alloc: Global,
    held: &mut Held<'a>,
    ctype: TypeTree<Spelling<'a>>,
) -> Result<(), AllocError>
    ensures { OnOk result (held.new ≡ a.put_type ctype.entry held.old) }
{
    let whole = Boxed::new(alloc, ctype)?;
    held.types.push(whole)
}

/// A pointer to one object.
#[inline(never)]
pub fn point<'a>(alloc: Global, held: &mut Held<'a>) -> Result<(), AllocError>
    ensures { OnOk result (held.new ≡ a.point held.old) }
{
    if held.types.is_empty() {
        return Err(AllocError);
    }
    let inner = held.types.take_top();
    put_type(alloc, held, TypeTree::One(inner))
}

/// A pointer into an array.
#[inline(never)]
pub fn point_array<'a>(alloc: Global, held: &mut Held<'a>) -> Result<(), AllocError>
    ensures { OnOk result (held.new ≡ a.point_array held.old) }
{
    if held.types.is_empty() {
        return Err(AllocError);
    }
    let inner = held.types.take_top();
    put_type(alloc, held, TypeTree::Arr(inner))
}

/// A pointer into a terminated array.
#[inline(never)]
pub fn point_string<'a>(alloc: Global, held: &mut Held<'a>) -> Result<(), AllocError>
    ensures { OnOk result (held.new ≡ a.point_string held.old) }
{
    if held.types.is_empty() {
        return Err(AllocError);
    }
    let inner = held.types.take_top();
    put_type(alloc, held, TypeTree::Nt(inner))
}

/// The type of a structure by its tag.
#[inline(never)]
pub fn structure_type<'a>(alloc: Global, held: &mut Held<'a>) -> Result<(), AllocError>
    ensures { OnOk result (held.new ≡ a.structure_type held.old) }
{
    if held.tokens.is_empty() {
        return Err(AllocError);
    }
    let token = held.tokens.take_top();
    let whole = struct_type(alloc, token)?;
    held.types.push(whole)
}

/// A type with its stars.
#[inline(never)]
pub fn star<'a>(alloc: Global, held: &mut Held<'a>) -> Result<(), AllocError>
    ensures { OnOk result (held.new ≡ a.star held.old) }
{
    if held.types.is_empty() || held.stars.is_empty() {
        return Err(AllocError);
    }
    let base = held.types.take_top();
    let stars = held.stars.take_top();
    let whole = starred(alloc, base, stars)?;
    held.types.push(whole)
}

/// No stars.
#[inline(never)]
pub fn no_stars<'a>(alloc: Global, held: &mut Held<'a>) -> Result<(), AllocError>
    ensures { OnOk result (held.new ≡ a.no_stars held.old) }
{
    held.stars.push(Stack::new(alloc))
}

/// One more star in front.
#[inline(never)]
pub fn add_star<'a>(held: &mut Held<'a>) -> Result<(), AllocError>
    ensures { OnOk result (held.new ≡ a.add_star held.old) }
{
    if held.tokens.is_empty() {
        return Err(AllocError);
    }
    let token = held.tokens.take_top();
    held.stars.push_in(token.pos)
}

/// Limits.
#[inline(always)]
fn put_limits<'a>(
    alloc: Global,
    held: &mut Held<'a>,
    limits: Limits<Spelling<'a>, ()>,
) -> Result<(), AllocError>
    ensures { OnOk result
        (held.new ≡ (record held.old { limits = limits.entry ∷ held.old.limits })) }
{
    let whole = Boxed::new(alloc, limits)?;
    held.limits.push(whole)
}

/// Limits by a number.
#[inline(never)]
pub fn count<'a>(alloc: Global, held: &mut Held<'a>) -> Result<(), AllocError>
    ensures { OnOk result (held.new ≡ a.count held.old) }
{
    if held.tokens.is_empty() || held.exprs.is_empty() {
        return Err(AllocError);
    }
    let token = held.tokens.take_top();
    let e = held.exprs.take_top();
    put_limits(alloc, held, Limits::Count(e, token.pos))
}

/// Limits by a number.
#[inline(never)]
pub fn byte_count<'a>(alloc: Global, held: &mut Held<'a>) -> Result<(), AllocError>
    ensures { OnOk result (held.new ≡ a.byte_count held.old) }
{
    if held.tokens.is_empty() || held.exprs.is_empty() {
        return Err(AllocError);
    }
    let token = held.tokens.take_top();
    let e = held.exprs.take_top();
    put_limits(alloc, held, Limits::ByteCount(e, token.pos))
}

/// `bounds(unknown)`.
#[inline(never)]
pub fn unknown_bounds<'a>(alloc: Global, held: &mut Held<'a>) -> Result<(), AllocError>
    ensures { OnOk result (held.new ≡ a.bounds_by form.First held.old) }
{
    if held.tokens.is_empty() {
        return Err(AllocError);
    }
    let token = held.tokens.take_top();
    put_limits(alloc, held, Limits::Unknown(token.pos))
}

/// `bounds(e, f)`.
#[inline(never)]
pub fn between<'a>(alloc: Global, held: &mut Held<'a>) -> Result<(), AllocError>
    ensures { OnOk result (held.new ≡ a.bounds_by form.Second held.old) }
{
    if held.tokens.is_empty() || held.exprs.is_short() {
        return Err(AllocError);
    }
    let token = held.tokens.take_top();
    let (e, f) = held.exprs.take_two();
    put_limits(alloc, held, Limits::Between(e, f, token.pos))
}

/// What stands behind `bounds (`.
#[inline(never)]
pub fn bounds_of<'a>(alloc: Global, held: &mut Held<'a>) -> Result<(), AllocError>
    ensures { OnOk result (held.new ≡ a.bounds_of held.old) }
{
    if held.forms.is_empty() {
        return Err(AllocError);
    }
    match held.forms.take_top() {
        Form::First => unknown_bounds(alloc, held),
        Form::Second => between(alloc, held),
        Form::Third => Err(AllocError),
    }
}

/// `unknown` alone.
#[inline(never)]
pub fn unknown_end<'a>(held: &mut Held<'a>) -> Result<(), AllocError>
    ensures { OnOk result (held.new ≡ a.unknown_by form.First held.old) }
{
    skip(held)?;
    mark(held, Form::First)
}

/// `unknown` as a name.
#[inline(never)]
pub fn unknown_name<'a>(alloc: Global, held: &mut Held<'a>) -> Result<(), AllocError>
    ensures { OnOk result (held.new ≡ a.unknown_by form.Second held.old) }
{
    named_chain(alloc, held)?;
    mark(held, Form::Second)
}

/// What stands behind `bounds ( unknown`.
#[inline(never)]
pub fn unknown<'a>(alloc: Global, held: &mut Held<'a>) -> Result<(), AllocError>
    ensures { OnOk result (held.new ≡ a.unknown held.old) }
{
    if held.forms.is_empty() {
        return Err(AllocError);
    }
    match held.forms.take_top() {
        Form::First => unknown_end(held),
        Form::Second => unknown_name(alloc, held),
        Form::Third => Err(AllocError),
    }
}

/// Limits that may be left out.
#[inline(never)]
pub fn some_limits<'a>(held: &mut Held<'a>) -> Result<(), AllocError>
    ensures { OnOk result (held.new ≡ a.some_limits held.old) }
{
    if held.limits.is_empty() {
        return Err(AllocError);
    }
    let item = held.limits.take_top();
    held.bounds.push(Some(item))
}

/// Limits that are left out.
#[inline(never)]
pub fn no_limits<'a>(held: &mut Held<'a>) -> Result<(), AllocError>
    ensures { OnOk result (held.new ≡ a.no_limits held.old) }
{
    held.bounds.push(None)
}
