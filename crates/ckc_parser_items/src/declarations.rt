ghost use Rattle.std.specs.Prelude.{◌≡◌, OnOk};
ghost use Rattle.ckc_parser_values.specs.code.Acts as a;

use ckc_parser_grammar::number_of;
use ckc_parser_values::{Held, Slot, Stack, declare, declare_each};
use ckc_syntax::{Init, Length, Spelling};
use std::alloc::{AllocError, Global};

/// No initialiser.
#[inline(never)]
pub fn no_init<'a>(held: &mut Held<'a>) -> Result<(), AllocError>
    ensures { OnOk result (held.new ≡ a.no_init held.old) }
{
    held.inits.push(Init::Nothing)
}

/// One expression as the initialiser.
#[inline(never)]
pub fn one_init<'a>(held: &mut Held<'a>) -> Result<(), AllocError>
    ensures { OnOk result (held.new ≡ a.one_init held.old) }
{
    if held.exprs.is_empty() {
        return Err(AllocError);
    }
    let item = held.exprs.take_top();
    held.inits.push(Init::One(item))
}

/// A list in braces as the initialiser.
#[inline(never)]
pub fn many_init<'a>(held: &mut Held<'a>) -> Result<(), AllocError>
    ensures { OnOk result (held.new ≡ a.many_init held.old) }
{
    if held.expr_lists.is_empty() {
        return Err(AllocError);
    }
    let list = held.expr_lists.take_top().into_seq();
    held.inits.push(Init::Many(list))
}

/// Whether an object is an array.
#[inline(never)]
pub fn put_length<'a>(held: &mut Held<'a>, length: Length) -> Result<(), AllocError>
    ensures { OnOk result (held.new ≡ a.put_length length held.old) }
{
    held.lengths.push(length)
}

/// `[n]`.
#[inline(never)]
pub fn raw_array<'a>(held: &mut Held<'a>) -> Result<(), AllocError>
    ensures { OnOk result (held.new ≡ a.raw_array held.old) }
{
    if held.tokens.is_empty() || held.sizes.is_empty() {
        return Err(AllocError);
    }
    let token = held.tokens.take_top();
    let size = held.sizes.take_top();
    held.lengths.push(Length::Raw(size, token.pos))
}

/// `_Checked[n]`.
#[inline(never)]
pub fn checked_array<'a>(held: &mut Held<'a>) -> Result<(), AllocError>
    ensures { OnOk result (held.new ≡ a.checked_array held.old) }
{
    if held.sizes.is_empty() {
        return Err(AllocError);
    }
    let size = held.sizes.take_top();
    held.lengths.push(Length::Checked(size))
}

/// `_Nt_checked[n]`.
#[inline(never)]
pub fn nt_array<'a>(held: &mut Held<'a>) -> Result<(), AllocError>
    ensures { OnOk result (held.new ≡ a.nt_array held.old) }
{
    if held.sizes.is_empty() {
        return Err(AllocError);
    }
    let size = held.sizes.take_top();
    held.lengths.push(Length::Nt(size))
}

/// The number of an array.
#[inline(never)]
pub fn some_size<'a>(held: &mut Held<'a>) -> Result<(), AllocError>
    ensures { OnOk result (held.new ≡ a.some_size held.old) }
{
    if held.tokens.is_empty() {
        return Err(AllocError);
    }
    let token = held.tokens.take_top();
    held.sizes.push(Some(number_of(token.kind)))
}

/// No number in the brackets.
#[inline(never)]
pub fn no_size<'a>(held: &mut Held<'a>) -> Result<(), AllocError>
    ensures { OnOk result (held.new ≡ a.no_size held.old) }
{
    held.sizes.push(None)
}

/// A declaration before its type is known.
#[inline(never)]
pub fn make_slot<'a>(held: &mut Held<'a>) -> Result<(), AllocError>
    ensures { OnOk result (held.new ≡ a.make_slot held.old) }
{
    if held.stars.is_empty()
        || held.tokens.is_empty()
        || held.lengths.is_empty()
        || held.bounds.is_empty()
        || held.inits.is_empty()
    {
        return Err(AllocError);
    }
    let stars = held.stars.take_top();
    let token = held.tokens.take_top();
    let length = held.lengths.take_top();
    let bounds = held.bounds.take_top();
    let init = held.inits.take_top();
    held.slots.push(Slot {
        stars,
        name: Spelling::new(token.text),
        pos: token.pos,
        length,
        bounds,
        init,
    })
}

/// No declarations.
#[inline(never)]
pub fn new_slots<'a>(alloc: Global, held: &mut Held<'a>) -> Result<(), AllocError>
    ensures { OnOk result (held.new ≡ a.new_slots held.old) }
{
    held.slot_lists.push(Stack::new(alloc))
}

/// One more declaration in front.
#[inline(never)]
pub fn add_slot<'a>(held: &mut Held<'a>) -> Result<(), AllocError>
    ensures { OnOk result (held.new ≡ a.add_slot held.old) }
{
    if held.slots.is_empty() {
        return Err(AllocError);
    }
    let item = held.slots.take_top();
    held.slot_lists.push_in(item)
}

/// A declaration by its type.
#[inline(never)]
pub fn declare_one<'a>(alloc: Global, held: &mut Held<'a>) -> Result<(), AllocError>
    ensures { OnOk result (held.new ≡ a.declare_one held.old) }
{
    if held.types.is_empty() || held.slots.is_empty() {
        return Err(AllocError);
    }
    let base = held.types.take_top();
    let slot = held.slots.take_top();
    let whole = declare(alloc, base, slot)?;
    held.decls.push(whole)
}

/// Declarations with one base.
#[inline(never)]
pub fn declare_all<'a>(alloc: Global, held: &mut Held<'a>) -> Result<(), AllocError>
    ensures { OnOk result (held.new ≡ a.declare_all held.old) }
{
    if held.types.is_empty() || held.slot_lists.is_empty() {
        return Err(AllocError);
    }
    let base = held.types.take_top();
    let slots = held.slot_lists.take_top();
    let list = declare_each(alloc, &base, slots)?;
    held.decl_lists.push(list)
}

/// No declarations.
#[inline(never)]
pub fn new_decls<'a>(alloc: Global, held: &mut Held<'a>) -> Result<(), AllocError>
    ensures { OnOk result (held.new ≡ a.new_decls held.old) }
{
    held.decl_lists.push(Stack::new(alloc))
}

/// One more declaration in front.
#[inline(never)]
pub fn add_decl<'a>(held: &mut Held<'a>) -> Result<(), AllocError>
    ensures { OnOk result (held.new ≡ a.add_decl held.old) }
{
    if held.decls.is_empty() {
        return Err(AllocError);
    }
    let item = held.decls.take_top();
    held.decl_lists.push_in(item.into_inner())
}

/// Two lists of declarations as one.
#[inline(never)]
pub fn add_decls<'a>(held: &mut Held<'a>) -> Result<(), AllocError>
    ensures { OnOk result (held.new ≡ a.add_decls held.old) }
{
    if held.decl_lists.is_short() {
        return Err(AllocError);
    }
    let (first, rest) = held.decl_lists.take_two();
    let mut all = rest;
    all.put_all(first)?;
    held.decl_lists.push(all)
}
