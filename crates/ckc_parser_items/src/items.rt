ghost use Rattle.std.specs.Prelude.{◌≡◌, OnOk, [], ◌∷◌};
ghost use Rattle.ckc_parser_values.specs.declared.held.Form.TheVariants as form;
ghost use Rattle.ckc_parser_values.specs.code.Acts as a;

use crate::declarations::{add_slot, declare_all, make_slot};
use ckc_base::{Boxed, Mode};
use ckc_parser_grammar::{CType, directive_of, head_of};
use ckc_parser_terms::structure_type;
use ckc_parser_values::{Form, Held, Stack, function_of, mode_of, starred, statics};
use ckc_syntax::{Item, Spelling, TypeTree};
use std::alloc::{AllocError, Global};

/// No items.
#[inline(never)]
pub fn new_items<'a>(alloc: Global, held: &mut Held<'a>) -> Result<(), AllocError>
    ensures { OnOk result (held.new ≡ a.new_items held.old) }
{
    held.items.push(Stack::new(alloc))
}

/// A directive in front.
#[inline(never)]
pub fn directive<'a>(held: &mut Held<'a>) -> Result<(), AllocError>
    ensures { OnOk result (held.new ≡ a.directive held.old) }
{
    if held.tokens.is_empty() {
        return Err(AllocError);
    }
    let token = held.tokens.take_top();
    held.items
        .push_in(Item::Directive(directive_of(token.kind)))
}

/// A list of one item.
#[inline(never)]
pub fn put_item<'a>(
    alloc: Global,
    held: &mut Held<'a>,
    item: Item<Spelling<'a>, ()>,
) -> Result<(), AllocError>
    ensures { OnOk result (held.new ≡ (record held.old { items = (item.entry ∷ []) ∷ held.old.items })) }
{
    let mut list = Stack::new(alloc);
    list.push(item)?;
    held.items.push(list)
}

/// A function or prototype.
#[inline(never)]
pub fn headed<'a>(
    alloc: Global,
    held: &mut Held<'a>,
    mode: Option<Mode>,
    ctype: CType<'a>,
) -> Result<(), AllocError>
    ensures { OnOk result (held.new ≡ a.headed mode ctype.entry held.old) }
{
    if held.tokens.is_empty()
        || held.decl_lists.is_empty()
        || held.bounds.is_empty()
        || held.parts.is_empty()
    {
        return Err(AllocError);
    }
    let token = held.tokens.take_top();
    let params = held.decl_lists.take_top().into_seq();
    let bounds = held.bounds.take_top();
    let head = head_of(alloc, mode, ctype, token, params, bounds)?;
    let body = held.parts.take_top();
    put_item(alloc, held, function_of(head, body))
}

/// A function with a mode.
#[inline(never)]
pub fn moded<'a>(alloc: Global, held: &mut Held<'a>) -> Result<(), AllocError>
    ensures { OnOk result (held.new ≡ a.moded held.old) }
{
    if held.forms.is_empty() || held.types.is_empty() {
        return Err(AllocError);
    }
    let mode = mode_of(held.forms.take_top());
    let ctype = held.types.take_top();
    headed(alloc, held, Some(mode), ctype)
}

/// A function without a result.
#[inline(never)]
pub fn voided<'a>(alloc: Global, held: &mut Held<'a>) -> Result<(), AllocError>
    ensures { OnOk result (held.new ≡ a.voided held.old) }
{
    let ctype = Boxed::new(alloc, TypeTree::Void)?;
    headed(alloc, held, None, ctype)
}

/// Declarations as items.
#[inline(never)]
pub fn list_statics<'a>(alloc: Global, held: &mut Held<'a>) -> Result<(), AllocError>
    ensures { OnOk result (held.new ≡ a.list_statics held.old) }
{
    if held.decl_lists.is_empty() {
        return Err(AllocError);
    }
    let decls = held.decl_lists.take_top();
    let whole = statics(alloc, decls)?;
    held.items.push(whole)
}

/// A function or prototype after its base.
#[inline(never)]
pub fn declared_function<'a>(alloc: Global, held: &mut Held<'a>) -> Result<(), AllocError>
    ensures { OnOk result (held.new ≡ a.declared_by form.First held.old) }
{
    if held.types.is_empty() || held.stars.is_empty() {
        return Err(AllocError);
    }
    let base = held.types.take_top();
    let stars = held.stars.take_top();
    let ctype = starred(alloc, base, stars)?;
    headed(alloc, held, None, ctype)
}

/// Objects after their base.
#[inline(never)]
pub fn declared_objects<'a>(alloc: Global, held: &mut Held<'a>) -> Result<(), AllocError>
    ensures { OnOk result (held.new ≡ a.declared_by form.Second held.old) }
{
    make_slot(held)?;
    add_slot(held)?;
    declare_all(alloc, held)?;
    list_statics(alloc, held)
}

/// What is declared after a base.
#[inline(never)]
pub fn items_of_base<'a>(alloc: Global, held: &mut Held<'a>) -> Result<(), AllocError>
    ensures { OnOk result (held.new ≡ a.items_of_base held.old) }
{
    if held.forms.is_empty() {
        return Err(AllocError);
    }
    match held.forms.take_top() {
        Form::First => declared_function(alloc, held),
        Form::Second => declared_objects(alloc, held),
        Form::Third => Err(AllocError),
    }
}

/// A tag line.
#[inline(never)]
pub fn tag_item<'a>(alloc: Global, held: &mut Held<'a>) -> Result<(), AllocError>
    ensures { OnOk result (held.new ≡ a.tag_item held.old) }
{
    if held.tokens.is_empty() {
        return Err(AllocError);
    }
    let token = held.tokens.take_top();
    put_item(alloc, held, Item::Tag(Spelling::new(token.text), token.pos))
}

/// A structure.
#[inline(never)]
pub fn struct_item<'a>(alloc: Global, held: &mut Held<'a>) -> Result<(), AllocError>
    ensures { OnOk result (held.new ≡ a.struct_item held.old) }
{
    if held.tokens.is_empty() || held.decl_lists.is_empty() {
        return Err(AllocError);
    }
    let token = held.tokens.take_top();
    let members = held.decl_lists.take_top().into_seq();
    put_item(
        alloc,
        held,
        Item::Struct(Spelling::new(token.text), members, token.pos),
    )
}

/// What is declared with a structure as its base.
#[inline(never)]
pub fn struct_based<'a>(alloc: Global, held: &mut Held<'a>) -> Result<(), AllocError>
    ensures { OnOk result (held.new ≡ a.structure_by form.Third held.old) }
{
    structure_type(alloc, held)?;
    items_of_base(alloc, held)
}

/// What stands behind `struct` and a name.
#[inline(never)]
pub fn structure<'a>(alloc: Global, held: &mut Held<'a>) -> Result<(), AllocError>
    ensures { OnOk result (held.new ≡ a.structure held.old) }
{
    if held.forms.is_empty() {
        return Err(AllocError);
    }
    match held.forms.take_top() {
        Form::First => tag_item(alloc, held),
        Form::Second => struct_item(alloc, held),
        Form::Third => struct_based(alloc, held),
    }
}

/// Two lists of items as one.
#[inline(never)]
pub fn add_items<'a>(held: &mut Held<'a>) -> Result<(), AllocError>
    ensures { OnOk result (held.new ≡ a.add_items held.old) }
{
    if held.items.is_short() {
        return Err(AllocError);
    }
    let (first, rest) = held.items.take_two();
    let mut all = rest;
    all.put_all(first)?;
    held.items.push(all)
}
