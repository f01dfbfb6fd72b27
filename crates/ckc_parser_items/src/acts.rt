ghost use Rattle.std.specs.Prelude.{◌≡◌, OnOk};
ghost use Rattle.ckc_parser_values.specs.code.Programs.{acted, action_of};

use crate::declarations::{
    add_decl, add_decls, add_slot, checked_array, declare_all, declare_one, make_slot, many_init,
    new_decls, new_slots, no_init, no_size, nt_array, one_init, put_length, raw_array, some_size,
};
use crate::items::{add_items, directive, items_of_base, moded, new_items, structure, voided};
use crate::statements::{
    add_locals, add_next_stmt, add_stmt, block, break_stmt, bundle, change_stmt, check,
    continue_stmt, empty, for_stmt, if_stmt, local_stmt, moded_block, named_stmt, new_stmts,
    no_stmt_part, return_stmt, round_stmt, some_stmt, step_stmt, while_stmt,
};
use ckc_parser_terms::act_term;
use ckc_parser_values::Held;
use ckc_syntax::Length;
use std::alloc::{AllocError, Global};

/// An action on declarations.
#[inline(always)]
pub fn act_declaration<'a>(alloc: Global, held: &mut Held<'a>, number: u8) -> Result<(), AllocError>
    ensures { OnOk result (held.new ≡ acted (action_of number) held.old) }
{
    match number {
        60 => no_init(held),
        61 => one_init(held),
        62 => many_init(held),
        63 => put_length(held, Length::Plain),
        64 => raw_array(held),
        65 => checked_array(held),
        66 => nt_array(held),
        67 => some_size(held),
        68 => no_size(held),
        69 => make_slot(held),
        70 => new_slots(alloc, held),
        71 => add_slot(held),
        72 => declare_one(alloc, held),
        73 => declare_all(alloc, held),
        74 => new_decls(alloc, held),
        75 => add_decl(held),
        76 => add_decls(held),
        _ => Err(AllocError),
    }
}

/// An action on statements.
#[inline(always)]
pub fn act_statement<'a>(alloc: Global, held: &mut Held<'a>, number: u8) -> Result<(), AllocError>
    ensures { OnOk result (held.new ≡ acted (action_of number) held.old) }
{
    match number {
        77 => change_stmt(alloc, held),
        78 => step_stmt(alloc, held),
        79 => round_stmt(alloc, held),
        80 => moded_block(alloc, held),
        81 => block(alloc, held),
        82 => empty(alloc, held),
        83 => if_stmt(alloc, held),
        84 => while_stmt(alloc, held),
        85 => for_stmt(alloc, held),
        86 => return_stmt(alloc, held),
        87 => break_stmt(alloc, held),
        88 => continue_stmt(alloc, held),
        89 => check(alloc, held),
        90 => bundle(alloc, held),
        91 => new_stmts(alloc, held),
        92 => add_stmt(held),
        93 => add_next_stmt(held),
        94 => add_locals(alloc, held),
        95 => some_stmt(held),
        96 => no_stmt_part(held),
        97 => local_stmt(alloc, held),
        98 => named_stmt(alloc, held),
        _ => Err(AllocError),
    }
}

/// An action on items.
#[inline(always)]
pub fn act_text<'a>(alloc: Global, held: &mut Held<'a>, number: u8) -> Result<(), AllocError>
    ensures { OnOk result (held.new ≡ acted (action_of number) held.old) }
{
    match number {
        99 => new_items(alloc, held),
        100 => directive(held),
        101 => moded(alloc, held),
        102 => voided(alloc, held),
        103 => items_of_base(alloc, held),
        104 => structure(alloc, held),
        105 => add_items(held),
        _ => Err(AllocError),
    }
}

/// The action of a number.
#[inline(always)]
pub fn act<'a>(alloc: Global, held: &mut Held<'a>, number: u8) -> Result<(), AllocError>
    ensures { OnOk result (held.new ≡ acted (action_of number) held.old) }
{
    if number < 60 {
        act_term(alloc, held, number)
    } else if number < 77 {
        act_declaration(alloc, held, number)
    } else if number < 99 {
        act_statement(alloc, held, number)
    } else {
        act_text(alloc, held, number)
    }
}
