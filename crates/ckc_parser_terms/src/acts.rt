ghost use Rattle.std.specs.Prelude.{◌≡◌, OnOk};
ghost use Rattle.ckc_parser_values.specs.code.Programs.{acted, action_of};

use crate::changes::{
    incremented, no_call, no_increment, no_setting, set_by, set_to, some_call, some_increment,
};
use crate::expressions::{
    constant, end_of_file, increment_expr, join_expr, mark, name_expr, named_value, null,
    post_expr, round, signed, size_of, skip, string, tested, trusted,
};
use crate::operators::{
    add_expr, add_post, add_step, arrow, calloc_less, choose, dot, greater, index, less, new_exprs,
    no_arms, no_posts, no_steps, no_value, operator, some_value,
};
use crate::types::{
    add_star, bounds_of, byte_count, count, no_limits, no_stars, point, point_array, point_string,
    put_type, some_limits, star, structure_type, unknown,
};
use ckc_parser_values::{Form, Held};
use ckc_syntax::TypeTree;
use std::alloc::{AllocError, Global};

/// An action on expressions.
#[inline(always)]
pub fn act_expression<'a>(alloc: Global, held: &mut Held<'a>, number: u8) -> Result<(), AllocError>
    ensures { OnOk result (held.new ≡ acted (action_of number) held.old) }
{
    match number {
        0 => skip(held),
        1 => mark(held, Form::First),
        2 => mark(held, Form::Second),
        3 => mark(held, Form::Third),
        4 => name_expr(alloc, held),
        5 => post_expr(alloc, held),
        6 => join_expr(alloc, held),
        7 => increment_expr(alloc, held),
        8 => named_value(alloc, held),
        9 => signed(alloc, held),
        10 => round(alloc, held),
        11 => size_of(alloc, held),
        12 => constant(alloc, held),
        13 => string(alloc, held),
        14 => null(alloc, held),
        15 => end_of_file(alloc, held),
        16 => tested(alloc, held),
        17 => trusted(alloc, held),
        _ => Err(AllocError),
    }
}

/// An action on what changes an operand.
#[inline(always)]
pub fn act_change<'a>(alloc: Global, held: &mut Held<'a>, number: u8) -> Result<(), AllocError>
    ensures { OnOk result (held.new ≡ acted (action_of number) held.old) }
{
    match number {
        18 => incremented(alloc, held),
        19 => some_increment(held),
        20 => no_increment(held),
        21 => some_call(held),
        22 => no_call(held),
        23 => set_to(held),
        24 => set_by(held),
        25 => no_setting(held),
        _ => Err(AllocError),
    }
}

/// An action on what stands behind expressions.
#[inline(always)]
pub fn act_operator<'a>(alloc: Global, held: &mut Held<'a>, number: u8) -> Result<(), AllocError>
    ensures { OnOk result (held.new ≡ acted (action_of number) held.old) }
{
    match number {
        26 => new_exprs(alloc, held),
        27 => add_expr(held),
        28 => no_posts(alloc, held),
        29 => add_post(held),
        30 => index(held),
        31 => dot(held),
        32 => arrow(held),
        33 => no_steps(alloc, held),
        34 => add_step(held),
        35 => no_arms(held),
        36 => choose(held),
        37 => less(held),
        38 => operator(held),
        39 => greater(held),
        40 => calloc_less(alloc, held),
        41 => some_value(held),
        42 => no_value(held),
        _ => Err(AllocError),
    }
}

/// An action on types and limits.
#[inline(always)]
pub fn act_type<'a>(alloc: Global, held: &mut Held<'a>, number: u8) -> Result<(), AllocError>
    ensures { OnOk result (held.new ≡ acted (action_of number) held.old) }
{
    match number {
        43 => put_type(alloc, held, TypeTree::Void),
        44 => put_type(alloc, held, TypeTree::Int),
        45 => put_type(alloc, held, TypeTree::Unsigned),
        46 => put_type(alloc, held, TypeTree::Char),
        47 => point(alloc, held),
        48 => point_array(alloc, held),
        49 => point_string(alloc, held),
        50 => structure_type(alloc, held),
        51 => star(alloc, held),
        52 => no_stars(alloc, held),
        53 => add_star(held),
        54 => count(alloc, held),
        55 => byte_count(alloc, held),
        56 => bounds_of(alloc, held),
        57 => unknown(alloc, held),
        58 => some_limits(held),
        59 => no_limits(held),
        _ => Err(AllocError),
    }
}

/// The action of a number.
#[inline(always)]
pub fn act_term<'a>(alloc: Global, held: &mut Held<'a>, number: u8) -> Result<(), AllocError>
    ensures { OnOk result (held.new ≡ acted (action_of number) held.old) }
{
    if number < 18 {
        act_expression(alloc, held, number)
    } else if number < 26 {
        act_change(alloc, held, number)
    } else if number < 43 {
        act_operator(alloc, held, number)
    } else {
        act_type(alloc, held, number)
    }
}
