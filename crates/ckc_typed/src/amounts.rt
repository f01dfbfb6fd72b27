//! Amounts of elements or bytes in bounds.

ghost use Rattle.std.specs.Prelude.{◌≡◌, IfOk, neg_ℤ};
ghost use Rattle.ckc_syntax.specs.declared.tree.Node.{out-Node};
ghost use Rattle.ckc_typed.specs.Constants.{value_of};
ghost use Rattle.ckc_typed.specs.Amounts.{variable_in, number_of, number_in, negative, fixed, moved, or_amount, sum_amount, amount_in_form, amount, is_multiple, scaled, amount_of_bytes, amount_of_limits};

use crate::constants::{constant, value_of};
use crate::{Amount, Constant};
use ckc_syntax::{Expr, Limits, Name, Node, TreeOp};
use ckc_types::Structs;
use std::alloc::{AllocError, Global};

/// The name that an expression is.
pub fn variable_in<A>(e: &Expr<Name, A>) -> Option<Name>
    ensures { result ≡ variable_in e.now }
{
    match &e.node {
        Node::Name(n) => Some(*n),
        _ => None,
    }
}

fn number_of(c: Option<Constant>) -> Option<i64>
    ensures { result ≡ number_of c }
{
    match c {
        Some(c) => Some(value_of(c)),
        None => None,
    }
}

/// The number that an expression stands for, if it is a constant.
fn number_in<A>(
    alloc: Global,
    structs: &Structs,
    e: &Expr<Name, A>,
) -> Result<Option<i64>, AllocError>
    ensures { IfOk result (λ n. n ≡ number_in structs.now e.now) }
{
    let c = constant(alloc, structs, e)?;
    Ok(number_of(c))
}

/// The number that is the negative of a constant's.
pub fn negative_value(c: Constant) -> i64
    ensures { result ≡ neg_ℤ (value_of c) }
{
    if c.unsigned {
        -i64::from(c.word)
    } else {
        -i64::from(c.word.cast_signed())
    }
}

fn negative(c: Option<Constant>) -> Option<i64>
    ensures { result ≡ negative (number_of c) }
{
    match c {
        Some(c) => Some(negative_value(c)),
        None => None,
    }
}

/// A number alone.
pub fn fixed(number: i64) -> Amount
    ensures { result ≡ fixed number }
{
    Amount {
        variable: None,
        number,
    }
}

fn moved(variable: Option<Name>, by: Option<i64>) -> Option<Amount>
    ensures { result ≡ moved variable by }
{
    match (variable, by) {
        (Some(n), Some(number)) => Some(Amount {
            variable: Some(n),
            number,
        }),
        (Some(_), None) => None,
        (None, _) => None,
    }
}

fn or_amount(amount: Option<Amount>, other: Option<Amount>) -> Option<Amount>
    ensures { result ≡ or_amount amount other }
{
    match amount {
        None => other,
        Some(a) => Some(a),
    }
}

/// The negative of the number that an expression stands for, if it is a constant.
pub fn negative_in<A>(
    alloc: Global,
    structs: &Structs,
    e: &Expr<Name, A>,
) -> Result<Option<i64>, AllocError>
    ensures { IfOk result (λ n. n ≡ negative (number_in structs.now e.now)) }
{
    let c = constant(alloc, structs, e)?;
    Ok(negative(c))
}

/// A sum or difference of a variable and a number.
pub fn sum_amount<A>(
    alloc: Global,
    structs: &Structs,
    op: TreeOp,
    e: &Expr<Name, A>,
    f: &Expr<Name, A>,
) -> Result<Option<Amount>, AllocError>
    ensures { IfOk result (λ a. a ≡ sum_amount structs.now op e.now f.now) }
{
    match op {
        TreeOp::Add => {
            let c = number_in(alloc, structs, f)?;
            let d = number_in(alloc, structs, e)?;
            Ok(or_amount(moved(variable_in(e), c), moved(variable_in(f), d)))
        }
        TreeOp::Sub => {
            let c = negative_in(alloc, structs, f)?;
            Ok(moved(variable_in(e), c))
        }
        _ => Ok(None),
    }
}

/// The amount that an expression is, which is no constant.
fn amount_in<A>(
    alloc: Global,
    structs: &Structs,
    e: &Expr<Name, A>,
) -> Result<Option<Amount>, AllocError>
    ensures { IfOk result (λ a. a ≡ amount_in_form structs.now (out-Node Name A e.now.node)) }
{
    match &e.node {
        Node::Name(n) => Ok(moved(Some(*n), Some(0))),
        Node::Bin(op, f, g) => sum_amount(alloc, structs, *op, f.get(), g.get()),
        _ => Ok(None),
    }
}

/// The amount that an expression is, if it is one.
pub fn amount<A>(
    alloc: Global,
    structs: &Structs,
    e: &Expr<Name, A>,
) -> Result<Option<Amount>, AllocError>
    ensures { IfOk result (λ a. a ≡ amount structs.now e.now) }
{
    let c = number_in(alloc, structs, e)?;
    match c {
        Some(c) => Ok(Some(fixed(c))),
        None => amount_in(alloc, structs, e),
    }
}

/// Whether a number is a multiple of a size.
pub fn is_multiple(c: i64, size: u32) -> bool
    ensures { result ≡ is_multiple c size }
{
    size > 0 && c % i64::from(size) == 0
}

fn scaled(size: u32, c: Option<i64>) -> Option<Amount>
    ensures { result ≡ scaled size c }
{
    match c {
        Some(c) => {
            if is_multiple(c, size) {
                Some(fixed(c / i64::from(size)))
            } else {
                None
            }
        }
        None => None,
    }
}

fn amount_of_bytes<A>(
    alloc: Global,
    structs: &Structs,
    size: u32,
    e: &Expr<Name, A>,
) -> Result<Option<Amount>, AllocError>
    ensures { IfOk result (λ a. a ≡ amount_of_bytes structs.now size e.now) }
{
    if size == 1 {
        return amount(alloc, structs, e);
    }
    let c = number_in(alloc, structs, e)?;
    Ok(scaled(size, c))
}

/// How many elements of a size bounds count, if they count some.
pub fn amount_of_limits<A>(
    alloc: Global,
    structs: &Structs,
    size: u32,
    limits: &Limits<Name, A>,
) -> Result<Option<Amount>, AllocError>
    ensures { IfOk result (λ a. a ≡ amount_of_limits structs.now size limits.now) }
{
    match limits {
        Limits::Count(e, _) => amount(alloc, structs, e.get()),
        Limits::ByteCount(e, _) => amount_of_bytes(alloc, structs, size, e.get()),
        Limits::Between(_, _, _) | Limits::Unknown(_) => Ok(None),
    }
}
