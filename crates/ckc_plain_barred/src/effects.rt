//! The first effect of an expression that may not stand where it stands.

ghost use Rattle.std.specs.Prelude.{◌≡◌};
ghost use Rattle.ckc_plain_barred.specs.Effects.{found_in, in_limits, in_expr, in_whole, in_right, in_exprs, in_bounds, in_maybe};
ghost use Rattle.ckc_plain_barred.specs.code.First.{first, either};
ghost use Rattle.ckc_plain_barred.specs.code.Refused.{sets_refused, steps_refused, expr_refused, right_by};

use crate::forms::{Form, Work, form_of, is_call, is_calloc, stays, work_of};
use crate::integers::{Integers, integer_local, result_of};
use ckc_base::{Boxed, Pos};
use ckc_syntax::{Expr, Limits, Name, Node};

/// Whether an operator with two operands of these forms is an effect that is refused.
fn binary_refused(known: &Integers, work: Work, target: Form, right: Form, barred: bool) -> bool
    ensures { result ≡ sets_refused known.now work target right barred }
{
    match work {
        Work::Sets => barred || integer_local(known, target).is_none() || is_calloc(right),
        _ => false,
    }
}

/// Whether an operator with an operand of this form is an effect that is refused.
fn unary_refused(known: &Integers, work: Work, operand: Form, barred: bool) -> bool
    ensures { result ≡ steps_refused known.now work operand barred }
{
    match work {
        Work::Steps(_) => barred || integer_local(known, operand).is_none(),
        _ => false,
    }
}

/// Whether an expression is an effect that is refused.
fn is_refused(known: &Integers, e: &Expr<Name, ()>, barred: bool) -> bool
    ensures { result ≡ expr_refused known.now e.now barred }
{
    match &e.node {
        Node::Un(op, x) => unary_refused(known, work_of(*op), form_of(x.get()), barred),
        Node::Bin(op, x, f) => {
            binary_refused(
                known,
                work_of(*op),
                form_of(x.get()),
                form_of(f.get()),
                barred,
            )
        }
        Node::Call(n, _) => barred || result_of(known, *n).is_none(),
        _ => false,
    }
}

/// The place of an expression, if it is an effect that is refused.
#[tactic(auto, using(crate::proofs::FoundNodes::own_found))]
fn own_place(known: &Integers, e: &Expr<Name, ()>, barred: bool) -> Option<Pos>
    ensures { result ≡ first ((found_in known.now e.now).itself barred) }
{
    if is_refused(known, e, barred) {
        return Some(e.pos);
    }
    None
}

/// The first of two places, of which the one goes before the other.
pub fn first_of(a: Option<Pos>, b: Option<Pos>) -> Option<Pos>
    ensures { result ≡ either a b }
{
    match a {
        Some(pos) => Some(pos),
        None => b,
    }
}

/// The first effect that is refused in the parts of an expression.
#[cycle(effects)]
fn first_inside(known: &Integers, e: &Expr<Name, ()>, barred: bool) -> Option<Pos>
    ensures { result ≡ first ((found_in known.now e.now).inside barred) }
{
    match &e.node {
        Node::Number(_, _) => None,
        Node::Text(_) => None,
        Node::Null => None,
        Node::Name(_) => None,
        Node::Un(_, x) => first_in(known, x.get(), barred),
        Node::Bin(op, x, f) => match work_of(*op) {
            Work::Sets => first_of(
                first_in(known, x.get(), true),
                first_in_right(known, form_of(x.get()), f.get(), barred),
            ),
            _ => first_of(
                first_in(known, x.get(), barred),
                first_in(known, f.get(), barred),
            ),
        },
        Node::Pick(x, f, g) => first_of(
            first_in(known, x.get(), barred),
            first_of(
                first_in(known, f.get(), true),
                first_in(known, g.get(), true),
            ),
        ),
        Node::Index(x, f) => {
            first_of(
                first_in(known, x.get(), barred),
                first_in(known, f.get(), barred),
            )
        }
        Node::Dot(x, _, _) => first_in(known, x.get(), barred),
        Node::Arrow(x, _, _) => first_in(known, x.get(), barred),
        Node::Cast(_, x) => first_in(known, x.get(), barred),
        Node::Size(_) => None,
        Node::Trusted(_, x, limits) => {
            first_of(
                first_in(known, x.get(), barred),
                first_in_bounds(known, limits),
            )
        }
        Node::Tested(_, x, limits) => {
            first_of(
                first_in(known, x.get(), barred),
                first_in_bounds(known, limits),
            )
        }
        Node::Call(_, es) => first_in_exprs(known, es.as_slice(), barred),
        Node::Calloc(_, x, _) => first_in(known, x.get(), barred),
    }
}

/// The first effect of an expression that is refused.
#[tactic(auto, using(crate::proofs::Firsts::first_both))]
#[cycle(effects)]
pub fn first_in(known: &Integers, e: &Expr<Name, ()>, barred: bool) -> Option<Pos>
    ensures { result ≡ first (in_expr known.now e.now barred) }
{
    first_of(first_inside(known, e, barred), own_place(known, e, barred))
}

/// The same of the right side of an assignment to a target.
#[cycle(effects)]
pub fn first_in_right(
    known: &Integers,
    target: Form,
    e: &Expr<Name, ()>,
    barred: bool,
) -> Option<Pos>
    ensures { result ≡ first (right_by known.now target e.now barred) }
{
    if stays(target, form_of(e)) {
        return first_inside(known, e, barred);
    }
    first_in(known, e, barred)
}

/// The same of expressions from left to right.
#[cycle(effects)]
pub fn first_in_exprs(known: &Integers, es: &[Expr<Name, ()>], barred: bool) -> Option<Pos>
    ensures { result ≡ first (in_exprs known.now es.now barred) }
{
    for e in es {
        if let Some(pos) = first_in(known, e, barred) {
            return Some(pos);
        }
    }
    None
}

/// The same in bounds that may be left out.
#[cycle(effects)]
pub fn first_in_bounds(known: &Integers, bounds: &Option<Boxed<Limits<Name, ()>>>) -> Option<Pos>
    ensures { result ≡ first (in_bounds known.now bounds.now) }
{
    match bounds {
        None => None,
        Some(limits) => first_in_limits(known, limits.get()),
    }
}

#[cycle(effects)]
fn first_in_limits(known: &Integers, limits: &Limits<Name, ()>) -> Option<Pos>
    ensures { result ≡ first (in_limits known.now limits.now) }
{
    match limits {
        Limits::Count(e, _) => first_in(known, e.get(), true),
        Limits::ByteCount(e, _) => first_in(known, e.get(), true),
        Limits::Between(e, f, _) => {
            first_of(
                first_in(known, e.get(), true),
                first_in(known, f.get(), true),
            )
        }
        Limits::Unknown(_) => None,
    }
}

/// The same of an expression that is no effect if it is a call.
#[tactic(auto, using(crate::proofs::FoundNodes::whole_found))]
pub fn first_in_whole(known: &Integers, e: &Expr<Name, ()>, barred: bool) -> Option<Pos>
    ensures { result ≡ first (in_whole known.now e.now barred) }
{
    if is_call(form_of(e)) {
        return first_inside(known, e, barred);
    }
    first_in(known, e, barred)
}

/// The same of an expression that may be left out.
pub fn first_in_maybe(
    known: &Integers,
    e: &Option<Boxed<Expr<Name, ()>>>,
    barred: bool,
) -> Option<Pos>
    ensures { result ≡ first (in_maybe known.now e.now barred) }
{
    match e {
        None => None,
        Some(e) => first_in(known, e.get(), barred),
    }
}
