//! The places in expressions.
ghost use Rattle.std.specs.Prelude.{◌<◌, ◌^◌};
ghost use Rattle.ckc_core.specs.WellFormed.{IsPlace};
ghost use Rattle.ckc_source.specs.Code.{expr_of, target_of, right_of};
ghost use Rattle.ckc_build_words.specs.Places.{ExprPlaces, TargetPlaces, RightPlaces};

use ckc_base::Pos;
use ckc_source::{ExprTree, RightTree, TargetTree};

/// A number of a place is a word.
fn word_fits(_n: u32)
    ensures { _n < 2 ^ 32 }
{}

/// A place has a line and a column that are words.
pub fn place_fits(at: Pos)
    ensures { IsPlace at }
{
    word_fits(at.line);
    word_fits(at.col);
}

/// The places in an expression fit.
pub fn expr_places(e: &ExprTree)
    ensures { ExprPlaces (expr_of e.now) }
{
    match e {
        ExprTree::Number(_)
        | ExprTree::Local(_)
        | ExprTree::Limited(_, _)
        | ExprTree::Array(_, _) => {}
        ExprTree::Load(_, access, p, i)
        | ExprTree::Member(_, _, access, p, i)
        | ExprTree::Address(_, access, p, i) => {
            place_fits(access.at);
            expr_places(p.get());
            expr_places(i.get());
        }
        ExprTree::Moved(shift, a, b) | ExprTree::Added(shift, a, b) => {
            place_fits(shift.at);
            expr_places(a.get());
            expr_places(b.get());
        }
        ExprTree::Binary(_, _, at, a, b) | ExprTree::Tested(_, _, at, a, b) => {
            place_fits(*at);
            expr_places(a.get());
            expr_places(b.get());
        }
        ExprTree::And(a, b) | ExprTree::Or(a, b) | ExprTree::Trusted(_, _, a, b) => {
            expr_places(a.get());
            expr_places(b.get());
        }
        ExprTree::Choice(c, a, b) => {
            expr_places(c.get());
            expr_places(a.get());
            expr_places(b.get());
        }
        ExprTree::Narrow(inner) | ExprTree::Bare(inner) => expr_places(inner.get()),
    }
}

/// The places in a target fit.
pub fn target_places(target: &TargetTree)
    ensures { TargetPlaces (target_of target.now) }
{
    match target {
        TargetTree::Nothing | TargetTree::Local(_, _) => {}
        TargetTree::Memory(_, access, p, i) => {
            place_fits(access.at);
            expr_places(p.get());
            expr_places(i.get());
        }
    }
}

/// The places in a right side fit.
pub fn right_places(right: &RightTree)
    ensures { RightPlaces (right_of right.now) }
{
    match right {
        RightTree::Value(e) => expr_places(e.get()),
        RightTree::Fresh(_, e) => expr_places(e.get()),
    }
}
