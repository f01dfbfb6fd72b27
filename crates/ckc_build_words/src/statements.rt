//! The places in statements.
ghost use Rattle.std.specs.Prelude.{map};
ghost use Rattle.ckc_source.specs.Code.{code_of, expr_of, assign_of};
ghost use Rattle.ckc_build_words.specs.Places.{ExprsPlaces, AssignsPlaces, CodePlaces};

use crate::exprs::{expr_places, place_fits, right_places, target_places};
use ckc_source::{Assign, ExprTree, StmtTree};

fn exprs_places(es: &[ExprTree])
    ensures { ExprsPlaces (map expr_of es.now) }
{
    let mut i = es.len();
    while i > 0 {
        i -= 1;
        expr_places(&es[i]);
    }
}

fn assigns_places(all: &[Assign])
    ensures { AssignsPlaces (map assign_of all.now) }
{
    let mut i = all.len();
    while i > 0 {
        i -= 1;
        target_places(&all[i].target);
        right_places(&all[i].right);
    }
}

/// The places in statements fit, one after another.
pub fn code_places(stmts: &[StmtTree])
    ensures { CodePlaces (code_of stmts.now) }
{
    let mut i = stmts.len();
    while i > 0 {
        i -= 1;
        match &stmts[i] {
            StmtTree::Assign(_, a) => {
                let a = a.get();
                target_places(&a.target);
                right_places(&a.right);
            }
            StmtTree::Bundle(_, all) => assigns_places(all.as_slice()),
            StmtTree::Get(_, t) => target_places(t.get()),
            StmtTree::Put(_, t, e) => {
                target_places(t.get());
                expr_places(e.get());
            }
            StmtTree::Call(spot, _, _, es) => {
                place_fits(spot.at);
                exprs_places(es.as_slice());
            }
            StmtTree::If(_, e, one, two) => {
                expr_places(e.get());
                code_places(one.as_slice());
                code_places(two.as_slice());
            }
            StmtTree::Loop(_, e, body, step) => {
                expr_places(e.get());
                code_places(body.as_slice());
                code_places(step.as_slice());
            }
            StmtTree::Break | StmtTree::Continue => {}
            StmtTree::Return(_, e) => expr_places(e.get()),
            StmtTree::Check(spot, e) => {
                place_fits(spot.at);
                expr_places(e.get());
            }
        }
    }
}
