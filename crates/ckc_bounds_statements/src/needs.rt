//! Whether an expression of a function may need a fresh variable.

ghost use Rattle.std.specs.Prelude.{◌≡◌, map};
ghost use Rattle.std.specs.Option.{option_map};
ghost use Rattle.ckc_bounds_statements.specs.code.Parts.{needs_some, needs_value, needs_init, some_need, there_needs};
ghost use Rattle.ckc_bounds_statements.specs.Paths.{needs_expr, path, path_of_act};

use ckc_base::Boxed;
use ckc_bounds_points::Frame;
use ckc_bounds_views::most_fresh;
use ckc_syntax::{Act, Expr, Init, Name, Stmt};
use ckc_typed::Note;

#[tactic(auto, unfolding(crate::specs::Paths::needs_expr))]
fn needs_expr(frame: &Frame, e: &Expr<Name, Note>) -> bool
    ensures { result ≡ needs_expr frame.now e.now }
{
    most_fresh(frame, e) != 0
}

fn needs_some(frame: &Frame, es: &[Expr<Name, Note>]) -> bool
    ensures { result ≡ needs_some frame.now es.now }
{
    for e in es {
        if needs_expr(frame, e) {
            return true;
        }
    }
    false
}

fn needs_value(frame: &Frame, e: &Option<Boxed<Expr<Name, Note>>>) -> bool
    ensures { result ≡ needs_value frame.now e.now }
{
    match e {
        None => false,
        Some(e) => needs_expr(frame, e.get()),
    }
}

fn needs_init(frame: &Frame, init: &Init<Name, Note>) -> bool
    ensures { result ≡ needs_init frame.now init.now }
{
    match init {
        Init::Nothing => false,
        Init::One(e) => needs_expr(frame, e.get()),
        Init::Many(es) => needs_some(frame, es.as_slice()),
    }
}

#[cycle(needs)]
fn act_needs(frame: &Frame, act: &Act<Name, Note>) -> bool
    ensures { result ≡ (path_of_act act.now).may_need frame.now }
{
    match act {
        Act::Block(_, ss) | Act::Bundle(ss) => some_need(frame, ss.as_slice()),
        Act::Local(d) => needs_init(frame, &d.get().init),
        Act::Assign(e, f) => needs_expr(frame, e.get()) || needs_expr(frame, f.get()),
        Act::Call(e) | Act::Check(e) => needs_expr(frame, e.get()),
        Act::If(e, s, t) => {
            needs_expr(frame, e.get()) || may_need(frame, s.get()) || there_needs(frame, t)
        }
        Act::While(e, s) => needs_expr(frame, e.get()) || may_need(frame, s.get()),
        Act::For(s, e, t, body) => {
            there_needs(frame, s)
                || needs_value(frame, e)
                || may_need(frame, body.get())
                || there_needs(frame, t)
        }
        Act::Return(e) => needs_value(frame, e),
        Act::Empty | Act::Break | Act::Continue => false,
    }
}

/// Whether an expression in a statement may need a fresh variable.
#[cycle(needs)]
pub fn may_need(frame: &Frame, s: &Stmt<Name, Note>) -> bool
    ensures { result ≡ (path s.now).may_need frame.now }
{
    act_needs(frame, &s.body)
}

#[cycle(needs)]
fn some_need(frame: &Frame, ss: &[Stmt<Name, Note>]) -> bool
    ensures { result ≡ some_need frame.now (map path ss.now) }
{
    for s in ss {
        if may_need(frame, s) {
            return true;
        }
    }
    false
}

#[cycle(needs)]
fn there_needs(frame: &Frame, part: &Option<Boxed<Stmt<Name, Note>>>) -> bool
    ensures { result ≡ there_needs frame.now (option_map path part.now) }
{
    match part {
        None => false,
        Some(s) => may_need(frame, s.get()),
    }
}
