//! Expressions and limits.

ghost use Rattle.std.specs.Prelude.{◌≡◌, ◌∷◌, List, map, flat_map};
ghost use Rattle.ckc_base.specs.declared.places.Pos.{Pos};
ghost use Rattle.ckc_syntax.specs.declared.tree.Item.{Item};
ghost use Rattle.ckc_syntax.specs.declared.tree.Name.{Name};
ghost use Rattle.ckc_syntax.specs.Inside.{listed, inside_each};
ghost use Rattle.ckc_typed.specs.declared.typed.Note.{Note};
ghost use Rattle.ckc_typed.specs.Walk.{spot, written_at, value, called_by, within, spots_of_limits, spots_of_expr, spots_of_bounds, spots_of_value, spots_of_init};
ghost use Rattle.ckc_scopes.specs.code.Verdict.{verdict, first};

use crate::raw::{has_raw, is_raw_function};
use ckc_base::{Boxed, Mode, Pos, Refusal};
use ckc_syntax::{Expr, Init, Item, Limits, Name, Node};
use ckc_typed::Note;

/// E501: an unchecked pointer or array type in a checked scope.
pub const UNCHECKED_POINTER: u16 = 501;

/// E502: `_Assume_bounds_cast` in a checked scope.
pub const ASSUMED_CAST: u16 = 502;

/// Judges the first of the unchecked pointers and arrays that a declaration writes.
pub fn place_fits(place: Option<Pos>, mode: Mode) -> Result<(), Refusal>
    ensures { (items : List (Item Name Note)) (places : List Pos) → place ≡ first places →
        result ≡ verdict items (written_at mode places) }
{
    match (mode, place) {
        (Mode::Checked, Some(pos)) => Err(Refusal {
            code: UNCHECKED_POINTER,
            pos,
        }),
        _ => Ok(()),
    }
}

fn call_fits(name: Name, pos: Pos, items: &[Item<Name, Note>]) -> Result<(), Refusal>
    ensures { result ≡ verdict items.now (map (spot Mode.Checked pos) (called_by name)) }
{
    match name {
        Name::Function(k) => {
            if is_raw_function(items, k) {
                return Err(Refusal {
                    code: UNCHECKED_POINTER,
                    pos,
                });
            }
            Ok(())
        }
        _ => Ok(()),
    }
}

fn deed_fits(node: &Node<Name, Note>, pos: Pos, items: &[Item<Name, Note>]) -> Result<(), Refusal>
    ensures { result ≡ verdict items.now (map (spot Mode.Checked pos) (within node.now).own) }
{
    match node {
        Node::Call(name, _) => call_fits(*name, pos, items),
        Node::Trusted(_, _, _) => Err(Refusal {
            code: ASSUMED_CAST,
            pos,
        }),
        Node::Number(_, _) | Node::Text(_) | Node::Null | Node::Name(_) | Node::Size(_) => Ok(()),
        Node::Un(_, _) | Node::Bin(_, _, _) | Node::Pick(_, _, _) | Node::Index(_, _) => Ok(()),
        Node::Dot(_, _, _) | Node::Arrow(_, _, _) | Node::Cast(_, _) => Ok(()),
        Node::Tested(_, _, _) | Node::Calloc(_, _, _) => Ok(()),
    }
}

/// Judges an expression itself, and not its parts: its type, then the function that it calls, or the cast that it is.
fn own_fits(
    node: &Node<Name, Note>,
    note: &Note,
    pos: Pos,
    items: &[Item<Name, Note>],
) -> Result<(), Refusal>
    ensures { result ≡ verdict items.now
        (map (spot note.now.mode pos) (value note.now.ctype ∷ (within node.now).own)) }
{
    if note.mode == Mode::Unchecked {
        return Ok(());
    }
    if has_raw(&note.ctype) {
        return Err(Refusal {
            code: UNCHECKED_POINTER,
            pos,
        });
    }
    deed_fits(node, pos, items)
}

#[cycle(expr_fits)]
fn limits_fit(limits: &Limits<Name, Note>, items: &[Item<Name, Note>]) -> Result<(), Refusal>
    ensures { result ≡ verdict items.now (spots_of_limits limits.now) }
{
    match limits {
        Limits::Count(e, _) | Limits::ByteCount(e, _) => expr_fits(e.get(), items),
        Limits::Between(e, f, _) => {
            expr_fits(e.get(), items)?;
            expr_fits(f.get(), items)
        }
        Limits::Unknown(_) => Ok(()),
    }
}

#[cycle(expr_fits)]
fn parts_fit(node: &Node<Name, Note>, items: &[Item<Name, Note>]) -> Result<(), Refusal>
    ensures { result ≡ verdict items.now (within node.now).parts }
{
    match node {
        Node::Number(_, _) | Node::Text(_) | Node::Null | Node::Name(_) | Node::Size(_) => Ok(()),
        Node::Un(_, e) | Node::Dot(e, _, _) | Node::Arrow(e, _, _) => expr_fits(e.get(), items),
        Node::Cast(_, e) | Node::Calloc(_, e, _) => expr_fits(e.get(), items),
        Node::Bin(_, e, f) => {
            expr_fits(e.get(), items)?;
            expr_fits(f.get(), items)
        }
        Node::Index(e, f) => {
            expr_fits(e.get(), items)?;
            expr_fits(f.get(), items)
        }
        Node::Pick(e, f, g) => {
            expr_fits(e.get(), items)?;
            expr_fits(f.get(), items)?;
            expr_fits(g.get(), items)
        }
        Node::Trusted(_, e, limits) => {
            expr_fits(e.get(), items)?;
            bounds_fit(limits, items)
        }
        Node::Tested(_, e, limits) => {
            expr_fits(e.get(), items)?;
            bounds_fit(limits, items)
        }
        Node::Call(_, es) => exprs_fit(es.as_slice(), items),
    }
}

/// Judges an expression, its parts before itself.
#[cycle(expr_fits)]
pub fn expr_fits(e: &Expr<Name, Note>, items: &[Item<Name, Note>]) -> Result<(), Refusal>
    ensures { result ≡ verdict items.now (spots_of_expr e.now) }
{
    parts_fit(&e.node, items)?;
    own_fits(&e.node, &e.note, e.pos, items)
}

#[cycle(expr_fits)]
fn exprs_fit(es: &[Expr<Name, Note>], items: &[Item<Name, Note>]) -> Result<(), Refusal>
    ensures { result ≡ verdict items.now (inside_each listed spots_of_expr es.now) }
{
    for e in es {
        expr_fits(e, items)?;
    }
    Ok(())
}

/// Judges limits, if there are some.
#[cycle(expr_fits)]
pub fn bounds_fit(
    bounds: &Option<Boxed<Limits<Name, Note>>>,
    items: &[Item<Name, Note>],
) -> Result<(), Refusal>
    ensures { result ≡ verdict items.now (spots_of_bounds bounds.now) }
{
    match bounds {
        None => Ok(()),
        Some(limits) => limits_fit(limits.get(), items),
    }
}

/// Judges an expression, if there is one.
pub fn value_fits(
    value: &Option<Boxed<Expr<Name, Note>>>,
    items: &[Item<Name, Note>],
) -> Result<(), Refusal>
    ensures { result ≡ verdict items.now (spots_of_value value.now) }
{
    match value {
        None => Ok(()),
        Some(e) => expr_fits(e.get(), items),
    }
}

/// Judges what a declared object begins as.
pub fn init_fits(init: &Init<Name, Note>, items: &[Item<Name, Note>]) -> Result<(), Refusal>
    ensures { result ≡ verdict items.now (spots_of_init init.now) }
{
    match init {
        Init::Nothing => Ok(()),
        Init::One(e) => expr_fits(e.get(), items),
        Init::Many(es) => exprs_fit(es.as_slice(), items),
    }
}
