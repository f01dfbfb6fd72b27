//! Trees in boxes and lists. Each function stands for a generic one at one type, so that no caller proves anew that the
//! generic one fits this type.

ghost use Rattle.std.specs.Prelude.{◌≡◌, Some, [], ◌∷◌, ◌++◌, IfOk, OnOk};
ghost use Rattle.ckc_plain_bodies.specs.Taken.{stmt_at};

use ckc_base::{Boxed, Pos, Seq};
use ckc_syntax::{Act, Decl, Expr, Name, Stmt};
use std::alloc::{AllocError, Global};

/// An expression in a box of its own.
pub fn in_box(alloc: Global, e: Expr<Name, ()>) -> Result<Boxed<Expr<Name, ()>>, AllocError>
    ensures { IfOk result (λ b. b ≡ e) }
{
    Boxed::new(alloc, e)
}

/// A statement in a box of its own. Its drop is written out, so that an exit over which one is alive has one call in
/// place of the parts.
pub struct Inner {
    pub stmt: Boxed<Stmt<Name, ()>>,
}

impl Drop for Inner {
    fn drop(self) {
        let Inner { stmt: _stmt } = self;
    }
}

impl Inner {
    /// The box.
    pub fn into_box(self) -> Boxed<Stmt<Name, ()>>
        ensures { result ≡ self.stmt }
    {
        let Inner { stmt } = self;
        stmt
    }
}

/// An `if` with both branches.
pub fn if_else(
    condition: Boxed<Expr<Name, ()>>,
    then: Inner,
    otherwise: Inner,
    pos: Pos,
) -> Stmt<Name, ()>
    ensures { result ≡ stmt_at (Act.If condition then.stmt (Some otherwise.stmt)) pos }
{
    Stmt {
        body: Act::If(condition, then.into_box(), Some(otherwise.into_box())),
        pos,
        note: (),
    }
}

/// A statement in a box of its own.
pub fn stmt_in_box(alloc: Global, s: Stmt<Name, ()>) -> Result<Boxed<Stmt<Name, ()>>, AllocError>
    ensures { IfOk result (λ b. b ≡ s) }
{
    Boxed::new(alloc, s)
}

/// A local as a statement.
pub fn local_in_box(alloc: Global, d: Decl<Name, ()>) -> Result<Act<Name, ()>, AllocError>
    ensures { IfOk result (λ a. a ≡ Act.Local d) }
{
    let boxed = Boxed::new(alloc, d)?;
    Ok(Act::Local(boxed))
}

/// Adds a statement at the end.
pub fn add_at_end(all: &mut Seq<Stmt<Name, ()>>, s: Stmt<Name, ()>) -> Result<(), AllocError>
    ensures { OnOk result (all.new ≡ all.old ++ s ∷ []) }
{
    all.push(s)
}

/// Adds the elements of a list at the end of another.
fn add_each<T: Drop>(all: &mut Seq<T>, more: Seq<T>) -> Result<(), AllocError>
    ensures { OnOk result (all.new ≡ all.old ++ more) }
{
    for item in more.into_vec() {
        all.push(item)?;
    }
    Ok(())
}

/// Adds statements at the end.
pub fn add_all(all: &mut Seq<Stmt<Name, ()>>, more: Seq<Stmt<Name, ()>>) -> Result<(), AllocError>
    ensures { OnOk result (all.new ≡ all.old ++ more) }
{
    add_each(all, more)
}

/// No expressions.
pub fn no_exprs(alloc: Global) -> Seq<Expr<Name, ()>>
    ensures { result ≡ [] }
{
    Seq::new(alloc)
}

/// Adds an expression at the end.
pub fn add_expr(all: &mut Seq<Expr<Name, ()>>, e: Expr<Name, ()>) -> Result<(), AllocError>
    ensures { OnOk result (all.new ≡ all.old ++ e ∷ []) }
{
    all.push(e)
}
