//! Statements and expressions with their notes.

ghost use Rattle.std.specs.Prelude.{◌≡◌};
ghost use Rattle.ckc_typed.specs.Expressions.{noted};
ghost use Rattle.ckc_typed.specs.Statements.{stated};

use ckc_base::{Mode, Pos};
use ckc_syntax::{Act, Expr, Name, Node, Stmt};
use ckc_typed::{Note, Range};
use ckc_types::CType;

/// An expression with its type and mode noted.
pub fn noted(mode: Mode, pos: Pos, node: Node<Name, Note>, ctype: CType) -> Expr<Name, Note>
    ensures { result ≡ noted mode pos node ctype }
{
    let note = Note {
        ctype,
        mode,
        range: Range::Missing,
    };
    Expr { node, pos, note }
}

/// A statement with its mode noted.
pub fn stated(mode: Mode, pos: Pos, body: Act<Name, Note>) -> Stmt<Name, Note>
    ensures { result ≡ stated mode pos body }
{
    let note = Note {
        ctype: CType::Void,
        mode,
        range: Range::Missing,
    };
    Stmt { body, pos, note }
}
