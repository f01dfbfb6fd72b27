ghost use Rattle.std.specs.Prelude.{◌≡◌};

use ckc_base::{Boxed, Pos, Seq};
use ckc_grammar::Step;
use ckc_syntax::{Decl, Expr, Limits, Spelling, Stmt, TreeOp, TypeTree};
use std::alloc::{AllocError, AllocFailed};

/// An expression as the tokens give it.
pub type Expression<'a> = Boxed<Expr<Spelling<'a>, ()>>;

/// A statement as the tokens give it.
pub type Statement<'a> = Boxed<Stmt<Spelling<'a>, ()>>;

/// A type as the tokens give it.
pub type CType<'a> = Boxed<TypeTree<Spelling<'a>>>;

/// A bounds expression as the tokens give it.
pub type Bounds<'a> = Boxed<Limits<Spelling<'a>, ()>>;

/// A declaration as the tokens give it.
pub type Declaration<'a> = Boxed<Decl<Spelling<'a>, ()>>;

/// Why reading stops: the next token does not go on, or memory ran out.
#[derive(Clone, Copy)]
pub enum Stop {
    Syntax,
    Memory,
}

impl From<AllocError> for Stop {
    ghost use Rattle.ckc_parser_grammar.specs.declared.parts.Stop.TheVariants.{Memory};

    ghost from_gives = { λ _ e. e ≡ Memory };

    fn from(_: AllocError) -> Stop {
        Stop::Memory
    }
}

impl<T: Drop> From<AllocFailed<T>> for Stop {
    ghost use Rattle.ckc_parser_grammar.specs.declared.parts.Stop.TheVariants.{Memory};

    ghost from_gives = { λ _ e. e ≡ Memory };

    fn from(_: AllocFailed<T>) -> Stop {
        Stop::Memory
    }
}

/// A binary operator with its place.
#[derive(Clone, Copy)]
pub struct Operation {
    pub op: TreeOp,
    pub pos: Pos,
}

/// What follows the condition in `? :`, with the place of the `?`.
#[derive(Drop)]
pub struct Arms<'a> {
    pub pos: Pos,
    pub yes: Expression<'a>,
    pub no: Expression<'a>,
}

/// What goes on with an expression after its first operand.
#[derive(Drop)]
pub struct Rest<'a> {
    pub steps: Seq<Step<'a>>,
    pub arms: Option<Arms<'a>>,
}

/// What stands after a target: `=`, or an operator with `=`, with its place and the expression after it.
#[derive(Drop)]
pub struct Setting<'a> {
    pub op: Option<TreeOp>,
    pub pos: Pos,
    pub value: Expression<'a>,
}

/// What stands after a primary expression: `[e]`, `.m` or `->m`, with the place of the member's name and, last, of
/// its mark.
#[derive(Drop)]
pub enum Post<'a> {
    Index(Expression<'a>, Pos),
    Dot(Spelling<'a>, Pos, Pos),
    Arrow(Spelling<'a>, Pos, Pos),
}
