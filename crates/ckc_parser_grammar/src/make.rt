ghost use Rattle.std.specs.Prelude.{◌≡◌, IfOk};
ghost use Rattle.ckc_syntax.specs.Spelled.{spelled};
ghost use Rattle.ckc_parser_grammar.specs.code.Trees as trees;
ghost use Rattle.ckc_parser_grammar.specs.code.Values as v;

use crate::parts::{Bounds, CType, Declaration, Expression, Statement};
use ckc_base::{Boxed, Mode, Pos, Seq};
use ckc_syntax::{
    Act, Decl, Directive, Expr, Head, Node, Spelling, Stmt, Token, TokenKind, TypeTree, copied_type,
};
use std::alloc::{AllocError, Global};

/// A type once more.
pub fn copied<'a>(alloc: Global, ctype: &TypeTree<Spelling<'a>>) -> Result<CType<'a>, AllocError>
    ensures { IfOk result (λ copy. copy ≡ ctype.now) }
{
    let copy = copied_type(alloc, ctype)?;
    Boxed::new(alloc, copy)
}

/// The type of a structure by its tag.
pub fn struct_type<'a>(alloc: Global, tag: Token<'a>) -> Result<CType<'a>, AllocError>
    ensures { IfOk result (λ ctype. ctype ≡ v.struct_type (spelled tag.entry)) }
{
    Boxed::new(alloc, TypeTree::Struct(Spelling::new(tag.text), tag.pos))
}

/// An expression at a place.
pub fn expression<'a>(
    alloc: Global,
    node: Node<Spelling<'a>, ()>,
    pos: Pos,
) -> Result<Expression<'a>, AllocError>
    ensures { IfOk result (λ whole. whole ≡ trees.expr_at node.entry pos) }
{
    Boxed::new(
        alloc,
        Expr {
            node,
            pos,
            note: (),
        },
    )
}

/// A call by its name.
pub fn called<'a>(
    alloc: Global,
    name: Token<'a>,
    arguments: Seq<Expr<Spelling<'a>, ()>>,
) -> Result<Expression<'a>, AllocError>
    ensures { IfOk result (λ whole. whole ≡ v.called (spelled name.entry) arguments.entry) }
{
    expression(
        alloc,
        Node::Call(Spelling::new(name.text), arguments),
        name.pos,
    )
}

/// A statement at a place.
pub fn statement<'a>(
    alloc: Global,
    body: Act<Spelling<'a>, ()>,
    pos: Pos,
) -> Result<Statement<'a>, AllocError>
    ensures { IfOk result (λ whole. whole ≡ trees.stmt_at body.entry pos) }
{
    Boxed::new(
        alloc,
        Stmt {
            body,
            pos,
            note: (),
        },
    )
}

/// The declaration of a local as a statement.
pub fn local_of<'a>(declaration: Declaration<'a>) -> Stmt<Spelling<'a>, ()>
    ensures { result ≡ trees.local_of declaration.entry }
{
    let pos = declaration.get().pos;
    Stmt {
        body: Act::Local(declaration),
        pos,
        note: (),
    }
}

/// The head of a function or prototype.
pub fn head_of<'a>(
    alloc: Global,
    mode: Option<Mode>,
    result_type: CType<'a>,
    name: Token<'a>,
    params: Seq<Decl<Spelling<'a>, ()>>,
    bounds: Option<Bounds<'a>>,
) -> Result<Boxed<Head<Spelling<'a>, ()>>, AllocError>
    ensures { IfOk result
        (λ head. head ≡ record {
          mode = mode;
          result = result_type.entry;
          name = (spelled name.entry).text;
          params =
              params.entry;
          bounds = bounds.entry;
          pos = (spelled name.entry).pos;
        }) }
{
    Boxed::new(
        alloc,
        Head {
            mode,
            result: result_type.into_inner(),
            name: Spelling::new(name.text),
            params,
            bounds,
            pos: name.pos,
        },
    )
}

/// The value of a number.
pub fn number_of(kind: TokenKind) -> u32
    ensures { result ≡ v.number_of kind }
{
    match kind {
        TokenKind::Number(number, _) => number,
        _ => 0,
    }
}

/// The directive that a token is.
pub fn directive_of(kind: TokenKind) -> Directive
    ensures { result ≡ v.directive_of kind }
{
    match kind {
        TokenKind::Directive(directive) => directive,
        _ => Directive::Stdio,
    }
}
