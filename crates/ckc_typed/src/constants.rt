//! Constants, and the sizes of types.

ghost use Rattle.std.specs.Prelude.{◌≡◌, IfOk, IsTrue};
ghost use Rattle.std.specs.List.{list_all};
ghost use Rattle.ckc_types.specs.LaidOut.{IsLaidOut};
ghost use Rattle.ckc_types.specs.Layout.{members_of};
ghost use Rattle.ckc_typed.specs.Conversions.{is_null};
ghost use Rattle.ckc_typed.specs.Types.{is_scalar};
ghost use Rattle.ckc_typed.specs.Constants.{is_laid_out, size_of, negated, constant, constant_of_node, value_of};

use crate::types::{is_scalar, type_written};
use crate::{Constant, Note};
use ckc_base::{BinOp, apply};
use ckc_syntax::{Expr, Name, Node, TreeOp};
use ckc_types::{CType, MemberShape, Structs, size};
use std::alloc::{AllocError, Global};

/// The members of the structure with a tag, none if there is no such structure.
pub fn members_of(structs: &Structs, tag: u32) -> &[MemberShape]
    ensures { result.now ≡ members_of structs.now tag }
{
    match structs.shapes.get(tag as usize) {
        None => &[],
        Some(shape) => shape.members.as_slice(),
    }
}

fn are_scalars(members: &[MemberShape]) -> bool
    ensures { result ≡ list_all (λ m. is_scalar m.ctype) members.now }
{
    members.iter().all(|m| is_scalar(&m.ctype))
}

fn is_laid_out(structs: &Structs, t: &CType) -> bool
    ensures { result ≡ is_laid_out structs.now t.now }
{
    match t {
        CType::Struct(tag) => {
            let members = members_of(structs, *tag);
            structs.shapes.get(*tag as usize).is_some()
                && !members.is_empty()
                && members.len() <= 16384
                && are_scalars(members)
        }
        CType::Void => false,
        CType::Int | CType::Unsigned | CType::Char | CType::Pointer(_, _) => true,
    }
}

/// The size of a type in bytes, 0 if it has none.
pub fn size_of(structs: &Structs, t: &CType) -> u32
    ensures { result ≡ size_of structs.now t.now }
{
    if is_laid_out(structs, t) {
        size(structs, t)
    } else {
        0
    }
}

/// The constant that an operator makes of another.
pub fn negated(op: TreeOp, c: Option<Constant>) -> Option<Constant>
    ensures { result ≡ negated op c }
{
    match (op, c) {
        (TreeOp::Minus, Some(c)) => Some(Constant {
            word: apply(BinOp::Sub, 0, c.word),
            unsigned: c.unsigned,
        }),
        _ => None,
    }
}

#[cycle(constant)]
fn constant_of_node<A>(
    alloc: Global,
    structs: &Structs,
    node: &Node<Name, A>,
) -> Result<Option<Constant>, AllocError>
    ensures { IfOk result (λ c. c ≡ constant_of_node structs.now node.now) }
{
    match node {
        Node::Number(n, unsigned) => Ok(Some(Constant {
            word: *n,
            unsigned: *unsigned,
        })),
        Node::Size(t) => {
            let written = type_written(alloc, t)?;
            Ok(Some(Constant {
                word: size_of(structs, &written),
                unsigned: true,
            }))
        }
        Node::Un(op, e) => {
            let c = constant(alloc, structs, e.get())?;
            Ok(negated(*op, c))
        }
        Node::Text(_) | Node::Null | Node::Name(_) | Node::Bin(_, _, _) => Ok(None),
        Node::Pick(_, _, _) | Node::Index(_, _) | Node::Dot(_, _, _) | Node::Arrow(_, _, _) => Ok(
            None,
        ),
        Node::Cast(_, _) | Node::Trusted(_, _, _) | Node::Tested(_, _, _) => Ok(None),
        Node::Call(_, _) | Node::Calloc(_, _, _) => Ok(None),
    }
}

/// The constant that an expression is, if it is one.
#[cycle(constant)]
pub fn constant<A>(
    alloc: Global,
    structs: &Structs,
    e: &Expr<Name, A>,
) -> Result<Option<Constant>, AllocError>
    ensures { IfOk result (λ c. c ≡ constant structs.now e.now) }
{
    constant_of_node(alloc, structs, &e.node)
}

/// The number that a constant stands for.
pub fn value_of(c: Constant) -> i64
    ensures { result ≡ value_of c }
{
    if c.unsigned {
        i64::from(c.word)
    } else {
        i64::from(c.word.cast_signed())
    }
}

/// Whether an expression is `NULL` or the number 0.
pub fn is_null(e: &Expr<Name, Note>) -> bool
    ensures { result ≡ is_null e.now }
{
    match &e.node {
        Node::Null => true,
        Node::Number(n, _) => *n == 0,
        _ => false,
    }
}
