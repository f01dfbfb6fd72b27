//! What may stand before an `=` or after a `&`, and what a function may return.

ghost use Rattle.std.specs.Prelude.{◌≡◌};
ghost use Rattle.ckc_syntax.specs.declared.tree.Node.{out-Node};
ghost use Rattle.ckc_typed.specs.Environment.{object_named};
ghost use Rattle.ckc_typed.specs.Expressions.{is_no_array, is_target_op, is_placed, is_object, has_address, is_no_allocation};
ghost use Rattle.ckc_typed.specs.Statements.{is_variable_form, is_named, is_function_name, is_text_call, is_target, is_result};

use crate::scope::FileScope;
use ckc_base::Boxed;
use ckc_syntax::{Expr, Name, Node, TreeOp};
use ckc_typed::conversions::converts;
use ckc_typed::lookups::variable_named;
use ckc_typed::types::{is_integer, is_object_type, is_scalar, is_void, same_type};
use ckc_typed::{Note, Variable};
use ckc_types::CType;

/// Whether a name is that of an object of file scope that is no array.
fn is_no_array(globals: &FileScope, n: Name) -> bool
    ensures { result ≡ is_no_array (object_named globals.now n) }
{
    match globals.object_named(n) {
        Some(o) => o.array.is_none(),
        None => false,
    }
}

/// Whether an operator is the unary `*`.
fn is_target_op(op: TreeOp) -> bool
    ensures { result ≡ is_target_op op }
{
    match op {
        TreeOp::Deref => true,
        _ => false,
    }
}

/// Whether an expression is a name of an object of file scope that is no array.
fn is_object(globals: &FileScope, e: &Expr<Name, Note>) -> bool
    ensures { result ≡ is_object globals.now e.now }
{
    match &e.node {
        Node::Name(n) => is_no_array(globals, *n),
        _ => false,
    }
}

fn is_placed(e: &Expr<Name, Note>) -> bool
    ensures { result ≡ is_placed e.now }
{
    match &e.node {
        Node::Un(op, _) => is_target_op(*op),
        Node::Index(_, _) | Node::Dot(_, _, _) | Node::Arrow(_, _, _) => true,
        _ => false,
    }
}

/// Whether an expression has an address.
pub fn has_address(globals: &FileScope, e: &Expr<Name, Note>) -> bool
    ensures { result ≡ has_address globals.now e.now }
{
    is_object(globals, e) || is_placed(e)
}

fn is_variable(variables: &[Variable], e: &Expr<Name, Note>) -> bool
    ensures { result ≡ is_variable_form variables.now (out-Node Name Note e.now.node) }
{
    match &e.node {
        Node::Name(n) => variable_named(variables, *n).is_some(),
        _ => false,
    }
}

fn is_named(globals: &FileScope, variables: &[Variable], e: &Expr<Name, Note>) -> bool
    ensures { result ≡ is_named globals.now variables.now e.now }
{
    is_variable(variables, e) || is_object(globals, e)
}

fn is_function_name(n: Name) -> bool
    ensures { result ≡ is_function_name n }
{
    match n {
        Name::Function(_) => true,
        _ => false,
    }
}

fn is_text_call(e: &Expr<Name, Note>) -> bool
    ensures { result ≡ is_text_call e.now }
{
    match &e.node {
        Node::Call(n, _) => is_function_name(*n),
        _ => false,
    }
}

/// Whether the second expression may be assigned to the first, types aside.
pub fn is_target(
    globals: &FileScope,
    variables: &[Variable],
    e: &Expr<Name, Note>,
    f: &Expr<Name, Note>,
) -> bool
    ensures { result ≡ is_target globals.now variables.now e.now f.now }
{
    if !is_scalar(&e.note.ctype) {
        return false;
    }
    is_named(globals, variables, e) || (is_placed(e) && !is_text_call(f))
}

/// Whether a function of a type may return this.
pub fn is_result(result_type: &CType, e: &Option<Boxed<Expr<Name, Note>>>) -> bool
    ensures { result ≡ is_result result_type.now e.now }
{
    match e {
        None => is_void(result_type),
        Some(e) => converts(result_type, e.get()),
    }
}

/// Whether `calloc` may not have these written types and this count.
pub fn is_no_allocation(t: &CType, e: &Expr<Name, Note>, u: &CType) -> bool
    ensures { result ≡ is_no_allocation t.now e.now u.now }
{
    !is_object_type(t) || !same_type(t, u) || !is_integer(&e.note.ctype)
}
