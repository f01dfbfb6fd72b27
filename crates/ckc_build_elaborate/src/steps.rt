//! Assignments, calls and declarations.

ghost use Rattle.std.specs.Prelude.{◌≡◌, ◌++◌, IfOk, OnOk, map};
ghost use Rattle.std.specs.Option.{option_copied};
ghost use Rattle.ckc_typed.specs.Types.{type_written};
ghost use Rattle.ckc_source.specs.Code as code;
ghost use Rattle.ckc_source.specs.Code.{expr_of, stmt_of};
ghost use Rattle.ckc_build_elaborate.specs.code.Made.{destination_made};
ghost use Rattle.ckc_build_elaborate.specs.Steps.{nowhere, spot, block_of, right_of, argument, arguments, first_of, called, assigned, started, declared, returned, condition};

use crate::destinations::{Destination, destination_for, nowhere};
use crate::names::{number_of, params_of};
use ckc_base::{Boxed, Mode, Pos, Seq};
use ckc_build_values::expressions::value;
use ckc_build_values::literals::{in_bounds, in_expr};
use ckc_build_values::operators::{converted, outside};
use ckc_build_values::texts::Text;
use ckc_source::{Assign, ExprTree, Pointee, RightTree, Spot, StmtTree, TargetTree};
use ckc_syntax::{Decl, Expr, Init, Name, Node, TypeTree};
use ckc_typed::constants::size_of;
use ckc_typed::types::type_written;
use ckc_typed::{Note, Variable};
use ckc_types::CType;
use std::alloc::{AllocError, Global};

/// A null-terminated block, or one that is not, of so many elements of a type.
fn fresh(
    alloc: Global,
    typed: &Text,
    w: &TypeTree<Name>,
    terminated: bool,
    count: Boxed<ExprTree>,
) -> Result<RightTree, AllocError>
    ensures { IfOk result (λ r. code.right_of r
        ≡ code.Fresh (block_of typed.now (type_written w.now) terminated) (expr_of count)) }
{
    let element = type_written(alloc, w)?;
    let size = size_of(typed.layout(), &element);
    let to = Boxed::new(
        alloc,
        Pointee {
            element,
            size,
            terminated,
        },
    )?;
    Ok(RightTree::Fresh(to, count))
}

/// What is assigned.
pub fn right_of(
    alloc: Global,
    typed: &Text,
    locals: &[Variable],
    terminated: bool,
    e: &Expr<Name, Note>,
    first: u32,
) -> Result<RightTree, AllocError>
    ensures { IfOk result
        (λ r. code.right_of r ≡ right_of typed.now locals.now first terminated e.now) }
{
    match &e.node {
        Node::Calloc(w, n, _) => {
            let count = value(alloc, typed, locals, n.get(), first)?;
            fresh(alloc, typed, w, terminated, count)
        }
        _ => {
            let made = value(alloc, typed, locals, e, first)?;
            Ok(RightTree::Value(made))
        }
    }
}

/// One assignment as a statement.
fn assignment(
    alloc: Global,
    s: Spot,
    target: Boxed<TargetTree>,
    right: RightTree,
) -> Result<StmtTree, AllocError>
    ensures { IfOk result (λ t. stmt_of t
        ≡ (λ rest. code.Assign s (code.target_of target) (code.right_of right) rest)) }
{
    let assign = Boxed::new(
        alloc,
        Assign {
            target: target.into_inner(),
            right,
        },
    )?;
    Ok(StmtTree::Assign(s, assign))
}

/// The assignment of a number.
fn plain(
    alloc: Global,
    s: Spot,
    target: Boxed<TargetTree>,
    number: ExprTree,
) -> Result<StmtTree, AllocError>
    ensures { IfOk result (λ t. stmt_of t
        ≡ (λ rest. code.Assign s (code.target_of target) (code.Value (expr_of number)) rest)) }
{
    let number = Boxed::new(alloc, number)?;
    assignment(alloc, s, target, RightTree::Value(number))
}

fn argument(
    alloc: Global,
    typed: &Text,
    locals: &[Variable],
    param: Option<&Decl<Name, Note>>,
    e: &Expr<Name, Note>,
    first: u32,
) -> Result<ExprTree, AllocError>
    ensures { IfOk result (λ t. expr_of t
        ≡ argument typed.now locals.now first (option_copied param.entry) e.now) }
{
    let made = value(alloc, typed, locals, e, first)?;
    match param {
        None => Ok(made.into_inner()),
        Some(d) => {
            let written = type_written(alloc, &d.ctype)?;
            Ok(converted(&written, made))
        }
    }
}

/// Adds the arguments of a call, each converted to the type of its parameter.
fn add_arguments(
    alloc: Global,
    typed: &Text,
    locals: &[Variable],
    params: &[Decl<Name, Note>],
    es: &[Expr<Name, Note>],
    first: u32,
    all: &mut Seq<ExprTree>,
) -> Result<(), AllocError>
    ensures { OnOk result (map expr_of all.new
        ≡ map expr_of all.old ++ arguments typed.now locals.now first params.now es.now) }
{
    match es.split_first() {
        None => Ok(()),
        Some((e, rest)) => {
            let next = in_expr(e, first)?;
            match params.split_first() {
                None => {
                    let made = argument(alloc, typed, locals, None, e, first)?;
                    all.push(made)?;
                    add_arguments(alloc, typed, locals, params, rest, next, all)
                }
                Some((d, more)) => {
                    let made = argument(alloc, typed, locals, Some(d), e, first)?;
                    all.push(made)?;
                    add_arguments(alloc, typed, locals, more, rest, next, all)
                }
            }
        }
    }
}

/// The first argument.
fn first_of(
    alloc: Global,
    typed: &Text,
    locals: &[Variable],
    es: &[Expr<Name, Note>],
    first: u32,
) -> Result<Boxed<ExprTree>, AllocError>
    ensures { IfOk result (λ t. expr_of t ≡ first_of typed.now locals.now first es.now) }
{
    match es.first() {
        None => Boxed::new(alloc, outside()),
        Some(e) => value(alloc, typed, locals, e, first),
    }
}

/// A call of a function of the text.
fn text_call(
    alloc: Global,
    typed: &Text,
    locals: &[Variable],
    s: Spot,
    to: Destination,
    k: u32,
    es: &[Expr<Name, Note>],
    at: Pos,
    first: u32,
) -> Result<StmtTree, AllocError>
    ensures { IfOk result (λ t. stmt_of t
        ≡ called typed.now locals.now s (destination_made to) first (Name.Function k) es.now at) }
{
    let items = typed.get().tree.items.as_slice();
    let callee = number_of(items, Name::Function(k))?;
    let params = params_of(items, Name::Function(k));
    let mut values = Seq::from_vec(Vec::with_capacity(alloc, es.len())?);
    add_arguments(alloc, typed, locals, params, es, first, &mut values)?;
    let entry = Spot { at, mode: s.mode };
    Ok(StmtTree::Call(entry, to.kept, callee, values))
}

/// A call, of which the result goes to a destination.
fn called(
    alloc: Global,
    typed: &Text,
    locals: &[Variable],
    s: Spot,
    to: Destination,
    n: Name,
    es: &[Expr<Name, Note>],
    at: Pos,
    first: u32,
) -> Result<StmtTree, AllocError>
    ensures { IfOk result (λ t. stmt_of t
        ≡ called typed.now locals.now s (destination_made to) first n es.now at) }
{
    match n {
        Name::Function(k) => text_call(alloc, typed, locals, s, to, k, es, at, first),
        Name::Getchar => Ok(StmtTree::Get(s, to.target)),
        Name::Putchar => {
            let byte = first_of(alloc, typed, locals, es, first)?;
            Ok(StmtTree::Put(s, to.target, byte))
        }
        Name::Local(_) | Name::Static(_) | Name::Tag(_) | Name::Member(_) => {
            plain(alloc, s, to.target, outside())
        }
    }
}

/// The value of an expression, or the result of a call, goes to a destination.
pub fn assigned(
    alloc: Global,
    typed: &Text,
    locals: &[Variable],
    s: Spot,
    to: Destination,
    e: &Expr<Name, Note>,
    first: u32,
) -> Result<StmtTree, AllocError>
    ensures { IfOk result
        (λ t. stmt_of t ≡ assigned typed.now locals.now s (destination_made to) first e.now) }
{
    match &e.node {
        Node::Call(n, es) => {
            called(alloc, typed, locals, s, to, *n, es.as_slice(), e.pos, first)
        }
        _ => {
            let right = right_of(alloc, typed, locals, to.terminated, e, first)?;
            assignment(alloc, s, to.target, right)
        }
    }
}

/// A call that is a statement, at the called name.
pub fn alone(
    alloc: Global,
    typed: &Text,
    locals: &[Variable],
    mode: Mode,
    e: &Expr<Name, Note>,
    first: u32,
) -> Result<StmtTree, AllocError>
    ensures { IfOk result (λ t. stmt_of t
        ≡ assigned typed.now locals.now (spot e.now.pos mode) nowhere first e.now) }
{
    let to = nowhere(alloc)?;
    assigned(alloc, typed, locals, Spot { at: e.pos, mode }, to, e, first)
}

fn started(
    alloc: Global,
    typed: &Text,
    locals: &[Variable],
    s: Spot,
    to: Destination,
    init: &Init<Name, Note>,
    first: u32,
) -> Result<StmtTree, AllocError>
    ensures { IfOk result (λ t. stmt_of t
        ≡ started typed.now locals.now s (destination_made to) first init.now) }
{
    match init {
        Init::Nothing => plain(alloc, s, to.target, ExprTree::Number(0)),
        Init::One(e) => assigned(alloc, typed, locals, s, to, e.get(), first),
        Init::Many(_) => plain(alloc, s, to.target, outside()),
    }
}

/// A declaration of a local.
pub fn declared(
    alloc: Global,
    typed: &Text,
    locals: &[Variable],
    s: Spot,
    d: &Decl<Name, Note>,
    first: u32,
) -> Result<StmtTree, AllocError>
    ensures { IfOk result (λ t. stmt_of t ≡ declared typed.now locals.now s first d.now) }
{
    let written = type_written(alloc, &d.ctype)?;
    let next = in_bounds(&d.bounds, first)?;
    let to = destination_for(alloc, typed, &written, d.name)?;
    started(alloc, typed, locals, s, to, &d.init, next)
}

/// What a function with this type of result returns.
pub fn returned(
    alloc: Global,
    typed: &Text,
    locals: &[Variable],
    gives: &CType,
    e: &Option<Boxed<Expr<Name, Note>>>,
    first: u32,
) -> Result<Boxed<ExprTree>, AllocError>
    ensures { IfOk result (λ t. expr_of t ≡ returned typed.now locals.now gives.now first e.now) }
{
    match e {
        None => Boxed::new(alloc, ExprTree::Number(0)),
        Some(e) => {
            let made = value(alloc, typed, locals, e.get(), first)?;
            Boxed::new(alloc, converted(gives, made))
        }
    }
}

/// The condition of a `for`.
pub fn condition(
    alloc: Global,
    typed: &Text,
    locals: &[Variable],
    e: &Option<Boxed<Expr<Name, Note>>>,
    first: u32,
) -> Result<Boxed<ExprTree>, AllocError>
    ensures { IfOk result (λ t. expr_of t ≡ condition typed.now locals.now first e.now) }
{
    match e {
        None => Boxed::new(alloc, ExprTree::Number(1)),
        Some(e) => value(alloc, typed, locals, e.get(), first),
    }
}
