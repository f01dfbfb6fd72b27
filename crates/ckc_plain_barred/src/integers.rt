//! The integer types of the functions and locals of a text.

ghost use Rattle.std.specs.Prelude.{◌≡◌, ◌++◌, map, IfOk, OnOk};
ghost use Rattle.ckc_plain_barred.specs.Integers.{integer_of, type_of, declared_integer, locals_of_stmt, locals_of, with_result, with_results_of, type_at, result_of, local_of, is_function_number, known_of};
ghost use Rattle.ckc_plain_barred.specs.Effects.{integer_local};
ghost use Rattle.ckc_plain_barred.specs.code.Locals.{locals_of_part, locals_of_each};

use crate::forms::Form;
use ckc_base::{Boxed, Seq};
use ckc_syntax::{Act, Decl, Head, Item, Length, Name, Stmt, Tree, TypeTree};
use std::alloc::{AllocError, Global};

/// An integer type.
#[derive(Clone, Copy, Drop)]
pub enum Integer {
    Int,
    Unsigned,
    Char,
}

/// The types of the results of the functions, and of the parameters and locals of one function, each at the place of
/// its number, as far as they are integers.
pub struct Integers {
    pub results: Seq<Option<Integer>>,
    pub locals: Seq<Option<Integer>>,
}

impl Drop for Integers {
    fn drop(self) {
        let Integers {
            results: _results,
            locals: _locals,
        } = self;
    }
}

/// The integer type that a type is.
fn integer_of(t: &TypeTree<Name>) -> Option<Integer>
    ensures { result ≡ integer_of t.now }
{
    match t {
        TypeTree::Int => Some(Integer::Int),
        TypeTree::Unsigned => Some(Integer::Unsigned),
        TypeTree::Char => Some(Integer::Char),
        _ => None,
    }
}

/// An integer type as it is written.
pub fn type_of(t: Integer) -> TypeTree<Name>
    ensures { result ≡ type_of t }
{
    match t {
        Integer::Int => TypeTree::Int,
        Integer::Unsigned => TypeTree::Unsigned,
        Integer::Char => TypeTree::Char,
    }
}

fn declared_integer(d: &Decl<Name, ()>) -> Option<Integer>
    ensures { result ≡ declared_integer d.now }
{
    match d.length {
        Length::Plain => integer_of(&d.ctype),
        _ => None,
    }
}

/// Adds the types of the locals that a statement declares.
#[cycle(locals)]
fn add_locals(s: &Stmt<Name, ()>, all: &mut Seq<Option<Integer>>) -> Result<(), AllocError>
    ensures { OnOk result (all.new ≡ all.old ++ map declared_integer (locals_of_stmt s.now)) }
{
    match &s.body {
        Act::Block(_, ss) => add_each(ss.as_slice(), all),
        Act::Local(d) => all.push(declared_integer(d.get())),
        Act::If(_, s, t) => {
            add_locals(s.get(), all)?;
            add_part(t, all)
        }
        Act::While(_, s) => add_locals(s.get(), all),
        Act::For(first, _, step, body) => {
            add_part(first, all)?;
            add_locals(body.get(), all)?;
            add_part(step, all)
        }
        Act::Bundle(ss) => add_each(ss.as_slice(), all),
        _ => Ok(()),
    }
}

#[cycle(locals)]
fn add_part(
    part: &Option<Boxed<Stmt<Name, ()>>>,
    all: &mut Seq<Option<Integer>>,
) -> Result<(), AllocError>
    ensures { OnOk result (all.new ≡ all.old ++ map declared_integer (locals_of_part part.now)) }
{
    match part {
        None => Ok(()),
        Some(s) => add_locals(s.get(), all),
    }
}

#[cycle(locals)]
fn add_each(ss: &[Stmt<Name, ()>], all: &mut Seq<Option<Integer>>) -> Result<(), AllocError>
    ensures { OnOk result (all.new ≡ all.old ++ map declared_integer (locals_of_each ss.now)) }
{
    for s in ss {
        add_locals(s, all)?;
    }
    Ok(())
}

/// The types of the parameters and locals of a function.
pub fn locals_of(
    alloc: Global,
    head: &Head<Name, ()>,
    body: &Stmt<Name, ()>,
) -> Result<Seq<Option<Integer>>, AllocError>
    ensures { IfOk result (λ ts. ts ≡ locals_of head.now body.now) }
{
    let mut locals = Seq::new(alloc);
    add_params(head.params.as_slice(), &mut locals)?;
    add_locals(body, &mut locals)?;
    Ok(locals)
}

fn add_params(params: &[Decl<Name, ()>], all: &mut Seq<Option<Integer>>) -> Result<(), AllocError>
    ensures { OnOk result (all.new ≡ all.old ++ map declared_integer params.now) }
{
    for d in params {
        all.push(declared_integer(d))?;
    }
    Ok(())
}

fn is_function_number(name: Name, n: usize) -> bool
    ensures { result ≡ is_function_number name n }
{
    match name {
        Name::Function(k) => k as usize == n,
        _ => false,
    }
}

fn add_result(head: &Head<Name, ()>, all: &mut Seq<Option<Integer>>) -> Result<(), AllocError>
    ensures { OnOk result (all.new ≡ with_result all.old head.now) }
{
    if is_function_number(head.name, all.len()) {
        return all.push(integer_of(&head.result));
    }
    Ok(())
}

fn add_results_of(item: &Item<Name, ()>, all: &mut Seq<Option<Integer>>) -> Result<(), AllocError>
    ensures { OnOk result (all.new ≡ with_results_of all.old item.now) }
{
    match item {
        Item::Proto(head) => add_result(head.get(), all),
        Item::Function(head, _) => add_result(head.get(), all),
        _ => Ok(()),
    }
}

/// The types of the results of the functions of a text.
pub fn known_of(alloc: Global, tree: &Tree<Name, ()>) -> Result<Integers, AllocError>
    ensures { IfOk result (λ k. k ≡ known_of tree.now) }
{
    let mut results = Seq::new(alloc);
    for item in tree.items.as_slice() {
        add_results_of(item, &mut results)?;
    }
    Ok(Integers {
        results,
        locals: Seq::new(alloc),
    })
}

fn type_at(types: &[Option<Integer>], k: u32) -> Option<Integer>
    ensures { result ≡ type_at types.now k }
{
    match types.get(k as usize) {
        Some(t) => *t,
        None => None,
    }
}

/// The type of the result of what is called, if it is an integer.
pub fn result_of(known: &Integers, name: Name) -> Option<Integer>
    ensures { result ≡ result_of known.now name }
{
    match name {
        Name::Getchar => Some(Integer::Int),
        Name::Putchar => Some(Integer::Int),
        Name::Function(k) => type_at(known.results.as_slice(), k),
        _ => None,
    }
}

/// The type of a local, if it is an integer.
pub fn local_of(known: &Integers, name: Name) -> Option<Integer>
    ensures { result ≡ local_of known.now name }
{
    match name {
        Name::Local(k) => type_at(known.locals.as_slice(), k),
        _ => None,
    }
}

/// The integer type of an operand that is a local of such a type.
pub fn integer_local(known: &Integers, form: Form) -> Option<Integer>
    ensures { result ≡ integer_local known.now form }
{
    match form {
        Form::Name(n) => local_of(known, n),
        _ => None,
    }
}
