//! What a text declares: its objects, its functions and the variables of a function.

ghost use Rattle.std.specs.Prelude.{◌≡◌, [], ◌∷◌, ◌++◌, IfOk, OnOk, map};
ghost use Rattle.ckc_typed.specs.Interfaces.{seen};
ghost use Rattle.ckc_typed.specs.Environment.{object_declared, variable_declared, parameter_declared, signature_declared, objects_declared_by, signatures_of_item, objects_of, params_of, getchar, putchar, signatures_of};

use ckc_base::{Mode, Seq};
use ckc_syntax::{Decl, Head, Item, Name};
use ckc_typed::interfaces::{is_interface, type_seen};
use ckc_typed::types::{kind_of_array, type_written};
use ckc_typed::{Object, Parameter, Signature, Variable};
use ckc_types::CType;
use std::alloc::{AllocError, Global};

fn object_declared(alloc: Global, d: &Decl<Name, ()>) -> Result<Object, AllocError>
    ensures { IfOk result (λ o. o ≡ object_declared d.now) }
{
    let element = type_written(alloc, &d.ctype)?;
    Ok(Object {
        name: d.name,
        element,
        array: kind_of_array(d.length),
    })
}

/// The variable that a declaration makes.
pub fn variable_declared<A>(alloc: Global, d: &Decl<Name, A>) -> Result<Variable, AllocError>
    ensures { IfOk result (λ v. v ≡ variable_declared d.now) }
{
    let ctype = type_written(alloc, &d.ctype)?;
    Ok(Variable {
        name: d.name,
        ctype,
    })
}

fn variable_seen<A>(alloc: Global, mode: Mode, d: &Decl<Name, A>) -> Result<Variable, AllocError>
    ensures { IfOk result (λ v. v ≡ variable_declared (seen mode d.now)) }
{
    let ctype = type_seen(alloc, mode, d)?;
    Ok(Variable {
        name: d.name,
        ctype,
    })
}

fn parameter_declared(alloc: Global, d: &Decl<Name, ()>) -> Result<Parameter, AllocError>
    ensures { IfOk result (λ p. p ≡ parameter_declared d.now) }
{
    let ctype = type_seen(alloc, Mode::Checked, d)?;
    Ok(Parameter {
        ctype,
        is_interface: is_interface(d),
    })
}

fn parameters_declared(alloc: Global, ds: &[Decl<Name, ()>]) -> Result<Seq<Parameter>, AllocError>
    ensures { IfOk result (λ ps. ps ≡ map parameter_declared ds.now) }
{
    let mut all = Seq::new(alloc);
    for d in ds {
        let p = parameter_declared(alloc, d)?;
        all.push(p)?;
    }
    Ok(all)
}

/// The variables that declarations of members make.
pub fn variables_declared<A>(
    alloc: Global,
    ds: &[Decl<Name, A>],
) -> Result<Seq<Variable>, AllocError>
    ensures { IfOk result (λ vs. vs ≡ map variable_declared ds.now) }
{
    let mut all = Seq::new(alloc);
    for d in ds {
        let v = variable_declared(alloc, d)?;
        all.push(v)?;
    }
    Ok(all)
}

/// The parameters of a function, as code of a mode sees them.
pub fn params_of<A>(
    alloc: Global,
    mode: Mode,
    h: &Head<Name, A>,
) -> Result<Seq<Variable>, AllocError>
    ensures { IfOk result (λ vs. vs ≡ params_of mode h.now) }
{
    let mut all = Seq::new(alloc);
    for d in h.params.as_slice() {
        let v = variable_seen(alloc, mode, d)?;
        all.push(v)?;
    }
    Ok(all)
}

fn signature_declared(alloc: Global, h: &Head<Name, ()>) -> Result<Signature, AllocError>
    ensures { IfOk result (λ s. s ≡ signature_declared h.now) }
{
    let result = type_written(alloc, &h.result)?;
    let params = parameters_declared(alloc, h.params.as_slice())?;
    Ok(Signature {
        name: h.name,
        result,
        params,
    })
}

fn add_object(alloc: Global, all: &mut Seq<Object>, item: &Item<Name, ()>) -> Result<(), AllocError>
    ensures { OnOk result (all.new ≡ all.old ++ objects_declared_by item.now) }
{
    match item {
        Item::Static(d) => {
            let o = object_declared(alloc, d.get())?;
            all.push(o)
        }
        Item::Directive(_) | Item::Tag(_, _) | Item::Struct(_, _, _) => Ok(()),
        Item::Proto(_) | Item::Function(_, _) => Ok(()),
    }
}

/// The objects of file scope.
pub fn objects_of(alloc: Global, items: &[Item<Name, ()>]) -> Result<Seq<Object>, AllocError>
    ensures { IfOk result (λ all. all ≡ objects_of items.now) }
{
    let mut all = Seq::new(alloc);
    for item in items {
        add_object(alloc, &mut all, item)?;
    }
    Ok(all)
}

fn add_signature(
    alloc: Global,
    all: &mut Seq<Signature>,
    item: &Item<Name, ()>,
) -> Result<(), AllocError>
    ensures { OnOk result (all.new ≡ all.old ++ signatures_of_item item.now) }
{
    match item {
        Item::Function(h, _) => {
            let s = signature_declared(alloc, h.get())?;
            all.push(s)
        }
        Item::Directive(_) | Item::Tag(_, _) | Item::Struct(_, _, _) => Ok(()),
        Item::Static(_) | Item::Proto(_) => Ok(()),
    }
}

fn built_in(alloc: Global) -> Result<Seq<Signature>, AllocError>
    ensures { IfOk result (λ all. all ≡ getchar ∷ putchar ∷ []) }
{
    let mut byte = Seq::new(alloc);
    byte.push(Parameter {
        ctype: CType::Int,
        is_interface: false,
    })?;
    let mut all = Seq::new(alloc);
    all.push(Signature {
        name: Name::Getchar,
        result: CType::Int,
        params: Seq::new(alloc),
    })?;
    all.push(Signature {
        name: Name::Putchar,
        result: CType::Int,
        params: byte,
    })?;
    Ok(all)
}

/// The functions, `getchar` and `putchar` before those of the text.
pub fn signatures_of(alloc: Global, items: &[Item<Name, ()>]) -> Result<Seq<Signature>, AllocError>
    ensures { IfOk result (λ all. all ≡ signatures_of items.now) }
{
    let mut all = built_in(alloc)?;
    for item in items {
        add_signature(alloc, &mut all, item)?;
    }
    Ok(all)
}
