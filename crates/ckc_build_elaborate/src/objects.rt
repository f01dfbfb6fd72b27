//! Static objects and string literals.

ghost use Rattle.std.specs.Prelude.{◌≡◌, IfOk, true, unwrap_or};
ghost use Rattle.std.specs.List.{flat_map};
ghost use Rattle.std.specs.Option.{option_copied};
ghost use Rattle.ckc_build_elaborate.specs.Objects.{object_elaborated, run_in, objects_elaborated};

use ckc_base::Seq;
use ckc_source::Object;
use ckc_syntax::{Item, Name};
use ckc_typed::constants::size_of;
use ckc_typed::types::copied;
use ckc_typed::{Note, StaticObject, Typed};
use ckc_types::Structs;
use std::alloc::{AllocError, Global};

/// Of each declared object, whether pointers with known limits may point into it.
fn runs(alloc: Global, items: &[Item<Name, Note>]) -> Result<Seq<bool>, AllocError>
    ensures { IfOk result (λ all. all ≡ flat_map run_in items.now) }
{
    let mut all = Seq::new(alloc);
    for item in items {
        if let Item::Static(d) = item {
            all.push(d.get().bounds.is_none())?;
        }
    }
    Ok(all)
}

fn or_run(is_run: Option<&bool>) -> bool
    ensures { result ≡ unwrap_or (option_copied is_run.entry) true }
{
    match is_run {
        None => true,
        Some(is_run) => *is_run,
    }
}

fn object(
    alloc: Global,
    structs: &Structs,
    is_run: Option<&bool>,
    o: &StaticObject,
) -> Result<Object, AllocError>
    ensures { IfOk result
        (λ p. p ≡ object_elaborated structs.now (option_copied is_run.entry) o.now) }
{
    let initial = Seq::from_slice(alloc, o.initial.as_slice())?;
    let element = copied(alloc, &o.element)?;
    let size = size_of(structs, &element);
    Ok(Object {
        at: o.at,
        element,
        size,
        count: o.count,
        terminated: o.terminated,
        is_run: or_run(is_run),
        initial,
    })
}

/// The objects of a program.
pub fn objects(alloc: Global, typed: &Typed) -> Result<Seq<Object>, AllocError>
    ensures { IfOk result (λ all. all ≡ objects_elaborated typed.now) }
{
    let found = runs(alloc, typed.tree.items.as_slice())?;
    let runs = found.as_slice();
    let mut all = Seq::new(alloc);
    let statics = typed.statics.as_slice();
    for (i, o) in statics.iter().enumerate() {
        let made = object(alloc, &typed.layout, runs.get(i), o)?;
        all.push(made)?;
    }
    Ok(all)
}
