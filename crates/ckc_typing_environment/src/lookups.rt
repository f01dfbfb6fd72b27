//! What type a name has.

ghost use Rattle.std.specs.Prelude.{◌≡◌, IfOk};
ghost use Rattle.std.specs.Option.{option_map};
ghost use Rattle.ckc_typed.specs.Environment.{object_named, object_type, type_of_name};

use crate::scope::FileScope;
use ckc_base::Boxed;
use ckc_syntax::Name;
use ckc_typed::lookups::variable_named;
use ckc_typed::types::copied;
use ckc_typed::{Object, Variable};
use ckc_types::CType;
use std::alloc::{AllocError, Global};

/// The type of an object that is used: an array is a pointer to its first element.
fn object_type(alloc: Global, o: &Object) -> Result<CType, AllocError>
    ensures { IfOk result (λ t. t ≡ object_type o.now) }
{
    let element = copied(alloc, &o.element)?;
    match o.array {
        None => Ok(element),
        Some(kind) => {
            let boxed = Boxed::new(alloc, element)?;
            Ok(CType::Pointer(kind, boxed))
        }
    }
}

fn object_type_named(
    alloc: Global,
    globals: &FileScope,
    n: Name,
) -> Result<Option<CType>, AllocError>
    ensures { IfOk result (λ t. t ≡ option_map object_type (object_named globals.now n)) }
{
    match globals.object_named(n) {
        None => Ok(None),
        Some(o) => {
            let used = object_type(alloc, o)?;
            Ok(Some(used))
        }
    }
}

/// The type of a name that is used in an expression, if it is declared.
pub fn type_of_name(
    alloc: Global,
    globals: &FileScope,
    variables: &[Variable],
    n: Name,
) -> Result<Option<CType>, AllocError>
    ensures { IfOk result (λ t. t ≡ type_of_name globals.now variables.now n) }
{
    match variable_named(variables, n) {
        None => object_type_named(alloc, globals, n),
        Some(v) => {
            let used = copied(alloc, &v.ctype)?;
            Ok(Some(used))
        }
    }
}
