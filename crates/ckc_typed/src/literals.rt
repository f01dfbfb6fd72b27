//! The types of literals.

ghost use Rattle.std.specs.Prelude.{◌≡◌, IfOk};
ghost use Rattle.ckc_types.specs.declared.types.CType.TheVariants as ctype;
ghost use Rattle.ckc_types.specs.declared.types.Kind.TheVariants as kind;
ghost use Rattle.ckc_typed.specs.Expressions.{number_type, string_type};

use ckc_base::{Boxed, Mode};
use ckc_types::{CType, Kind};
use std::alloc::{AllocError, Global};

/// The type of a number, by whether it is unsigned.
pub fn number_type(unsigned: bool) -> CType
    ensures { result ≡ number_type unsigned }
{
    if unsigned {
        CType::Unsigned
    } else {
        CType::Int
    }
}

/// The type of a string literal in a scope.
pub fn string_type(alloc: Global, mode: Mode) -> Result<CType, AllocError>
    ensures { IfOk result (λ t. t ≡ string_type mode) }
{
    let to = Boxed::new(alloc, CType::Char)?;
    match mode {
        Mode::Checked => Ok(CType::Pointer(Kind::Nt, to)),
        Mode::Unchecked => Ok(CType::Pointer(Kind::Raw, to)),
    }
}

/// The type of `NULL`.
pub fn null_type(alloc: Global) -> Result<CType, AllocError>
    ensures { IfOk result (λ t. t ≡ ctype.Pointer kind.One ctype.Void) }
{
    let to = Boxed::new(alloc, CType::Void)?;
    Ok(CType::Pointer(Kind::One, to))
}
