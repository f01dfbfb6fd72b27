//! When two types are the same.

ghost use Rattle.std.specs.Prelude.{◌≡◌};
ghost use Rattle.ckc_types.specs.Same.{same_type};

use crate::types::CType;

/// Whether two types are the same.
pub fn same_type(t: &CType, u: &CType) -> bool
    ensures { result ≡ same_type t.now u.now }
{
    let mut left = t;
    let mut right = u;
    'layers: loop {
        match (left, right) {
            (CType::Int, CType::Int) => return true,
            (CType::Unsigned, CType::Unsigned) => return true,
            (CType::Char, CType::Char) => return true,
            (CType::Void, CType::Void) => return true,
            (CType::Struct(j), CType::Struct(k)) => return *j == *k,
            (CType::Pointer(j, a), CType::Pointer(k, b)) => {
                if *j != *k {
                    return false;
                }
                left = a.get();
                right = b.get();
            }
            _ => return false,
        }
    }
}
