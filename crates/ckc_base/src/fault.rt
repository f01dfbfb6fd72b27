ghost use Rattle.std.specs.Prelude.{◌≡◌};

use crate::places::{Pos, Refusal};
use std::alloc::{AllocError, AllocFailed};
use thiserror::Error;

/// Why a phase makes nothing: the first error of what it is given, or out of memory.
#[derive(Clone, Copy, Debug, Error)]
pub enum Fault {
    #[error("the text is refused")]
    Refused(Refusal),
    #[error("out of memory")]
    Memory,
}

impl From<Refusal> for Fault {
    ghost use Rattle.ckc_base.specs.declared.fault.Fault.TheVariants.{Refused};

    ghost from_gives = { λ r e. e ≡ Refused r };

    fn from(refusal: Refusal) -> Fault {
        Fault::Refused(refusal)
    }
}

impl From<AllocError> for Fault {
    ghost use Rattle.ckc_base.specs.declared.fault.Fault.TheVariants.{Memory};

    ghost from_gives = { λ _ e. e ≡ Memory };

    fn from(_: AllocError) -> Fault {
        Fault::Memory
    }
}

impl<T: Drop> From<AllocFailed<T>> for Fault {
    ghost use Rattle.ckc_base.specs.declared.fault.Fault.TheVariants.{Memory};

    ghost from_gives = { λ _ e. e ≡ Memory };

    fn from(_: AllocFailed<T>) -> Fault {
        Fault::Memory
    }
}

/// A refusal with its code and place.
pub fn refused(code: u16, pos: Pos) -> Fault
    ensures { result ≡ Fault.Refused (record { code = code; pos = pos }) }
{
    Fault::Refused(Refusal { code, pos })
}
