use std::alloc::{AllocError, AllocFailed};

/// Why a text gives no program: it is malformed, or memory ran out.
#[derive(Clone, Copy)]
pub enum TextFault {
    Malformed(&'static str),
    Memory,
}

impl From<AllocError> for TextFault {
    fn from(_: AllocError) -> TextFault {
        TextFault::Memory
    }
}

impl<T: Drop> From<AllocFailed<T>> for TextFault {
    fn from(_: AllocFailed<T>) -> TextFault {
        TextFault::Memory
    }
}
