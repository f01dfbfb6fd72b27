//! Images: what `ccc build` keeps and `ccc run` reads.
//!
//! An image that is written is an ELF32 executable of two segments: the code, and the initial bytes of the data region.
//! One of version 1 is still read. `specs/Image.antt` has each format as one equation.
#![tactic(auto)]

mod format;
mod headers;
mod laws;
mod parts;
mod view;

pub use format::Format;
pub use laws::{one_first_bad, read_then_write, write_then_read};
pub use parts::{Parts, write};
pub use view::{BadImage, View};
