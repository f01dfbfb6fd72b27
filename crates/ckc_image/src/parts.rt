ghost use Rattle.std.specs.Prelude.{IfOk};
ghost use Rattle.ckc_image.specs.declared.format.Format.TheVariants.{Elf};
ghost use Rattle.ckc_image.specs.Image.{ImageOf, IsProper};

use crate::headers::{ELF_HEADER, elf_header};
use ckc_base::Bytes;
use std::alloc::{AllocError, Global};

/// What an image holds: the address at which a program starts, its code from address 0x00001000, and the first
/// bytes of the data region from 0x02000000. The code's length is a multiple of 4 from 4 to 16,773,120, there are
/// at most 16,777,216 initial bytes, and the entry is a multiple of 4 within the code.
#[derive(Drop)]
pub struct Parts {
    pub entry: u32,
    pub code: Bytes,
    pub initial: Bytes,
    ghost proper: { IsProper entry code initial },
}

/// The bytes of the ELF image with these parts.
pub fn write(alloc: Global, p: &Parts) -> Result<Vec<u8>, AllocError>
    ensures { IfOk result
        (λ image. ImageOf Elf image.items p.now.entry p.now.code p.now.initial) }
{
    let code = p.code.as_slice();
    let initial = p.initial.as_slice();
    let mut image = Vec::with_capacity(alloc, ELF_HEADER + code.len() + initial.len())?;
    image.extend_from_slice(&elf_header(p.entry, code.len() as u32, initial.len() as u32))?;
    image.extend_from_slice(code)?;
    image.extend_from_slice(initial)?;
    Ok(image)
}
