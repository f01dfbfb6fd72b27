//! The headers of an ELF image, as words.
ghost use Rattle.std.specs.Prelude.{◌≡◌, ◌≤◌};
ghost use Rattle.ckc_base.specs.MemoryMap.{longest_code};
ghost use Rattle.ckc_image.specs.Elf as spec;

use byteorder::{ByteOrder, LittleEndian};
use ckc_base::memory_map::{CODE_START, DATA_START, LONGEST_DATA};

/// How many bytes the headers have.
pub const ELF_HEADER: usize = 116;

/// The headers of an image with this entry, so many bytes of code and so many initial bytes.
pub fn elf_header(entry: u32, code: u32, initial: u32) -> [u8; 116]
    requires { code ≤ longest_code }
    ensures { result ≡ spec.elf_header entry code initial }
{
    let words = [
        // 7F `ELF`; 32 bits, the lowest byte first, version 1, no system
        0x464C_457F,
        0x0001_0101,
        0,
        0,
        // an executable for RISC-V, version 1; where it starts and where its program headers stand; no sections, no flags
        0x00F3_0002,
        1,
        entry,
        52,
        0,
        0,
        // the length of this header and of a program header; two of these, no sections
        0x0020_0034,
        2,
        0,
        // the code, to be read and executed
        1,
        116,
        CODE_START,
        CODE_START,
        code,
        code,
        5,
        4,
        // the initial bytes in the data region, to be read and written
        1,
        116 + code,
        DATA_START,
        DATA_START,
        initial,
        LONGEST_DATA as u32,
        6,
        4,
    ];
    let mut header = [0; 116];
    LittleEndian::write_u32_into(&words, &mut header);
    header
}
