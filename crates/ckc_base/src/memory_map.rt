//! The memory of the machine that programs are compiled for (docs/image.md): where its parts lie, and how many bytes the
//! code and the first bytes of the data region may have.

/// Where the code begins.
pub const CODE_START: u32 = 0x0000_1000;

/// How many bytes of code there may be.
pub const LONGEST_CODE: usize = 16_773_120;

/// Where the data region begins. Its first word is the heap's.
pub const DATA_START: u32 = 0x0200_0000;

/// Where the first object of a program begins.
pub const FIRST_PLACE: u32 = 0x0200_0008;

/// The last end that an object of file scope may have.
pub const STATICS_END: u32 = 0x0240_0000;

/// Where the data region ends.
pub const DATA_END: u32 = 0x0300_0000;

/// How many first bytes the data region may have.
pub const LONGEST_DATA: usize = 16_777_216;

/// Where the stack begins.
pub const STACK_START: u32 = 0x0300_0000;

/// Where the stack ends.
pub const MEMORY_END: u32 = 0x0400_0000;
