/// The format of an image: version 1, which begins with `CCIM`, or an ELF32 executable.
#[derive(Clone, Copy)]
pub enum Format {
    First,
    Elf,
}
