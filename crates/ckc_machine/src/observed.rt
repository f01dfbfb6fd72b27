use ckc_base::{Check, Pos};

/// The kinds of faults: the pc lies outside the code; the word there is no instruction; a misaligned access, or a
/// target that is no multiple of 4; an unmapped load; an unmapped store or one to code; EBREAK; an unknown
/// environment call.
#[derive(Clone, Copy, Debug)]
pub enum FaultKind {
    Fetch,
    Word,
    Align,
    Load,
    Store,
    Break,
    Call,
}

/// What a run answers.
///
/// - `Ended(value)`, `Stopped(check, place)`: the program ended, or stopped at a run-time check.
/// - `Going`: the limit of instructions was reached.
/// - `Fault(kind, pc)`: a fault of the machine at the instruction at pc.
/// - `ReadFault`, `WriteFault`: the input or the output failed.
#[derive(Clone, Copy, Debug)]
pub enum Observed {
    Ended(u32),
    Stopped(Check, Pos),
    Going,
    Fault(FaultKind, u32),
    ReadFault,
    WriteFault,
}
