ghost use Rattle.std.specs.Prelude.{◌≡◌};
ghost use Rattle.ckc_cli_commands.specs.Report.{exit_of};

use ckc_base::{Check, Pos, Refusal, check_number};
use ckc_machine::FaultKind;

/// How a call of `ccc` ended.
///
/// - `Done`: all was done.
/// - `Ended(value)`, `Stopped(check, place)`: the program ended, or stopped at a run-time check.
/// - `Going`: the limit of instructions, or of steps, was reached.
/// - `MachineFault(kind, pc)`: a fault of the machine at the instruction at pc.
/// - `Stuck(place, since)`: the meaning of the text is stuck at the place; where unchecked code first ran.
/// - `Usage`: the words are no command.
/// - `Refused(refusal)`: the text is not accepted.
/// - `BadImage(part)`: the bytes are no image; the part that disagrees.
/// - `ReadFault`, `WriteFault`, `StoreFault`: the input, the output or the store failed.
/// - `Memory`: there was not enough memory.
#[derive(Clone, Copy, Debug)]
pub enum Status {
    Done,
    Ended(u32),
    Stopped(Check, Pos),
    Going,
    MachineFault(FaultKind, u32),
    Stuck(Pos, Pos),
    Usage,
    Refused(Refusal),
    BadImage(u8),
    ReadFault,
    WriteFault,
    StoreFault,
    Memory,
}

impl Status {
    /// The exit status of the process.
    pub fn exit(&self) -> u8
        ensures { result ≡ exit_of self.now }
    {
        match self {
            Status::Done => 0,
            Status::Ended(value) => (*value % 256) as u8,
            Status::Stopped(check, _) => 100 + check_number(*check) as u8,
            Status::Going => 110,
            Status::MachineFault(_, _) => 111,
            Status::Usage => 112,
            Status::Refused(_) => 113,
            Status::BadImage(_) => 114,
            Status::ReadFault => 115,
            Status::WriteFault => 116,
            Status::StoreFault => 117,
            Status::Memory => 118,
            Status::Stuck(_, _) => 119,
        }
    }
}
