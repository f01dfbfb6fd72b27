//! Whether a text is wholly checked, said in one line.
ghost use Rattle.std.specs.Prelude.{◌≡◌, ℕ};
ghost use Rattle.ckc_outside.specs.Outside.{one_more};
ghost use Rattle.ckc_cli_commands.specs.Checking.{checked_line};
ghost use Rattle.ckc_cli_commands.specs.Running.{Listed};
ghost use Rattle.ckc_cli_commands.specs.Causes.{input_faults, output_faults, store_faults};

use crate::status::Status;
use ckc_blame::wholly_checked;
use ckc_outside::Sink;
use ckc_typed::Typed;

/// Says whether a text is wholly checked, in one call.
pub fn say_checked<O: Sink>(p: &Typed, out: &mut O) -> Status
    ensures listed { Listed (checked_line p.now)
        (O.seen out.old).written (O.seen out.new).written
        (O.seen out.old).faults (O.seen out.new).faults result }
    ensures once { (O.seen out.new).puts ≡ one_more (O.seen out.old).puts }
    ensures reads { (n : ℕ) → n ≡ input_faults result n }
    ensures writes { (O.seen out.new).faults
        ≡ output_faults result (O.seen out.old).faults }
    ensures stores { (n : ℕ) → n ≡ store_faults result n }
{
    match out.put(line_of(p)) {
        Ok(()) => Status::Done,
        Err(_) => Status::WriteFault,
    }
}

/// The line that says whether a text is wholly checked.
fn line_of(p: &Typed) -> &'static [u8]
    ensures { result.now ≡ checked_line p.now }
{
    if wholly_checked(p) {
        b"wholly checked\n"
    } else {
        b"has unchecked code\n"
    }
}
