ghost use Rattle.std.specs.Prelude.{◌≡◌};
ghost use Rattle.ckc_outside.specs.Outside.{Rose};
ghost use Rattle.ckc_cli_calls.specs.Lines.{Reported, MayFail, puts_after};

use ckc_outside::Sink;

/// Puts a line, if it is not empty, in one call.
pub fn put_line<E: Sink>(line: &[u8], err: &mut E)
    ensures report { Reported line.now (E.seen err.old).written (E.seen err.new).written
        (Rose (E.seen err.old).faults (E.seen err.new).faults) }
    ensures once { (E.seen err.new).puts ≡ puts_after line.now (E.seen err.old).puts }
    ensures faults { MayFail line.now (E.seen err.old).faults (E.seen err.new).faults }
{
    if !line.is_empty() {
        let _ = err.put(line);
    }
}
