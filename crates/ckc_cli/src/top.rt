ghost use Rattle.std.specs.Prelude.{ℕ, List, ◌≡◌};
ghost use Rattle.ckc_outside.specs.Outside.{Rose};
ghost use Rattle.ckc_cli_commands.specs.Words.{Exec, Interp, Judge, Sample, bytes_of};
ghost use Rattle.ckc_cli_commands.specs.Commands.{Reads};
ghost use Rattle.ckc_cli_commands.specs.World.{world, untouched};
ghost use Rattle.ckc_cli_commands.specs.Causes.{Caused, FailsOnce, Reported, MayFail, puts_after};
ghost use Rattle.ckc_cli_commands.specs.Report.{report_of};
ghost use Rattle.ckc_cli.specs.Agreeing.{Headline};
ghost use Rattle.ckc_cli.specs.Meaning.{Meaning};
ghost use Rattle.ckc_cli.specs.Blame.{Blame};
ghost use Rattle.ckc_cli.specs.Checking.{Checking};
ghost use Rattle.ckc_cli.specs.Sampling.{Sampling};

use ckc_build::unchecked_code_is_to_blame;
use ckc_cli_calls::put_line;
use ckc_cli_commands::{Status, report};
use ckc_cli_dispatch::asked;
use ckc_outside::{Sink, Source, Store};
use std::alloc::Global;

/// Does what the words ask for, and puts the line of the status on `err`, in one call.
pub fn ccc<S: Source, O: Sink, E: Sink, F: Store>(
    alloc: Global,
    words: &[String],
    input: &mut S,
    out: &mut O,
    err: &mut E,
    store: &mut F,
) -> Status
    // The status has its cause: no command has the words, or the first failure of what the command fetches, or what
    // the command makes of the bytes, with what was put, taken and kept. The laws of this crate say what follows.
    ensures cause { Caused (bytes_of words.now)
        (world (S.seen input.old) (O.seen out.old) (E.seen err.old) (F.seen store.old))
        (world (S.seen input.new) (O.seen out.new) (E.seen err.new) (F.seen store.new))
        (untouched input.old input.new out.old out.new store.old store.new) result }

    // The headline: the machine that `exec` runs shows the meaning of the source file.
    ensures headline { (name : List ℕ) (limit : ℕ)
        → Reads (bytes_of words.now) (Exec name limit) → Headline name limit
        (world (S.seen input.old) (O.seen out.old) (E.seen err.old) (F.seen store.old))
        (world (S.seen input.new) (O.seen out.new) (E.seen err.new) (F.seen store.new)) result }

    // `interp` shows the meaning itself.
    ensures meaning { (name : List ℕ) (limit : ℕ)
        → Reads (bytes_of words.now) (Interp name limit) → Meaning name limit
        (world (S.seen input.old) (O.seen out.old) (E.seen err.old) (F.seen store.old))
        (world (S.seen input.new) (O.seen out.new) (E.seen err.new) (F.seen store.new))
        (untouched input.old input.new out.old out.new store.old store.new) result }

    // If it comes to a step that has no meaning, unchecked code is to blame.
    ensures blame { (name : List ℕ) (limit : ℕ)
        → Reads (bytes_of words.now) (Interp name limit) → Blame name
        (world (S.seen input.old) (O.seen out.old) (E.seen err.old) (F.seen store.old)) result }

    // `check` says whether the text is wholly checked.
    ensures check { (name : List ℕ)
        → Reads (bytes_of words.now) (Judge name) → Checking name
        (world (S.seen input.old) (O.seen out.old) (E.seen err.old) (F.seen store.old))
        (world (S.seen input.new) (O.seen out.new) (E.seen err.new) (F.seen store.new)) result }

    // `sample` runs the machine of the text of its seed and size, and tells of it in three lines, one call each.
    ensures sample { (seed size : ℕ)
        → Reads (bytes_of words.now) (Sample seed size) → Sampling seed size
        (world (S.seen input.old) (O.seen out.old) (E.seen err.old) (F.seen store.old))
        (world (S.seen input.new) (O.seen out.new) (E.seen err.new) (F.seen store.new))
        (untouched input.old input.new out.old out.new store.old store.new) result }

    // The report of the status is put on err in one call; a fault of err changes no status.
    ensures report { Reported (report_of result) (E.seen err.old).written (E.seen err.new).written
        (Rose (E.seen err.old).faults (E.seen err.new).faults) }
    ensures once { (E.seen err.new).puts ≡ puts_after (report_of result) (E.seen err.old).puts }

    // What fails first ends the call: the input, the output and the store fail at most once, exactly if the status says
    // so, and err at most once.
    ensures fails { FailsOnce
        (world (S.seen input.old) (O.seen out.old) (E.seen err.old) (F.seen store.old))
        (world (S.seen input.new) (O.seen out.new) (E.seen err.new) (F.seen store.new)) result }
    ensures err_fails { MayFail (report_of result)
        (E.seen err.old).faults (E.seen err.new).faults }
{
    unchecked_code_is_to_blame();
    let status = asked(alloc, words, input, out, store);
    tell(&status, err);
    status
}

/// Puts the line of a status, if it has one.
fn tell<E: Sink>(status: &Status, err: &mut E)
    ensures report { Reported (report_of status.now)
        (E.seen err.old).written (E.seen err.new).written
        (Rose (E.seen err.old).faults (E.seen err.new).faults) }
    ensures once { (E.seen err.new).puts ≡ puts_after (report_of status.now) (E.seen err.old).puts }
    ensures faults { MayFail (report_of status.now)
        (E.seen err.old).faults (E.seen err.new).faults }
{
    let line = report(status);
    put_line(line.as_bytes(), err);
}
