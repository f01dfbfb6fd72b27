//! From the words of the command line to what the command does, and to its status.
#![tactic(auto)]

ghost use Rattle.std.specs.Prelude.{◌≡◌, []};
ghost use Rattle.ckc_cli_commands.specs.Words as w;
ghost use Rattle.ckc_cli_commands.specs.Words.{bytes_of};
ghost use Rattle.ckc_cli_commands.specs.Commands.{Reads, fetches_of};
ghost use Rattle.ckc_cli_commands.specs.Commanded.{command_is};
ghost use Rattle.ckc_outside.specs.Outside.{SeenSink};
ghost use Rattle.ckc_cli_commands.specs.World.{world, streams, untouched};
ghost use Rattle.ckc_cli_commands.specs.Causes.{Caused, Obeyed, input_faults, output_faults, store_faults};

use ckc_cli_commands::{
    Command, Status, assemble_text, build_text, check_text, command_of, exec_text, interp_text,
    list_image, run_image, sample,
};
use ckc_outside::{Sink, Source, Store};
use std::alloc::Global;

/// Does what the words ask for.
pub fn asked<S: Source, O: Sink, F: Store>(
    alloc: Global,
    words: &[String],
    input: &mut S,
    out: &mut O,
    store: &mut F,
) -> Status
    ensures cause { (error error' : SeenSink) → Caused (bytes_of words.now)
        (world (S.seen input.old) (O.seen out.old) error (F.seen store.old))
        (world (S.seen input.new) (O.seen out.new) error' (F.seen store.new))
        (untouched input.old input.new out.old out.new store.old store.new) result }
    ensures reads { (S.seen input.new).faults
        ≡ input_faults result (S.seen input.old).faults }
    ensures writes { (O.seen out.new).faults
        ≡ output_faults result (O.seen out.old).faults }
    ensures stores { (F.seen store.new).faults
        ≡ store_faults result (F.seen store.old).faults }
    // The store is not called if the words read no command that fetches a file.
    ensures uncalled { ((command : w.Command) → Reads (bytes_of words.now) command
        → fetches_of command ≡ []) → store.new ≡ store.old }
{
    match command_of(words) {
        None => Status::Usage,
        Some(command) => obey(alloc, command, input, out, store),
    }
}

/// Does what a command asks for.
fn obey<'a, S: Source, O: Sink, F: Store>(
    alloc: Global,
    command: Command<'a>,
    input: &mut S,
    out: &mut O,
    store: &mut F,
) -> Status
    ensures cause { (error error' : SeenSink) → Obeyed (command_is command.entry)
        (world (S.seen input.old) (O.seen out.old) error (F.seen store.old))
        (world (S.seen input.new) (O.seen out.new) error' (F.seen store.new))
        (streams input.old input.new out.old out.new) result }
    ensures reads { (S.seen input.new).faults
        ≡ input_faults result (S.seen input.old).faults }
    ensures writes { (O.seen out.new).faults
        ≡ output_faults result (O.seen out.old).faults }
    ensures stores { (F.seen store.new).faults
        ≡ store_faults result (F.seen store.old).faults }
    ensures uncalled { fetches_of (command_is command.entry) ≡ [] → store.new ≡ store.old }
{
    match command {
        Command::Build(text, image) => build_text(alloc, text, image, store),
        Command::Assemble(text, image) => assemble_text(alloc, text, image, store),
        Command::Exec(text, limit) => exec_text(alloc, text, limit, input, out, store),
        Command::Interp(text, limit) => interp_text(alloc, text, limit, input, out, store),
        Command::Run(image, limit) => run_image(alloc, image, limit, input, out, store),
        Command::List(image) => list_image(alloc, image, out, store),
        Command::Check(text) => check_text(alloc, text, out, store),
        Command::Sample(seed, size) => sample(alloc, seed, size, out),
    }
}
