//! Whole runs.

ghost use Rattle.std.specs.Prelude.{◌≡◌, ◌%◌, ◌^◌, ◌<◌, [], ◌∷◌, map, slice_get, None, Some, IfOk, ℕ, List};
ghost use Rattle.ckc_outside.specs.Outside.{one_more};
ghost use Rattle.ckc_source.specs.Code.{function_of, program_of};
ghost use Rattle.ckc_source.specs.LaidOut.{IsLaidOut};
ghost use Rattle.ckc_source.specs.Source.{no_function, function_at, first_state};
ghost use Rattle.ckc_source.specs.Steps.{writes_allowed};
ghost use Rattle.ckc_interp_blocks.specs.Views.{shapes_of};
ghost use Rattle.ckc_interp.specs.code.Views.{core_of, state_of};
ghost use Rattle.ckc_outside.specs.Given.{OverAny, WhereTold, streams};
ghost use Rattle.ckc_interp.specs.Runs.{Interprets, read_faults, write_faults};
ghost use Rattle.ckc_interp.specs.code.Turns.{seen_of, Wrote, PutsAs, GetsAs, Fed, Steps, reads_after, writes_after, with_asks};

use crate::arms::Marks;
use crate::frame::enter;
use crate::run::{Run, Turn};
use crate::seen::Seen;
use ckc_base::{Mode, Pos, Seq};
use ckc_interp_blocks::Blocks;
use ckc_outside::{Sink, Source};
use ckc_source::{FunctionTree, Halt, Place, Program, Spot};
use std::alloc::{AllocError, Global};

/// What a halt comes to, by the marks of its step.
fn seen_of(why: Halt, marks: Marks) -> Seen
    ensures is { result ≡ seen_of why marks.at marks.blame }
    ensures reads { (n : ℕ) → read_faults result n ≡ n }
    ensures writes { (n : ℕ) → write_faults result n ≡ n }
{
    match why {
        Halt::Stopped(check, at) => Seen::Stopped(check, at),
        Halt::Stuck => Seen::Stuck(marks.at, marks.blame),
    }
}

impl<'a> Run<'a> {
    /// A value that comes with an event is written, or the run halts.
    fn wrote(&mut self, to: Place, n: u32, marks: Marks) -> Option<Seen>
        ensures done { Wrote (writes_allowed to n (core_of self.old))
            (core_of self.new) marks.at marks.blame result }
        ensures shapes { shapes_of self.new.blocks ≡ shapes_of self.old.blocks }
        ensures reads { (n : ℕ) → reads_after result n ≡ n }
        ensures writes { (n : ℕ) → writes_after result n ≡ n }
    {
        match self.write_allowed(to, n) {
            Ok(()) => None,
            Err(why) => Some(seen_of(why, marks)),
        }
    }

    /// Puts the lowest byte of a word and writes it.
    fn put<O: Sink>(&mut self, to: Place, n: u32, marks: Marks, out: &mut O) -> Option<Seen>
        ensures puts { (asks : ℕ)
            → PutsAs (core_of self.old) to n (core_of self.new) marks.at marks.blame
            (with_asks asks (O.seen out.old)) (with_asks asks (O.seen out.new)) result }
        ensures shapes { shapes_of self.new.blocks ≡ shapes_of self.old.blocks }
        ensures reads { (n : ℕ) → reads_after result n ≡ n }
        ensures writes { (O.seen out.new).faults ≡ writes_after result (O.seen out.old).faults }
    {
        let byte = (n % 256) as u8;
        match out.put(&[byte]) {
            Ok(()) => self.wrote(to, n % 256, marks),
            Err(_) => Some(Seen::WriteFault),
        }
    }

    /// Gets a byte, or -1 at the end, and writes it.
    fn get<S: Source>(&mut self, to: Place, marks: Marks, input: &mut S) -> Option<Seen>
        ensures gets { Fed (S.seen input.old) (S.seen input.new)
            (λ left left'. GetsAs (core_of self.old) to
            (core_of self.new) marks.at marks.blame left left' result) }
        ensures asked { (S.seen input.new).asks ≡ one_more (S.seen input.old).asks }
        ensures shapes { shapes_of self.new.blocks ≡ shapes_of self.old.blocks }
        ensures reads { (S.seen input.new).faults ≡ reads_after result (S.seen input.old).faults }
        ensures writes { (n : ℕ) → writes_after result n ≡ n }
    {
        match input.next() {
            Ok(Some(byte)) => self.wrote(to, word_of(byte), marks),
            Ok(None) => self.wrote(to, u32::MAX, marks),
            Err(_) => Some(Seen::ReadFault),
        }
    }

    /// One step, or what the run comes to.
    fn step<S: Source, O: Sink>(
        &mut self,
        alloc: Global,
        program: &'a Program,
        marks: &mut Marks,
        input: &mut S,
        out: &mut O,
    ) -> Option<Seen>
        requires { shapes_of self.old.blocks ≡ program.now.shapes }
        ensures steps { Fed (S.seen input.old) (S.seen input.new)
            (λ left left'. Steps (program_of program.entry.now) (state_of self.old left)
            (state_of self.new left') marks.old.blame marks.new.blame
            (streams (S.seen input.old) (O.seen out.old))
            (streams (S.seen input.new) (O.seen out.new)) result) }
        ensures shapes { shapes_of self.new.blocks ≡ shapes_of self.old.blocks }
        ensures reads { (S.seen input.new).faults ≡ reads_after result (S.seen input.old).faults }
        ensures writes { (O.seen out.new).faults ≡ writes_after result (O.seen out.old).faults }
    {
        match self.turn(alloc, program, marks) {
            Err(_) => Some(Seen::Memory),
            Ok(Turn::Quiet) => None,
            Ok(Turn::Put(to, n)) => self.put(to, n, *marks, out),
            Ok(Turn::Get(to)) => self.get(to, *marks, input),
            Ok(Turn::Ends(n)) => Some(Seen::Ended(n)),
            Ok(Turn::Halted(why)) => Some(seen_of(why, *marks)),
        }
    }

    /// At most so many steps from the start of a program on.
    fn run<S: Source, O: Sink>(
        &mut self,
        alloc: Global,
        program: &'a Program,
        limit: u64,
        input: &mut S,
        out: &mut O,
    ) -> Seen
        requires shapes { shapes_of self.old.blocks ≡ program.now.shapes }
        requires start { core_of self.old ≡ first_state (program_of program.now) [] }
        ensures runs { Fed (S.seen input.old) (S.seen input.new)
            (Interprets (program_of program.entry.now) limit
            (streams (S.seen input.old) (O.seen out.old))
            (streams (S.seen input.new) (O.seen out.new)) result) }
        ensures reads { (S.seen input.new).faults ≡ read_faults result (S.seen input.old).faults }
        ensures writes { (O.seen out.new).faults ≡ write_faults result (O.seen out.old).faults }
    {
        let mut marks = Marks {
            at: self.frame.function.end.at,
            blame: None,
        };
        for _step in 0..limit {
            match self.step(alloc, program, &mut marks, input, out) {
                Some(seen) => return seen,
                None => {}
            }
        }
        Seen::Going
    }
}

/// What stands if there is no function.
fn no_function(alloc: Global) -> FunctionTree
    ensures { function_of result ≡ no_function }
{
    FunctionTree {
        end: Spot {
            at: Pos { line: 0, col: 0 },
            mode: Mode::Unchecked,
        },
        params: 0,
        locals: 0,
        body: Seq::new(alloc),
        result: None,
        interfaces: Seq::new(alloc),
    }
}

/// A byte as a word.
fn word_of(byte: u8) -> u32
    ensures same { result ≡ byte }
    ensures small { byte < 256 }
{
    u32::from(byte)
}

/// The function with a number, if there is one.
fn function_at<'a>(
    functions: &'a [FunctionTree],
    number: u32,
    none: &'a FunctionTree,
) -> &'a FunctionTree
    requires { function_of none.now ≡ no_function }
    ensures { function_of result.now ≡ function_at (slice_get
        (map function_of functions.entry.now) number) }
{
    match functions.get(number as usize) {
        Some(function) => function,
        None => none,
    }
}

/// A run at its start.
fn start<'a>(alloc: Global, p: &'a Program, main: &'a FunctionTree) -> Result<Run<'a>, AllocError>
    requires laid_out { IsLaidOut (program_of p.now) }
    requires main { function_of main.now ≡ function_at (slice_get
        (map function_of p.now.functions) p.now.main) }
    ensures state { IfOk result (λ r. core_of r ≡ first_state (program_of p.entry.now) []) }
    ensures shapes { IfOk result (λ r. shapes_of r.blocks ≡ p.entry.now.shapes) }
{
    let blocks = Blocks::new(alloc, &p.shapes, p.objects.as_slice())?;
    let frame = enter(alloc, main, Vec::new(alloc))?;
    Ok(Run {
        blocks,
        frame,
        callers: Vec::new(alloc),
    })
}

/// At most so many steps of a program from a function on.
fn run_from<'a, S: Source, O: Sink>(
    alloc: Global,
    p: &'a Program,
    main: &'a FunctionTree,
    limit: u64,
    input: &mut S,
    out: &mut O,
) -> Seen
    requires laid_out { IsLaidOut (program_of p.now) }
    requires main { function_of main.now ≡ function_at (slice_get
        (map function_of p.now.functions) p.now.main) }
    ensures runs { Fed (S.seen input.old) (S.seen input.new)
        (Interprets (program_of p.entry.now) limit
        (streams (S.seen input.old) (O.seen out.old))
        (streams (S.seen input.new) (O.seen out.new)) result) }
    ensures reads { (S.seen input.new).faults ≡ read_faults result (S.seen input.old).faults }
    ensures writes { (O.seen out.new).faults ≡ write_faults result (O.seen out.old).faults }
{
    match start(alloc, p, main) {
        Ok(mut run) => run.run(alloc, p, limit, input, out),
        Err(_) => Seen::Memory,
    }
}

/// Runs the meaning of a program for at most `limit` steps, and calls the objects once for each byte. The bytes that it puts are written before the value of that
/// `putchar` is, and a put that failed may have left its own byte.
pub fn interp<S: Source, O: Sink>(
    alloc: Global,
    p: &Program,
    limit: u64,
    input: &mut S,
    out: &mut O,
) -> Seen
    requires { IsLaidOut (program_of p.now) }

    // With the input that a source tells, the answer is how the program stands.
    ensures exact { WhereTold (S.seen input.old).left (S.seen input.new).left
        (Interprets (program_of p.now) limit (streams (S.seen input.old) (O.seen out.old))
        (streams (S.seen input.new) (O.seen out.new)) result) }

    // Over any source, whatever may come after the bytes that it gave, the same holds of the input with both.
    ensures any { OverAny (S.seen input.old) (S.seen input.new)
        (Interprets (program_of p.now) limit (streams (S.seen input.old) (O.seen out.old))
        (streams (S.seen input.new) (O.seen out.new)) result) }

    // An object fails exactly if that is answered, and then once.
    ensures reads { (S.seen input.new).faults ≡ read_faults result (S.seen input.old).faults }
    ensures writes { (O.seen out.new).faults ≡ write_faults result (O.seen out.old).faults }
{
    let none = no_function(alloc);
    let main = function_at(p.functions.as_slice(), p.main, &none);
    run_from(alloc, p, main, limit, input, out)
}
