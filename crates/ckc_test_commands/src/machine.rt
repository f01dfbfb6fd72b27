//! Cases of the machine alone: it is loaded once, and run and run again.
use crate::commands::want;
use crate::notation::{bytes_of, number_of, numbers_of, split_word};
use ckc_asm::read_asm;
use ckc_image::{View, write};
use ckc_machine::Machine;
use ckc_outside::{MemSink, MemSource, Sink, Source};
use ckc_test_trials::Page;

/// How many bytes the output may have room for.
const ROOM: usize = 4096;

/// What the machine is given: its image, the input, the room of the output, and which calls fail; and whether a line
/// was read that is done later.
struct Given {
    complete: bool,
    image: Vec<u8>,
    input: Vec<u8>,
    room: usize,
    input_fails: Vec<u64>,
    out_fails: Vec<u64>,
}

impl Drop for Given {
    fn drop(self) {
        let Given {
            complete: _,
            image: _image,
            input: _input,
            room: _,
            input_fails: _input_fails,
            out_fails: _out_fails,
        } = self;
    }
}

/// Does a case. Tells what did not come as wanted.
pub fn run_machine(lines: &str, page: &mut Page) {
    let mut given = Given {
        complete: false,
        image: Vec::new(page.alloc()),
        input: Vec::new(page.alloc()),
        room: 0,
        input_fails: Vec::new(page.alloc()),
        out_fails: Vec::new(page.alloc()),
    };
    for line in lines.lines() {
        given.take(line, page);
    }
    match View::read(given.image.as_slice()) {
        Ok(view) => given.load(view, lines, page),
        Err(_) => page.refuse("no text"),
    }
}

impl Given {
    /// Reads a line. Those that are done later stand after the others.
    fn take(&mut self, line: &str, page: &mut Page) {
        let (key, rest) = split_word(line);
        match key {
            "run" | "calls" | "out" => self.complete = true,
            _ if self.complete => page.refuse("a line behind the runs"),
            "text" => self.set_image(bytes_of(rest, page).as_slice(), page),
            "input" => self.input = bytes_of(rest, page),
            "room" => self.room = usize::try_from(number_of(rest, page)).unwrap_or(0),
            "fails" => {
                let (object, numbers) = split_word(rest);
                match object {
                    "input" => self.input_fails = numbers_of(numbers, page),
                    "out" => self.out_fails = numbers_of(numbers, page),
                    _ => page.refuse("no such object"),
                }
            }
            _ => page.refuse("no form has the line"),
        }
    }

    /// The image of a text in assembly.
    fn set_image(&mut self, text: &[u8], page: &mut Page) {
        match read_asm(page.alloc(), text) {
            Ok(parts) => match write(page.alloc(), &parts) {
                Ok(image) => self.image = image,
                Err(_) => page.lacks_memory(),
            },
            Err(_) => page.refuse("no assembly"),
        }
    }

    fn load(&self, view: View<'_>, lines: &str, page: &mut Page) {
        match Machine::load(page.alloc(), view) {
            Ok(machine) => self.run(machine, lines, page),
            Err(_) => page.lacks_memory(),
        }
    }

    /// Does the other lines, of which the last judges the output.
    fn run(&self, mut machine: Machine<'_>, lines: &str, page: &mut Page) {
        let mut room = [0u8; ROOM];
        let mut input = MemSource::new(self.input.as_slice(), self.input_fails.as_slice());
        let mut out = MemSink::new(&mut room[..self.room.min(ROOM)], self.out_fails.as_slice());
        let mut is_out = false;
        for line in lines.lines() {
            let (key, rest) = split_word(line);
            is_out = key == "out";
            if is_out {
                let wanted = bytes_of(rest, page);
                want(out.written() == wanted.as_slice(), page);
            } else if key == "run" {
                let (limit, wanted) = split_word(rest);
                let answer = machine.run(number_of(limit, page), &mut input, &mut out);
                let mut came = Page::new(page.alloc());
                came.put_debug(&answer);
                want(came.text() == wanted, page);
            } else if key == "calls" {
                want(fails_next(rest, &mut input, &mut out), page);
            }
            if page.wrong().is_some() {
                return tell(line, out.written(), page);
            }
        }
        want(is_out, page);
    }
}

/// Whether one call more of this object fails, as the case lists it if the machine made all calls before it and no more.
fn fails_next(object: &str, input: &mut MemSource<'_>, out: &mut MemSink<'_>) -> bool {
    match object {
        "input" => input.next().is_err(),
        "out" => out.put(&[]).is_err(),
        _ => false,
    }
}

/// Writes what is wrong at a line, and what was put.
fn tell(line: &str, out: &[u8], page: &mut Page) {
    page.put(" at: ");
    page.put(line);
    page.put("\n  came: out ");
    page.put_escaped(out);
}
