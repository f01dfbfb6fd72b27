//! Statuses by their words, for the cases of their lines and exit statuses.
use crate::notation::split_word;
use ckc_base::{Pos, Refusal, check_of};
use ckc_cli::{FaultKind, Status};
use ckc_test_trials::Page;

/// `done`, `ended 7`, `stopped 2 9:14` with the number of the check, `fault load 4096`, `stuck 3:38 5:7` or `stuck 3:38`,
/// `refused 301 1:24`, `image 3`, and the others by their word.
pub fn status_of(text: &str, page: &mut Page) -> Status {
    let (name, rest) = split_word(text);
    match name {
        "done" => Status::Done,
        "ended" => Status::Ended(page.word_of(rest)),
        "going" => Status::Going,
        "usage" => Status::Usage,
        "image" => Status::BadImage(page.byte_of(rest)),
        "input" => Status::ReadFault,
        "output" => Status::WriteFault,
        "store" => Status::StoreFault,
        "memory" => Status::Memory,
        _ => {
            let (first, second) = split_word(rest);
            status_of_two(name, first, second, page)
        }
    }
}

fn status_of_two(name: &str, first: &str, second: &str, page: &mut Page) -> Status {
    match name {
        "fault" => Status::MachineFault(kind_of(first, page), page.word_of(second)),
        "stuck" => Status::Stuck(place_of(first, page), place_of(second, page)),
        "refused" => refused(page.word_of(first), place_of(second, page), page),
        "stopped" => stopped(page.word_of(first), place_of(second, page), page),
        _ => no_status(page),
    }
}

fn no_status(page: &mut Page) -> Status {
    page.refuse("no such status");
    Status::Done
}

fn refused(code: u32, pos: Pos, page: &mut Page) -> Status {
    match u16::try_from(code) {
        Ok(code) => Status::Refused(Refusal { code, pos }),
        Err(_) => no_status(page),
    }
}

fn stopped(number: u32, at: Pos, page: &mut Page) -> Status {
    match check_of(number) {
        Some(check) => Status::Stopped(check, at),
        None => no_status(page),
    }
}

fn kind_of(name: &str, page: &mut Page) -> FaultKind {
    match name {
        "fetch" => FaultKind::Fetch,
        "word" => FaultKind::Word,
        "align" => FaultKind::Align,
        "load" => FaultKind::Load,
        "store" => FaultKind::Store,
        "break" => FaultKind::Break,
        "call" => FaultKind::Call,
        _ => {
            page.refuse("no such fault");
            FaultKind::Call
        }
    }
}

fn place_of(text: &str, page: &mut Page) -> Pos {
    let (line, col) = page.parts_of(text, ":");
    let line = page.word_of(line);
    let col = page.word_of(col);
    Pos { line, col }
}
