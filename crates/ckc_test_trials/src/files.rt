use crate::page::Page;
use crate::reader::Reader;
use std::alloc::{AllocError, Global};
use std::process::ExitCode;
use std::rt::{Env, Files};
use std::{env, fs, io};

/// What is under trial: it answers cases.
pub trait Judge {
    /// Writes what comes of a case of this kind. `given` are the fields between the kind and what is wanted.
    fn answer(&self, kind: &str, given: &[Vec<u8>], page: &mut Page);
}

/// A file of cases.
#[derive(Drop)]
pub struct File {
    pub name: String,
    pub text: String,
}

/// The files that the words of the command line name.
pub fn files_named<R: Env + Files + AllocGlobal>(rt: &R) -> io::Result<Vec<File>> {
    let mut files = Vec::new(rt.alloc());
    let mut names = env::args(rt)?;
    let _program = names.next();
    for name in names {
        let text = fs::read_to_string(rt, name.as_str())?;
        if files.push(File { name, text }).is_err() {
            return Err(AllocError.into());
        }
    }
    Ok(files)
}

/// What is printed, and how much failed.
#[derive(Drop)]
pub struct Report {
    pub page: Page,
    pub failed: u32,
}

/// Tries the cases of the files that the words of the command line name, a line each: prints each that differs and each
/// malformed line, and a count for each file. The status is a failure if a line failed.
pub fn run_words<R: Env + Files + Print + AllocGlobal, J: Judge>(
    rt: &R,
    judge: &J,
) -> io::Result<ExitCode> {
    let mut report = Report::new(rt.alloc());
    for file in files_named(rt)? {
        report.try_file(judge, &file);
    }
    report.print(rt)
}

impl Report {
    /// Nothing is printed yet.
    pub fn new(alloc: Global) -> Report {
        Report {
            page: Page::new(alloc),
            failed: 0,
        }
    }

    /// Prints it. The status is a failure if something failed.
    pub fn print<R: Print>(self, rt: &R) -> io::Result<ExitCode> {
        rt.print(self.page.text())?;
        Ok(if self.failed == 0 && self.page.wrong().is_none() {
            ExitCode::SUCCESS
        } else {
            ExitCode::FAILURE
        })
    }

    /// Prints how many cases a file has, and how many of them failed since there were so many.
    pub fn count(&mut self, name: &str, cases: u32, noun: &str, failed_before: u32) {
        self.page.put(name);
        self.page.put(": ");
        self.page.put_number(i64::from(cases));
        self.page.put(noun);
        let failed = self.failed.saturating_sub(failed_before);
        self.page.put_number(i64::from(failed));
    }

    /// Tries the cases of a file, a line each.
    pub fn try_file<J: Judge>(&mut self, judge: &J, file: &File) {
        let mut reader = Reader::new(self.page.alloc());
        let failed_before = self.failed;
        let mut number = 0u32;
        let mut cases = 0u32;
        for line in file.text.lines() {
            number = number.saturating_add(1);
            let line = line.trim_ascii();
            if !line.is_empty() && !line.starts_with('#') {
                let place = (file.name.as_str(), number);
                cases = cases.saturating_add(self.try_line(judge, &mut reader, place, line));
            }
        }
        self.count(file.name.as_str(), cases, " cases, ", failed_before);
        self.page.put(" failed\n");
    }

    /// Tries a line, and gives how many cases it has.
    fn try_line<J: Judge>(
        &mut self,
        judge: &J,
        reader: &mut Reader,
        place: (&str, u32),
        line: &str,
    ) -> u32 {
        let mut page = Page::new(self.page.alloc());
        let fields = reader.read(line, &mut page);
        let Some((wanted, case)) = fields.as_slice().split_last() else {
            self.tell(place, &[], &page);
            return 0;
        };
        match case.split_first() {
            Some((kind, given)) => {
                let kind = page.text_of(kind.as_slice());
                judge.answer(kind, given, &mut page);
            }
            None => page.refuse("a kind alone"),
        }
        if page.bytes() != wanted.as_slice() {
            page.refuse("differs");
        }
        self.tell(place, wanted.as_slice(), &page);
        1
    }

    /// Prints what is wrong with a line, if something is.
    fn tell(&mut self, place: (&str, u32), wanted: &[u8], came: &Page) {
        let Some(why) = came.wrong() else {
            return;
        };
        let (name, number) = place;
        self.failed = self.failed.saturating_add(1);
        self.page.put(name);
        self.page.put(":");
        self.page.put_number(i64::from(number));
        self.page.put(": ");
        self.page.put(why);
        self.page.put("\n  wanted ");
        self.page.put_escaped(wanted);
        self.page.put("\n    came ");
        self.page.put_escaped(came.bytes());
        self.page.put("\n");
    }
}
