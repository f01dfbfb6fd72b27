//! Cases of `ccc`, of the assembler, of the machine and of compiled code, as data: it reads the files that its arguments
//! name, does each case over objects in memory, and prints what did not come as wanted, and how many cases each file has.
#![tactic(auto)]

mod code;
mod commands;
mod fronts;
mod labelled;
mod lean;
mod machine;
mod notation;
mod pages;
mod rows;
mod sizes;
mod statuses;
mod watching;

use ckc_test_trials::{File, Page, Report, files_named};
use code::Runs;
use commands::{run_case, tell};
use fronts::run_fronts;
use labelled::run_labelled;
use machine::run_machine;
use pages::run_page;
use rows::lines_of;
use std::io;
use std::process::ExitCode;

fn main(rt: HostRuntime) -> io::Result<ExitCode> {
    let mut report = Report::new(rt.alloc());
    run_labelled(&mut report);
    for file in files_named(&rt)? {
        if file.name.ends_with(".md") {
            run_page(&file, &mut report);
        } else if file.name.ends_with(".txt") {
            run_file(&file, &mut report);
        } else {
            report.try_file(&Runs, &file);
        }
    }
    report.print(&rt)
}

/// A file under way: the first line of the case that is read, the others, and how many cases there were.
#[derive(Drop)]
struct Cases<'a> {
    head: &'a str,
    lines: Page,
    count: u32,
}

/// Does the cases of a file.
fn run_file(file: &File, report: &mut Report) {
    let failed_before = report.failed;
    let mut cases = Cases {
        head: "",
        lines: Page::new(report.page.alloc()),
        count: 0,
    };
    for line in file.text.lines() {
        cases.take(line, report);
    }
    cases.end(report);
    report.count(file.name.as_str(), cases.count, " cases, ", failed_before);
    report.page.put(" differ\n");
}

impl<'a> Cases<'a> {
    /// Takes a line: a blank one ends a case, one of `#` is a comment, and a row is a case of its own.
    fn take(&mut self, line: &'a str, report: &mut Report) {
        if line.is_empty() {
            self.end(report);
        } else if line.starts_with('#') {
            return;
        } else if !self.head.is_empty() {
            self.lines.put(line);
            self.lines.put("\n");
        } else {
            self.head = line;
            if !has_lines(line) {
                lines_of(line, &mut self.lines);
                self.end(report);
            }
        }
    }

    /// Does the case that was read, if there is one.
    fn end(&mut self, report: &mut Report) {
        if self.head.is_empty() {
            return;
        }
        self.count = self.count.saturating_add(1);
        let mut page = Page::new(report.page.alloc());
        if let Some(why) = self.lines.wrong() {
            page.refuse(why);
        } else if self.head.starts_with("machine ") {
            run_machine(self.lines.text(), &mut page);
        } else if self.head.starts_with("fronts ") {
            run_fronts(self.lines.text(), &mut page);
        } else {
            run_case(self.lines.text(), &mut page);
        }
        tell(self.head, &page, report);
        self.head = "";
        self.lines = Page::new(report.page.alloc());
    }
}

/// Whether a case that begins with this line has more.
fn has_lines(head: &str) -> bool {
    head.starts_with("case ") || head.starts_with("machine ") || head.starts_with("fronts ")
}
