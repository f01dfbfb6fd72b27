//! Pages of the documents: each program of a page, with the line on standard error that the page tells after it.
use crate::commands::{run_case, tell};
use ckc_test_trials::{File, Page, Report};

/// Where a page stands: outside a program, within one, or after one whose line has not come yet.
#[derive(Clone, Copy)]
enum Part {
    Outside,
    Within,
    Behind,
}

/// Does the programs of a page: each is a case whose lines are written as the page is read.
pub fn run_page(file: &File, report: &mut Report) {
    let failed_before = report.failed;
    let mut part = Part::Outside;
    let mut is_assembly = false;
    let mut lines = Page::new(report.page.alloc());
    let mut count = 0u32;
    for line in file.text.lines() {
        if part == Part::Within {
            if line == "```" {
                part = Part::Behind;
                if is_assembly {
                    lines.put("\nccc asm text image");
                } else {
                    lines.put("\nccc exec text");
                }
            } else {
                put_text(line.as_bytes(), &mut lines);
            }
        } else if line == "```c" || line == "```asm" {
            part = Part::Within;
            is_assembly = line == "```asm";
            lines = Page::new(report.page.alloc());
            lines.put("file text ");
        } else if part == Part::Behind && line.starts_with('`') && line.ends_with('`') {
            part = Part::Outside;
            count = count.saturating_add(1);
            judge(line, &mut lines, report);
        }
    }
    report.count(file.name.as_str(), count, " programs, ", failed_before);
    report.page.put(" differ\n");
}

/// Puts a line of a program, and its LF, in the notation of the cases: each byte as two hexadecimal digits.
fn put_text(line: &[u8], lines: &mut Page) {
    for byte in line {
        lines.put("\\x");
        lines.put_digits(&[*byte]);
    }
    lines.put("\\n");
}

/// Does the case of a program, of which this line is wanted.
fn judge(line: &str, lines: &mut Page, report: &mut Report) {
    lines.put("\nexit 113\nerr ");
    lines.put(line.trim_matches('`'));
    lines.put("\\n");
    let mut page = Page::new(report.page.alloc());
    run_case(lines.text(), &mut page);
    tell(line, &page, report);
}
