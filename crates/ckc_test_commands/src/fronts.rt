//! Cases of `check` over each front of a text, from the empty one to the whole.
use crate::notation::{bytes_of, number_of, split_word, words_of};
use ckc_cli::ccc;
use ckc_outside::{MemSink, MemSource, MemStore};
use ckc_test_trials::Page;

/// Does a case: the text, and what is wanted of its fronts in order. Tells what did not come as wanted.
pub fn run_fronts(lines: &str, page: &mut Page) {
    let mut text = Vec::new(page.alloc());
    let mut judged = 0usize;
    for line in lines.lines() {
        let (key, rest) = split_word(line);
        match key {
            "|" => {
                let bytes = bytes_of(rest, page);
                page.append(&mut text, bytes.as_slice());
                page.append(&mut text, b"\n");
            }
            "wanted" => judged = judge_all(text.as_slice(), judged, rest, page),
            _ => page.refuse("no form has the line"),
        }
        if page.wrong().is_some() {
            return;
        }
    }
    if judged != text.len().saturating_add(1) {
        page.refuse("not every front is judged");
    }
}

/// `NUMBER REPORT, NUMBER REPORT`: judges so many fronts by each report, from the one of `first` bytes on. Gives the
/// length of the front after them.
fn judge_all(text: &[u8], first: usize, reports: &str, page: &mut Page) -> usize {
    let mut length = first;
    for part in reports.split(", ") {
        let (count, report) = split_word(part);
        for _ in 0..number_of(count, page) {
            if page.wrong().is_some() {
                return length;
            }
            judge(text, length, report, page);
            length = length.saturating_add(1);
        }
    }
    length
}

/// Judges the front of so many bytes.
fn judge(text: &[u8], length: usize, report: &str, page: &mut Page) {
    match text.get(..length) {
        Some(front) => {
            let mut came = Page::new(page.alloc());
            put_check(front, &mut came);
            let mut wanted = Page::new(page.alloc());
            put_wanted(report, &mut wanted);
            if came.text() != wanted.text() {
                page.refuse("differs");
                tell(length, &came, page);
            }
        }
        None => page.refuse("no such front"),
    }
}

/// Writes the exit status of `check` of a text, and what it wrote.
fn put_check(text: &[u8], page: &mut Page) {
    let words = words_of("check text", page);
    let mut store = MemStore::new(page.alloc(), &[]);
    if store.set("text", text).is_err() {
        page.lacks_memory();
    }
    let mut out_room = [0u8; 64];
    let mut err_room = [0u8; 64];
    let mut input = MemSource::new(&[], &[]);
    let mut out = MemSink::new(&mut out_room, &[]);
    let mut err = MemSink::new(&mut err_room, &[]);
    let words = words.as_slice();
    let status = ccc(
        page.alloc(),
        words,
        &mut input,
        &mut out,
        &mut err,
        &mut store,
    );
    page.put_number(i64::from(status.exit()));
    page.put(" ");
    page.put_bytes(out.written());
    page.put_bytes(err.written());
}

/// Writes what is wanted: `E105 1:1` is a refusal, and another report the line on the output.
fn put_wanted(report: &str, page: &mut Page) {
    if report.starts_with('E') {
        let (code, place) = split_word(report);
        page.put("113 refused: ");
        page.put(code);
        page.put(" at ");
        page.put(place);
    } else {
        page.put("0 ");
        page.put(report);
    }
    page.put("\n");
}

/// Writes which front differs, and what came of it.
fn tell(length: usize, came: &Page, page: &mut Page) {
    page.put(" at the front of ");
    page.put_debug(&length);
    page.put(" bytes\n  came: ");
    page.put_escaped(came.bytes());
}
