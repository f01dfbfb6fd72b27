//! Cases of `ccc` over objects in memory: lines that are done one after another.
use crate::lean::LeanStore;
use crate::notation::{bytes_of, image_of, number_of, numbers_of, split_word, words_of};
use crate::statuses::status_of;
use crate::watching::{put_stores, run_watched};
use ckc_cli::{Status, ccc, report};
use ckc_outside::{Fetched, MemSink, MemSource, MemStore, Sink, Store};
use ckc_test_trials::{Page, Report};
use ckc_test_watch::Stores;

/// How many bytes a call may put on its output.
const ROOM: usize = 65536;

/// A case under way: the objects of the next call, the file that was named last, and what the last call left, as far as
/// no line has told it yet. Whether its exit status was told, where the stores of a run that was watched went, if that was
/// not told, how many lines an output had, and how many calls there were.
struct Desk<'a> {
    err_fails: &'a [u64],
    input: Vec<u8>,
    input_fails: Vec<u64>,
    out_fails: Vec<u64>,
    name: &'a str,
    text: Vec<u8>,
    status: Status,
    out: Vec<u8>,
    err: Vec<u8>,
    told: bool,
    stores: Option<Stores>,
    lines: Option<usize>,
    calls: u32,
}

impl Drop for Desk<'_> {
    fn drop(self) {
        let Desk {
            err_fails: _,
            input: _input,
            input_fails: _input_fails,
            out_fails: _out_fails,
            name: _,
            text: _text,
            status: _,
            out: _out,
            err: _err,
            told: _,
            stores: _,
            lines: _,
            calls: _,
        } = self;
    }
}

/// Does a case twice, the second time with call 1 of standard error failing in each call of `ccc`, if nothing is to
/// be on standard error. Tells what did not come as wanted.
pub fn run_case(lines: &str, page: &mut Page) {
    run_once(lines, &[], page);
    if page.wrong().is_none() {
        run_once(lines, &[1], page);
    }
}

fn run_once<'a>(lines: &'a str, err_fails: &'a [u64], page: &mut Page) {
    let store_fails = store_fails_of(lines, page);
    let mut store = store_of(lines, store_fails.as_slice(), page);
    let mut desk = Desk::new(err_fails, page);
    for line in lines.lines() {
        desk.take(&mut store, line, page);
        if page.wrong().is_some() {
            desk.tell(line, page);
            return;
        }
    }
    if desk.calls == 0 {
        page.refuse("no call");
    }
    desk.settle(page);
    if page.wrong().is_some() {
        desk.tell("the end", page);
    }
}

/// The store of a case, whose listed calls fail. `tears CUT`: a listed call of `keep` leaves so many bytes.
fn store_of<'a>(lines: &str, fails: &'a [u64], page: &mut Page) -> MemStore<'a> {
    for line in lines.lines() {
        if let Some(cut) = line.strip_prefix("tears ") {
            return MemStore::torn(page.alloc(), fails, number_of(cut, page));
        }
    }
    MemStore::new(page.alloc(), fails)
}

/// The calls of the store that fail.
fn store_fails_of(lines: &str, page: &mut Page) -> Vec<u64> {
    for line in lines.lines() {
        if let Some(numbers) = line.strip_prefix("fails store ") {
            return numbers_of(numbers, page);
        }
    }
    Vec::new(page.alloc())
}

impl<'a> Desk<'a> {
    fn new(err_fails: &'a [u64], page: &Page) -> Desk<'a> {
        let alloc = page.alloc();
        Desk {
            err_fails,
            input: Vec::new(alloc),
            input_fails: Vec::new(alloc),
            out_fails: Vec::new(alloc),
            name: "",
            text: Vec::new(alloc),
            status: Status::Done,
            out: Vec::new(alloc),
            err: Vec::new(alloc),
            told: true,
            stores: None,
            lines: None,
            calls: 0,
        }
    }

    /// Does a line.
    fn take(&mut self, store: &mut MemStore<'_>, line: &'a str, page: &mut Page) {
        let (key, rest) = split_word(line);
        match key {
            "input" => self.input = bytes_of(rest, page),
            "ccc" => self.call(store, rest, page),
            "lean" => self.call(&mut LeanStore::new(), rest, page),
            "report" => self.report(rest, page),
            "watch" => self.watch(store, rest, page),
            "stores" => self.judge_stores(rest, page),
            "lines" => self.judge_lines(page),
            "tears" => {}
            "exit" | "status" | "out" | "err" => self.judge(key, rest, page),
            "|" => self.add_line(store, rest, page),
            _ => {
                let (name, more) = split_word(rest);
                self.take_named(store, key, (name, more), page);
            }
        }
    }

    /// Does a line that names a file or an object.
    fn take_named(
        &mut self,
        store: &mut MemStore<'_>,
        key: &str,
        named: (&'a str, &str),
        page: &mut Page,
    ) {
        let (name, rest) = named;
        match (key, name) {
            ("file", _) => {
                self.name = name;
                self.text = bytes_of(rest, page);
                self.keep(store, page);
            }
            ("fails", "input") => self.input_fails = numbers_of(rest, page),
            ("fails", "out") => self.out_fails = numbers_of(rest, page),
            ("fails", "store") => {}
            ("keeps", _) => has(store, name, bytes_of(rest, page).as_slice(), page),
            ("parts", _) => has(store, name, image_of(rest, page).as_slice(), page),
            ("length", _) => has_length(store, name, number_of(rest, page), page),
            ("lacks", _) => want(store.fetch(page.alloc(), name, u64::MAX).is_err(), page),
            _ => page.refuse("no form has the line"),
        }
    }

    /// `| BYTES`: one more line of the file that was named last.
    fn add_line(&mut self, store: &mut MemStore<'_>, rest: &str, page: &mut Page) {
        let line = bytes_of(rest, page);
        page.append(&mut self.text, line.as_slice());
        page.append(&mut self.text, b"\n");
        self.keep(store, page);
    }

    /// Puts the file that was named last into the store.
    fn keep(&self, store: &mut MemStore<'_>, page: &mut Page) {
        if self.name.is_empty() {
            page.refuse("no file is named");
        } else if store.set(self.name, self.text.as_slice()).is_err() {
            page.lacks_memory();
        }
    }

    /// `ccc WORDS`: makes the next call. `lean WORDS`: with a store that has no memory.
    fn call<F: Store>(&mut self, store: &mut F, rest: &str, page: &mut Page) {
        self.settle(page);
        let words = words_of(rest, page);
        let mut room = Vec::new(page.alloc());
        if room.resize(ROOM, 0).is_err() {
            page.lacks_memory();
        }
        let mut err_room = [0u8; 128];
        let mut input = MemSource::new(self.input.as_slice(), self.input_fails.as_slice());
        let mut out = MemSink::new(room.as_mut_slice(), self.out_fails.as_slice());
        let mut err = MemSink::new(&mut err_room, self.err_fails);
        let words = words.as_slice();
        self.status = ccc(page.alloc(), words, &mut input, &mut out, &mut err, store);
        page.append(&mut self.out, out.written());
        page.append(&mut self.err, err.written());
    }

    /// `report STATUS`: the line of a status, in place of a call.
    fn report(&mut self, rest: &str, page: &mut Page) {
        self.settle(page);
        self.status = status_of(rest, page);
        self.put_report(page);
    }

    /// Puts the line of the status on standard error.
    fn put_report(&mut self, page: &mut Page) {
        let mut room = [0u8; 128];
        let mut err = MemSink::new(&mut room, self.err_fails);
        let _ = err.put(report(&self.status).as_bytes());
        page.append(&mut self.err, err.written());
    }

    /// `watch TEXT IMAGE`: runs the image of a wholly checked text, in place of a call, on a machine that watches its
    /// stores.
    fn watch(&mut self, store: &mut MemStore<'_>, rest: &str, page: &mut Page) {
        self.settle(page);
        let (text, image) = split_word(rest);
        let text = kept(store, text, page);
        let image = kept(store, image, page);
        let ran = run_watched(
            text.as_slice(),
            image.as_slice(),
            self.input.as_slice(),
            &mut self.out,
            page,
        );
        if let Some((status, stores)) = ran {
            self.status = status;
            self.stores = Some(stores);
        }
        self.put_report(page);
    }

    /// `stores HEAP BLOCKS` or `stores outside ADDRESS`: judges where the stores of the last run went.
    fn judge_stores(&mut self, wanted: &str, page: &mut Page) {
        match self.stores {
            Some(stores) => {
                let mut came = Page::new(page.alloc());
                put_stores(&stores, &mut came);
                want(came.text() == wanted, page);
                self.stores = None;
            }
            None => page.refuse("no run was watched"),
        }
    }

    /// `lines`: judges that the output of the last call has as many lines as at each other `lines` of the case.
    fn judge_lines(&mut self, page: &mut Page) {
        let mut lines = 0usize;
        for byte in self.out.as_slice() {
            if *byte == b'\n' {
                lines = lines.saturating_add(1);
            }
        }
        want(
            lines > 0 && (self.lines.is_none() || self.lines == Some(lines)),
            page,
        );
        self.lines = Some(lines);
        self.out.clear();
    }

    /// Judges the last call, of which the exit status and the stores that were watched are to be told, and begins the
    /// next. What was not told of output and standard error is that nothing is there.
    fn settle(&mut self, page: &mut Page) {
        want(
            self.told && self.stores.is_none() && self.out.is_empty() && self.err.is_empty(),
            page,
        );
        self.told = false;
        self.calls = self.calls.saturating_add(1);
    }

    /// Judges the last call by a line. What is told once is not there any more.
    fn judge(&mut self, key: &str, rest: &str, page: &mut Page) {
        want(self.calls > 0, page);
        match key {
            "exit" => {
                want(number_of(rest, page) == u64::from(self.status.exit()), page);
                self.told = true;
            }
            "status" => want(is_spelled(&self.status, rest, page), page),
            "out" => {
                want(bytes_of(rest, page).as_slice() == self.out.as_slice(), page);
                self.out.clear();
            }
            _ => {
                let err = bytes_of(rest, page);
                want(
                    !self.err_fails.is_empty() || err.as_slice() == self.err.as_slice(),
                    page,
                );
                if self.err_fails.is_empty() {
                    self.err.clear();
                }
            }
        }
    }

    /// Writes what is wrong at a line, and what came of the last call.
    fn tell(&self, line: &str, page: &mut Page) {
        page.put(" at: ");
        page.put(line);
        page.put("\n  came: exit ");
        page.put_number(i64::from(self.status.exit()));
        page.put(", ");
        page.put_debug(&self.status);
        page.put(", out ");
        page.put_escaped(self.out.as_slice());
        page.put(", err ");
        page.put_escaped(self.err.as_slice());
        if let Some(stores) = self.stores {
            page.put(", stores ");
            put_stores(&stores, page);
        }
    }
}

fn is_spelled(status: &Status, text: &str, page: &Page) -> bool {
    let mut spelling = Page::new(page.alloc());
    spelling.put_debug(status);
    spelling.text() == text
}

/// Prints what is wrong with a case, if something is.
pub fn tell(head: &str, page: &Page, report: &mut Report) {
    if let Some(why) = page.wrong() {
        report.failed = report.failed.saturating_add(1);
        report.page.put(head);
        report.page.put("\n  ");
        report.page.put(why);
        report.page.put_bytes(page.bytes());
        report.page.put("\n");
    }
}

/// Keeps that a comparison does not hold.
pub fn want(holds: bool, page: &mut Page) {
    if !holds {
        page.refuse("differs");
    }
}

/// What the store has there.
fn kept(store: &mut MemStore<'_>, name: &str, page: &mut Page) -> Vec<u8> {
    match store.fetch(page.alloc(), name, u64::MAX) {
        Ok(Fetched::Whole(bytes)) => bytes.into_vec(),
        _ => {
            page.refuse("nothing is kept");
            Vec::new(page.alloc())
        }
    }
}

/// The store has these bytes there.
fn has(store: &mut MemStore<'_>, name: &str, bytes: &[u8], page: &mut Page) {
    match store.fetch(page.alloc(), name, u64::MAX) {
        Ok(Fetched::Whole(kept)) => want(kept.as_slice() == bytes, page),
        _ => page.refuse("nothing is kept"),
    }
}

/// The store has so many bytes there.
fn has_length(store: &mut MemStore<'_>, name: &str, number: u64, page: &mut Page) {
    match store.fetch(page.alloc(), name, u64::MAX) {
        Ok(Fetched::Whole(kept)) => want(kept.len() as u64 == number, page),
        _ => page.refuse("nothing is kept"),
    }
}
