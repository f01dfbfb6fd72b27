//! Sources, sinks and stores, in memory and over the system.

use crate::lists::put_last;
use crate::scripts::{ScriptedReader, ScriptedWriter};
use ckc_outside::{
    Fetched, MemSink, MemSource, MemStore, RealSink, RealSource, RealStore, Sink, Source, Store,
    StoreError,
};
use ckc_test_trials::Page;
use std::fs;
use std::io::Write;
use std::rt::Files;

/// `source | READ..`: what a real source gives, call by call up to the end, over a reader that does what the words say.
pub fn source_case(reads: &str, page: &mut Page) {
    let words = page.words_of(reads);
    let mut source = RealSource::new(ScriptedReader::new(words.as_slice()));
    put_all_of(&mut source, page);
}

/// `memory-source | BYTE.. | CALL..`: what a source over the bytes gives, call by call up to the end. The calls that are
/// listed fail.
pub fn memory_source_case(bytes: &str, calls: &str, page: &mut Page) {
    let bytes = bytes_in(bytes, page);
    let calls = calls_in(calls, page);
    let mut source = MemSource::new(bytes.as_slice(), calls.as_slice());
    put_all_of(&mut source, page);
}

fn bytes_in(field: &str, page: &mut Page) -> Vec<u8> {
    let mut bytes = Vec::new(page.alloc());
    for word in page.words_of(field).as_slice() {
        let byte = page.byte_of(word);
        page.keep(&mut bytes, byte);
    }
    bytes
}

fn calls_in(field: &str, page: &mut Page) -> Vec<u64> {
    let mut calls = Vec::new(page.alloc());
    for word in page.words_of(field).as_slice() {
        let call = u64::from(page.word_of(word));
        page.keep(&mut calls, call);
    }
    calls
}

/// Writes what at most a thousand calls give.
fn put_all_of<S: Source>(source: &mut S, page: &mut Page) {
    for _ in 0..1000 {
        match source.next() {
            Ok(Some(byte)) => {
                page.put_word("");
                page.put_number(i64::from(byte));
            }
            Ok(None) => {
                page.put_word("end");
                return;
            }
            Err(_) => page.put_word("failed"),
        }
    }
}

/// `sink | WRITE.. | PIECE..`: what a real sink answers for each piece, and the bytes that came, over a writer that does
/// what the words say.
pub fn sink_case(writes: &str, pieces: &str, page: &mut Page) {
    let words = page.words_of(writes);
    let mut writer = ScriptedWriter::new(words.as_slice(), Vec::new(page.alloc()));
    let mut sink = RealSink::new(writer.by_ref());
    for piece in page.words_of(pieces).as_slice() {
        put_answer(sink.put(piece.as_bytes()).is_ok(), page);
    }
    drop(sink);
    put_last(writer.taken.as_slice(), page);
}

/// `memory-sink | ROOM | CALL.. | PIECE..`: what a sink with room for so many bytes answers for each piece, and the bytes
/// that came. The calls that are listed fail.
pub fn memory_sink_case(size: &str, calls: &str, pieces: &str, page: &mut Page) {
    let mut room = [0u8; 256];
    let size = usize::from(page.byte_of(size));
    let calls = calls_in(calls, page);
    let mut sink = MemSink::new(&mut room[..size], calls.as_slice());
    for piece in page.words_of(pieces).as_slice() {
        put_answer(sink.put(piece.as_bytes()).is_ok(), page);
    }
    put_last(sink.written(), page);
}

/// Writes whether a piece was put.
fn put_answer(is_put: bool, page: &mut Page) {
    page.put_word(if is_put { "ok" } else { "failed" });
}

/// `memory-store | CALL.. | STEP, STEP..`: what a store answers for each step `fetch NAME LIMIT` or `keep NAME TEXT`.
/// `set NAME TEXT` puts a file there. The calls that are listed fail.
pub fn memory_store_case(calls: &str, steps: &str, page: &mut Page) {
    let calls = calls_in(calls, page);
    let mut store = MemStore::new(page.alloc(), calls.as_slice());
    do_memory_steps(&mut store, steps, page);
}

/// `torn-store | CUT | CALL.. | STEP, STEP..`: the same of a store where a listed `keep` leaves so many bytes.
pub fn torn_store_case(cut: &str, calls: &str, steps: &str, page: &mut Page) {
    let calls = calls_in(calls, page);
    let cut = u64::from(page.word_of(cut));
    let mut store = MemStore::torn(page.alloc(), calls.as_slice(), cut);
    do_memory_steps(&mut store, steps, page);
}

fn do_memory_steps(store: &mut MemStore<'_>, steps: &str, page: &mut Page) {
    for step in steps.split(',') {
        let words = page.words_of(step);
        do_memory_step(store, words.as_slice(), page);
    }
}

fn do_memory_step(store: &mut MemStore<'_>, step: &[&str], page: &mut Page) {
    match step {
        ["set", name, text] => {
            if store.set(name, text.as_bytes()).is_err() {
                page.lacks_memory();
            }
        }
        _ => do_step(store, step, page),
    }
}

/// `store | STEP, STEP..`: what the store of files answers for each step `fetch NAME LIMIT` or `keep NAME TEXT`. `remove
/// NAME` removes a file.
pub fn store_case(rt: &(impl Files + AllocGlobal), fields: &[&str], page: &mut Page) {
    match fields {
        [steps] => do_file_steps(rt, steps, page),
        _ => page.refuse("not store | STEP, STEP.."),
    }
}

fn do_file_steps<R: Files + AllocGlobal>(rt: &R, steps: &str, page: &mut Page) {
    let mut store = RealStore::new(rt);
    for step in steps.split(',') {
        let words = page.words_of(step);
        do_file_step(rt, &mut store, words.as_slice(), page);
    }
}

fn do_file_step<R: Files + AllocGlobal>(
    rt: &R,
    store: &mut RealStore<'_, R>,
    step: &[&str],
    page: &mut Page,
) {
    match step {
        ["remove", name] => {
            if fs::remove_file(rt, *name).is_err() {
                page.refuse("a file that cannot be removed");
            }
        }
        _ => do_step(store, step, page),
    }
}

fn do_step<S: Store>(store: &mut S, step: &[&str], page: &mut Page) {
    match step {
        ["fetch", name, limit] => {
            let limit = u64::from(page.word_of(limit));
            let fetched = store.fetch(page.alloc(), name, limit);
            put_fetched(&fetched, page);
        }
        ["keep", name, text] => put_kept(store.keep(name, text.as_bytes()), page),
        _ => page.refuse("an unknown step"),
    }
}

fn put_kept(kept: Result<(), StoreError>, page: &mut Page) {
    page.put_word(match kept {
        Ok(()) => "ok",
        Err(e) => named(e),
    });
}

fn put_fetched(fetched: &Result<Fetched, StoreError>, page: &mut Page) {
    match fetched {
        Ok(Fetched::Whole(bytes)) => put_last(bytes.as_slice(), page),
        Ok(Fetched::Longer) => page.put_word("longer"),
        Err(e) => page.put_word(named(*e)),
    }
}

fn named(e: StoreError) -> &'static str {
    match e {
        StoreError::Failed => "failed",
        StoreError::Memory => "memory",
    }
}
