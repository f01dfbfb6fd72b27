//! The kinds of cases.

use crate::{arithmetic, facts, images, layouts, lists, objects, walks, words};
use ckc_test_trials::{Judge, Page};
use std::rt::Files;

/// What is wrong with a case whose kind takes other fields, or is none.
const UNKNOWN: &str = "no kind has these fields";

/// What the small crates answer. `rt` gives the files of a store.
#[derive(Drop)]
pub struct Tables<'a, R> {
    pub rt: &'a R,
}

impl<R: Files + AllocGlobal> Judge for Tables<'_, R> {
    fn answer(&self, kind: &str, given: &[Vec<u8>], page: &mut Page) {
        let given = page.texts_of(given);
        match kind {
            "store" => objects::store_case(self.rt, given.as_slice(), page),
            _ => of_fields(kind, given.as_slice(), page),
        }
    }
}

/// A case that asks nothing of the system's files.
fn of_fields(kind: &str, fields: &[&str], page: &mut Page) {
    match fields {
        [] => of_none(kind, page),
        [text] => of_one(kind, text, page),
        [first, second] => of_two(kind, first, second, page),
        [first, second, third] => of_three(kind, (first, second, third), page),
        [first, second, third, fourth] => of_four(kind, (first, second, third), fourth, page),
        _ => page.refuse(UNKNOWN),
    }
}

/// A case with no field.
fn of_none(kind: &str, page: &mut Page) {
    match kind {
        "empty" => lists::empty_case(page),
        _ => page.refuse(UNKNOWN),
    }
}

/// A case with four fields.
fn of_four(kind: &str, fields: (&str, &str, &str), fourth: &str, page: &mut Page) {
    match kind {
        "shift" => facts::shift_case(fields.0, fields.1, fields.2, fourth, page),
        _ => page.refuse(UNKNOWN),
    }
}

/// A case with one field.
fn of_one(kind: &str, text: &str, page: &mut Page) {
    match kind {
        "range" => words::range_case(text, page),
        "check" => arithmetic::check_case(text, page),
        "boxed" => lists::boxed_case(text, page),
        "type" => layouts::type_case(text, page),
        "struct" => layouts::struct_case(text, page),
        "read" => images::read_case(text, page),
        "source" => objects::source_case(text, page),
        _ => page.refuse(UNKNOWN),
    }
}

/// A case with two fields.
fn of_two(kind: &str, first: &str, second: &str, page: &mut Page) {
    match kind {
        "word" => words::word_case(first, page),
        "list" => lists::list_case(first, second, page),
        "add" => facts::add_case(first, second, page),
        "memory-source" => objects::memory_source_case(first, second, page),
        "sink" => objects::sink_case(first, second, page),
        "memory-store" => objects::memory_store_case(first, second, page),
        _ => page.refuse(UNKNOWN),
    }
}

/// A case with three fields.
fn of_three(kind: &str, fields: (&str, &str, &str), page: &mut Page) {
    let (first, second, third) = fields;
    match kind {
        "effect" => words::effect_case(first, second, third, page),
        "apply" => arithmetic::apply_case(first, second, third, page),
        "chain" => facts::chain_case(first, second, third, page),
        "walks" => walks::walks_case(first, second, third, page),
        "forget" => facts::forget_case(first, second, third, page),
        "repeated" => layouts::repeated_case(first, second, third, page),
        "write" => images::write_case(first, second, third, page),
        "memory-sink" => objects::memory_sink_case(first, second, third, page),
        "torn-store" => objects::torn_store_case(first, second, third, page),
        _ => page.refuse(UNKNOWN),
    }
}
