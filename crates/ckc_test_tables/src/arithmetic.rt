//! Operations on words, and the run-time checks.

use ckc_base::{BinOp, apply, check_name, check_number, check_of};
use ckc_test_trials::Page;

/// The names of the operations, in the order of the list below.
const NAMES: &str = "Add Sub Mul DivS DivU RemS RemU And Or Xor Shl ShrS ShrU LtS LtU Eq Ne";

const OPERATIONS: [BinOp; 17] = [
    BinOp::Add,
    BinOp::Sub,
    BinOp::Mul,
    BinOp::DivS,
    BinOp::DivU,
    BinOp::RemS,
    BinOp::RemU,
    BinOp::And,
    BinOp::Or,
    BinOp::Xor,
    BinOp::Shl,
    BinOp::ShrS,
    BinOp::ShrU,
    BinOp::LtS,
    BinOp::LtU,
    BinOp::Eq,
    BinOp::Ne,
];

/// `apply | OPERATION | A | B`: the value of the operation.
pub fn apply_case(op: &str, a: &str, b: &str, page: &mut Page) {
    let a = page.word_of(a);
    let b = page.word_of(b);
    let names = page.words_of(NAMES);
    match OPERATIONS.get(place_of(op, names.as_slice())) {
        Some(op) => page.put_hex(apply(*op, a, b)),
        None => page.refuse("an unknown operation"),
    }
}

/// How many names stand in front of the one that is wanted.
fn place_of(wanted: &str, names: &[&str]) -> usize {
    let mut place = 0usize;
    for name in names {
        if *name == wanted {
            return place;
        }
        place = place.saturating_add(1);
    }
    place
}

/// `check | NUMBER`: the check that has the number, its number and its name.
pub fn check_case(number: &str, page: &mut Page) {
    match check_of(page.word_of(number)) {
        Some(check) => {
            page.put_debug(&check);
            page.put(" ");
            page.put_number(i64::from(check_number(check)));
            page.put_word(check_name(check));
        }
        None => page.put("none"),
    }
}
