//! Facts as words: `X-Y<=C` is the fact that x is at most y plus C, and `A..B<=C` are the facts `K-L<=C` for each K from
//! A to below B, where L is K + 1, or 0 for the last variable.
ghost use Rattle.std.specs.Prelude.{◌^◌, ◌<◌, IsTrue};
ghost use Rattle.std.specs.List.{All};
ghost use Rattle.ckc_linear.specs.Facts.{IsInRange, IsWithin};

use ckc_base::Seq;
use ckc_linear::{Fact, Facts, add, entails, forget, shift};
use ckc_test_trials::Page;

/// The greatest number of a fact.
const LIMIT: i64 = 1 << 50;

const HALF: i64 = 1 << 49;

/// `chain | VARS | FACT.. | FACT..`: whether each fact of the last field is entailed by those before it. What the row
/// holds at the start does not matter.
pub fn chain_case(vars: &str, known: &str, asked: &str, page: &mut Page) {
    let facts = facts_of(vars, known, page);
    let mut rows = Vec::new(page.alloc());
    for question in page.words_of(asked).as_slice() {
        put_chain(&facts, question, &mut rows, page);
    }
}

fn put_chain(facts: &Facts, question: &str, row: &mut Vec<i64>, page: &mut Page) {
    let f = fact(question, page);
    let yes = says(facts, f, 7, row, page);
    let low = says(facts, f, i64::MIN, row, page);
    let high = says(facts, f, i64::MAX, row, page);
    page.put_word(if low != yes || high != yes {
        "depends on the row"
    } else if yes {
        "yes"
    } else {
        "no"
    });
}

/// Whether the fact is entailed, with a row that holds the number at the start.
pub fn says(facts: &Facts, f: Fact, before: i64, row: &mut Vec<i64>, page: &mut Page) -> bool {
    let width = 2 * facts.vars as usize;
    row.clear();
    if row.resize(width, before).is_err() {
        page.lacks_memory();
    }
    if is_in_range(facts.vars, f) && row.len() == width {
        return entails(facts, f.x, f.y, f.c, row.as_mut_slice());
    }
    page.refuse("a question out of range");
    false
}

/// `add | VARS | FACT..`: the facts, each added at the end.
pub fn add_case(vars: &str, known: &str, page: &mut Page) {
    let facts = facts_of(vars, known, page);
    put_facts(&facts, page);
}

/// `forget | VARS | FACT.. | X`: the facts that are left without those that name X.
pub fn forget_case(vars: &str, known: &str, x: &str, page: &mut Page) {
    let mut facts = facts_of(vars, known, page);
    forget(&mut facts, page.word_of(x));
    put_facts(&facts, page);
}

/// `shift | VARS | FACT.. | X | C`: the facts after X has grown by C. The numbers are within 2^49 either way.
pub fn shift_case(vars: &str, known: &str, x: &str, c: &str, page: &mut Page) {
    let mut facts = facts_of(vars, known, page);
    let x = page.word_of(x);
    let c = page.number_of(c);
    if -HALF <= c && c <= HALF && are_small(facts.list.as_slice()) {
        shift(&mut facts, x, c);
    } else {
        page.refuse("a number beyond 2^49");
    }
    put_facts(&facts, page);
}

/// Whether each number is within 2^49 either way.
fn are_small(facts: &[Fact]) -> bool
    ensures { IsTrue result → All (λ f. IsWithin (2 ^ 49) f.c) facts.now }
{
    facts.iter().all(|f| -HALF <= f.c && f.c <= HALF)
}

/// The facts that a field spells over so many variables.
fn facts_of(vars: &str, field: &str, page: &mut Page) -> Facts {
    let mut facts = no_facts(page.word_of(vars), page);
    for word in page.words_of(field).as_slice() {
        add_word(&mut facts, word, page);
    }
    facts
}

/// No facts, over at most 1,024 variables.
pub fn no_facts(vars: u32, page: &mut Page) -> Facts {
    if vars > 1024 {
        page.refuse("more than 1,024 variables");
    }
    Facts {
        vars: vars.min(1024),
        list: Seq::new(page.alloc()),
    }
}

/// Adds the fact or the facts of a word.
fn add_word(facts: &mut Facts, text: &str, page: &mut Page) {
    let (variables, c) = page.parts_of(text, "<=");
    if !variables.contains("..") {
        let f = fact(text, page);
        return add_one(facts, f, page);
    }
    let (from, to) = page.parts_of(variables, "..");
    let c = page.number_of(c);
    let vars = facts.vars;
    for x in page.word_of(from)..page.word_of(to) {
        let next = x.wrapping_add(1);
        let y = if next == vars { 0 } else { next };
        add_one(facts, Fact { x, y, c }, page);
    }
}

/// Adds a fact in range.
pub fn add_one(facts: &mut Facts, f: Fact, page: &mut Page) {
    if !is_in_range(facts.vars, f) {
        page.refuse("a fact out of range");
    } else if add(facts, f).is_err() {
        page.lacks_memory();
    }
}

/// Whether a fact is over variables below `vars`, with a number within 2^50 either way.
fn is_in_range(vars: u32, f: Fact) -> bool
    ensures { IsTrue result → IsInRange vars f }
{
    f.x < vars && f.y < vars && -LIMIT <= f.c && f.c <= LIMIT
}

/// The fact of a word `X-Y<=C`.
fn fact(text: &str, page: &mut Page) -> Fact {
    let (variables, c) = page.parts_of(text, "<=");
    let (x, y) = page.parts_of(variables, "-");
    let x = page.word_of(x);
    let y = page.word_of(y);
    let c = page.number_of(c);
    Fact { x, y, c }
}

/// Writes the number of variables and the facts, as they were spelled.
pub fn put_facts(facts: &Facts, page: &mut Page) {
    page.put_number(i64::from(facts.vars));
    for f in facts.list.as_slice() {
        page.put(" ");
        page.put_number(i64::from(f.x));
        page.put("-");
        page.put_number(i64::from(f.y));
        page.put("<=");
        page.put_number(f.c);
    }
}
