//! Words and instructions of RV32IM.

use crate::instructions::instruction;
use ckc_rv::{Instr, Outcome, Regs, decode, effect, encode, in_range};
use ckc_test_trials::Page;

/// `word | WORD | ASSEMBLY`: its instruction, and which of the 32 words one bit beside it are instructions: bit k of the mask stands
/// for the word with bit k turned. The instruction must be in range and have the word.
/// The assembly is what the word was assembled from.
pub fn word_case(word: &str, page: &mut Page) {
    let word = page.word_of(word);
    match decode(word) {
        Some(i) => put_instruction(word, &i, page),
        None => page.put("no instruction"),
    }
}

fn put_instruction(word: u32, i: &Instr, page: &mut Page) {
    page.put_debug(i);
    if !in_range(i) {
        page.put(" out of range");
    } else if encode(i) != word {
        page.put(" has another word");
    }
    page.put(" 0x");
    page.put_digits(&mask_of(word).to_be_bytes());
}

fn mask_of(w: u32) -> u32 {
    let mut mask: u32 = 0;
    for k in 0..32u32 {
        let bit = 1u32 << k;
        if decode(w ^ bit).is_some() {
            mask |= bit;
        }
    }
    mask
}

/// `range | INSTRUCTION`: whether its fields are in range.
pub fn range_case(text: &str, page: &mut Page) {
    let i = instruction(text, page);
    page.put(if in_range(&i) {
        "in range"
    } else {
        "out of range"
    });
}

/// `effect | INSTRUCTION | X1 | X2`: what the instruction does at 0x1000, with these values of x1 and x2.
pub fn effect_case(text: &str, first: &str, second: &str, page: &mut Page) {
    let i = instruction(text, page);
    let mut regs = Regs { x: [0; 32] };
    regs.x[1] = page.word_of(first);
    regs.x[2] = page.word_of(second);
    if in_range(&i) {
        put_outcome(&effect(&i, 0x1000, &regs), page);
    } else {
        page.put("out of range");
    }
}

fn put_outcome(outcome: &Outcome, page: &mut Page) {
    match outcome {
        Outcome::Next(rd, value, pc) => {
            page.put("Next(");
            page.put_number(i64::from(*rd));
            put_two(*value, *pc, page);
        }
        Outcome::Load(op, rd, address) => {
            page.put("Load(");
            page.put_debug(op);
            page.put(", ");
            page.put_number(i64::from(*rd));
            page.put(", ");
            page.put_hex(*address);
            page.put(")");
        }
        Outcome::Store(op, address, value) => {
            page.put("Store(");
            page.put_debug(op);
            put_two(*address, *value, page);
        }
        Outcome::Call => page.put("Call"),
        Outcome::Break => page.put("Break"),
        Outcome::BadTarget => page.put("BadTarget"),
    }
}

/// Writes the last two fields of an outcome.
fn put_two(first: u32, second: u32, page: &mut Page) {
    page.put(", ");
    page.put_hex(first);
    page.put(", ");
    page.put_hex(second);
    page.put(")");
}
