//! Lists and boxes.

use ckc_base::{Boxed, Bytes, Seq};
use ckc_test_trials::Page;

/// `list | TEXT | STEP..`: what the steps give on the list of the bytes of the text: `+C` pushes the byte C, `-` pops, `@N`
/// gets the byte N, `len` counts, `slice` shows all bytes. At the end come the bytes of the list's `Vec`.
pub fn list_case(text: &str, steps: &str, page: &mut Page) {
    match Seq::from_slice(page.alloc(), text.as_bytes()) {
        Ok(bytes) => put_steps(bytes, steps, page),
        Err(_) => page.lacks_memory(),
    }
}

fn put_steps(mut bytes: Bytes, steps: &str, page: &mut Page) {
    for step in page.words_of(steps).as_slice() {
        do_step(&mut bytes, step, page);
    }
    put_last(bytes.into_vec().as_slice(), page);
}

fn do_step(bytes: &mut Bytes, step: &str, page: &mut Page) {
    match step.as_bytes() {
        [b'+', byte] => {
            if bytes.push(*byte).is_err() {
                page.lacks_memory();
            }
        }
        [b'-'] => put_byte(bytes.pop(), page),
        [b'@', digit] => {
            let at = usize::from(digit.wrapping_sub(b'0'));
            put_byte(bytes.get(at).copied(), page);
        }
        b"len" => {
            page.put_word("");
            page.put_shown(&bytes.len());
        }
        b"slice" => put_last(bytes.as_slice(), page),
        _ => page.refuse("an unknown step"),
    }
}

fn put_byte(byte: Option<u8>, page: &mut Page) {
    match byte {
        Some(byte) => put_last(&[byte], page),
        None => page.put_word("none"),
    }
}

/// Writes bytes after the others, with a blank in front.
pub fn put_last(bytes: &[u8], page: &mut Page) {
    page.put_word("");
    page.put_bytes(bytes);
}

/// `empty`: whether a new list of words is empty, and what it pops.
pub fn empty_case(page: &mut Page) {
    let mut list: Seq<u32> = Seq::new(page.alloc());
    page.put_shown(&list.is_empty());
    page.put_word("");
    page.put_debug(&list.pop());
}

/// `boxed | WORD`: what a box shows, and what it gives back.
pub fn boxed_case(word: &str, page: &mut Page) {
    let word = page.word_of(word);
    match Boxed::new(page.alloc(), word) {
        Ok(boxed) => {
            page.put_number(i64::from(*boxed.get()));
            page.put_word("");
            page.put_number(i64::from(boxed.into_inner()));
        }
        Err(_) => page.lacks_memory(),
    }
}
