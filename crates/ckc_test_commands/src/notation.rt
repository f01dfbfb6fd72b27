//! How a line of a case is read: words, numbers and bytes. What has no form the page keeps.
use ckc_test_trials::{Page, expanded};

/// The bytes that a text stands for.
pub fn bytes_of(text: &str, page: &mut Page) -> Vec<u8> {
    expanded(text.as_bytes(), &[], page)
}

/// The bytes of an ELF image whose parts are told in hexadecimal digits: `ENTRY:CODE:INITIAL`.
pub fn image_of(parts: &str, page: &mut Page) -> Vec<u8> {
    let (entry, rest) = page.parts_of(parts, ":");
    let (code, initial) = page.parts_of(rest, ":");
    let code = page.bytes_of(code);
    let initial = page.bytes_of(initial);
    let mut image = Vec::new(page.alloc());
    let entry = u32::from_str_radix(entry, 16).unwrap_or(0);
    let code_length = length_of(code.as_slice());
    page.append(
        &mut image,
        b"\x7fELF\x01\x01\x01\0\0\0\0\0\0\0\0\0\x02\0\xf3\0\x01\0\0\0",
    );
    page.append(&mut image, &entry.to_le_bytes());
    page.append(
        &mut image,
        b"\x34\0\0\0\0\0\0\0\0\0\0\0\x34\0\x20\0\x02\0\0\0\0\0\0\0",
    );
    put_segment(&mut image, 116, 0x1000, code_length, code_length, 5, page);
    let end = code_length.wrapping_add(116);
    put_segment(
        &mut image,
        end,
        0x200_0000,
        length_of(initial.as_slice()),
        0x100_0000,
        6,
        page,
    );
    page.append(&mut image, code.as_slice());
    page.append(&mut image, initial.as_slice());
    image
}

/// Adds the program header of a segment.
fn put_segment(
    image: &mut Vec<u8>,
    offset: u32,
    address: u32,
    size: u32,
    room: u32,
    rights: u32,
    page: &mut Page,
) {
    for word in [1, offset, address, address, size, room, rights, 4] {
        page.append(image, &u32::to_le_bytes(word));
    }
}

/// How many bytes there are, or 0 if there are too many.
fn length_of(bytes: &[u8]) -> u32 {
    u32::try_from(bytes.len()).unwrap_or(0)
}

/// The word in front of the first blank, and what stands after it.
pub fn split_word(text: &str) -> (&str, &str) {
    match text.split_once(' ') {
        Some(parts) => parts,
        None => (text, ""),
    }
}

/// A number below 2^64.
pub fn number_of(text: &str, page: &mut Page) -> u64 {
    match text.parse::<u64>() {
        Ok(number) => number,
        Err(_) => {
            page.refuse("not a number");
            0
        }
    }
}

/// The numbers, with one blank between two.
pub fn numbers_of(text: &str, page: &mut Page) -> Vec<u64> {
    let mut numbers = Vec::new(page.alloc());
    let mut rest = text;
    for _ in 0..text.len() {
        if rest.is_empty() {
            break;
        }
        let (word, others) = split_word(rest);
        let number = number_of(word, page);
        page.keep(&mut numbers, number);
        rest = others;
    }
    numbers
}

/// The words of a command line, with one blank between two, each in the notation of bytes; `""` is an empty word.
pub fn words_of(text: &str, page: &mut Page) -> Vec<String> {
    let mut words = Vec::new(page.alloc());
    let mut rest = text;
    for _ in 0..text.len() {
        if rest.is_empty() {
            break;
        }
        let (word, others) = split_word(rest);
        let word = word_of(word, page);
        page.keep(&mut words, word);
        rest = others;
    }
    words
}

fn word_of(word: &str, page: &mut Page) -> String {
    if word == "\"\"" {
        return String::new(page.alloc());
    }
    match String::from_utf8(bytes_of(word, page)) {
        Ok(word) => word,
        Err(_) => {
            page.refuse("not UTF-8");
            String::new(page.alloc())
        }
    }
}
