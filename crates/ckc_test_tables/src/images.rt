//! Images.

use ckc_base::Seq;
use ckc_base::memory_map::{CODE_START, LONGEST_CODE, LONGEST_DATA};
use ckc_image::{Format, Parts, View, write};
use ckc_test_trials::Page;

/// `read | BYTES`: the format and the parts of an image, or its first part that disagrees.
pub fn read_case(bytes: &str, page: &mut Page) {
    let bytes = page.bytes_of(bytes);
    match View::read(bytes.as_slice()) {
        Ok(view) => put_view(&view, page),
        Err(bad) => page.put_shown(&bad),
    }
}

fn put_view(view: &View<'_>, page: &mut Page) {
    page.put(match view.format {
        Format::First => "version 1",
        Format::Elf => "elf32",
    });
    page.put(" entry ");
    page.put_hex(view.entry);
    page.put(" code <");
    page.put_digits(view.code);
    page.put("> initial <");
    page.put_digits(view.initial);
    page.put(">");
}

/// `write | ENTRY | CODE | INITIAL`: the bytes of an image with these parts.
pub fn write_case(entry: &str, code: &str, initial: &str, page: &mut Page) {
    let entry = page.word_of(entry);
    let code = page.bytes_of(code);
    let initial = page.bytes_of(initial);
    match parts_of(entry, code, initial) {
        Some(parts) => put_image(&parts, page),
        None => page.refuse("no parts of an image"),
    }
}

fn put_image(parts: &Parts, page: &mut Page) {
    match write(page.alloc(), parts) {
        Ok(image) => page.put_digits(image.as_slice()),
        Err(_) => page.lacks_memory(),
    }
}

fn parts_of(entry: u32, code: Vec<u8>, initial: Vec<u8>) -> Option<Parts> {
    let length = code.len();
    if length % 4 != 0 || length < 4 || length > LONGEST_CODE || initial.len() > LONGEST_DATA {
        return None;
    }
    if entry % 4 != 0 || entry < CODE_START || entry as usize >= CODE_START as usize + length {
        return None;
    }
    Some(Parts {
        entry,
        code: Seq::from_vec(code),
        initial: Seq::from_vec(initial),
    })
}
