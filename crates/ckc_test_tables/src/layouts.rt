//! How types lie in memory.

use crate::structures::{has_member, is_laid_out, structs_of};
use ckc_base::Boxed;
use ckc_test_trials::Page;
use ckc_types::{CType, Kind, Structs, align, offset, size};

/// `struct | LETTERS`: the size of a structure with these members, that of an array of three, the alignment and the
/// offset of each member.
pub fn struct_case(letters: &str, page: &mut Page) {
    let structs = structs_of(letters, 1, page);
    let (bytes, step) = layout(&structs, &CType::Struct(1), page);
    page.put_number(i64::from(bytes));
    page.put_word("");
    page.put_number(i64::from(bytes) * 3);
    page.put_word("");
    page.put_number(i64::from(step));
    page.put(":");
    let mut name: u32 = 5;
    for _ in letters.as_bytes() {
        put_offset(&structs, name, page);
        name = name.wrapping_add(1);
    }
}

/// `repeated | LETTERS | TIMES | NAME`: the size and the alignment of a structure with these members as often as is
/// said, and the offset of the member with this name, from 5 for the first.
pub fn repeated_case(letters: &str, times: &str, name: &str, page: &mut Page) {
    let structs = structs_of(letters, page.word_of(times), page);
    put_layout(&structs, &CType::Struct(1), page);
    page.put(":");
    put_offset(&structs, page.word_of(name), page);
}

/// `type | BASE KIND..`: the size and the alignment of a type: a base, and for each kind a pointer of that kind to what
/// stands before it. `struct0` has two of `unsigned` and a `char`, `struct1` a `char`.
pub fn type_case(text: &str, page: &mut Page) {
    let structs = structs_of("c", 1, page);
    let t = type_of(text, page);
    put_layout(&structs, &t, page);
}

fn type_of(text: &str, page: &mut Page) -> CType {
    match page.words_of(text).as_slice() {
        [base] => base_of(base, page),
        [base, kind] => {
            let kind = kind_of(kind, page);
            let to = base_of(base, page);
            pointer(kind, to, page)
        }
        _ => base_of(text, page),
    }
}

/// A pointer.
pub fn pointer(kind: Kind, to: CType, page: &mut Page) -> CType {
    match Boxed::new(page.alloc(), to) {
        Ok(to) => CType::Pointer(kind, to),
        Err(_) => {
            page.lacks_memory();
            CType::Void
        }
    }
}

fn base_of(name: &str, page: &mut Page) -> CType {
    match name {
        "int" => CType::Int,
        "unsigned" => CType::Unsigned,
        "char" => CType::Char,
        "void" => CType::Void,
        "struct0" => CType::Struct(0),
        "struct1" => CType::Struct(1),
        _ => {
            page.refuse("an unknown base");
            CType::Void
        }
    }
}

fn kind_of(name: &str, page: &mut Page) -> Kind {
    match name {
        "Raw" => Kind::Raw,
        "One" => Kind::One,
        "Arr" => Kind::Arr,
        "Nt" => Kind::Nt,
        _ => {
            page.refuse("an unknown kind of pointer");
            Kind::Raw
        }
    }
}

/// The size and the alignment of a type that has a layout.
fn layout(structs: &Structs, t: &CType, page: &mut Page) -> (u32, u32) {
    if is_laid_out(structs, t) {
        return (size(structs, t), align(structs, t));
    }
    page.refuse("no layout");
    (0, 0)
}

fn put_layout(structs: &Structs, t: &CType, page: &mut Page) {
    let (bytes, step) = layout(structs, t, page);
    page.put_number(i64::from(bytes));
    page.put_word("");
    page.put_number(i64::from(step));
}

/// Writes the offset of a member of the second structure.
fn put_offset(structs: &Structs, name: u32, page: &mut Page) {
    page.put_word("");
    if has_member(structs, 1, name) {
        page.put_number(i64::from(offset(structs, 1, name)));
    } else {
        page.refuse("no such member");
    }
}
