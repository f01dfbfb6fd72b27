use crate::expand::{Named, expanded};
use crate::page::Page;
use std::alloc::Global;
use std::mem;

/// Reads the lines of a file, and keeps the names that they give, and the fields of the lines that give forms.
#[derive(Drop)]
pub struct Reader {
    names: Vec<Named>,
    forms: Vec<Vec<Vec<u8>>>,
}

impl Reader {
    /// A reader that knows no name and no form.
    pub fn new(alloc: Global) -> Reader {
        Reader {
            names: Vec::new(alloc),
            forms: Vec::new(alloc),
        }
    }

    /// The fields of the case of a line, or none if it gives a name or a form.
    pub fn read(&mut self, line: &str, page: &mut Page) -> Vec<Vec<u8>> {
        let raw = cut(line.as_bytes(), page);
        if line.starts_with("form ") {
            page.keep(&mut self.forms, raw);
            return Vec::new(page.alloc());
        }
        let mut fields = Vec::new(page.alloc());
        for field in raw.as_slice() {
            let field = expanded(field.as_slice(), self.names.as_slice(), page);
            page.keep(&mut fields, field);
        }
        if line.starts_with("let ") {
            self.add_name(fields, page);
            return Vec::new(page.alloc());
        }
        self.put_in_form(fields.as_mut_slice(), page);
        fields
    }

    /// `let | NAME | TEXT`
    fn add_name(&mut self, mut fields: Vec<Vec<u8>>, page: &mut Page) {
        match (fields.pop(), fields.pop()) {
            (Some(text), Some(name)) => page.keep(&mut self.names, Named { name, text }),
            _ => page.refuse("not let | NAME | TEXT"),
        }
    }

    /// Puts the text of a case in the form that its kind names, `form | NAME | KIND | TEXT`, as `$text`.
    fn put_in_form(&mut self, fields: &mut [Vec<u8>], page: &mut Page) {
        let [kind, text, ..] = fields else {
            return;
        };
        for form in self.forms.as_slice() {
            if let [_, name, inner, around] = form.as_slice()
                && name.as_slice() == kind.as_slice()
            {
                let text_given = mem::replace(text, Vec::new(page.alloc()));
                let mut name = Vec::new(page.alloc());
                page.append(&mut name, b"text");
                page.keep(
                    &mut self.names,
                    Named {
                        name,
                        text: text_given,
                    },
                );
                *text = expanded(around.as_slice(), self.names.as_slice(), page);
                kind.clear();
                page.append(kind, inner.as_slice());
                return;
            }
        }
    }
}

/// The fields of a line as they are written, between the bars that do not stand after a backslash.
fn cut(line: &[u8], page: &mut Page) -> Vec<Vec<u8>> {
    let mut fields = Vec::new(page.alloc());
    let mut field = Vec::new(page.alloc());
    let mut escaped = false;
    for byte in line {
        if *byte == b'|' && !escaped {
            end_field(&mut fields, &mut field, page);
        } else {
            page.keep(&mut field, *byte);
        }
        escaped = *byte == b'\\' && !escaped;
    }
    end_field(&mut fields, &mut field, page);
    fields
}

/// Adds the field, without the blanks at its ends, to the others, and begins the next.
fn end_field(fields: &mut Vec<Vec<u8>>, field: &mut Vec<u8>, page: &mut Page) {
    let mut done = Vec::new(page.alloc());
    page.append(&mut done, field.as_slice().trim_ascii());
    page.keep(fields, done);
    field.clear();
}
