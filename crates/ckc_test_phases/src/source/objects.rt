use super::put_between;
use super::types::put_type;
use ckc_test_trials::Page;
use ckc_typed::StaticObject;

/// Writes objects, each by its address without its first byte, the type of its elements, their number, `!` if the
/// last one stays zero, and the bytes that it begins with.
pub fn put_objects(page: &mut Page, objects: &[StaticObject]) {
    for (index, object) in objects.iter().enumerate() {
        put_between(page, index, "; ");
        put_object(page, object);
    }
}

fn put_object(page: &mut Page, object: &StaticObject) {
    page.put_number(i64::from(object.at % 0x0100_0000));
    page.put(" ");
    put_type(page, &object.element);
    page.put(" ");
    page.put_number(i64::from(object.count));
    page.put(if object.terminated { "!:" } else { ":" });
    for byte in object.initial.as_slice() {
        page.put(" ");
        page.put_number(i64::from(*byte));
    }
}
