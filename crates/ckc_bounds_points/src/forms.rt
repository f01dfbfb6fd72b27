//! Forms of integers and of addresses, and the facts that their order is.

ghost use Rattle.std.specs.Prelude.{◌≡◌, ◌&&◌, ◌^◌, IfOk, OnOk};
ghost use Rattle.ckc_linear.specs.Facts.{IsWithin};
ghost use Rattle.ckc_bounds_points.specs.Shown.{known};
ghost use Rattle.ckc_bounds_points.specs.Forms.{is_small, constant_form, moved_form, in_type, within_interval, sum_of_forms, negative_of, difference_of_forms, base_form, same_base, same_form, at_most, at_less, with_most, with_less, elements_of, elements};

use ckc_bounds_known::{Interval, Work, add_fact, is_between, is_small, range_of};
use ckc_linear::{Base, Fact, Facts, Form};
use ckc_typed::amounts::is_multiple;
use ckc_types::CType;
use std::alloc::AllocError;

/// The form of a number.
pub fn constant_form(n: i64) -> Form
    ensures { result ≡ constant_form n }
{
    Form {
        base: None,
        var: 0,
        add: n,
    }
}

/// The place at a base itself.
pub fn base_form(base: Base) -> Form
    ensures { result ≡ base_form base }
{
    Form {
        base: Some(base),
        var: 0,
        add: 0,
    }
}

/// A form and a number, if both are small.
pub fn moved_form(form: Option<Form>, c: i64) -> Option<Form>
    ensures { result ≡ moved_form form c }
{
    match form {
        Some(f) => {
            if is_small(f.add) && is_small(c) {
                Some(Form {
                    add: f.add + c,
                    ..f
                })
            } else {
                None
            }
        }
        None => None,
    }
}

fn within_interval(
    work: &mut Work,
    facts: &Facts,
    f: Form,
    r: Option<Interval>,
) -> Result<Option<Form>, AllocError>
    ensures { IfOk result (λ o. o ≡ within_interval (known facts.now) f r) }
{
    let Some(r) = r else {
        return Ok(None);
    };
    if is_between(work, facts, f, r)? {
        Ok(Some(f))
    } else {
        Ok(None)
    }
}

/// The form of a value in an integer type, if the facts entail that the exact value lies in the type's range.
pub fn in_type(
    work: &mut Work,
    facts: &Facts,
    t: &CType,
    form: Option<Form>,
) -> Result<Option<Form>, AllocError>
    ensures { IfOk result (λ f. f ≡ in_type (known facts.now) t.now form) }
{
    match form {
        Some(f) => within_interval(work, facts, f, range_of(t)),
        None => Ok(None),
    }
}

/// The sum of two forms, of which at most one has a variable.
pub fn sum_of_forms(form: Option<Form>, by: Option<Form>) -> Option<Form>
    ensures { result ≡ sum_of_forms form by }
{
    match (form, by) {
        (Some(f), Some(g)) => {
            if g.var == 0 {
                moved_form(Some(f), g.add)
            } else if f.var == 0 {
                moved_form(Some(Form { var: g.var, ..f }), g.add)
            } else {
                None
            }
        }
        (Some(_), None) => None,
        (None, _) => None,
    }
}

fn negative_of(form: Option<Form>) -> Option<Form>
    ensures { result ≡ negative_of form }
{
    match form {
        Some(g) => {
            if g.var == 0 && is_small(g.add) {
                Some(constant_form(-g.add))
            } else {
                None
            }
        }
        None => None,
    }
}

/// The difference of two forms, of which the second has no variable.
pub fn difference_of_forms(form: Option<Form>, by: Option<Form>) -> Option<Form>
    ensures { result ≡ difference_of_forms form by }
{
    sum_of_forms(form, negative_of(by))
}

/// Whether two bases are the same, or there is none twice.
pub fn same_base(b: Option<Base>, c: Option<Base>) -> bool
    ensures { result ≡ same_base b c }
{
    match (b, c) {
        (None, None) => true,
        (Some(Base::Local(j)), Some(Base::Local(k))) => j == k,
        (Some(Base::Array(j)), Some(Base::Array(k))) => j == k,
        (Some(Base::Value(j)), Some(Base::Value(k))) => j == k,
        _ => false,
    }
}

/// Whether two forms are the same.
pub fn same_form(f: &Form, g: &Form) -> bool
    ensures { result ≡ same_form f.now g.now }
{
    same_base(f.base, g.base) && f.var == g.var && f.add == g.add
}

/// That `x <= y`, of forms with one base or none.
pub fn at_most(x: Form, y: Form) -> Fact
    requires left { IsWithin (2 ^ 42) x.add }
    requires right { IsWithin (2 ^ 42) y.add }
    ensures value { result ≡ at_most x y }
    ensures small { IsWithin (2 ^ 43) result.c }
{
    Fact {
        x: x.var,
        y: y.var,
        c: y.add - x.add,
    }
}

fn at_less(x: Form, y: Form) -> Fact
    requires left { IsWithin (2 ^ 42) x.add }
    requires right { IsWithin (2 ^ 42) y.add }
    ensures { result ≡ at_less x y }
{
    let f = at_most(x, y);
    Fact {
        x: f.x,
        y: f.y,
        c: f.c - 1,
    }
}

/// Adds that `x <= y`, of forms with one base or none.
pub fn add_most(x: Form, y: Form, facts: &mut Facts) -> Result<(), AllocError>
    ensures { OnOk result (known facts.new ≡ with_most x y (known facts.old)) }
{
    if is_small(x.add) && is_small(y.add) {
        return add_fact(facts, at_most(x, y));
    }
    Ok(())
}

/// Adds that `x < y`, of forms with one base or none.
pub fn add_less(x: Form, y: Form, facts: &mut Facts) -> Result<(), AllocError>
    ensures { OnOk result (known facts.new ≡ with_less x y (known facts.old)) }
{
    if is_small(x.add) && is_small(y.add) {
        return add_fact(facts, at_less(x, y));
    }
    Ok(())
}

fn elements_of(size: u32, f: Form) -> Option<Form>
    ensures { result ≡ elements_of size f }
{
    if f.var == 0 && is_multiple(f.add, size) {
        Some(constant_form(f.add / i64::from(size)))
    } else {
        None
    }
}

/// How many elements of a size so many bytes are.
pub fn elements(size: u32, bytes: Option<Form>) -> Option<Form>
    ensures { result ≡ elements size bytes }
{
    match bytes {
        Some(f) => {
            if size == 1 {
                Some(f)
            } else {
                elements_of(size, f)
            }
        }
        None => None,
    }
}
