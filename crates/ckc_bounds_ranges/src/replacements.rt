//! What bounds name, replaced by what it is at an assignment or a call.

ghost use Rattle.std.specs.Prelude.{◌≡◌};
ghost use Rattle.ckc_bounds_ranges.specs.Replaced.{place_for, base_replaced, variable_replaced, replaced, both_ends, replaced_bounds};

use crate::containment::Ends;
use ckc_bounds_points::{Bounds, base_form, moved_form, same_base, sum_of_forms};
use ckc_linear::{Base, Form};

/// The place that stands for a base, if it has one.
#[derive(Clone, Copy)]
pub struct BaseBy {
    pub base: Base,
    pub by: Option<Form>,
}

/// The form that stands for a variable, if it has one.
#[derive(Clone, Copy)]
pub struct VariableBy {
    pub var: u32,
    pub by: Option<Form>,
}

fn place_for(bases: &[BaseBy], base: Base) -> Option<Form>
    ensures { result ≡ place_for bases.now base }
{
    for r in bases {
        if same_base(Some(r.base), Some(base)) {
            return r.by;
        }
    }
    Some(base_form(base))
}

fn base_replaced(bases: &[BaseBy], base: Option<Base>) -> Option<Form>
    ensures { result ≡ base_replaced bases.now base }
{
    match base {
        Some(b) => place_for(bases, b),
        None => Some(Form {
            base: None,
            var: 0,
            add: 0,
        }),
    }
}

fn variable_replaced(variables: &[VariableBy], x: u32) -> Option<Form>
    ensures { result ≡ variable_replaced variables.now x }
{
    for r in variables {
        if r.var == x {
            return r.by;
        }
    }
    Some(Form {
        base: None,
        var: x,
        add: 0,
    })
}

/// A form with its base and its variable replaced, if it then has one variable at most.
fn replaced(bases: &[BaseBy], variables: &[VariableBy], f: Form) -> Option<Form>
    ensures { result ≡ replaced bases.now variables.now f }
{
    moved_form(
        sum_of_forms(
            base_replaced(bases, f.base),
            variable_replaced(variables, f.var),
        ),
        f.add,
    )
}

fn both_ends(low: Option<Form>, high: Option<Form>) -> Option<Ends>
    ensures { result ≡ both_ends low high }
{
    match (low, high) {
        (Some(f), Some(g)) => Some(Ends { low: f, high: g }),
        (Some(_), None) => None,
        (None, _) => None,
    }
}

/// Known bounds with what they name replaced, if both ends then have a form.
pub fn replaced_bounds(bases: &[BaseBy], variables: &[VariableBy], bounds: &Bounds) -> Option<Ends>
    ensures { result ≡ replaced_bounds bases.now variables.now bounds.now }
{
    match bounds {
        Bounds::Known(low, high) => both_ends(
            replaced(bases, variables, *low),
            replaced(bases, variables, *high),
        ),
        Bounds::Unknown => None,
    }
}
