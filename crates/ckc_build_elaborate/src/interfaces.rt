//! The interfaces of functions.

ghost use Rattle.std.specs.Prelude.{◌≡◌, ◌++◌, IfOk, OnOk};
ghost use Rattle.ckc_build_elaborate.specs.Functions.{interface_of, interfaces_from, interfaces_elaborated};

use ckc_base::{Mode, Seq, sum};
use ckc_build_results::result_limits;
use ckc_source::Interface;
use ckc_syntax::{Decl, Head, Name};
use ckc_typed::interfaces::{is_interface, type_seen};
use ckc_typed::{Note, Typed, Variable};
use ckc_typing_environment::environment::params_of;
use std::alloc::{AllocError, Global};

/// Adds a parameter that is an interface, if its limits are known.
fn add_interface(
    alloc: Global,
    typed: &Typed,
    locals: &[Variable],
    param: u32,
    d: &Decl<Name, Note>,
    all: &mut Seq<Interface>,
) -> Result<(), AllocError>
    ensures { OnOk result
        (all.new ≡ all.old ++ interface_of typed.now locals.now param d.now) }
{
    if !is_interface(d) {
        return Ok(());
    }
    let t = type_seen(alloc, Mode::Checked, d)?;
    match result_limits(alloc, typed, locals, &t, &d.bounds)? {
        None => Ok(()),
        Some(limits) => all.push(Interface { param, limits }),
    }
}

fn interfaces_in(
    alloc: Global,
    typed: &Typed,
    locals: &[Variable],
    params: &[Decl<Name, Note>],
) -> Result<Seq<Interface>, AllocError>
    ensures { IfOk result (λ is. is ≡ interfaces_from typed.now locals.now 0 params.now) }
{
    let mut all = Seq::new(alloc);
    let mut param = 0;
    for d in params {
        add_interface(alloc, typed, locals, param, d, &mut all)?;
        param = sum(param, 1)?;
    }
    Ok(all)
}

/// The interfaces that a body of a mode reads when its function is entered.
pub fn interfaces(
    alloc: Global,
    typed: &Typed,
    mode: Mode,
    h: &Head<Name, Note>,
) -> Result<Seq<Interface>, AllocError>
    ensures { IfOk result (λ is. is ≡ interfaces_elaborated typed.now mode h.now) }
{
    match mode {
        Mode::Checked => {
            let locals = params_of(alloc, mode, h)?;
            interfaces_in(alloc, typed, locals.as_slice(), h.params.as_slice())
        }
        Mode::Unchecked => Ok(Seq::new(alloc)),
    }
}
