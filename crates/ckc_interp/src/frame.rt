//! Active calls.

ghost use Rattle.std.specs.Prelude.{◌≡◌, ◌-◌, ◌++◌, length, replicate, IfOk};
ghost use Rattle.ckc_source.specs.Code.{function_of};
ghost use Rattle.ckc_source.specs.States.{entered};
ghost use Rattle.ckc_interp.specs.code.Views.{frame_of};

use crate::work::Work;
use ckc_source::{FunctionTree, Kept};
use std::alloc::{AllocError, Global};

/// An active call: its function, its locals, the values that its parameters had at its entry, and what comes next,
/// the last first.
pub struct Frame<'a> {
    pub function: &'a FunctionTree,
    pub locals: Vec<u32>,
    pub entry: Vec<u32>,
    pub work: Vec<Work<'a>>,
}

impl Drop for Frame<'_> {
    fn drop(self) {
        let Frame {
            function: _function,
            locals: _locals,
            entry: _entry,
            work: _work,
        } = self;
    }
}

/// A call that waits for another one, and where the result of that goes.
#[derive(Drop)]
pub struct Caller<'a> {
    pub frame: Frame<'a>,
    pub target: Option<Kept>,
}

/// The locals of a function at its entry, of which the first are the values of its parameters.
fn first_locals(
    alloc: Global,
    function: &FunctionTree,
    values: &[u32],
) -> Result<Vec<u32>, AllocError>
    ensures { IfOk result (λ locals. locals.items ≡ values.now ++ replicate
        (function.now.locals - length values.now) 0) }
{
    let mut locals = Vec::from_slice(alloc, values)?;
    let count = (function.locals as usize).saturating_sub(values.len());
    let rest = vec![in alloc; 0; count]?;
    locals.extend_from_slice(rest.as_slice())?;
    Ok(locals)
}

/// A function is entered with these values of its parameters; its other locals begin at zero.
pub fn enter<'a>(
    alloc: Global,
    function: &'a FunctionTree,
    values: Vec<u32>,
) -> Result<Frame<'a>, AllocError>
    ensures { IfOk result (λ f. frame_of f ≡ entered
        (function_of function.entry.now) values.items) }
{
    let locals = first_locals(alloc, function, values.as_slice())?;
    let mut work = Vec::new(alloc);
    work.push(Work::Rest(function.body.as_slice()))?;
    Ok(Frame {
        function,
        locals,
        entry: values,
        work,
    })
}
