//! Calls: the arguments against the parameters.

ghost use Rattle.std.specs.Prelude.{◌≡◌, length};
ghost use Rattle.ckc_typed.specs.Expressions.{arguments_typed, result_typed};
ghost use Rattle.ckc_base.specs.Outcomes.{AnswersOutcome};

use ckc_base::{Fault, Mode, Pos, refused};
use ckc_syntax::{Expr, Name};
use ckc_typed::codes::{BAD_CALL, BAD_CONVERSION};
use ckc_typed::conversions::takes;
use ckc_typed::types::copied;
use ckc_typed::{Note, Parameter, Signature};
use ckc_types::CType;
use std::alloc::Global;

/// Judges that each parameter takes its argument in code of a mode.
fn arguments_fit(mode: Mode, params: &[Parameter], args: &[Expr<Name, Note>]) -> Result<(), Fault>
    requires { length args.now ≡ length params.now }
    ensures { AnswersOutcome result (arguments_typed mode params.now args.now) }
{
    for (i, arg) in args.iter().enumerate() {
        if !takes(mode, &params[i], arg) {
            return Err(refused(BAD_CONVERSION, arg.pos));
        }
    }
    Ok(())
}

/// The type of a call, in code of a mode, of a function with a signature.
pub fn result_typed(
    alloc: Global,
    mode: Mode,
    s: &Signature,
    args: &[Expr<Name, Note>],
    pos: Pos,
) -> Result<CType, Fault>
    ensures { AnswersOutcome result (result_typed mode s.now args.now pos) }
{
    if args.len() != s.params.len() {
        return Err(refused(BAD_CALL, pos));
    }
    arguments_fit(mode, s.params.as_slice(), args)?;
    let t = copied(alloc, &s.result)?;
    Ok(t)
}
