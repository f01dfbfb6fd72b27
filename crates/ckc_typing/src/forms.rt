//! Statements of typed parts, and their own faults.

ghost use Rattle.std.specs.Prelude.{◌≡◌, Ok};
ghost use Rattle.ckc_syntax.specs.declared.tree.Act.TheVariants as act;
ghost use Rattle.ckc_base.specs.Outcomes.{bind};
ghost use Rattle.ckc_typed.specs.Statements.{stated, target_fits, scalar_fits, scalar_there_fits, result_fits, loop_fits};
ghost use Rattle.ckc_base.specs.Outcomes.{AnswersOutcome};

use ckc_base::{Boxed, Fault, Mode, Pos, refused};
use ckc_syntax::{Act, Expr, Name, Stmt};
use ckc_typed::codes::{BAD_CONVERSION, BAD_OPERANDS, BAD_TARGET, NO_LOOP};
use ckc_typed::conversions::converts;
use ckc_typed::types::{is_scalar, is_void};
use ckc_typed::{Note, Variable};
use ckc_types::CType;
use ckc_typing_environment::notes::stated;
use ckc_typing_environment::scope::FileScope;
use ckc_typing_environment::targets::{is_result, is_target};

fn target_fits(
    globals: &FileScope,
    variables: &[Variable],
    pos: Pos,
    e: &Expr<Name, Note>,
    f: &Expr<Name, Note>,
) -> Result<(), Fault>
    ensures { AnswersOutcome result (target_fits globals.now variables.now pos e.now f.now) }
{
    if !converts(&e.note.ctype, f) {
        return Err(refused(BAD_CONVERSION, pos));
    }
    if !is_target(globals, variables, e, f) {
        return Err(refused(BAD_TARGET, pos));
    }
    Ok(())
}

/// An assignment.
pub fn assignment(
    globals: &FileScope,
    variables: &[Variable],
    mode: Mode,
    pos: Pos,
    e: Boxed<Expr<Name, Note>>,
    f: Boxed<Expr<Name, Note>>,
) -> Result<Stmt<Name, Note>, Fault>
    ensures { AnswersOutcome result
        (bind (target_fits globals.now variables.now pos e f)
        (λ u. Ok (stated mode pos (act.Assign e f)))) }
{
    target_fits(globals, variables, pos, e.get(), f.get())?;
    Ok(stated(mode, pos, Act::Assign(e, f)))
}

/// Judges that a condition is a scalar.
fn scalar_fits(pos: Pos, e: &Expr<Name, Note>) -> Result<(), Fault>
    ensures { AnswersOutcome result (scalar_fits pos e.now) }
{
    if is_scalar(&e.note.ctype) {
        return Ok(());
    }
    if is_void(&e.note.ctype) {
        return Err(refused(BAD_CONVERSION, pos));
    }
    Err(refused(BAD_OPERANDS, pos))
}

/// An `if`.
pub fn branches(
    mode: Mode,
    pos: Pos,
    e: Boxed<Expr<Name, Note>>,
    s: Boxed<Stmt<Name, Note>>,
    other: Option<Boxed<Stmt<Name, Note>>>,
) -> Result<Stmt<Name, Note>, Fault>
    ensures { AnswersOutcome result
        (bind (scalar_fits pos e) (λ u. Ok (stated mode pos (act.If e s other)))) }
{
    scalar_fits(pos, e.get())?;
    Ok(stated(mode, pos, Act::If(e, s, other)))
}

/// A `while`.
pub fn repetition(
    mode: Mode,
    pos: Pos,
    e: Boxed<Expr<Name, Note>>,
    body: Boxed<Stmt<Name, Note>>,
) -> Result<Stmt<Name, Note>, Fault>
    ensures { AnswersOutcome result
        (bind (scalar_fits pos e) (λ u. Ok (stated mode pos (act.While e body)))) }
{
    scalar_fits(pos, e.get())?;
    Ok(stated(mode, pos, Act::While(e, body)))
}

/// A `_Dynamic_check`.
pub fn check(mode: Mode, pos: Pos, e: Boxed<Expr<Name, Note>>) -> Result<Stmt<Name, Note>, Fault>
    ensures { AnswersOutcome result
        (bind (scalar_fits pos e) (λ u. Ok (stated mode pos (act.Check e)))) }
{
    scalar_fits(pos, e.get())?;
    Ok(stated(mode, pos, Act::Check(e)))
}

/// Judges that a condition is a scalar, if there is one.
fn scalar_there_fits(pos: Pos, e: &Option<Boxed<Expr<Name, Note>>>) -> Result<(), Fault>
    ensures { AnswersOutcome result (scalar_there_fits pos e.now) }
{
    match e {
        None => Ok(()),
        Some(e) => scalar_fits(pos, e.get()),
    }
}

/// A `for`.
pub fn counting(
    mode: Mode,
    pos: Pos,
    start: Option<Boxed<Stmt<Name, Note>>>,
    e: Option<Boxed<Expr<Name, Note>>>,
    step: Option<Boxed<Stmt<Name, Note>>>,
    body: Boxed<Stmt<Name, Note>>,
) -> Result<Stmt<Name, Note>, Fault>
    ensures { AnswersOutcome result
        (bind (scalar_there_fits pos e) (λ u. Ok (stated mode pos (act.For start e step body)))) }
{
    scalar_there_fits(pos, &e)?;
    Ok(stated(mode, pos, Act::For(start, e, step, body)))
}

/// Judges what a function returns.
fn result_fits(
    result_type: &CType,
    pos: Pos,
    e: &Option<Boxed<Expr<Name, Note>>>,
) -> Result<(), Fault>
    ensures { AnswersOutcome result (result_fits result_type.now pos e.now) }
{
    if !is_result(result_type, e) {
        return Err(refused(BAD_CONVERSION, pos));
    }
    Ok(())
}

/// A `return`.
pub fn returned(
    result_type: &CType,
    mode: Mode,
    pos: Pos,
    e: Option<Boxed<Expr<Name, Note>>>,
) -> Result<Stmt<Name, Note>, Fault>
    ensures { AnswersOutcome result
        (bind (result_fits result_type.now pos e) (λ u. Ok (stated mode pos (act.Return e)))) }
{
    result_fits(result_type, pos, &e)?;
    Ok(stated(mode, pos, Act::Return(e)))
}

/// Judges that a `break` or a `continue` stands in a loop.
pub fn in_loop(looped: bool, pos: Pos) -> Result<(), Fault>
    ensures { AnswersOutcome result (loop_fits looped pos) }
{
    if looped {
        Ok(())
    } else {
        Err(refused(NO_LOOP, pos))
    }
}
