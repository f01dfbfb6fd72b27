//! What comes next in a call.

ghost use Rattle.std.specs.Prelude.{◌≡◌, ◌<◌, ◌≤◌, [], ◌∷◌, vec_len, IfOk, OnOk, OnSome, IfNone, MatchOption};
ghost use Rattle.std.specs.Option.{option_map, option_copied};
ghost use Rattle.ckc_source.specs.Code.{code_of};
ghost use Rattle.ckc_source.specs.States.{begun, resumed, settled, turned, behind};
ghost use Rattle.ckc_source.specs.States as states;
ghost use Rattle.ckc_interp.specs.code.Views.{work_of, next_of_call, leaving_of, leaving_in, step_in, when_left};

use ckc_source::StmtTree;
use std::alloc::AllocError;

/// What comes next: statements; or, after the body of a loop, the loop and the statements after it.
#[derive(Clone, Copy)]
pub enum Work<'a> {
    Rest(&'a [StmtTree]),
    Turn(&'a [StmtTree]),
}

/// How the statements before came to their end.
#[derive(Clone, Copy)]
enum Leaving {
    Ended,
    Broken,
    Continued,
}

/// How a statement is left at once, if it is.
fn leaving_at(statement: &StmtTree) -> Option<Leaving>
    ensures { option_map leaving_of result ≡ leaving_in (code_of (statement.now ∷ [])) }
{
    match statement {
        StmtTree::Assign(_, _) => None,
        StmtTree::Bundle(_, _) => None,
        StmtTree::Get(_, _) => None,
        StmtTree::Put(_, _, _) => None,
        StmtTree::Call(_, _, _, _) => None,
        StmtTree::If(_, _, _, _) => None,
        StmtTree::Loop(_, _, _, _) => None,
        StmtTree::Break => Some(Leaving::Broken),
        StmtTree::Continue => Some(Leaving::Continued),
        StmtTree::Return(_, _) => None,
        StmtTree::Check(_, _) => None,
    }
}

/// How statements are left at once, if they are.
fn leaving_in(code: &[StmtTree]) -> Option<Leaving>
    ensures { option_map leaving_of result ≡ leaving_in (code_of code.now) }
{
    match code.split_first() {
        None => Some(Leaving::Ended),
        Some((first, _)) => leaving_at(first),
    }
}

/// The statements after the loop in front.
fn behind(code: &[StmtTree]) -> &[StmtTree]
    ensures { code_of result.now ≡ behind (code_of code.now) }
{
    match code.split_first() {
        Some((StmtTree::Loop(_, _, _, _), rest)) => rest,
        _ => code,
    }
}

/// What is done after each turn of the loop in front, if it is anything.
fn step_of(code: &[StmtTree]) -> Option<&[StmtTree]>
    ensures { step_in (code_of code.now) ≡ option_map code_of (option_copied result) }
{
    match code.split_first() {
        Some((StmtTree::Loop(_, _, _, step), _)) => {
            match leaving_in(step.as_slice()) {
                Some(Leaving::Ended) => None,
                Some(Leaving::Broken) => Some(step.as_slice()),
                Some(Leaving::Continued) => Some(step.as_slice()),
                None => Some(step.as_slice()),
            }
        }
        _ => None,
    }
}

/// Puts statements in front of the work.
pub fn push_rest<'a>(work: &mut Vec<Work<'a>>, code: &'a [StmtTree]) -> Result<(), AllocError>
    ensures { OnOk result (next_of_call work.new.items ≡ states.Rest
        (code_of code.entry.now) ∷ next_of_call work.old.items) }
{
    work.push(Work::Rest(code))?;
    Ok(())
}

/// Puts a loop, of which a turn runs, in front of the work.
pub fn push_turn<'a>(work: &mut Vec<Work<'a>>, code: &'a [StmtTree]) -> Result<(), AllocError>
    ensures { OnOk result (next_of_call work.new.items ≡ states.Turn
        (code_of code.entry.now) ∷ next_of_call work.old.items) }
{
    work.push(Work::Turn(code))?;
    Ok(())
}

/// Takes what is in front of the work, if there is anything.
pub fn take_front<'a>(work: &mut Vec<Work<'a>>) -> Option<Work<'a>>
    ensures front { MatchOption result (next_of_call work.old.items ≡ [])
        (λ w. next_of_call work.old.items ≡ work_of w ∷ next_of_call work.new.items) }
    ensures empty { IfNone result (next_of_call work.new.items ≡ []) }
    ensures shorter { OnSome result (vec_len work.new < vec_len work.old) }
{
    match work.pop() {
        Some(front) => Some(front),
        None => None,
    }
}

/// Statements begin, or how they are left.
fn begin<'a>(code: &'a [StmtTree], work: &mut Vec<Work<'a>>) -> Result<Option<Leaving>, AllocError>
    ensures left { IfOk result (λ how. when_left how (next_of_call work.new.items)
        ≡ begun (code_of code.entry.now) (λ how. resumed how (next_of_call work.old.items))
        (next_of_call work.old.items)) }
    ensures same { IfOk result (λ how. OnSome how (vec_len work.new ≤ vec_len work.old)) }
{
    match leaving_in(code) {
        Some(how) => Ok(Some(how)),
        None => {
            push_rest(work, code)?;
            Ok(None)
        }
    }
}

/// A turn of the loop in front of the statements is done.
fn turn<'a>(code: &'a [StmtTree], work: &mut Vec<Work<'a>>) -> Result<(), AllocError>
    ensures { OnOk result (next_of_call work.new.items ≡ turned (code_of code.entry.now)
        (next_of_call work.old.items)) }
{
    match step_of(code) {
        Some(step) => {
            push_rest(work, code)?;
            push_rest(work, step)
        }
        None => push_rest(work, code),
    }
}

/// Leaves what is in front of the work.
fn leave<'a>(
    how: Leaving,
    front: Work<'a>,
    work: &mut Vec<Work<'a>>,
) -> Result<Option<Leaving>, AllocError>
    ensures left { IfOk result (λ left. when_left left (next_of_call work.new.items) ≡ resumed
        (leaving_of how) (work_of front.entry ∷ next_of_call work.old.items)) }
    ensures same { IfOk result (λ left. OnSome left (vec_len work.new ≤ vec_len work.old)) }
{
    match (how, front) {
        (Leaving::Ended, Work::Rest(code)) => begin(code, work),
        (Leaving::Broken, Work::Rest(_)) => Ok(Some(how)),
        (Leaving::Continued, Work::Rest(_)) => Ok(Some(how)),
        (Leaving::Broken, Work::Turn(code)) => begin(behind(code), work),
        (Leaving::Ended, Work::Turn(code)) => {
            turn(code, work)?;
            Ok(None)
        }
        (Leaving::Continued, Work::Turn(code)) => {
            turn(code, work)?;
            Ok(None)
        }
    }
}

/// Drops what is no step, so that the next step is in front.
pub fn settle(work: &mut Vec<Work>) -> Result<(), AllocError>
    ensures { OnOk result (next_of_call work.new.items ≡ settled (next_of_call work.old.items)) }
{
    let mut how = Leaving::Ended;
    'fronts: while let Some(front) = take_front(work) {
        match leave(how, front, work)? {
            Some(next) => how = next,
            None => return Ok(()),
        }
    }
    Ok(())
}
