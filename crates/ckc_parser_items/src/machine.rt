ghost use Rattle.std.specs.Prelude.{◌≡◌, ◌<◌, ◌+◌, ◌∷◌, length, map, slice_get, OnOk, IfOk};
ghost use Rattle.ckc_syntax.specs.Spelled.{spelled};
ghost use Rattle.ckc_parser_grammar.specs.code.Trace.{event, events, rule_of, tokens_in};
ghost use Rattle.ckc_parser_values.specs.code.Programs.{run, program, played};
ghost use Rattle.ckc_parser_items.specs.code.Playing.{nothing, Takes, Plays};

use crate::acts::act;
use crate::rows::{lengths, programs};
use ckc_base::Bytes;
use ckc_parser_grammar::TOKEN;
use ckc_parser_values::Held;
use ckc_syntax::Token;
use std::alloc::{AllocError, Global};
use std::mem::forget;

/// The byte with the index, from 0, if there is one.
fn byte_at(table: &[u8], at: usize) -> Option<u8>
    ensures { result ≡ slice_get table.now at }
{
    table.get(at).copied()
}

/// The actions of a production.
fn close<'a>(alloc: Global, held: &mut Held<'a>, rule: u8) -> Result<(), AllocError>
    ensures { OnOk result (held.new ≡ run (program (rule_of rule)) held.old) }
{
    let Some(length) = byte_at(lengths(), rule as usize) else {
        return Err(AllocError);
    };
    let start = rule as usize * 8;
    for k in 0..length {
        let Some(b) = byte_at(programs(), start + k as usize) else {
            return Err(AllocError);
        };
        act(alloc, held, b)?;
    }
    Ok(())
}

/// Puts the last token that is left on the stack.
fn put_token<'a>(
    held: &mut Held<'a>,
    tokens: &'a [Token<'a>],
    left: usize,
) -> Result<usize, AllocError>
    ensures { IfOk result (λ after. Takes (map spelled tokens.now) left held.old after held.new) }
{
    let Some(after) = left.checked_sub(1) else {
        return Err(AllocError);
    };
    let Some(token) = tokens.get(after) else {
        return Err(AllocError);
    };
    held.tokens.push(*token)?;
    Ok(after)
}

/// One event, from the end of the trace: how many tokens are left.
#[tactic(auto, using(crate::proofs::Playing::is_taken, crate::proofs::Playing::is_opened))]
fn play<'a>(
    alloc: Global,
    held: &mut Held<'a>,
    number: u8,
    tokens: &'a [Token<'a>],
    left: usize,
) -> Result<usize, AllocError>
    ensures { IfOk result
        (λ after. Plays (event number) (map spelled tokens.now) left held.old after held.new) }
{
    if number == TOKEN {
        return put_token(held, tokens, left);
    }
    close(alloc, held, number)?;
    Ok(left)
}

/// What a trace makes of the tokens, from the last event. What is made before memory runs out is not dropped, since a
/// deep tree would be by recursion.
#[tactic(auto, using(crate::proofs::Playing::begins, crate::proofs::Playing::next_event, crate::proofs::Playing::ends))]
pub fn build<'a>(
    alloc: Global,
    tokens: &'a [Token<'a>],
    trace: Bytes,
) -> Result<Held<'a>, AllocError>
    requires { tokens_in (events trace) ≡ length tokens.now }
    ensures { IfOk result
        (λ held. held ≡ played (events trace) (map spelled tokens.now) nothing) }
{
    let mut held = Held::new(alloc);
    let mut rest = trace;
    let mut left = tokens.len();
    'events: while let Some(event) = rest.pop() {
        left = match play(alloc, &mut held, event, tokens, left) {
            Ok(after) => after,
            Err(e) => {
                forget(held);
                return Err(e);
            }
        };
    }
    Ok(held)
}
