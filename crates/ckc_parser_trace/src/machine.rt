ghost use Rattle.std.specs.Prelude.{◌≡◌, ◌<◌, ◌≤◌, ◌*◌, true, List, [], ◌∷◌, ◌++◌, length, take, drop, get_or, map, slice_get, MatchOption, OnOk, IfSome};
ghost use Rattle.ckc_syntax.specs.Spelled.{spelled};
ghost use Rattle.ckc_parser_grammar.specs.declared.kind.Kind.TheVariants.{End};
ghost use Rattle.ckc_parser_grammar.specs.code.Fits.{number};
ghost use Rattle.ckc_parser_grammar.specs.code.Grammar.{t, n, one, right, text};
ghost use Rattle.ckc_parser_grammar.specs.code.Derives.{Sign};
ghost use Rattle.ckc_parser_grammar.specs.code.Reading.{kind_of};
ghost use Rattle.ckc_parser_grammar.specs.code.Marked.{ahead};
ghost use Rattle.ckc_parser_grammar.specs.code.Trace.{events, rule_of};
ghost use Rattle.ckc_parser_trace.specs.code.Turns.{all_kinds, rows, symbol_of, turn, turn_of};
ghost use Rattle.ckc_parser_trace.specs.code.Moves.{Tells, Leaves};
ghost use Rattle.ckc_parser_trace.specs.code.Runs.{symbols_on, Runs, Steps, Ends, IsFaultOf, Recognises};

use crate::moves::moves;
use crate::rows::{lengths, rights, turns};
use ckc_base::{Bytes, Fault, Pos};
use ckc_parser_grammar::{Kind, Reader, Stop, TOKEN};
use ckc_syntax::Token;
use std::alloc::{AllocError, Global};

/// The byte where a token does not go on.
const NONE: u8 = 254;

/// How many kinds of tokens there are, and so how long a row of `turns` is.
const KINDS: u8 = 81;

/// The bytes from here on are symbols for tokens of one kind.
const ONE: u8 = 91;

/// The number of a kind.
fn kind_number(kind: Kind) -> u8
    ensures { result ≡ number kind }
{
    kind as u8
}

/// The byte with the index, from 0, if there is one.
fn byte_at(table: &[u8], at: usize) -> Option<u8>
    ensures { result ≡ slice_get table.now at }
{
    table.get(at).copied()
}

/// Takes the top symbol.
fn pop_symbol(stack: &mut Vec<u8>) -> Option<u8>
    ensures { MatchOption result (symbols_on stack.old.items ≡ [])
        (λ b. symbols_on stack.old.items ≡ symbol_of b ∷ symbols_on stack.new.items) }
{
    stack.pop()
}

/// What a token of one kind does before a token of a kind.
#[tactic(auto, using(crate::proofs::Bytes::same_one))]
fn one_turn(wanted: u8, kind: Kind) -> Option<u8>
    ensures { IfSome result (λ b. turn_of b ≡ turn (t (one (get_or all_kinds wanted End))) kind) }
{
    if wanted >= KINDS {
        return None;
    }
    if wanted == kind_number(kind) {
        Some(TOKEN)
    } else {
        Some(NONE)
    }
}

/// What a part or a class of tokens does before a token of a kind.
fn row_turn(row: u8, kind: Kind) -> Option<u8>
    requires { row < 91 }
    ensures { IfSome result (λ b. turn_of b ≡ turn (get_or rows row (n text)) kind) }
{
    let at = row as usize * KINDS as usize + kind_number(kind) as usize;
    byte_at(turns(), at)
}

/// What a symbol does before a token of a kind.
#[tactic(auto, using(crate::proofs::Bytes::low, crate::proofs::Bytes::high))]
fn turn_at(symbol: u8, kind: Kind) -> Option<u8>
    ensures { IfSome result (λ b. turn_of b ≡ turn (symbol_of symbol) kind) }
{
    if symbol < ONE {
        row_turn(symbol, kind)
    } else {
        one_turn(symbol - ONE, kind)
    }
}

/// Puts what a production is made of on the stack.
fn open(rule: u8, stack: &mut Vec<u8>) -> Result<(), AllocError>
    ensures { OnOk result
        (symbols_on stack.new.items ≡ right (rule_of rule) ++ symbols_on stack.old.items) }
{
    let Some(length) = byte_at(lengths(), rule as usize) else {
        return Err(AllocError);
    };
    let start = rule as usize * 10;
    for k in 0..length {
        let Some(b) = byte_at(rights(), start + k as usize) else {
            return Err(AllocError);
        };
        stack.push(b)?;
    }
    Ok(())
}

/// Takes a token.
#[tactic(auto, using(crate::proofs::Bytes::one_taken))]
fn take_token(reader: &mut Reader) -> Result<(), AllocError>
    ensures { OnOk result (Leaves true (ahead reader.old) (ahead reader.new)) }
{
    let kind = reader.kind();
    if kind == Kind::End {
        return Err(AllocError);
    }
    match reader.take(kind) {
        Ok(_) => Ok(()),
        Err(_) => Err(AllocError),
    }
}

/// One move, by the top symbol.
#[tactic(auto, using(crate::proofs::Bytes::opens, crate::proofs::Bytes::misses))]
fn step(
    symbol: u8,
    reader: &mut Reader,
    stack: &mut Vec<u8>,
    trace: &mut Vec<u8>,
) -> Result<(), Stop>
    ensures { Steps (symbol_of symbol) (ahead reader.old) (symbols_on stack.old.items)
        (events trace.old.items) result (ahead reader.new) (symbols_on stack.new.items)
        (events trace.new.items) }
{
    let Some(turn) = turn_at(symbol, reader.kind()) else {
        return Err(Stop::Memory);
    };
    if turn == NONE {
        return Err(Stop::Syntax);
    }
    trace.push(turn)?;
    if turn == TOKEN {
        take_token(reader)?;
        return Ok(());
    }
    open(turn, stack)?;
    Ok(())
}

/// What a symbol does before a token of a kind, as a row of sixteen bytes, if there is one.
fn row_at(symbol: u8, kind: Kind) -> Option<&'static [u8]>
    requires { symbol < 91 }
    ensures { IfSome result (λ row. Tells row.now (get_or rows symbol (n text)) kind) }
{
    let (numbers, table) = moves();
    let at = (symbol as usize * KINDS as usize + kind_number(kind) as usize) * 2;
    let low = byte_at(numbers, at)?;
    let high = byte_at(numbers, at + 1)?;
    let row = row_of(table, low as usize + high as usize * 256)?;
    let opened = byte_at(row, 7)?;
    if opened == 0 {
        return None;
    }
    Some(row)
}

/// The row of a table with the number, from 0, if there is one.
fn row_of(table: &'static [u8], number: usize) -> Option<&'static [u8]>
    requires { number < 65536 }
    ensures { IfSome result (λ row. (16 ≤ length (drop (number * 16) table.now))
        × (row.now ≡ take 16 (drop (number * 16) table.now))) }
{
    let (_, rest) = table.split_at_checked(number * 16)?;
    let (row, _) = rest.split_at_checked(16)?;
    Some(row)
}

/// Adds so many of the bytes of a row to a list. All of a short row are copied at once, which is faster.
fn append(list: &mut Vec<u8>, row: &[u8], count: u8) -> Result<(), AllocError>
    ensures { OnOk result (list.new.items ≡ list.old.items ++ take count row.now) }
{
    let len = list.len() + count as usize;
    list.extend_from_slice(row)?;
    list.truncate(len);
    Ok(())
}

/// The moves that a row tells.
fn play(
    symbol: u8,
    row: &[u8],
    reader: &mut Reader,
    stack: &mut Vec<u8>,
    trace: &mut Vec<u8>,
) -> Result<(), AllocError>
    requires { Tells row.now (symbol_of symbol) (kind_of (ahead reader.old)) }
    ensures { OnOk result ((old : List Sign)
        → Runs old (symbol_of symbol ∷ symbols_on stack.old.items) (ahead reader.old)
        (events trace.old.items)
        → Runs old (symbols_on stack.new.items) (ahead reader.new) (events trace.new.items)) }
{
    let Some((front, back)) = row.split_at_checked(8) else {
        return Err(AllocError);
    };
    let (Some(opened), Some(takes), Some(left)) = (
        byte_at(row, 7),
        byte_at(row, 14),
        byte_at(row, 15),
    ) else {
        return Err(AllocError);
    };
    append(trace, front, opened)?;
    append(stack, back, left)?;
    if takes == 1 {
        take_token(reader)?;
    }
    Ok(())
}

/// The moves that follow one another before one token, or one move.
fn go_on(
    symbol: u8,
    reader: &mut Reader,
    stack: &mut Vec<u8>,
    trace: &mut Vec<u8>,
) -> Result<(), Stop>
    ensures { Steps (symbol_of symbol) (ahead reader.old) (symbols_on stack.old.items)
        (events trace.old.items) result (ahead reader.new) (symbols_on stack.new.items)
        (events trace.new.items) }
{
    if symbol < ONE {
        if let Some(row) = row_at(symbol, reader.kind()) {
            play(symbol, row, reader, stack, trace)?;
            return Ok(());
        }
    }
    step(symbol, reader, stack, trace)
}

/// The trace of the tokens of a text; or E120 at the first token that no continuation admits, and at `end`, the
/// place just past the text, where the tokens run out.
#[tactic(auto, using(crate::proofs::Recognised::started))]
pub fn recognise<'a>(alloc: Global, tokens: &'a [Token<'a>], end: Pos) -> Result<Bytes, Fault>
    ensures { Recognises (map spelled tokens.now) end result }
{
    let mut reader = Reader::new(tokens);
    let mut trace = Vec::new(alloc);
    let mut stack = Vec::new(alloc);
    stack.push(0)?;
    for _ in 0..u64::MAX {
        let Some(symbol) = pop_symbol(&mut stack) else {
            return ended(&reader, end, Bytes::from_vec(trace));
        };
        match go_on(symbol, &mut reader, &mut stack, &mut trace) {
            Ok(()) => {}
            Err(stop) => return Err(fault_of(stop, &reader, end)),
        }
    }
    Err(Fault::Memory)
}

/// Why there is no trace: the next token does not go on, or memory ran out.
fn fault_of(stop: Stop, reader: &Reader, end: Pos) -> Fault
    ensures { IsFaultOf stop (ahead reader.now) end result }
{
    match stop {
        Stop::Syntax => Fault::Refused(reader.refusal(end)),
        Stop::Memory => Fault::Memory,
    }
}

/// The trace, if no token is left.
fn ended(reader: &Reader, end: Pos, trace: Bytes) -> Result<Bytes, Fault>
    ensures { Ends (ahead reader.now) end trace result }
{
    if reader.is_at_end() {
        Ok(trace)
    } else {
        Err(Fault::Refused(reader.refusal(end)))
    }
}
