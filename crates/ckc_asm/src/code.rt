//! The code of statements.
ghost use Rattle.std.specs.Prelude.{◌≡◌, ℕ, ◌+◌, ◌^◌, ◌<◌, ◌≤◌, List, ◌++◌, length, None, Some, OnOk, IfOk, IfErr, IsSome, IsTrue};
ghost use Rattle.ckc_base.specs.Places.{longest_text};
ghost use Rattle.ckc_asm.specs.declared.items.Operand.TheVariants as operands;
ghost use Rattle.ckc_asm.specs.Faults.{NamesNothing, HasNoWord, NoneHas, IsAt, IsOperand, unknown_label, out_of_range};
ghost use Rattle.ckc_asm.specs.code.Outcome.{IfRefused};
ghost use Rattle.ckc_asm.specs.code.Reading.{known, IsExact, IsWhole, ValueIs, StandsFor, LacksWord};
ghost use Rattle.ckc_asm.specs.code.Rows.{statement_in, statements_in};

use crate::encoding::word_of;
use crate::items::Operand;
use crate::labels::{Labels, width_of};
use crate::refusals::{OUT_OF_RANGE, UNKNOWN_LABEL};
use crate::statements::Row;
use ckc_base::memory_map::CODE_START;
use ckc_base::{Fault, Pos, refused};
use std::alloc::Global;

/// That each label that an item names stands somewhere.
pub fn check_names(rows: &[Row], labels: &Labels) -> Result<(), Fault>
    requires few { length rows.now ≤ longest_text + 1 }
    requires exact { IsExact (known labels.now) (statements_in rows.now) }
    ensures names { OnOk result (NoneHas (NamesNothing (statements_in rows.now))
        (statements_in rows.now)) }
    ensures fault { IfErr result (λ e. IfRefused e
        (λ code place. IsAt (NamesNothing (statements_in rows.now)) IsOperand
        (statements_in rows.now) place × (code ≡ unknown_label))) }
{
    for (k, row) in rows.iter().enumerate() {
        if is_unknown(row, labels) {
            let line = k as u32 + 1;
            let col = row.operand.col;
            return Err(refused(UNKNOWN_LABEL, Pos { line, col }));
        }
    }
    Ok(())
}

fn is_unknown(row: &Row, labels: &Labels) -> bool
    ensures unknown { IsTrue result → (row.now.item.operand ≡ operands.Named)
        × (known labels.now row.now.operand.text.now ≡ None) }
    ensures known { row.now.item.operand ≡ operands.Named
        → known labels.now row.now.operand.text.now ≡ None → IsTrue result }
{
    match row.item.operand {
        Operand::Named => labels.get(&row.operand.text).is_none(),
        _ => false,
    }
}

/// The code of statements, or the first of which the number is out of range.
pub fn code_of(alloc: Global, rows: &[Row], labels: &Labels) -> Result<Vec<u8>, Fault>
    requires few { length rows.now ≤ longest_text + 1 }
    requires exact { IsExact (known labels.now) (statements_in rows.now) }
    requires named { NoneHas (NamesNothing (statements_in rows.now)) (statements_in rows.now) }
    ensures code { IfOk result (λ code. IsWhole (statements_in rows.now) code.items
        × NoneHas (HasNoWord (statements_in rows.now)) (statements_in rows.now)) }
    ensures fault { IfErr result (λ e. IfRefused e
        (λ code place. IsAt (HasNoWord (statements_in rows.now)) IsOperand
        (statements_in rows.now) place × (code ≡ out_of_range))) }
{
    let mut code = Vec::new(alloc);
    let mut address = CODE_START;
    for (k, row) in rows.iter().enumerate() {
        put_statement(&mut code, row, labels, address, k as u32 + 1)?;
        address += width_of(&row.item.form);
    }
    Ok(code)
}

fn put_statement(
    code: &mut Vec<u8>,
    row: &Row,
    labels: &Labels,
    address: u32,
    line: u32,
) -> Result<(), Fault>
    requires { row.now.item.operand ≡ operands.Named
        → IsSome (known labels.now row.now.operand.text.now) }
    ensures ok { OnOk result ((bytes : List ℕ) × (code.new.items ≡ code.old.items ++ bytes)
        × StandsFor (known labels.now) address (statement_in row.now) bytes) }
    ensures fault { IfErr result (λ e. IfRefused e
        (λ code place. (code ≡ out_of_range)
        × (place ≡ (record { line = line; col = row.now.operand.col }))
        × LacksWord (known labels.now) address (statement_in row.now))) }
{
    if width_of(&row.item.form) == 0 {
        return Ok(());
    }
    let value = value_of(row, labels, address);
    match word_of(&row.item.form, value) {
        Some(word) => {
            code.extend_from_slice(&word.to_le_bytes())?;
            Ok(())
        }
        None => {
            let col = row.operand.col;
            Err(refused(OUT_OF_RANGE, Pos { line, col }))
        }
    }
}

/// The number of an item: its own, or how far its label is.
fn value_of(row: &Row, labels: &Labels, address: u32) -> i64
    requires { row.now.item.operand ≡ operands.Named
        → IsSome (known labels.now row.now.operand.text.now) }
    ensures { ValueIs (known labels.now) address row.now.operand.text.now row.now.item.operand
        result }
{
    match row.item.operand {
        Operand::Nothing => 0,
        Operand::Number(n) => n,
        Operand::Named => i64::from(target_of(labels, row.operand.text)) - i64::from(address),
    }
}

/// The address of a label that the table has.
pub fn target_of(labels: &Labels, name: &[u8]) -> u32
    requires { IsSome (known labels.now name.now) }
    ensures { known labels.now name.now ≡ Some result }
{
    match labels.get(&name) {
        Some(address) => *address,
        None => unreachable!(),
    }
}
