//! The statements of a text, one for each line.
ghost use Rattle.std.specs.Prelude.{◌≡◌, ◌⊎◌, ℕ, ◌+◌, ◌≤◌, ◌↔◌, List, length, map, slice_get, Some, unwrap_or, IsTrue, IfOk, IfErr, IfSome};
ghost use Rattle.std.specs.Borrow.{Bor};
ghost use Rattle.std.specs.Option.{option_map};
ghost use Rattle.ckc_base.specs.Places.{longest_text};
ghost use Rattle.ckc_asm.specs.Cut.{lines_of};
ghost use Rattle.ckc_asm.specs.Items.{no_word, operand_index};
ghost use Rattle.ckc_asm.specs.code.Found.{reading, statement_of, statement_with};
ghost use Rattle.ckc_asm.specs.Program.{IsEntry};
ghost use Rattle.ckc_asm.specs.code.Outcome.{IfRefused};
ghost use Rattle.ckc_asm.specs.code.Reading.{readings_in, HasTarget, AreRead, IsFormFault, IsRefusedLine};
ghost use Rattle.ckc_asm.specs.code.Rows.{word_of, statement_in, statements_in};
ghost use Rattle.ckc_asm.specs.Faults.{no_form};

use crate::item_reader::item_of;
use crate::items::{Form, Item};
use crate::numerals::is_name;
use crate::refusals::NO_FORM;
use crate::shapes::is_sign;
use crate::spots::{Spot, words_of};
use ckc_base::{Fault, Pos, refused};
use std::alloc::{AllocError, Global};

/// A line: its label, its item, and the word of the item's number or label.
#[derive(Drop)]
pub struct Row<'a> {
    pub label: Option<Spot<'a>>,
    pub item: Item,
    pub operand: Spot<'a>,
}

/// The lines of a text.
pub fn lines_of<'a>(alloc: Global, text: &'a [u8]) -> Result<Vec<&'a [u8]>, AllocError>
    ensures { IfOk result (λ lines. map (λ l. l.now) lines.items ≡ lines_of text.now) }
{
    text.split(|b| *b == b'\n').collect(alloc)
}

/// The statements of lines, or the first line without one or with a second `.entry`.
pub fn rows_of<'a>(alloc: Global, lines: &[&'a [u8]]) -> Result<Vec<Row<'a>>, Fault>
    requires short { (k : ℕ) (line : Bor (List ℕ)) → slice_get lines.now k ≡ Some line
        → length line.now ≤ longest_text }
    requires few { length lines.now ≤ longest_text + 1 }
    ensures rows { IfOk result (λ rows. AreRead (readings_in lines.now)
        (statements_in rows.items)) }
    ensures fault { IfErr result (λ e. IfRefused e
        (λ code place. IsFormFault (readings_in lines.now) code place)) }
{
    let mut rows = Vec::new(alloc);
    let mut entered = false;
    for (k, line) in lines.iter().enumerate() {
        let row = next_row(alloc, line, k as u32 + 1, entered)?;
        entered = has_entered(entered, &row.item.form);
        rows.push(row)?;
    }
    Ok(rows)
}

fn has_entered(entered: bool, form: &Form) -> bool
    ensures { IsTrue result ↔ (IsTrue entered ⊎ IsEntry form.now) }
{
    entered || is_entry(form)
}

/// The statement of a line, which is refused if it has none, or a second `.entry`.
fn next_row<'a>(alloc: Global, line: &'a [u8], number: u32, entered: bool) -> Result<Row<'a>, Fault>
    requires { length line.now ≤ longest_text }
    ensures row { IfOk result (λ row. (reading line.now ≡ Some (statement_in row))
        × HasTarget row.item × (IsTrue entered → IsEntry row.item.form → ⊥)) }
    ensures fault { IfErr result (λ e. IfRefused e
        (λ code place. (code ≡ no_form) × (place ≡ (record { line = number; col = 1 }))
        × IsRefusedLine entered (reading line.now))) }
{
    match row_of(alloc, line)? {
        Some(row) => {
            if entered && is_entry(&row.item.form) {
                return Err(no_form(number));
            }
            Ok(row)
        }
        None => Err(no_form(number)),
    }
}

fn no_form(line: u32) -> Fault
    ensures { result ≡ Fault.Refused (record {
      code = no_form;
      pos = record {
        line = line;
        col =
            1;
      };
    }) }
{
    refused(NO_FORM, Pos { line, col: 1 })
}

/// The statement of a line, if its form is right.
fn row_of<'a>(alloc: Global, line: &'a [u8]) -> Result<Option<Row<'a>>, AllocError>
    requires { length line.now ≤ longest_text }
    ensures row { IfOk result (λ row. option_map statement_in row ≡ reading line.now) }
    ensures target { IfOk result (λ row. IfSome row (λ r. HasTarget r.item)) }
{
    let words = words_of(alloc, line)?;
    Ok(statement_of(words.as_slice()))
}

#[tactic(auto, unfolding(crate::specs::code::Found::statement_of))]
fn statement_of<'a>(words: &[Spot<'a>]) -> Option<Row<'a>>
    ensures row { option_map statement_in result ≡ statement_of (map word_of words.now) }
    ensures target { IfSome result (λ r. HasTarget r.item) }
{
    if words.len() >= 2 && is_sign(b':', words[1].text) {
        if is_name(words[0].text) {
            statement_with(Some(words[0]), &words[2..])
        } else {
            None
        }
    } else {
        statement_with(None, words)
    }
}

fn statement_with<'a>(label: Option<Spot<'a>>, words: &[Spot<'a>]) -> Option<Row<'a>>
    ensures row { option_map statement_in result ≡ statement_with (option_map word_of label.entry)
        (map word_of words.now) }
    ensures target { IfSome result (λ r. HasTarget r.item) }
{
    match item_of(words) {
        Some(item) => {
            let operand = word_at(words, operand_index(&item.form));
            Some(Row {
                label,
                item,
                operand,
            })
        }
        None => None,
    }
}

fn word_at<'a>(words: &[Spot<'a>], at: usize) -> Spot<'a>
    ensures { word_of result ≡ unwrap_or (slice_get (map word_of words.now) at) no_word }
{
    if at < words.len() {
        words[at]
    } else {
        Spot { col: 0, text: b"" }
    }
}

/// Which of the words of an item its number or label is.
fn operand_index(form: &Form) -> usize
    ensures { result ≡ operand_index form.now }
{
    match form {
        Form::Branch(_, _, _) | Form::Imm(_, _, _) => 5,
        Form::Fence | Form::Word | Form::Entry => 1,
        _ => 3,
    }
}

/// Whether an item is `.entry`.
pub fn is_entry(form: &Form) -> bool
    ensures { IsTrue result ↔ IsEntry form.now }
{
    match form {
        Form::Entry => true,
        _ => false,
    }
}
