//! The item of words.
ghost use Rattle.std.specs.Prelude.{◌≡◌, ◌≤◌, List, ℕ, length, Option, IfSome, option_and_then};
ghost use Rattle.std.specs.Option.{option_map};
ghost use Rattle.ckc_asm.specs.code.Rows.{texts_of};
ghost use Rattle.ckc_asm.specs.Program.{IsEntry};
ghost use Rattle.ckc_asm.specs.code.Reading.{HasTarget};
ghost use Rattle.ckc_asm.specs.Items.{item};
ghost use Rattle.ckc_asm.specs.code.Found.{item_of, item_with, number_operand, target_of, one_register, two_registers, three_registers, from_base, just, alone, data_of, bytes_of};
ghost use Rattle.ckc_asm.specs.declared.items.Form.{Form};
ghost use Rattle.ckc_asm.specs.declared.items.Form.TheVariants as form;
ghost use Rattle.ckc_asm.specs.declared.items.Operand.{Operand};
ghost use Rattle.ckc_asm.specs.declared.items.Operand.TheVariants as operands;

use crate::items::{Form, Item, Kind, Operand, Sixteen};
use crate::kinds::kind_of;
use crate::numerals::{byte_of, is_name, number_of, register_of};
use crate::shapes::{based, one, three, two};
use crate::spots::Spot;

/// The item of words. No word is no item.
#[tactic(auto, unfolding(crate::specs::code::Found::item_of))]
pub fn item_of(words: &[Spot]) -> Option<Item>
    ensures item { result ≡ item_of (texts_of words.now) }
    ensures target { IfSome result (λ i. HasTarget i) }
{
    if words.is_empty() {
        return Some(bare(Form::Nothing));
    }
    let kind = kind_of(words[0].text)?;
    item_with(kind, &words[1..])
}

#[tactic(auto, unfolding(crate::specs::code::Found::item_with))]
fn item_with(kind: Kind, words: &[Spot]) -> Option<Item>
    ensures item { result ≡ item_with kind (texts_of words.now) }
    ensures target { IfSome result (λ i. HasTarget i) }
{
    match kind {
        Kind::Lui => match one_register(words) {
            Some((rd, last)) => number_item(Form::Lui(rd), last),
            None => None,
        },
        Kind::Auipc => match one_register(words) {
            Some((rd, last)) => number_item(Form::Auipc(rd), last),
            None => None,
        },
        Kind::Jal => match one_register(words) {
            Some((rd, last)) => target_item(Form::Jal(rd), last),
            None => None,
        },
        Kind::Jalr => match from_base(words) {
            Some((rd, offset, rs1)) => Some(numbered(Form::Jalr(rd, rs1), offset)),
            None => None,
        },
        Kind::Branch(op) => match two_registers(words) {
            Some((rs1, rs2, last)) => target_item(Form::Branch(op, rs1, rs2), last),
            None => None,
        },
        Kind::Load(op) => match from_base(words) {
            Some((rd, offset, rs1)) => Some(numbered(Form::Load(op, rd, rs1), offset)),
            None => None,
        },
        Kind::Store(op) => match from_base(words) {
            Some((rs2, offset, rs1)) => Some(numbered(Form::Store(op, rs1, rs2), offset)),
            None => None,
        },
        Kind::Imm(op) => match two_registers(words) {
            Some((rd, rs1, last)) => number_item(Form::Imm(op, rd, rs1), last),
            None => None,
        },
        Kind::Reg(op) => match three_registers(words) {
            Some((rd, rs1, rs2)) => Some(bare(Form::Reg(op, rd, rs1, rs2))),
            None => None,
        },
        Kind::Fence => match one(words) {
            Some(last) => number_item(Form::Fence, last),
            None => None,
        },
        Kind::Ecall => alone(Form::Ecall, words),
        Kind::Ebreak => alone(Form::Ebreak, words),
        Kind::Word => match one(words) {
            Some(last) => number_item(Form::Word, last),
            None => None,
        },
        Kind::Entry => match one(words) {
            Some(last) => target_item(Form::Entry, last),
            None => None,
        },
        Kind::Data => data_item(words),
    }
}

fn bare(form: Form) -> Item
    ensures { result ≡ item form operands.Nothing }
{
    Item {
        form,
        operand: Operand::Nothing,
    }
}

fn numbered(form: Form, n: i64) -> Item
    ensures { result ≡ item form (operands.Number n) }
{
    Item {
        form,
        operand: Operand::Number(n),
    }
}

fn number_item(form: Form, last: &[u8]) -> Option<Item>
    ensures item { result ≡ option_map (item form) (number_operand last.now) }
    ensures target { IfSome result (λ i. HasTarget i) }
{
    let n = number_of(last)?;
    Some(numbered(form, n))
}

fn target_item(form: Form, last: &[u8]) -> Option<Item>
    ensures item { result ≡ option_map (item form) (target_of last.now) }
    ensures target { IfSome result (λ i. HasTarget i) }
{
    if is_name(last) {
        Some(Item {
            form,
            operand: Operand::Named,
        })
    } else {
        number_item(form, last)
    }
}

/// `ecall` or `ebreak`.
fn alone(form: Form, words: &[Spot]) -> Option<Item>
    requires { IsEntry form → ⊥ }
    ensures item { result ≡ alone (texts_of words.now) form }
    ensures target { IfSome result (λ i. HasTarget i) }
{
    if words.is_empty() {
        Some(bare(form))
    } else {
        None
    }
}

/// A register and a word.
fn one_register<'a>(words: &[Spot<'a>]) -> Option<(u8, &'a [u8])>
    ensures { (f : ℕ → Form) (last : List ℕ → Option Operand)
        → one_register (texts_of words.now) f last ≡ option_and_then
        (λ r. option_map (item (f r.0)) (last r.1.now)) result }
{
    let (a, last) = two(words)?;
    let rd = register_of(a)?;
    Some((rd, last))
}

/// Two registers and a word.
fn two_registers<'a>(words: &[Spot<'a>]) -> Option<(u8, u8, &'a [u8])>
    ensures { (f : ℕ → ℕ → Form) (last : List ℕ → Option Operand)
        → two_registers (texts_of words.now) f last ≡ option_and_then
        (λ r. option_map (item (f r.0 r.1)) (last r.2.now)) result }
{
    let (a, b, last) = three(words)?;
    let first = register_of(a)?;
    let second = register_of(b)?;
    Some((first, second, last))
}

fn three_registers(words: &[Spot]) -> Option<(u8, u8, u8)>
    ensures { (f : ℕ → ℕ → ℕ → Form) → three_registers (texts_of words.now) f ≡ option_map
        (λ r. item (f r.0 r.1 r.2) operands.Nothing) result }
{
    let (a, b, last) = three(words)?;
    let first = register_of(a)?;
    let second = register_of(b)?;
    let third = register_of(last)?;
    Some((first, second, third))
}

/// A register, and an offset from another.
fn from_base(words: &[Spot]) -> Option<(u8, i64, u8)>
    ensures { (f : ℕ → ℕ → Form) → from_base (texts_of words.now) f ≡ option_map
        (λ r. item (f r.0 r.2) (operands.Number r.1)) result }
{
    let (a, b, last) = based(words)?;
    let first = register_of(a)?;
    let offset = number_of(b)?;
    let base = register_of(last)?;
    Some((first, offset, base))
}

fn data_item(words: &[Spot]) -> Option<Item>
    ensures item { result ≡ data_of (texts_of words.now) }
    ensures target { IfSome result (λ i. HasTarget i) }
{
    if words.is_empty() || words.len() > 16 {
        return None;
    }
    let bytes = bytes_of(words)?;
    Some(bare(Form::Data(bytes)))
}

fn bytes_of(words: &[Spot]) -> Option<Sixteen>
    requires { length words.now ≤ 16 }
    ensures { result ≡ bytes_of (texts_of words.now) }
{
    let mut bytes = Sixteen::new();
    for word in words {
        let byte = byte_of(word.text)?;
        bytes.push(byte);
    }
    Some(bytes)
}
