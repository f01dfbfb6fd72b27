//! Where the labels of a text stand.
ghost use Rattle.std.specs.Prelude.{◌≡◌, ℕ, ◌+◌, ◌<◌, ◌≤◌, ℤ, Bool, List, length, if◌then◌else◌, bytes_eq, Option, None, Some, OnOk, IfOk, IfErr, IfSome, IsSome, IsTrue};
ghost use Rattle.ckc_base.specs.Places.{longest_text};
ghost use Rattle.ckc_asm.specs.declared.items.Operand.TheVariants as operands;
ghost use Rattle.ckc_asm.specs.Program.{width_of};
ghost use Rattle.ckc_asm.specs.Faults.{HasOldLabel, NamesNothing, NoneHas, IsAt, IsLabel, IsOperand, second_label};
ghost use Rattle.ckc_asm.specs.code.Outcome.{IfRefused};
ghost use Rattle.ckc_asm.specs.code.Reading.{known, IsExact, ValueIs};
ghost use Rattle.ckc_asm.specs.code.Rows.{statement_in, statements_in};

use crate::items::{Form, Operand};
use crate::refusals::SECOND_LABEL;
use crate::spots::Spot;
use crate::statements::Row;
use ckc_base::memory_map::CODE_START;
use ckc_base::{Fault, Pos, refused};
use indexmap::IndexMap;
use std::alloc::Global;

/// The address of each label by its name.
pub type Labels<'a> = IndexMap<&'a [u8], u32>;

/// The labels of statements, or the first label that stands a second time.
pub fn labels_of<'a>(alloc: Global, rows: &[Row<'a>]) -> Result<Labels<'a>, Fault>
    requires { length rows.now ≤ longest_text + 1 }
    ensures labels { IfOk result (λ labels. IsExact (known labels) (statements_in rows.now)
        × NoneHas (HasOldLabel (statements_in rows.now)) (statements_in rows.now)) }
    ensures fault { IfErr result (λ e. IfRefused e
        (λ code place. IsAt (HasOldLabel (statements_in rows.now)) IsLabel
        (statements_in rows.now) place × (code ≡ second_label))) }
{
    let mut labels = IndexMap::new(alloc);
    let mut address = CODE_START;
    for (k, row) in rows.iter().enumerate() {
        if let Some(label) = row.label {
            put_label(&mut labels, label, address, k as u32 + 1)?;
        }
        address += width_of(&row.item.form);
    }
    Ok(labels)
}

fn put_label<'a>(
    labels: &mut Labels<'a>,
    label: Spot<'a>,
    address: u32,
    line: u32,
) -> Result<(), Fault>
    ensures fresh { OnOk result (known labels.old label.entry.text.now ≡ None) }
    ensures next { OnOk result ((name : List ℕ)
        → known labels.new name ≡ (if bytes_eq label.entry.text.now name then Some address else
        known labels.old name)) }
    ensures fault { IfErr result (λ e. IfRefused e
        (λ code place. (code ≡ second_label)
        × (place ≡ (record { line = line; col = label.entry.col }))
        × IsSome (known labels.old label.entry.text.now))) }
{
    if labels.get(&label.text).is_some() {
        let col = label.col;
        return Err(refused(SECOND_LABEL, Pos { line, col }));
    }
    labels.insert(label.text, address)?;
    Ok(())
}

/// How many bytes of code an item takes.
pub fn width_of(form: &Form) -> u32
    ensures { result ≡ width_of form.now }
{
    match form {
        Form::Nothing | Form::Entry | Form::Data(_) => 0,
        _ => 4,
    }
}
