//! The values of a block by number: which registers hold them, and which checks have looked at them.
ghost use Rattle.std.specs.Prelude.{◌≡◌, [], IfOk, OnOk, false};
ghost use Rattle.ckc_passes.specs.Values.{computed as computed_of};
ghost use Rattle.ckc_passes_redundant.specs.code.Operations.{result_by};
ghost use Rattle.ckc_passes_redundant.specs.code.Tables.{Asks, Combines, Computes, IsTaken, KnowsAfter, Notes, Numbers, Writes, WritesIf, held_in, look_of, operand_in, word_in};

use crate::operations::{Operation, comparing, compute, number};
use ckc_base::{Check, check_number};
use ckc_tac::{Operand, TacOp};
use indexmap::{IndexMap, IndexSet};
use std::alloc::{AllocError, Global};

/// The value of a register: the one that a register has at the beginning of the block, a number, what the operation after
/// so many others of the block gives, or what is computed of two values, by its number.
#[derive(Clone, Copy, PartialEq, Eq, Hash)]
pub enum Value {
    AtEntry(u32),
    Word(u32),
    GivenAt(usize),
    Computed(usize),
}

/// How a value is computed: the number of the operation, and the two values.
#[derive(Clone, Copy, PartialEq, Eq, Hash)]
pub struct Work {
    operation: u32,
    left: Value,
    right: Value,
}

/// What a check looked at: the number of the check, and the value.
#[derive(Clone, Copy, PartialEq, Eq, Hash)]
pub struct Look {
    check: u32,
    value: Value,
}

/// What is known at a place of a block: the values of the registers that were written, how values are computed, and what
/// the checks looked at.
pub struct Table {
    held: IndexMap<u32, Value>,
    works: IndexSet<Work>,
    looks: IndexSet<Look>,
}

// Written out, so that an exit over which a table lives has one call in place of the table's parts.
impl Drop for Table {
    fn drop(self) {
        let Table {
            held: _held,
            works: _works,
            looks: _looks,
        } = self;
    }
}

impl Table {
    /// What is known at the beginning of a block. It takes no memory.
    pub fn new(alloc: Global) -> Table
        ensures { KnowsAfter [] result }
    {
        let held = IndexMap::new(alloc);
        let works = IndexSet::new(alloc);
        let looks = IndexSet::new(alloc);
        Table { held, works, looks }
    }

    /// Takes the next operation of the block, before which come so many others, and says whether it is a check that
    /// repeats an earlier one.
    pub fn take(&mut self, op: &TacOp, place: usize) -> Result<bool, AllocError>
        ensures { IfOk result (IsTaken op.now place self.old self.new) }
    {
        match op {
            TacOp::Const(t, n) => self.give(*t, Value::Word(*n)),
            TacOp::Copy(t, a) => self.copy(*t, *a),
            TacOp::Bin(op, t, a, b) => self.combine(Operation::Whole(*op), *t, *a, *b),
            TacOp::High(is_signed, t, a, b) => self.combine(
                Operation::Half(*is_signed),
                *t,
                *a,
                *b,
            ),
            TacOp::Load(_, t, _, _) => self.give(*t, Value::GivenAt(place)),
            TacOp::Store(_, _, _, _) => Ok(false),
            TacOp::Check(check, _, c, a, b) => self.ask(*check, comparing(*c), *a, *b),
            TacOp::Call(t, _, _, _) => self.give_if(*t, Value::GivenAt(place)),
            TacOp::Get(t) => self.give(*t, Value::GivenAt(place)),
            TacOp::Put(_) => Ok(false),
            TacOp::Alloc(t, _, _) => self.give(*t, Value::GivenAt(place)),
        }
    }

    /// Writes a value to a register. No check is repeated.
    fn give(&mut self, t: u32, value: Value) -> Result<bool, AllocError>
        ensures never { IfOk result (λ repeats. repeats ≡ false) }
        ensures writes { OnOk result (Writes t value self.old self.new) }
    {
        self.held.insert(t, value)?;
        Ok(false)
    }

    fn give_if(&mut self, t: Option<u32>, value: Value) -> Result<bool, AllocError>
        ensures never { IfOk result (λ repeats. repeats ≡ false) }
        ensures writes { OnOk result (WritesIf t value self.old self.new) }
    {
        match t {
            Some(t) => self.give(t, value),
            None => Ok(false),
        }
    }

    fn copy(&mut self, t: u32, a: u32) -> Result<bool, AllocError>
        ensures never { IfOk result (λ repeats. repeats ≡ false) }
        ensures writes { OnOk result (Writes t (held_in self.old a) self.old self.new) }
    {
        let value = self.held_by(a);
        self.give(t, value)
    }

    /// Writes to a register what an operation makes of two operands.
    fn combine(
        &mut self,
        operation: Operation,
        t: u32,
        a: Operand,
        b: Operand,
    ) -> Result<bool, AllocError>
        ensures never { IfOk result (λ repeats. repeats ≡ false) }
        ensures combines { OnOk result (Combines operation t a b self.old self.new) }
    {
        let value = self.value_of(operation, a, b)?;
        self.give(t, value)
    }

    /// What an operation makes of two operands.
    fn value_of(
        &mut self,
        operation: Operation,
        a: Operand,
        b: Operand,
    ) -> Result<Value, AllocError>
        ensures { IfOk result (Computes operation a b self.old self.new) }
    {
        let left = self.operand(a);
        let right = self.operand(b);
        match known(operation, left, right) {
            Some(n) => Ok(Value::Word(n)),
            None => self.numbered(Work {
                operation: number(operation),
                left,
                right,
            }),
        }
    }

    /// The value that is computed so, by its number.
    fn numbered(&mut self, work: Work) -> Result<Value, AllocError>
        ensures { IfOk result (Numbers work self.old self.new) }
    {
        let place = self.works.insert_full(work)?;
        Ok(Value::Computed(place.0))
    }

    /// Notes that a check looks at what an operation makes of two operands, and says whether a check of its number has
    /// looked at the same value.
    fn ask(
        &mut self,
        check: Check,
        operation: Operation,
        a: Operand,
        b: Operand,
    ) -> Result<bool, AllocError>
        ensures { IfOk result (Asks check operation a b self.old self.new) }
    {
        let value = self.value_of(operation, a, b)?;
        self.note(check, value)
    }

    /// Notes that a check looks at a value, and says whether a check of its number has looked at it.
    fn note(&mut self, check: Check, value: Value) -> Result<bool, AllocError>
        ensures { IfOk result (Notes (look_of check value) self.old self.new) }
    {
        let check = check_number(check);
        let is_new = self.looks.insert(Look { check, value })?;
        Ok(!is_new)
    }

    /// The value of an operand.
    fn operand(&self, a: Operand) -> Value
        ensures { result ≡ operand_in self.now a }
    {
        match a {
            Operand::Register(r) => self.held_by(r),
            Operand::Number(n) => Value::Word(n),
        }
    }

    /// The value that a register holds.
    fn held_by(&self, r: u32) -> Value
        ensures { result ≡ held_in self.now r }
    {
        match self.held.get(&r) {
            Some(value) => *value,
            None => Value::AtEntry(r),
        }
    }
}

/// What an operation gives for two values, if both are numbers.
fn known(operation: Operation, left: Value, right: Value) -> Option<u32>
    ensures { result ≡ computed_of (result_by operation) (word_in left) (word_in right) }
{
    match (left, right) {
        (Value::Word(a), Value::Word(b)) => Some(compute(operation, a, b)),
        _ => None,
    }
}
