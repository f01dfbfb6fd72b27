//! The registers that are live in front of operations and of the end of a block, from those that are live after them.
ghost use Rattle.std.specs.Prelude.{◌≡◌, [], ◌∷◌, get_or, length, set, false, List};
ghost use Rattle.ckc_tac.specs.declared.code.TacFunc.{TacFunc};
ghost use Rattle.ckc_tac.specs.declared.code.TacOp.{TacOp};
ghost use Rattle.ckc_tac.specs.declared.code.TacEnd.{TacEnd};
ghost use Rattle.ckc_flow.specs.Live.{AreExact, IsExact};
ghost use Rattle.ckc_flow.specs.code.Rows.{all_marked, cleared, ended, joined, marked, passed, passed_all};

use ckc_base::Seq;
use ckc_tac::{Operand, TacEnd, TacOp};

/// Makes the row of the registers live in front of an operation of the row of those live after it.
pub fn before_op(op: &TacOp, row: &mut [bool])
    ensures exact { (f : TacFunc) (ops : List TacOp) (end : TacEnd)
        → IsExact f ops end row.old → IsExact f (op.now ∷ ops) end row.new }
{
    pass(op, row);
}

/// Leaves in a row the registers live in front of the end of a block, if each block has a row of those live at its
/// beginning.
pub fn before_end(end: &TacEnd, rows: &[Seq<bool>], row: &mut [bool])
    ensures exact { (f : TacFunc) → AreExact f rows.now → length row.old ≡ f.regs
        → IsExact f [] end.now row.new }
{
    meet(end, rows, row);
}

/// Makes the row in front of an operation of the one after it.
pub fn pass(op: &TacOp, row: &mut [bool])
    ensures { row.new ≡ passed op.now row.old }
{
    match op {
        TacOp::Const(t, _) => put(row, *t, false),
        TacOp::Copy(t, a) => {
            put(row, *t, false);
            put(row, *a, true);
        }
        TacOp::Bin(_, t, a, b) => write_of_two(*t, *a, *b, row),
        TacOp::High(_, t, a, b) => write_of_two(*t, *a, *b, row),
        TacOp::Load(_, t, a, _) => {
            put(row, *t, false);
            mark(*a, row);
        }
        TacOp::Store(_, a, _, b) => {
            mark(*a, row);
            mark(*b, row);
        }
        TacOp::Check(_, _, _, a, b) => {
            mark(*a, row);
            mark(*b, row);
        }
        TacOp::Call(t, _, args, _) => {
            clear(*t, row);
            mark_all(args.as_slice(), row);
        }
        TacOp::Get(t) => put(row, *t, false),
        TacOp::Put(a) => mark(*a, row),
        TacOp::Alloc(t, a, _) => {
            put(row, *t, false);
            mark(*a, row);
        }
    }
}

/// Makes the row in front of operations of the one after them.
pub fn pass_all(ops: &[TacOp], row: &mut [bool])
    ensures { row.new ≡ passed_all ops.now row.old }
{
    let mut i = ops.len();
    while i > 0 {
        i -= 1;
        pass(&ops[i], row);
    }
}

/// Leaves in a row what the end of a block makes of the rows of the blocks.
pub fn meet(end: &TacEnd, rows: &[Seq<bool>], row: &mut [bool])
    ensures { row.new ≡ ended rows.now (length row.old) end.now }
{
    row.fill(false);
    match end {
        TacEnd::Jump(to) => join(rows, *to, row),
        TacEnd::Branch(_, a, b, one, two) => {
            join(rows, *one, row);
            join(rows, *two, row);
            mark(*a, row);
            mark(*b, row);
        }
        TacEnd::Return(a) => mark(*a, row),
    }
}

fn write_of_two(t: u32, a: Operand, b: Operand, row: &mut [bool])
    ensures { row.new ≡ marked b (marked a (set row.old t false)) }
{
    put(row, t, false);
    mark(a, row);
    mark(b, row);
}

fn put(row: &mut [bool], r: u32, is_live: bool)
    ensures { row.new ≡ set row.old r is_live }
{
    if (r as usize) < row.len() {
        row[r as usize] = is_live;
    }
}

/// Marks what an operand reads.
fn mark(a: Operand, row: &mut [bool])
    ensures { row.new ≡ marked a row.old }
{
    match a {
        Operand::Register(r) => put(row, r, true),
        Operand::Number(_) => {}
    }
}

fn mark_all(rs: &[u32], row: &mut [bool])
    ensures { row.new ≡ all_marked rs.now row.old }
{
    for r in rs {
        put(row, *r, true);
    }
}

/// The target of a call, if it has one, is not live in front of it.
fn clear(t: Option<u32>, row: &mut [bool])
    ensures { row.new ≡ cleared t row.old }
{
    match t {
        Some(t) => put(row, t, false),
        None => {}
    }
}

/// Adds the registers live at the beginning of a block, if there is one with this number.
fn join(rows: &[Seq<bool>], block: u32, row: &mut [bool])
    ensures { row.new ≡ joined (get_or rows.now block []) row.old }
{
    match rows.get(block as usize) {
        Some(other) => add(other.as_slice(), row),
        None => {}
    }
}

/// Adds the marks of another row.
pub fn add(other: &[bool], row: &mut [bool])
    ensures { row.new ≡ joined other.now row.old }
{
    for r in 0..row.len() {
        if r < other.len() && other[r] {
            row[r] = true;
        }
    }
}
