//! Tables with an entry for each register.
ghost use Rattle.std.specs.Prelude.{◌≡◌};
ghost use Rattle.ckc_passes.specs.code.Forward.{emptied, entered};

use crate::operations::target;
use ckc_tac::TacOp;

/// Puts an entry for a register, if there is one.
pub fn enter<A: Copy>(t: Option<u32>, entry: A, table: &mut [A])
    ensures { table.new ≡ entered t entry table.old }
{
    match t {
        Some(t) => {
            if (t as usize) < table.len() {
                table[t as usize] = entry;
            }
        }
        None => {}
    }
}

/// Puts the same entry for the target of each operation.
pub fn empty<A: Copy>(ops: &[TacOp], entry: A, table: &mut [A])
    ensures { table.new ≡ emptied entry ops.now table.old }
{
    for op in ops {
        enter(target(op), entry, table);
    }
}
