//! Where the values of registers come from.
ghost use Rattle.std.specs.Prelude.{◌≡◌, IfOk, map};
ghost use Rattle.ckc_passes_copies.specs.Origins.{copied_by, number_or as number_or_by, operand_origin};
ghost use Rattle.ckc_passes_copies.specs.Origins.{origin as origin_by, source as source_by};
ghost use Rattle.ckc_passes_copies.specs.code.Tables.{last_in, writes_in};

use ckc_tac::{Operand, TacOp};
use std::alloc::{AllocError, Global};

/// The last write of a register in a block: how many operations there are up to it, and what it copied. It is 0 if
/// there is none.
#[derive(Clone, Copy)]
pub struct Last {
    pub at: usize,
    pub copied: Option<Operand>,
}

/// The entry of a register that is not written.
pub const NONE_YET: Last = Last {
    at: 0,
    copied: None,
};

/// What a Const or Copy puts in its target.
pub fn copied(op: &TacOp) -> Option<Operand>
    ensures { result ≡ copied_by op.now }
{
    match op {
        TacOp::Const(_, n) => Some(Operand::Number(*n)),
        TacOp::Copy(_, a) => Some(Operand::Register(*a)),
        _ => None,
    }
}

fn last_of(r: u32, table: &[Last]) -> Last
    ensures { result ≡ last_in table.now r }
{
    match table.get(r as usize) {
        Some(last) => *last,
        None => NONE_YET,
    }
}

/// The register that a register was copied from, if that was not written since.
fn source(r: u32, table: &[Last]) -> Option<u32>
    ensures { result ≡ source_by (writes_in table.now) r }
{
    let here = last_of(r, table);
    match here.copied {
        Some(Operand::Register(s)) => {
            if last_of(s, table).at < here.at {
                Some(s)
            } else {
                None
            }
        }
        Some(Operand::Number(_)) => None,
        None => None,
    }
}

/// The origin of a register.
pub fn origin(r: u32, table: &[Last]) -> u32
    ensures { result ≡ origin_by (writes_in table.now) r }
{
    let mut q = r;
    'chain: while let Some(s) = source(q, table) {
        q = s;
    }
    q
}

/// The origin of what is read.
pub fn operand(a: Operand, table: &[Last]) -> Operand
    ensures { result ≡ operand_origin (writes_in table.now) a }
{
    match a {
        Operand::Register(r) => number_or(origin(r, table), table),
        Operand::Number(n) => Operand::Number(n),
    }
}

fn number_or(q: u32, table: &[Last]) -> Operand
    ensures { result ≡ number_or_by (last_in table.now q).copied q }
{
    match last_of(q, table).copied {
        Some(Operand::Number(n)) => Operand::Number(n),
        Some(Operand::Register(_)) => Operand::Register(q),
        None => Operand::Register(q),
    }
}

/// The origins of registers.
pub fn origins(alloc: Global, rs: &[u32], table: &[Last]) -> Result<Vec<u32>, AllocError>
    ensures { IfOk result (λ made. made.items ≡ map (origin_by (writes_in table.now)) rs.now) }
{
    let mut made = Vec::new(alloc);
    for r in rs {
        made.push(origin(*r, table))?;
    }
    Ok(made)
}
