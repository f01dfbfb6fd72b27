//! The addresses of blocks.

ghost use Rattle.std.specs.Prelude.{◌≡◌, ◌+◌, ◌-◌, ◌≤◌, ◌<◌, ◌*◌, ◌^◌, IfOk};
ghost use Rattle.ckc_typed.specs.Constants.{size_of};
ghost use Rattle.ckc_base.specs.MemoryMap.{data_start, statics_end};
ghost use Rattle.ckc_typed.specs.Statics.{begin_behind, end_of_block};
ghost use Rattle.ckc_typing.specs.code.Placing.{placed_behind};
ghost use Rattle.ckc_base.specs.Outcomes.{AnswersOutcome};

use ckc_base::memory_map::{DATA_START, STATICS_END};
use ckc_base::{Bytes, Fault, START, Seq, refused};
use ckc_typed::StaticObject;
use ckc_typed::codes::LATE_STATICS;
use ckc_typed::constants::size_of;
use ckc_typed::types::copied;
use ckc_types::Structs;
use std::alloc::{AllocError, Global};

/// The end of what lies before the first block, and the last end that a block may have.
const FIRST: u64 = DATA_START as u64;

const LAST: u64 = STATICS_END as u64;

fn begin_behind(end: u64) -> u64
    requires { end ≤ statics_end }
    ensures begin { result ≡ begin_behind end }
    ensures small { result ≤ statics_end + 16 }
{
    (end + 8).next_multiple_of(8)
}

/// How many bytes the elements of a block take.
fn length_of_block(structs: &Structs, o: &StaticObject) -> u64
    ensures length { result ≡ size_of structs.now o.now.element * o.now.count }
    ensures small { result < 2 ^ 64 - 2 ^ 32 }
{
    u64::from(size_of(structs, &o.element)) * u64::from(o.count)
}

fn end_of_block(structs: &Structs, end: u64, o: &StaticObject) -> u64
    requires { end ≤ statics_end }
    ensures { result ≡ end_of_block structs.now end o.now }
{
    begin_behind(end) + length_of_block(structs, o)
}

fn at_place(alloc: Global, o: &StaticObject, at: u32) -> Result<StaticObject, AllocError>
    ensures { IfOk result (λ p. p ≡ record o.now { at = at }) }
{
    let element = copied(alloc, &o.element)?;
    let initial = Bytes::from_slice(alloc, o.initial.as_slice())?;
    Ok(StaticObject {
        at,
        element,
        array: o.array,
        count: o.count,
        terminated: o.terminated,
        initial,
    })
}

fn begun(alloc: Global, o: &StaticObject, end: u64) -> Result<StaticObject, AllocError>
    requires { end ≤ statics_end }
    ensures { IfOk result (λ p. p ≡ record o.now { at = begin_behind end }) }
{
    at_place(alloc, o, begin_behind(end) as u32)
}

/// The blocks at their places, or the fault of ending too late.
pub fn placed(
    alloc: Global,
    structs: &Structs,
    blocks: &[StaticObject],
) -> Result<Seq<StaticObject>, Fault>
    ensures { AnswersOutcome result (placed_behind structs.now data_start blocks.now) }
{
    let mut all = Seq::new(alloc);
    let mut end: u64 = FIRST;
    for o in blocks {
        let next = end_of_block(structs, end, o);
        if next > LAST {
            return Err(refused(LATE_STATICS, START));
        }
        let moved = begun(alloc, o, end)?;
        all.push(moved)?;
        end = next;
    }
    Ok(all)
}
