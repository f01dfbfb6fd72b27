//! Functions, the first bytes of memory, and the program.

ghost use Rattle.std.specs.Prelude.{◌≡◌, ◌+◌, ◌*◌, ◌++◌, ◌≤◌, map, replicate, length, IfOk, OnOk};
ghost use Rattle.ckc_base.specs.MemoryMap.{longest_statics};
ghost use Rattle.ckc_base.specs.Memory.{data_start};
ghost use Rattle.ckc_core.specs.Code.{function_of as core_function, program_of as core_program};
ghost use Rattle.ckc_core.specs.Limits.{IsWithinLimits};
ghost use Rattle.ckc_core.specs.Loops.{idle_loops};
ghost use Rattle.ckc_core.specs.Sizes.{program_size};
ghost use Rattle.ckc_core.specs.WellFormed.{IsWellFormed};
ghost use Rattle.ckc_checks_operands.specs.Compilable.{IsCompilable, program_nodes};
ghost use Rattle.ckc_checks_operands.specs.Weights.{program_weight};
ghost use Rattle.ckc_source.specs.LaidOut.{IsLaidOut};
ghost use Rattle.ckc_source.specs.Blocks.{block_of, end_of, place_behind, first_place};
ghost use Rattle.ckc_source.specs.Code.{function_of as source_function, program_of as source_program};
ghost use Rattle.ckc_checks_follow.specs.code.Inserted.{zeroed, function_code, image, word_bytes, first_bytes, inserted};
ghost use Rattle.ckc_checks_follow.specs.Followed.{IsFollowedByCore};
ghost use Rattle.ckc_checks_follow.specs.Stores.{ListsStores};
ghost use Rattle.ckc_checks.specs.code.Building.{behind};

use crate::code::{front, in_order, nothing};
use crate::rooms::room;
use crate::statements::statements;
use ckc_base::memory_map::{DATA_START, FIRST_PLACE};
use ckc_base::{Bytes, Seq, sum};
use ckc_core::{Core, CoreExpr, CoreFunc, CoreStmt};
use ckc_source::{FunctionTree, Object, Program};
use std::alloc::{AllocError, Global};

/// Puts statements in front that set so many locals from x on to zero.
fn zero(x: u32, count: u32, code: &mut Seq<CoreStmt>) -> Result<(), AllocError>
    ensures { OnOk result (behind code.new ≡ zeroed x count (behind code.old)) }
{
    let mut left = count;
    let mut next = sum(x, count)?;
    while left > 0 {
        left -= 1;
        next -= 1;
        front(code, CoreStmt::Set(next, CoreExpr::Const(0)))?;
    }
    Ok(())
}

fn function(alloc: Global, f: &FunctionTree) -> Result<CoreFunc, AllocError>
    ensures { IfOk result (λ c. core_function c ≡ function_code (source_function f.now)) }
{
    let temporaries = room(f.body.as_slice())?;
    let locals = sum(f.locals, temporaries)?;
    let mut code = nothing(alloc);
    statements(alloc, f.body.as_slice(), f.locals, &mut code)?;
    zero(f.params, f.locals.saturating_sub(f.params), &mut code)?;
    Ok(CoreFunc {
        params: f.params,
        locals,
        body: in_order(code),
    })
}

fn functions(alloc: Global, funcs: &[FunctionTree]) -> Result<Seq<CoreFunc>, AllocError>
    ensures { IfOk result (λ cs. map core_function cs ≡
        map function_code (map source_function funcs.now)) }
{
    let mut done = Seq::new(alloc);
    for f in funcs {
        let next = function(alloc, f)?;
        done.push(next)?;
    }
    Ok(done)
}

/// The address after the block of an object; one past 2^32 - 1 is taken for want of memory.
#[tactic(auto, using(crate::proofs::BlockLengths::filled_length))]
fn end_of(o: &Object) -> Result<u32, AllocError>
    ensures { IfOk result (λ n. n ≡ end_of (block_of o.now)) }
{
    let initial = match u32::try_from(o.initial.len()) {
        Ok(n) => n,
        Err(_) => return Err(AllocError),
    };
    let bytes = match o.size.checked_mul(o.count) {
        Some(n) => n,
        None => return Err(AllocError),
    };
    sum(o.at, initial.max(bytes))
}

/// The place of the first heap block, after the objects.
fn heap_place(objects: &[Object]) -> Result<u32, AllocError>
    ensures { IfOk result (λ n. n ≡ place_behind first_place (map block_of objects.now)) }
{
    let mut place = FIRST_PLACE;
    for o in objects {
        let end = end_of(o)?;
        place = sum(end, 15)? / 8 * 8;
    }
    Ok(place)
}

/// A word in memory, the lowest byte first.
fn word_bytes(alloc: Global, n: u32) -> Result<Bytes, AllocError>
    ensures { IfOk result (λ bytes. bytes ≡ word_bytes n) }
{
    let first = (n % 256) as u8;
    let second = (n / 256 % 256) as u8;
    let third = (n / 65536 % 256) as u8;
    let fourth = (n / 16_777_216 % 256) as u8;
    Seq::from_slice(alloc, &[first, second, third, fourth])
}

/// Adds so many zeros.
fn zeros(count: u32, bytes: &mut Bytes) -> Result<(), AllocError>
    ensures { OnOk result (bytes.new ≡ bytes.old ++ replicate count 0) }
{
    for i in 0..count {
        bytes.push(0)?;
    }
    Ok(())
}

/// Adds bytes.
fn copy(from: &[u8], bytes: &mut Bytes) -> Result<(), AllocError>
    ensures { OnOk result (bytes.new ≡ bytes.old ++ from.now) }
{
    for b in from {
        bytes.push(*b)?;
    }
    Ok(())
}

/// The address after the heap's word.
const BEHIND_HEAP_WORD: u32 = DATA_START + 4;

/// Adds the first bytes of objects after those up to their places.
fn add_objects(objects: &[Object], bytes: &mut Bytes) -> Result<(), AllocError>
    ensures { OnOk result (bytes.new ≡ bytes.old ++ image (data_start + 4) objects.now) }
{
    let mut a = BEHIND_HEAP_WORD;
    for o in objects {
        zeros(o.at.saturating_sub(a), bytes)?;
        copy(o.initial.as_slice(), bytes)?;
        let count = match u32::try_from(o.initial.len()) {
            Ok(n) => n,
            Err(_) => return Err(AllocError),
        };
        a = sum(o.at, count)?;
    }
    Ok(())
}

/// The first bytes of the data region.
fn first_bytes(alloc: Global, objects: &[Object]) -> Result<Bytes, AllocError>
    ensures { IfOk result (λ bytes. bytes ≡ first_bytes objects.now) }
{
    let place = heap_place(objects)?;
    let mut bytes = word_bytes(alloc, place)?;
    add_objects(objects, &mut bytes)?;
    Ok(bytes)
}

fn program(alloc: Global, p: &Program) -> Result<Core, AllocError>
    ensures { IfOk result (λ c. core_program c ≡ inserted (source_program p.now)) }
{
    let funcs = functions(alloc, p.functions.as_slice())?;
    let initial = first_bytes(alloc, p.objects.as_slice())?;
    Ok(Core {
        initial,
        funcs,
        main: p.main,
    })
}

/// The core code of a program that can be compiled, with all checks written out: before each division the test of the
/// divisor, before each access through a checked pointer the tests for null and, if it points to an array, of its
/// place and its bounds, before a write at the upper bound of an `_Nt_array_ptr` that only zero goes there, the tests of
/// checked pointer arithmetic, the dynamic checks, and the depth of calls. The temporaries of a function stand after
/// its locals.
pub fn insert(alloc: Global, p: &Program) -> Result<Core, AllocError>
    requires form { IsCompilable (source_program p.now) }
    requires laid { IsLaidOut (source_program p.now) }
    ensures code { IfOk result (λ c. core_program c ≡ inserted (source_program p.now)) }

    // it reads and puts what the program does, and ends or stops where that does
    ensures follows { IfOk result (λ c. IsFollowedByCore (source_program p.now) (core_program c)) }

    // it stores only in the program's blocks, in the heap word, and where the program writes
    ensures stores { IfOk result (λ c. ListsStores (source_program p.now) (core_program c)) }
    ensures formed { IfOk result (λ c. IsWellFormed (core_program c)) }
    ensures limits { IfOk result (λ c. IsWithinLimits (core_program c)) }

    // at most 64 instructions for each node
    ensures size { IfOk result (λ c. program_size (core_program c) ≤
        64 * program_nodes (source_program p.now)) }

    // at most as many as the program weighs
    ensures weight { IfOk result (λ c. program_size (core_program c) ≤
        program_weight (source_program p.now)) }

    // each loop does something in its body
    ensures loops { IfOk result (λ c. idle_loops (core_program c) ≡ 0) }
    ensures initial { IfOk result (λ c. length c.initial ≤ longest_statics) }
{
    let c = program(alloc, p)?;
    Ok(c)
}
