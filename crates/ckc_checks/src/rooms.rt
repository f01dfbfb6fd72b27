//! How many temporaries code needs.

ghost use Rattle.std.specs.Prelude.{◌≡◌, ◌+◌, max, map, IfOk, if◌then◌else◌, false};
ghost use Rattle.ckc_source.specs.Code.{code_of, expr_of, target_of, right_of, assign_of};
ghost use Rattle.ckc_checks_follow.specs.code.Inserted.{expr_room, operand_room, operands_room, target_count, target_room, guard_room, aimed_room, assigned_room, valued_room, bundle_room, room, range_room};
ghost use Rattle.ckc_checks.specs.code.Building.{value_room_if};

use ckc_base::sum;
use ckc_checks_operands::{casts_one, index_far, is_bounded, is_direct, keeps_index, takes_range};
use ckc_source::{Assign, ExprTree, RightTree, StmtTree, TargetTree};
use std::alloc::AllocError;

/// A value with its range needs three.
fn range_room(ranged: bool, room: u32) -> u32
    ensures { result ≡ range_room ranged room }
{
    match ranged {
        true => 3u32.max(room),
        false => room,
    }
}

/// How many temporaries the code of an expression needs, with its range if the first flag says so; that of a direct
/// one has none unless the second flag says so.
fn value_room(e: &ExprTree, ranged: bool, always: bool) -> Result<u32, AllocError>
    ensures { IfOk result (λ n. n ≡ value_room_if ranged always (expr_of e.now)) }
{
    if !always && is_direct(e) {
        return Ok(0);
    }
    match e {
        ExprTree::Load(_, access, p, i)
        | ExprTree::Member(_, _, access, p, i)
        | ExprTree::Address(_, access, p, i) => {
            let checked = is_bounded(access.through);
            let far = takes_range(access.through, p.get());
            let left = value_room(p.get(), far, checked)?;
            let right = value_room(i.get(), false, keeps_index(checked, i.get()))?;
            let right = sum(index_far(far), right)?;
            Ok(range_room(ranged, left.max(right)))
        }
        ExprTree::Moved(shift, p, i) => {
            let left = value_room(p.get(), ranged, ranged || shift.checked)?;
            let right = value_room(i.get(), false, keeps_index(shift.checked, i.get()))?;
            let right = sum(index_far(ranged), right)?;
            Ok(left.max(right))
        }
        ExprTree::Added(shift, i, p) => {
            let left = value_room(i.get(), false, keeps_index(shift.checked, i.get()))?;
            let right = value_room(p.get(), ranged, ranged || shift.checked)?;
            let right = sum(1, right)?;
            Ok(left.max(right))
        }
        ExprTree::Binary(_, _, _, a, b) => {
            let left = value_room(a.get(), false, false)?;
            let right = value_room(b.get(), false, false)?;
            let right = sum(1, right)?;
            Ok(range_room(ranged, left.max(right)))
        }
        ExprTree::And(a, b) | ExprTree::Or(a, b) => {
            let left = value_room(a.get(), false, false)?;
            let right = value_room(b.get(), false, false)?;
            Ok(range_room(ranged, 1u32.max(left.max(right))))
        }
        ExprTree::Choice(c, a, b) => {
            let condition = value_room(c.get(), false, false)?;
            let one = value_room(a.get(), ranged, true)?;
            let two = value_room(b.get(), ranged, true)?;
            Ok(condition.max(one.max(two)))
        }
        ExprTree::Narrow(inner) => {
            let value = value_room(inner.get(), false, false)?;
            Ok(range_room(ranged, 1u32.max(value)))
        }
        ExprTree::Bare(p) => {
            let value = value_room(p.get(), false, true)?;
            Ok(range_room(ranged, value))
        }
        ExprTree::Tested(size, _, _, p, k) => {
            if !ranged && casts_one(*size, p.get(), k.get()) {
                value_room(p.get(), false, true)
            } else {
                let value = value_room(p.get(), true, true)?;
                let count = value_room(k.get(), false, keeps_index(true, k.get()))?;
                let count = sum(3, count)?;
                Ok(value.max(count))
            }
        }
        ExprTree::Trusted(_, _, p, k) => {
            let value = value_room(p.get(), false, true)?;
            let count = value_room(k.get(), false, false)?;
            let count = sum(1, count)?;
            Ok(range_room(ranged, value.max(count)))
        }
        ExprTree::Number(_)
        | ExprTree::Local(_)
        | ExprTree::Limited(_, _)
        | ExprTree::Array(_, _) => Ok(range_room(ranged, 1)),
    }
}

/// The same for the value alone.
fn expr_room(e: &ExprTree, always: bool) -> Result<u32, AllocError>
    ensures { IfOk result (λ n. n ≡ value_room_if false always (expr_of e.now)) }
{
    value_room(e, false, always)
}

/// How many temporaries the operands of a call need.
fn operands_room(es: &[ExprTree]) -> Result<u32, AllocError>
    ensures { IfOk result (λ n. n ≡ operands_room (map expr_of es.now)) }
{
    let mut most = 0u32;
    let mut i = es.len();
    while i > 0 {
        i -= 1;
        let behind = sum(1, most)?;
        let here = expr_room(&es[i], false)?;
        most = here.max(behind);
    }
    Ok(most)
}

/// How many temporaries keep the place of a target.
pub fn target_count(target: &TargetTree) -> u32
    ensures { result ≡ target_count (target_of target.now) }
{
    match target {
        TargetTree::Memory(_, _, _, _) => 3,
        TargetTree::Nothing | TargetTree::Local(_, _) => 0,
    }
}

/// How many temporaries finding the place of a target needs.
fn target_room(target: &TargetTree) -> Result<u32, AllocError>
    ensures { IfOk result (λ n. n ≡ target_room (target_of target.now)) }
{
    match target {
        TargetTree::Memory(_, access, p, i) => {
            let checked = is_bounded(access.through);
            let far = takes_range(access.through, p.get());
            let pointer = value_room(p.get(), far, checked)?;
            let index = expr_room(i.get(), keeps_index(checked, i.get()))?;
            let index = sum(index_far(far), index)?;
            Ok(pointer.max(index))
        }
        TargetTree::Nothing | TargetTree::Local(_, _) => Ok(0),
    }
}

/// How many temporaries a value that is stored needs in any case.
fn guard_room(target: &TargetTree) -> u32
    ensures { result ≡ guard_room (target_of target.now) }
{
    match target {
        TargetTree::Memory(_, _, _, _) => 1,
        TargetTree::Nothing | TargetTree::Local(_, _) => 0,
    }
}

/// How many temporaries a target and so many for its value need.
fn aimed_room(target: &TargetTree, room: u32) -> Result<u32, AllocError>
    ensures { IfOk result (λ n. n ≡ aimed_room (target_of target.now) room) }
{
    let place = target_room(target)?;
    let value = sum(target_count(target), guard_room(target).max(room))?;
    Ok(place.max(value))
}

/// How many temporaries an assignment needs.
fn assigned_room(a: &Assign) -> Result<u32, AllocError>
    ensures { IfOk result (λ n. n ≡ assigned_room (target_of a.now.target) (right_of a.now.right)) }
{
    match &a.right {
        RightTree::Value(e) => match &a.target {
            TargetTree::Nothing => expr_room(e.get(), true),
            TargetTree::Local(_, _) | TargetTree::Memory(_, _, _, _) => {
                let value = expr_room(e.get(), false)?;
                aimed_room(&a.target, value)
            }
        },
        RightTree::Fresh(_, e) => {
            let count = expr_room(e.get(), false)?;
            aimed_room(&a.target, 1u32.max(count))
        }
    }
}

/// How many temporaries the value of a right side needs.
fn valued_room(right: &RightTree) -> Result<u32, AllocError>
    ensures { IfOk result (λ n. n ≡ valued_room (right_of right.now)) }
{
    match right {
        RightTree::Value(e) => expr_room(e.get(), true),
        RightTree::Fresh(_, e) => {
            let count = expr_room(e.get(), false)?;
            Ok(1u32.max(count))
        }
    }
}

/// How many temporaries the assignments of a bundle need.
fn bundle_room(all: &[Assign]) -> Result<u32, AllocError>
    ensures { IfOk result (λ n. n ≡ bundle_room (map assign_of all.now)) }
{
    let mut most = 0u32;
    let mut i = all.len();
    while i > 0 {
        i -= 1;
        let behind = sum(most, target_count(&all[i].target))?;
        let behind = sum(behind, 1)?;
        let value = valued_room(&all[i].right)?;
        let here = aimed_room(&all[i].target, value)?;
        most = here.max(behind);
    }
    Ok(most)
}

/// How many temporaries statements need.
pub fn room(stmts: &[StmtTree]) -> Result<u32, AllocError>
    ensures { IfOk result (λ n. n ≡ room (code_of stmts.now)) }
{
    let mut most = 0u32;
    let mut i = stmts.len();
    while i > 0 {
        i -= 1;
        match &stmts[i] {
            StmtTree::Assign(_, a) => most = assigned_room(a.get())?.max(most),
            StmtTree::Bundle(_, all) => most = bundle_room(all.as_slice())?.max(most),
            StmtTree::Get(_, target) => most = aimed_room(target.get(), 1)?.max(most),
            StmtTree::Put(_, target, e) => {
                let value = expr_room(e.get(), false)?;
                most = aimed_room(target.get(), value)?.max(most);
            }
            StmtTree::Return(_, e) | StmtTree::Check(_, e) => {
                most = expr_room(e.get(), false)?.max(most);
            }
            StmtTree::Call(_, _, _, es) => {
                let needed = operands_room(es.as_slice())?;
                most = 1u32.max(needed).max(most);
            }
            StmtTree::If(_, e, one, two) | StmtTree::Loop(_, e, one, two) => {
                let condition = expr_room(e.get(), false)?;
                let first = room(one.as_slice())?;
                let second = room(two.as_slice())?;
                most = condition.max(first.max(second.max(most)));
            }
            StmtTree::Break | StmtTree::Continue => {}
        }
    }
    Ok(most)
}
