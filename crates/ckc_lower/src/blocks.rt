ghost use Rattle.std.specs.Prelude.{◌≡◌, ◌+◌, ◌<◌, ◌≤◌, ◌^◌, map, length, drop, All, IfOk, OnOk, true, false, if◌then◌else◌};
ghost use Rattle.ckc_core.specs.Code.{expr_of, code_of, Const};
ghost use Rattle.ckc_core.specs.Limits.{depth, IsShallow, KeepsLimits};
ghost use Rattle.ckc_tac.specs.declared.code.Comparison.TheVariants as comparison;
ghost use Rattle.ckc_lower.specs.code.Terms.{base_of, term_of};
ghost use Rattle.ckc_lower.specs.code.Built.{is_zero as is_zero_of, test, test_of, picked as picked_of, tested, registers_of, with_op, with_value, with_values, with_end, with_jump, left, out_of, step_of, stored, stores_at, used, compares, checked_test, passes, goal as goal_of, forked, join_of, entered, step_at, targets_of, block_count, built};

use crate::builder::{Builder, Targets, base, free_after, offset, operand, register_after};
use ckc_base::{BinOp, Check, Pos, Seq, Width, sum};
use ckc_core::{CoreExpr, CoreStmt};
use ckc_tac::{Comparison, Operand, TacEnd, TacOp};
use std::alloc::{AllocError, Global};

/// Whether the statements go on to what comes after them, or out of them, before they do anything.
fn is_passing(stmts: &[CoreStmt]) -> bool
    ensures { result ≡ passes (code_of stmts.now) }
{
    matches!(stmts, [] | [CoreStmt::Break, ..] | [CoreStmt::Continue, ..])
}

/// Where control goes that is to run the statements: to the block where they stand, or to where they go on at once.
fn goal(stmts: &[CoreStmt], at: u32, exit: Option<u32>, loop_at: Option<Targets>) -> u32
    ensures { result ≡ goal_of (code_of stmts.now) at exit loop_at }
{
    match stmts {
        [] => exit.unwrap_or(at),
        [CoreStmt::Break, ..] => out_target(loop_at),
        [CoreStmt::Continue, ..] => step_target(loop_at),
        _ => at,
    }
}

/// How many blocks the statements end, after which a block comes. If the open block is fresh, statements that pass
/// make no block of it.
fn count_blocks(stmts: &[CoreStmt], is_fresh: bool) -> Result<u32, AllocError>
    ensures { IfOk result (λ n. n ≡ block_count is_fresh true (code_of stmts.now)) }
{
    let mut count = 0;
    let mut fresh = is_fresh;
    for s in stmts {
        match s {
            CoreStmt::If(_, one, two) => {
                count = sum(count, 1)?;
                count = sum(count, count_blocks(one.as_slice(), true)?)?;
                count = sum(count, count_blocks(two.as_slice(), true)?)?;
                fresh = true;
            }
            CoreStmt::Loop(body, step) => {
                count = sum(count, last_block(fresh))?;
                let first = !is_passing(body.as_slice());
                count = sum(count, count_blocks(body.as_slice(), first)?)?;
                count = sum(count, count_blocks(step.as_slice(), true)?)?;
                fresh = true;
            }
            CoreStmt::Break | CoreStmt::Continue => return sum(count, last_block(fresh)),
            CoreStmt::Return(_) => return sum(count, 1),
            CoreStmt::Set(_, _)
            | CoreStmt::Store(_, _, _)
            | CoreStmt::Check(_, _, _)
            | CoreStmt::Call(_, _, _, _)
            | CoreStmt::Get(_)
            | CoreStmt::Put(_)
            | CoreStmt::Alloc(_, _, _) => fresh = false,
        }
    }
    sum(count, last_block(fresh))
}

/// How many blocks a jump ends.
fn last_block(is_fresh: bool) -> u32
    ensures { result ≡ (if is_fresh then 0 else 1) }
{
    if is_fresh { 0 } else { 1 }
}

/// The statements after the one at a place.
fn after(stmts: &[CoreStmt], i: usize) -> &[CoreStmt]
    requires { i < length stmts.now }
    ensures { result.now ≡ drop (i + 1) stmts.now }
{
    &stmts[i + 1..]
}

/// The number of the block after those of the statements, which begin at a block.
fn behind(at: u32, stmts: &[CoreStmt]) -> Result<u32, AllocError>
    ensures { IfOk result (λ n. n ≡ at + block_count true true (code_of stmts.now)) }
{
    let count = count_blocks(stmts, true)?;
    sum(at, count)
}

/// The same for the body of a loop.
fn behind_body(at: u32, body: &[CoreStmt]) -> Result<u32, AllocError>
    ensures { IfOk result (λ n. n ≡ step_at (code_of body.now) at) }
{
    let count = count_blocks(body, !is_passing(body))?;
    sum(at, count)
}

impl Builder {
    /// The number of the block after the open one.
    fn next_block(&self) -> Result<u32, AllocError>
        ensures { IfOk result (λ n. n ≡ length self.now.blocks + 1) }
    {
        let here = self.open_block()?;
        sum(here, 1)
    }

    /// The number of the open block.
    fn open_block(&self) -> Result<u32, AllocError>
        ensures { IfOk result (λ n. n ≡ length self.now.blocks) }
    {
        match u32::try_from(self.blocks.len()) {
            Ok(n) => Ok(n),
            Err(_) => Err(AllocError),
        }
    }

    fn values(
        &mut self,
        alloc: Global,
        es: &[CoreExpr],
        locals: u32,
    ) -> Result<Seq<u32>, AllocError>
        requires room { locals ≤ 2000 }
        requires few { length es.now ≤ 255 }
        requires shallow { All IsShallow (map expr_of es.now) }
        ensures registers { IfOk result (λ rs. rs ≡ registers_of (map expr_of es.now) locals) }
        ensures built { OnOk result (self.new ≡ with_values (map expr_of es.now) locals self.old) }
    {
        let mut registers = Seq::new(alloc);
        let mut t = locals;
        for e in es {
            let r = self.register(e, t)?;
            registers.push(r)?;
            t = register_after(e, t);
        }
        Ok(registers)
    }

    fn store(
        &mut self,
        width: Width,
        a: &CoreExpr,
        e: &CoreExpr,
        locals: u32,
    ) -> Result<(), AllocError>
        requires room { locals ≤ 2000 }
        requires address { IsShallow (expr_of a.now) }
        requires value { IsShallow (expr_of e.now) }
        ensures { OnOk result
            (self.new ≡ stored locals (base_of (term_of (expr_of a.now))) (term_of (expr_of e.now))
            (stores_at width (expr_of a.now)) self.old) }
    {
        let p = base(a);
        let t = free_after(p, locals);
        self.base_value(a, locals)?;
        self.value(e, None, t)?;
        self.op(TacOp::Store(width, operand(p, locals), offset(a), operand(e, t)))
    }

    /// Checks that a comparison of two expressions holds.
    fn check_two(
        &mut self,
        check: Check,
        at: Pos,
        comparison: Comparison,
        a: &CoreExpr,
        b: &CoreExpr,
        t: u32,
    ) -> Result<(), AllocError>
        requires left { t + depth (expr_of a.now) < 2 ^ 32 }
        requires right { t + 1 + depth (expr_of b.now) < 2 ^ 32 }
        ensures { OnOk result (self.new ≡
            compares t (test comparison (expr_of a.now) (expr_of b.now) false)
            (TacOp.Check check at) self.old) }
    {
        let u = free_after(a, t);
        self.value(a, None, t)?;
        self.value(b, None, u)?;
        let (p, q) = (operand(a, t), operand(b, u));
        self.op(TacOp::Check(check, at, comparison, p, q))
    }

    /// Checks that an expression is not zero.
    fn check_value(&mut self, check: Check, at: Pos, e: &CoreExpr, t: u32) -> Result<(), AllocError>
        requires { t + depth (expr_of e.now) < 2 ^ 32 }
        ensures { OnOk result (self.new ≡
            compares t (test comparison.Ne (expr_of e.now) (Const 0) false)
            (TacOp.Check check at) self.old) }
    {
        self.value(e, None, t)?;
        let zero = Operand::Number(0);
        self.op(TacOp::Check(check, at, Comparison::Ne, operand(e, t), zero))
    }

    /// Checks that an expression holds. If it is a comparison, its sides are compared.
    fn check(&mut self, check: Check, at: Pos, e: &CoreExpr, t: u32) -> Result<(), AllocError>
        requires { t + depth (expr_of e.now) < 2 ^ 32 }
        ensures { OnOk result (self.new ≡
            compares t (checked_test (expr_of e.now)) (TacOp.Check check at) self.old) }
    {
        match e {
            CoreExpr::Bin(op, a, b) => {
                let (a, b) = (a.get(), b.get());
                match op {
                    BinOp::LtS => self.check_two(check, at, Comparison::LtS, a, b, t),
                    BinOp::LtU => self.check_two(check, at, Comparison::LtU, a, b, t),
                    BinOp::Eq => self.check_two(check, at, Comparison::Eq, a, b, t),
                    BinOp::Ne => self.check_two(check, at, Comparison::Ne, a, b, t),
                    _ => self.check_value(check, at, e, t),
                }
            }
            _ => self.check_value(check, at, e, t),
        }
    }

    fn call(
        &mut self,
        alloc: Global,
        target: Option<u32>,
        callee: u32,
        es: &[CoreExpr],
        at: Pos,
        locals: u32,
    ) -> Result<(), AllocError>
        requires room { locals ≤ 2000 }
        requires few { length es.now ≤ 255 }
        requires shallow { All IsShallow (map expr_of es.now) }
        ensures { OnOk result (self.new ≡ with_op (with_values (map expr_of es.now) locals self.old)
            (TacOp.Call target callee (registers_of (map expr_of es.now) locals) at)) }
    {
        let registers = self.values(alloc, es, locals)?;
        self.op(TacOp::Call(target, callee, registers, at))?;
        Ok(())
    }

    fn put(&mut self, e: &CoreExpr, locals: u32) -> Result<(), AllocError>
        requires room { locals ≤ 2000 }
        requires value { IsShallow (expr_of e.now) }
        ensures { OnOk result (self.new ≡ used locals (expr_of e.now) TacOp.Put self.old) }
    {
        self.value(e, None, locals)?;
        self.op(TacOp::Put(operand(e, locals)))
    }

    fn allocate(&mut self, x: u32, e: &CoreExpr, size: u32, locals: u32) -> Result<(), AllocError>
        requires room { locals ≤ 2000 }
        requires value { IsShallow (expr_of e.now) }
        ensures { OnOk result
            (self.new ≡ used locals (expr_of e.now) (λ r. TacOp.Alloc x r size) self.old) }
    {
        self.value(e, None, locals)?;
        self.op(TacOp::Alloc(x, operand(e, locals), size))
    }

    /// Ends the open block with a branch to one block if a comparison of two expressions holds, else to another one;
    /// the other way round if it is turned.
    fn compare(
        &mut self,
        alloc: Global,
        comparison: Comparison,
        a: &CoreExpr,
        b: &CoreExpr,
        turned: bool,
        one: u32,
        two: u32,
        t: u32,
    ) -> Result<(), AllocError>
        requires left { t + depth (expr_of a.now) < 2 ^ 32 }
        requires right { t + 1 + depth (expr_of b.now) < 2 ^ 32 }
        ensures { OnOk result
            (self.new ≡ tested t (test comparison (expr_of a.now) (expr_of b.now) turned) one two
            self.old) }
    {
        let u = free_after(a, t);
        self.value(a, None, t)?;
        self.value(b, None, u)?;
        let (first, second) = (picked(turned, one, two), picked(turned, two, one));
        let (p, q) = (operand(a, t), operand(b, u));
        self.end(alloc, TacEnd::Branch(comparison, p, q, first, second))
    }

    /// The same if an expression is not zero.
    fn compare_zero(
        &mut self,
        alloc: Global,
        e: &CoreExpr,
        turned: bool,
        one: u32,
        two: u32,
        t: u32,
    ) -> Result<(), AllocError>
        requires { t + depth (expr_of e.now) < 2 ^ 32 }
        ensures { OnOk result
            (self.new ≡ tested t (test comparison.Ne (expr_of e.now) (Const 0) turned) one two
            self.old) }
    {
        self.value(e, None, t)?;
        let (first, second) = (picked(turned, one, two), picked(turned, two, one));
        let zero = Operand::Number(0);
        self.end(
            alloc,
            TacEnd::Branch(Comparison::Ne, operand(e, t), zero, first, second),
        )
    }

    /// The same if a condition holds.
    fn branch(
        &mut self,
        alloc: Global,
        e: &CoreExpr,
        turned: bool,
        one: u32,
        two: u32,
        t: u32,
    ) -> Result<(), AllocError>
        requires { t + depth (expr_of e.now) < 2 ^ 32 }
        ensures { OnOk result
            (self.new ≡ tested t (test_of (expr_of e.now) turned) one two self.old) }
    {
        match e {
            CoreExpr::Bin(op, a, b) => {
                let (a, b) = (a.get(), b.get());
                match op {
                    BinOp::LtS => self.compare(alloc, Comparison::LtS, a, b, turned, one, two, t),
                    BinOp::LtU => self.compare(alloc, Comparison::LtU, a, b, turned, one, two, t),
                    BinOp::Eq if is_zero(b) => self.branch(alloc, a, !turned, one, two, t),
                    BinOp::Eq => self.compare(alloc, Comparison::Eq, a, b, turned, one, two, t),
                    BinOp::Ne if is_zero(b) => self.branch(alloc, a, turned, one, two, t),
                    BinOp::Ne => self.compare(alloc, Comparison::Ne, a, b, turned, one, two, t),
                    _ => self.compare_zero(alloc, e, turned, one, two, t),
                }
            }
            _ => self.compare_zero(alloc, e, turned, one, two, t),
        }
    }

    /// Ends the open block with a branch to where two lists lead, and tells where both go on: to the rest, after them.
    fn fork(
        &mut self,
        alloc: Global,
        e: &CoreExpr,
        one: &[CoreStmt],
        two: &[CoreStmt],
        rest: &[CoreStmt],
        exit: Option<u32>,
        loop_at: Option<Targets>,
        locals: u32,
    ) -> Result<u32, AllocError>
        requires room { locals ≤ 2000 }
        requires value { IsShallow (expr_of e.now) }
        ensures join { IfOk result (λ j.
            j ≡ join_of (code_of one.now) (code_of two.now) (code_of rest.now) exit loop_at
            self.old) }
        ensures built { IfOk result (λ j.
            self.new ≡ forked locals (expr_of e.now) (code_of one.now) (code_of two.now) j loop_at
            self.old) }
    {
        let first = self.next_block()?;
        let second = behind(first, one)?;
        let join = goal(rest, behind(second, two)?, exit, loop_at);
        let to_one = goal(one, first, Some(join), loop_at);
        let to_two = goal(two, second, Some(join), loop_at);
        self.branch(alloc, e, false, to_one, to_two, locals)?;
        Ok(join)
    }

    /// Opens a block where a loop begins, which the open one is if it is fresh, and tells its number.
    fn enter(&mut self, alloc: Global, is_fresh: bool) -> Result<u32, AllocError>
        ensures head { IfOk result (λ n. n ≡ length self.new.blocks) }
        ensures built { OnOk result (self.new ≡ entered is_fresh self.old) }
    {
        if is_fresh {
            self.open_block()
        } else {
            let head = self.next_block()?;
            self.end(alloc, TacEnd::Jump(head))?;
            Ok(head)
        }
    }

    /// Ends the open block with a jump, unless it is fresh.
    fn jump(&mut self, alloc: Global, is_fresh: bool, to: u32) -> Result<(), AllocError>
        ensures { OnOk result (self.new ≡ with_jump is_fresh to self.old) }
    {
        if is_fresh {
            Ok(())
        } else {
            self.end(alloc, TacEnd::Jump(to))
        }
    }

    /// Ends the open block after the last statement of a list.
    fn leave(&mut self, alloc: Global, is_fresh: bool, exit: Option<u32>) -> Result<(), AllocError>
        ensures { OnOk result (self.new ≡ left is_fresh exit self.old) }
    {
        match exit {
            Some(to) => self.jump(alloc, is_fresh, to),
            None => self.end(alloc, TacEnd::Return(Operand::Number(0))),
        }
    }
}

/// Where a loop that begins at a block is left, and where its step leads.
fn targets(
    head: u32,
    body: &[CoreStmt],
    step: &[CoreStmt],
    rest: &[CoreStmt],
    exit: Option<u32>,
    loop_at: Option<Targets>,
) -> Result<Targets, AllocError>
    ensures { IfOk result (λ t.
        t ≡ targets_of (code_of body.now) (code_of step.now) (code_of rest.now) exit loop_at head) }
{
    let step_at = behind_body(head, body)?;
    let out_at = behind(step_at, step)?;
    Ok(Targets {
        out: goal(rest, out_at, exit, loop_at),
        step: goal(step, step_at, Some(head), None),
    })
}

impl Builder {
    /// Builds the statements after what stands, up to the end of their last block; `is_fresh` tells whether the open
    /// block has no operation, and no other control comes to it. `locals` is the first temporary, `exit` the block
    /// after the statements, if there is one, and `loop_at` the innermost loop.
    pub fn code(
        &mut self,
        alloc: Global,
        stmts: &[CoreStmt],
        is_fresh: bool,
        exit: Option<u32>,
        loop_at: Option<Targets>,
        locals: u32,
    ) -> Result<(), AllocError>
        requires room { locals ≤ 2000 }
        requires limits { KeepsLimits (code_of stmts.now) }
        ensures { OnOk result
            (self.new ≡ built locals is_fresh (code_of stmts.now) exit loop_at self.old) }
    {
        let mut fresh = is_fresh;
        for (i, s) in stmts.iter().enumerate() {
            match s {
                CoreStmt::Set(x, e) => {
                    self.value(e, Some(*x), locals)?;
                    fresh = false;
                }
                CoreStmt::Store(width, a, e) => {
                    self.store(*width, a, e, locals)?;
                    fresh = false;
                }
                CoreStmt::Check(check, at, e) => {
                    self.check(*check, *at, e, locals)?;
                    fresh = false;
                }
                CoreStmt::Call(target, callee, es, at) => {
                    self.call(alloc, *target, *callee, es.as_slice(), *at, locals)?;
                    fresh = false;
                }
                CoreStmt::Get(x) => {
                    self.op(TacOp::Get(*x))?;
                    fresh = false;
                }
                CoreStmt::Put(e) => {
                    self.put(e, locals)?;
                    fresh = false;
                }
                CoreStmt::Alloc(x, e, size) => {
                    self.allocate(*x, e, *size, locals)?;
                    fresh = false;
                }
                CoreStmt::If(e, one, two) => {
                    let (one, two, rest) = (one.as_slice(), two.as_slice(), after(stmts, i));
                    let join = self.fork(alloc, e, one, two, rest, exit, loop_at, locals)?;
                    self.code(alloc, one, true, Some(join), loop_at, locals)?;
                    self.code(alloc, two, true, Some(join), loop_at, locals)?;
                    fresh = true;
                }
                CoreStmt::Loop(body, step) => {
                    let (body, step, rest) = (body.as_slice(), step.as_slice(), after(stmts, i));
                    let head = self.enter(alloc, fresh)?;
                    let here = targets(head, body, step, rest, exit, loop_at)?;
                    let first = !is_passing(body);
                    self.code(alloc, body, first, Some(here.step), Some(here), locals)?;
                    self.code(alloc, step, true, Some(head), None, locals)?;
                    fresh = true;
                }
                CoreStmt::Break => {
                    self.jump(alloc, fresh, out_target(loop_at))?;
                    return Ok(());
                }
                CoreStmt::Continue => {
                    self.jump(alloc, fresh, step_target(loop_at))?;
                    return Ok(());
                }
                CoreStmt::Return(e) => {
                    self.value(e, None, locals)?;
                    self.end(alloc, TacEnd::Return(operand(e, locals)))?;
                    return Ok(());
                }
            }
        }
        self.leave(alloc, fresh, exit)?;
        Ok(())
    }
}

/// One of two numbers, the second if it is turned.
fn picked(turned: bool, one: u32, two: u32) -> u32
    ensures { result ≡ picked_of turned one two }
{
    if turned { two } else { one }
}

fn is_zero(e: &CoreExpr) -> bool
    ensures { result ≡ is_zero_of (expr_of e.now) }
{
    match e {
        CoreExpr::Const(n) => *n == 0,
        _ => false,
    }
}

fn out_target(loop_at: Option<Targets>) -> u32
    ensures { result ≡ out_of loop_at }
{
    match loop_at {
        Some(targets) => targets.out,
        None => 0,
    }
}

fn step_target(loop_at: Option<Targets>) -> u32
    ensures { result ≡ step_of loop_at }
{
    match loop_at {
        Some(targets) => targets.step,
        None => 0,
    }
}
