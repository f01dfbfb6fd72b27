ghost use Rattle.std.specs.Prelude.{◌≡◌, ℕ, ◌+◌, ◌<◌, ◌≤◌, ◌^◌, IfOk, OnOk, None};
ghost use Rattle.ckc_core.specs.Code.{expr_of, Const, Local};
ghost use Rattle.ckc_core.specs.Limits.{depth};
ghost use Rattle.ckc_lower.specs.code.Terms.{base_of, near_in, offset_of, small_of, term_of};
ghost use Rattle.ckc_lower.specs.code.Built.{free_from, operand_of, with_term, is_even as is_even_of, bin_of, free_past, register_of, target_of, with_op, with_temporary, with_value, with_register, with_end};

use ckc_base::{BinOp, Seq};
use ckc_core::CoreExpr;
use ckc_tac::{Operand, TacBlock, TacEnd, TacOp};
use std::alloc::{AllocError, Global};

/// The blocks of a function that are done, the operations of the one that is open, and how many registers are used.
#[derive(Drop)]
pub struct Builder {
    pub blocks: Seq<TacBlock>,
    pub ops: Seq<TacOp>,
    pub regs: u32,
}

/// Where the innermost loop is left, and where its step begins.
#[derive(Clone, Copy)]
pub struct Targets {
    pub out: u32,
    pub step: u32,
}

/// The first temporary that is free beside the value of an expression, which was computed from t on.
pub fn free_after(e: &CoreExpr, t: u32) -> u32
    requires { t + 1 < 2 ^ 32 }
    ensures { result ≡ free_from (expr_of e.now) t }
{
    match e {
        CoreExpr::Const(_) | CoreExpr::Local(_) => t,
        CoreExpr::Load(_, _) | CoreExpr::Bin(_, _, _) | CoreExpr::High(_, _, _) => t + 1,
    }
}

/// The same, if the value is in a register.
pub fn register_after(e: &CoreExpr, t: u32) -> u32
    requires { t + 1 < 2 ^ 32 }
    ensures { result ≡ free_past (expr_of e.now) t }
{
    match e {
        CoreExpr::Local(_) => t,
        _ => t + 1,
    }
}

/// Where the value of an expression is: a number and a local stand where they are, other values in the temporary t.
pub fn operand(e: &CoreExpr, t: u32) -> Operand
    ensures { result ≡ operand_of (expr_of e.now) None t }
{
    match e {
        CoreExpr::Const(n) => Operand::Number(*n),
        CoreExpr::Local(x) => Operand::Register(*x),
        CoreExpr::Load(_, _) | CoreExpr::Bin(_, _, _) | CoreExpr::High(_, _, _) => {
            Operand::Register(t)
        }
    }
}

/// Whether an operation gives the same with its operands exchanged.
fn is_even(op: BinOp) -> bool
    ensures { result ≡ is_even_of op }
{
    match op {
        BinOp::Add | BinOp::Mul | BinOp::And | BinOp::Or | BinOp::Xor | BinOp::Eq | BinOp::Ne =>
            true,
        _ => false,
    }
}

/// An operation on two operands. A number comes second if it may.
fn bin(op: BinOp, d: u32, a: Operand, b: Operand) -> TacOp
    ensures { result ≡ bin_of op d a b }
{
    if is_even(op) && matches!(a, Operand::Number(_)) {
        TacOp::Bin(op, d, b, a)
    } else {
        TacOp::Bin(op, d, a, b)
    }
}

/// A number from -2,048 to 2,047, or 0.
fn small(e: &CoreExpr) -> u32
    ensures { result ≡ small_of (term_of (expr_of e.now)) }
{
    match e {
        CoreExpr::Const(n) => { if n.wrapping_add(2048) < 4096 { *n } else { 0 } }
        _ => 0,
    }
}

/// The small number that an operation adds, or 0.
fn near(op: BinOp, q: &CoreExpr) -> u32
    ensures { result ≡ near_in op (term_of (expr_of q.now)) }
{
    match op {
        BinOp::Add => small(q),
        _ => 0,
    }
}

/// The offset of an address.
pub fn offset(a: &CoreExpr) -> u32
    ensures { result ≡ offset_of (term_of (expr_of a.now)) }
{
    match a {
        CoreExpr::Bin(op, _, q) => near(*op, q.get()),
        _ => 0,
    }
}

/// What an address is without its offset.
pub fn base(a: &CoreExpr) -> &CoreExpr
    ensures { term_of (expr_of result.now) ≡ base_of (term_of (expr_of a.now)) }
{
    match a {
        CoreExpr::Bin(op, p, q) => { if near(*op, q.get()) == 0 { a } else { p.get() } }
        _ => a,
    }
}

impl Builder {
    /// Adds an operation to the open block.
    pub fn op(&mut self, op: TacOp) -> Result<(), AllocError>
        ensures { OnOk result (self.new ≡ with_op self.old op) }
    {
        self.ops.push(op)?;
        Ok(())
    }

    /// Ends the open block, and opens the next one.
    pub fn end(&mut self, alloc: Global, end: TacEnd) -> Result<(), AllocError>
        ensures { OnOk result (self.new ≡ with_end self.old end) }
    {
        let ops = std::mem::replace(&mut self.ops, Seq::new(alloc));
        self.blocks.push(TacBlock { ops, end })?;
        Ok(())
    }

    /// The register to write, the wanted one or the temporary t.
    fn target(&mut self, want: Option<u32>, t: u32) -> u32
        requires { t + 1 < 2 ^ 32 }
        ensures register { result ≡ target_of want t }
        ensures used { self.new ≡ with_temporary want t self.old }
    {
        match want {
            Some(d) => d,
            None => {
                self.regs = self.regs.max(t + 1);
                t
            }
        }
    }

    /// Computes the base of an address.
    #[cycle(value)]
    pub fn base_value(&mut self, a: &CoreExpr, t: u32) -> Result<(), AllocError>
        requires { t + depth (expr_of a.now) < 2 ^ 32 }
        ensures { OnOk result
            (self.new ≡ with_term (base_of (term_of (expr_of a.now))) None t self.old) }
    {
        match a {
            CoreExpr::Bin(op, p, q) => {
                if near(*op, q.get()) == 0 {
                    self.value(a, None, t)
                } else {
                    self.value(p.get(), None, t)
                }
            }
            _ => self.value(a, None, t),
        }
    }

    /// Computes a value into the wanted register, or to where `operand` tells; temporaries from t on are free.
    #[cycle(value)]
    pub fn value(&mut self, e: &CoreExpr, want: Option<u32>, t: u32) -> Result<(), AllocError>
        requires { t + depth (expr_of e.now) < 2 ^ 32 }
        ensures { OnOk result (self.new ≡ with_value (expr_of e.now) want t self.old) }
    {
        match e {
            CoreExpr::Const(n) => self.constant(*n, want),
            CoreExpr::Local(x) => self.copy(*x, want),
            CoreExpr::Load(width, a) => {
                self.base_value(a.get(), t)?;
                let d = self.target(want, t);
                let p = operand(base(a.get()), t);
                self.op(TacOp::Load(*width, d, p, offset(a.get())))
            }
            CoreExpr::Bin(op, a, b) => {
                let u = free_after(a.get(), t);
                self.value(a.get(), None, t)?;
                self.value(b.get(), None, u)?;
                let d = self.target(want, t);
                self.op(bin(*op, d, operand(a.get(), t), operand(b.get(), u)))
            }
            CoreExpr::High(is_signed, a, b) => {
                let u = free_after(a.get(), t);
                self.value(a.get(), None, t)?;
                self.value(b.get(), None, u)?;
                let d = self.target(want, t);
                let (p, q) = (operand(a.get(), t), operand(b.get(), u));
                self.op(TacOp::High(*is_signed, d, p, q))
            }
        }
    }

    fn constant(&mut self, n: u32, want: Option<u32>) -> Result<(), AllocError>
        ensures { (t : ℕ) → OnOk result (self.new ≡ with_value (Const n) want t self.old) }
    {
        match want {
            Some(d) => self.op(TacOp::Const(d, n)),
            None => Ok(()),
        }
    }

    fn copy(&mut self, x: u32, want: Option<u32>) -> Result<(), AllocError>
        ensures { (t : ℕ) → OnOk result (self.new ≡ with_value (Local x) want t self.old) }
    {
        match want {
            Some(d) => self.op(TacOp::Copy(d, x)),
            None => Ok(()),
        }
    }

    /// Computes a value into a register, and tells which: a local stands where it is, a number too gets a temporary.
    pub fn register(&mut self, e: &CoreExpr, t: u32) -> Result<u32, AllocError>
        requires { t + depth (expr_of e.now) < 2 ^ 32 }
        ensures register { IfOk result (λ r. r ≡ register_of (expr_of e.now) t) }
        ensures built { OnOk result (self.new ≡ with_register (expr_of e.now) t self.old) }
    {
        match e {
            CoreExpr::Const(n) => {
                let d = self.target(None, t);
                self.op(TacOp::Const(d, *n))?;
                Ok(d)
            }
            CoreExpr::Local(x) => Ok(*x),
            CoreExpr::Load(_, _) | CoreExpr::Bin(_, _, _) | CoreExpr::High(_, _, _) => {
                self.value(e, None, t)?;
                Ok(t)
            }
        }
    }
}
