//! The lines of operations without a call.
ghost use Rattle.std.specs.Prelude.{◌≡◌, ◌<◌, ◌^◌, OnOk};
ghost use Rattle.ckc_rv.specs.declared.instructions.Instr.TheVariants as instr;
ghost use Rattle.ckc_frame.specs.WellFormed.{IsPlace};
ghost use Rattle.ckc_emit.specs.code.Emitting.{Emits};
ghost use Rattle.ckc_emit.specs.code.Operands.{IsOperand};
ghost use Rattle.ckc_emit.specs.code.Lines.{const_lines, copy_lines, value_lines, bin_lines, form_lines, form_of, is_short as is_short_of, is_even as is_even_of, is_exchanged as is_exchanged_of, number_form as number_form_of, near_form as near_form_of, zeros_of, power_form as power_form_of, product_form as product_form_of, zero_lines, immediate_lines, register_lines, ending_lines, apply_lines, operation_of, high_lines, load_op, store_op, source_of, register_with, base_with, rest_of, data_load_lines, data_store_lines, test_lines, get_lines, put_lines};

use crate::places::{
    PlacedOperand, base, put_address, put_fetch, put_operand, put_settle, put_take, put_write,
    register_of_operand, rest, source,
};
use crate::stops::{holding, put_check};
use ckc_asm_lines::Line;
use ckc_base::{BinOp, Check, Pos, Width};
use ckc_emit_templates::{immediate, put, put_ask, put_constant, upper};
use ckc_frame::Place;
use ckc_rv::{ImmOp, Instr, LoadOp, RegOp, StoreOp};
use ckc_tac::Comparison;
use std::alloc::AllocError;

/// A place gets a word.
pub fn put_const(out: &mut Vec<Line>, t: Place, v: u32) -> Result<(), AllocError>
    requires { IsPlace t }
    ensures { OnOk result (Emits out.old.items out.new.items (const_lines t v)) }
{
    put_constant(out, source(t, 5), v)?;
    put_write(out, t, 5)
}

/// A place gets the value of another one.
pub fn put_copy(out: &mut Vec<Line>, t: Place, a: Place) -> Result<(), AllocError>
    requires t { IsPlace t }
    requires a { IsPlace a }
    ensures { OnOk result (Emits out.old.items out.new.items (copy_lines t a)) }
{
    match a {
        Place::Reg(_) => put_settle(out, t, source(a, 5)),
        Place::Slot(_) => {
            put_fetch(out, source(t, 5), a)?;
            put_write(out, t, 5)
        }
    }
}

/// A place gets the value of an operand.
fn put_value(out: &mut Vec<Line>, t: Place, a: PlacedOperand) -> Result<(), AllocError>
    requires t { IsPlace t }
    requires a { IsOperand a }
    ensures { OnOk result (Emits out.old.items out.new.items (value_lines t a)) }
{
    match a {
        PlacedOperand::At(p) => put_copy(out, t, p),
        PlacedOperand::Number(n) => put_const(out, t, n),
    }
}

/// How an operation on two operands is done: its value is 0, or its left operand; or it is done by the end of a
/// comparison with zero alone, with an immediate, or on two registers.
#[derive(Clone, Copy)]
pub enum Form {
    Cleared,
    Left,
    Zero,
    Immediate(ImmOp, u32),
    Registers,
}

/// Whether no second register is read.
fn is_short(form: Form) -> bool
    ensures { result ≡ is_short_of form }
{
    match form {
        Form::Registers => false,
        _ => true,
    }
}

fn near_form(op: ImmOp, n: u32) -> Form
    ensures { result ≡ near_form_of op n }
{
    if upper(n) == 0 {
        Form::Immediate(op, n)
    } else {
        Form::Registers
    }
}

fn power(k: u32) -> u32
    requires { k < 32 }
    ensures { result ≡ 2 ^ k }
{
    1 << k
}

/// The form of a product with a power of two.
fn power_form(n: u32) -> Form
    ensures { result ≡ power_form_of n }
{
    let k = n.trailing_zeros() % 32;
    if n == power(k) {
        Form::Immediate(ImmOp::Slli, k)
    } else {
        Form::Registers
    }
}

/// The form of a product with a number.
fn product_form(n: u32) -> Form
    ensures { result ≡ product_form_of n }
{
    if n == 0 {
        Form::Cleared
    } else if n == 1 {
        Form::Left
    } else {
        power_form(n)
    }
}

/// The form of an operation with a number on its right.
fn number_form(op: BinOp, n: u32) -> Form
    ensures { result ≡ number_form_of op n }
{
    match op {
        BinOp::Add => near_form(ImmOp::Addi, n),
        BinOp::Sub => near_form(ImmOp::Addi, n.wrapping_neg()),
        BinOp::And => near_form(ImmOp::Andi, n),
        BinOp::Or => near_form(ImmOp::Ori, n),
        BinOp::Xor => near_form(ImmOp::Xori, n),
        BinOp::LtS => near_form(ImmOp::Slti, n),
        BinOp::LtU => near_form(ImmOp::Sltiu, n),
        BinOp::Shl => Form::Immediate(ImmOp::Slli, n % 32),
        BinOp::ShrS => Form::Immediate(ImmOp::Srai, n % 32),
        BinOp::ShrU => Form::Immediate(ImmOp::Srli, n % 32),
        BinOp::Eq => {
            if n == 0 {
                Form::Zero
            } else {
                near_form(ImmOp::Addi, n.wrapping_neg())
            }
        }
        BinOp::Ne => {
            if n == 0 {
                Form::Zero
            } else {
                near_form(ImmOp::Addi, n.wrapping_neg())
            }
        }
        BinOp::Mul => product_form(n),
        BinOp::DivS | BinOp::DivU | BinOp::RemS | BinOp::RemU => Form::Registers,
    }
}

fn form_for(op: BinOp, b: PlacedOperand) -> Form
    ensures { result ≡ form_of op b }
{
    match b {
        PlacedOperand::At(_) => Form::Registers,
        PlacedOperand::Number(n) => number_form(op, n),
    }
}

/// Whether an operation gives the same with its operands exchanged.
fn is_even(op: BinOp) -> bool
    ensures { result ≡ is_even_of op }
{
    match op {
        BinOp::Add | BinOp::Mul | BinOp::And | BinOp::Or | BinOp::Xor | BinOp::Eq | BinOp::Ne =>
            true,
        _ => false,
    }
}

/// Whether the operands are exchanged: if the left one alone has a short form on the right.
fn is_exchanged(op: BinOp, a: PlacedOperand, b: PlacedOperand) -> bool
    ensures { result ≡ is_exchanged_of op a b }
{
    is_even(op) && is_short(form_for(op, a)) && !is_short(form_for(op, b))
}

/// A place gets the value of an operation on two operands.
pub fn put_bin(
    out: &mut Vec<Line>,
    op: BinOp,
    t: Place,
    a: PlacedOperand,
    b: PlacedOperand,
) -> Result<(), AllocError>
    requires t { IsPlace t }
    requires a { IsOperand a }
    requires b { IsOperand b }
    ensures { OnOk result (Emits out.old.items out.new.items (bin_lines op t a b)) }
{
    if is_exchanged(op, a, b) {
        put_form(out, form_for(op, a), op, t, b, a)
    } else {
        put_form(out, form_for(op, b), op, t, a, b)
    }
}

fn put_form(
    out: &mut Vec<Line>,
    form: Form,
    op: BinOp,
    t: Place,
    a: PlacedOperand,
    b: PlacedOperand,
) -> Result<(), AllocError>
    requires t { IsPlace t }
    requires a { IsOperand a }
    requires b { IsOperand b }
    ensures { OnOk result (Emits out.old.items out.new.items (form_lines form op t a b)) }
{
    match form {
        Form::Cleared => put_const(out, t, 0),
        Form::Left => put_value(out, t, a),
        Form::Zero => put_zero(out, op, t, a),
        Form::Immediate(i, n) => put_immediate(out, i, n, op, t, a),
        Form::Registers => put_registers(out, op, t, a, b),
    }
}

/// A comparison with zero.
fn put_zero(out: &mut Vec<Line>, op: BinOp, t: Place, a: PlacedOperand) -> Result<(), AllocError>
    requires t { IsPlace t }
    requires a { IsOperand a }
    ensures { OnOk result (Emits out.old.items out.new.items (zero_lines op t a)) }
{
    put_operand(out, a, 5)?;
    put_ending(out, op, source(t, 5), register_of_operand(a, 5))?;
    put_write(out, t, 5)
}

/// An operation with an immediate.
fn put_immediate(
    out: &mut Vec<Line>,
    i: ImmOp,
    n: u32,
    op: BinOp,
    t: Place,
    a: PlacedOperand,
) -> Result<(), AllocError>
    requires t { IsPlace t }
    requires a { IsOperand a }
    ensures { OnOk result (Emits out.old.items out.new.items (immediate_lines i n op t a)) }
{
    let rd = source(t, 5);
    put_operand(out, a, 5)?;
    put(out, immediate(i, rd, register_of_operand(a, 5), n))?;
    put_ending(out, op, rd, rd)?;
    put_write(out, t, 5)
}

/// An operation on two registers.
fn put_registers(
    out: &mut Vec<Line>,
    op: BinOp,
    t: Place,
    a: PlacedOperand,
    b: PlacedOperand,
) -> Result<(), AllocError>
    requires t { IsPlace t }
    requires a { IsOperand a }
    requires b { IsOperand b }
    ensures { OnOk result (Emits out.old.items out.new.items (register_lines op t a b)) }
{
    put_operand(out, a, 5)?;
    put_operand(out, b, 6)?;
    let (ra, rb) = (register_of_operand(a, 5), register_of_operand(b, 6));
    put_apply(out, op, source(t, 5), ra, rb)?;
    put_write(out, t, 5)
}

/// The end of a test for equality: whether a difference is zero, or not.
fn put_ending(out: &mut Vec<Line>, op: BinOp, rd: u8, rs: u8) -> Result<(), AllocError>
    ensures { OnOk result (Emits out.old.items out.new.items (ending_lines op rd rs)) }
{
    match op {
        BinOp::Eq => put(out, Instr::Imm(ImmOp::Sltiu, rd, rs, 1)),
        BinOp::Ne => put(out, Instr::Reg(RegOp::Sltu, rd, 0, rs)),
        _ => Ok(()),
    }
}

fn put_apply(out: &mut Vec<Line>, op: BinOp, rd: u8, a: u8, b: u8) -> Result<(), AllocError>
    ensures { OnOk result (Emits out.old.items out.new.items (apply_lines op rd a b)) }
{
    match op {
        BinOp::Eq => {
            put(out, Instr::Reg(RegOp::Sub, rd, a, b))?;
            put(out, Instr::Imm(ImmOp::Sltiu, rd, rd, 1))
        }
        BinOp::Ne => {
            put(out, Instr::Reg(RegOp::Sub, rd, a, b))?;
            put(out, Instr::Reg(RegOp::Sltu, rd, 0, rd))
        }
        _ => put(out, Instr::Reg(operation(op), rd, a, b)),
    }
}

/// The instruction of an operation that has one.
fn operation(op: BinOp) -> RegOp
    ensures { result ≡ operation_of op }
{
    match op {
        BinOp::Add => RegOp::Add,
        BinOp::Sub => RegOp::Sub,
        BinOp::Mul => RegOp::Mul,
        BinOp::DivS => RegOp::Div,
        BinOp::DivU => RegOp::Divu,
        BinOp::RemS => RegOp::Rem,
        BinOp::RemU => RegOp::Remu,
        BinOp::And => RegOp::And,
        BinOp::Or => RegOp::Or,
        BinOp::Xor => RegOp::Xor,
        BinOp::Shl => RegOp::Sll,
        BinOp::ShrS => RegOp::Sra,
        BinOp::ShrU => RegOp::Srl,
        BinOp::LtS => RegOp::Slt,
        BinOp::LtU => RegOp::Sltu,
        BinOp::Eq => RegOp::Sub,
        BinOp::Ne => RegOp::Sub,
    }
}

/// A place gets the upper word of the product of two operands.
pub fn put_high(
    out: &mut Vec<Line>,
    signed: bool,
    t: Place,
    a: PlacedOperand,
    b: PlacedOperand,
) -> Result<(), AllocError>
    requires t { IsPlace t }
    requires a { IsOperand a }
    requires b { IsOperand b }
    ensures { OnOk result (Emits out.old.items out.new.items (high_lines signed t a b)) }
{
    let op = if signed { RegOp::Mulh } else { RegOp::Mulhu };
    put_operand(out, a, 5)?;
    put_operand(out, b, 6)?;
    let (ra, rb) = (register_of_operand(a, 5), register_of_operand(b, 6));
    put(out, Instr::Reg(op, source(t, 5), ra, rb))?;
    put_write(out, t, 5)
}

/// The load of a byte or of a word.
fn load_op(width: Width) -> LoadOp
    ensures { result ≡ load_op width }
{
    match width {
        Width::Byte => LoadOp::Lbu,
        Width::Word => LoadOp::Lw,
    }
}

/// The store of a byte or of a word.
fn store_op(width: Width) -> StoreOp
    ensures { result ≡ store_op width }
{
    match width {
        Width::Byte => StoreOp::Sb,
        Width::Word => StoreOp::Sw,
    }
}

/// A place gets the value at an address, which an operand and an offset have.
pub fn put_data_load(
    out: &mut Vec<Line>,
    width: Width,
    t: Place,
    a: PlacedOperand,
    offset: u32,
) -> Result<(), AllocError>
    requires t { IsPlace t }
    requires a { IsOperand a }
    ensures { OnOk result (Emits out.old.items out.new.items (data_load_lines width t a offset)) }
{
    put_address(out, a, offset, 5)?;
    put(out, load_at(width, t, a, offset))?;
    put_write(out, t, 5)
}

/// The instruction that loads from an address with an offset.
fn load_at(width: Width, t: Place, a: PlacedOperand, offset: u32) -> Instr
    requires t { IsPlace t }
    requires a { IsOperand a }
    ensures { result
        ≡ instr.Load (load_op width) (source_of t 5) (base_with a offset 5) (rest_of a offset) }
{
    let (rd, ra) = (source(t, 5), base(a, offset, 5));
    Instr::Load(load_op(width), rd, ra, rest(a, offset))
}

/// A value is stored at an address; two operands have both, but for an offset.
pub fn put_data_store(
    out: &mut Vec<Line>,
    width: Width,
    a: PlacedOperand,
    offset: u32,
    b: PlacedOperand,
) -> Result<(), AllocError>
    requires a { IsOperand a }
    requires b { IsOperand b }
    ensures { OnOk result
        (Emits out.old.items out.new.items (data_store_lines width a offset b)) }
{
    put_address(out, a, offset, 5)?;
    put_operand(out, b, 6)?;
    put(out, store_at(width, a, offset, b))
}

/// The instruction that stores at an address with an offset.
fn store_at(width: Width, a: PlacedOperand, offset: u32, b: PlacedOperand) -> Instr
    requires a { IsOperand a }
    requires b { IsOperand b }
    ensures { result
        ≡ instr.Store (store_op width) (base_with a offset 5) (register_with b 6)
        (rest_of a offset) }
{
    let (ra, rb) = (base(a, offset, 5), register_of_operand(b, 6));
    Instr::Store(store_op(width), ra, rb, rest(a, offset))
}

/// The program stops at a check unless a comparison of two operands holds.
pub fn put_test(
    out: &mut Vec<Line>,
    check: Check,
    at: Pos,
    c: Comparison,
    a: PlacedOperand,
    b: PlacedOperand,
) -> Result<(), AllocError>
    requires a { IsOperand a }
    requires b { IsOperand b }
    ensures { OnOk result (Emits out.old.items out.new.items (test_lines check at c a b)) }
{
    put_operand(out, a, 5)?;
    put_operand(out, b, 6)?;
    let (ra, rb) = (register_of_operand(a, 5), register_of_operand(b, 6));
    put_check(out, holding(c), ra, rb, check, at)
}

/// A place gets the next byte of the input, or -1 at its end.
pub fn put_get(out: &mut Vec<Line>, t: Place) -> Result<(), AllocError>
    requires { IsPlace t }
    ensures { OnOk result (Emits out.old.items out.new.items (get_lines t)) }
{
    put_ask(out, 2)?;
    put_settle(out, t, 10)
}

/// The low byte of an operand is put.
pub fn put_put(out: &mut Vec<Line>, a: PlacedOperand) -> Result<(), AllocError>
    requires { IsOperand a }
    ensures { OnOk result (Emits out.old.items out.new.items (put_lines a)) }
{
    put_take(out, 10, a)?;
    put_ask(out, 1)
}
