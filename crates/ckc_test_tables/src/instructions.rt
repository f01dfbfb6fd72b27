//! Instructions of RV32IM as text: the form, the operation and the fields, as `Imm(Addi, 3, 1, -2048)`.

use ckc_rv::{BranchOp, ImmOp, Instr, LoadOp, RegOp, StoreOp};
use ckc_test_trials::Page;
use std::fmt::Debug;

const BRANCHES: [BranchOp; 6] = [
    BranchOp::Beq,
    BranchOp::Bne,
    BranchOp::Blt,
    BranchOp::Bge,
    BranchOp::Bltu,
    BranchOp::Bgeu,
];

const LOADS: [LoadOp; 5] = [LoadOp::Lb, LoadOp::Lh, LoadOp::Lw, LoadOp::Lbu, LoadOp::Lhu];

const STORES: [StoreOp; 3] = [StoreOp::Sb, StoreOp::Sh, StoreOp::Sw];

const IMMEDIATES: [ImmOp; 9] = [
    ImmOp::Addi,
    ImmOp::Slti,
    ImmOp::Sltiu,
    ImmOp::Xori,
    ImmOp::Ori,
    ImmOp::Andi,
    ImmOp::Slli,
    ImmOp::Srli,
    ImmOp::Srai,
];

const REGISTERS: [RegOp; 18] = [
    RegOp::Add,
    RegOp::Sub,
    RegOp::Sll,
    RegOp::Slt,
    RegOp::Sltu,
    RegOp::Xor,
    RegOp::Srl,
    RegOp::Sra,
    RegOp::Or,
    RegOp::And,
    RegOp::Mul,
    RegOp::Mulh,
    RegOp::Mulhsu,
    RegOp::Mulhu,
    RegOp::Div,
    RegOp::Divu,
    RegOp::Rem,
    RegOp::Remu,
];

/// The instruction that a field spells. It may be out of range.
pub fn instruction(field: &str, page: &mut Page) -> Instr {
    let words = page.words_of(field);
    of_words(words.as_slice(), page)
}

fn of_words(words: &[&str], page: &mut Page) -> Instr {
    match words {
        [form] => of_form(form, page),
        [form, a] => of_one(form, page.byte_of(a), page),
        [form, a, b] => of_two(form, page.byte_of(a), b, page),
        [form, a, b, c] => of_three(form, (a, b, c), page),
        [form, op, a, b, c] => of_operation(form, op, (a, b, c), page),
        _ => unknown(page),
    }
}

fn of_form(form: &str, page: &mut Page) -> Instr {
    match form {
        "Ecall" => Instr::Ecall,
        "Ebreak" => Instr::Ebreak,
        _ => unknown(page),
    }
}

fn of_one(form: &str, number: u8, page: &mut Page) -> Instr {
    match form {
        "Fence" => Instr::Fence(number),
        _ => unknown(page),
    }
}

fn of_two(form: &str, rd: u8, number: &str, page: &mut Page) -> Instr {
    match form {
        "Lui" => Instr::Lui(rd, page.word_of(number)),
        "Auipc" => Instr::Auipc(rd, page.word_of(number)),
        "Jal" => Instr::Jal(rd, signed(number, page)),
        _ => unknown(page),
    }
}

fn of_three(form: &str, fields: (&str, &str, &str), page: &mut Page) -> Instr {
    let a = page.byte_of(fields.0);
    let b = page.byte_of(fields.1);
    let c = signed(fields.2, page);
    match form {
        "Jalr" => Instr::Jalr(a, b, c),
        _ => unknown(page),
    }
}

fn of_operation(form: &str, op: &str, fields: (&str, &str, &str), page: &mut Page) -> Instr {
    let a = page.byte_of(fields.0);
    let b = page.byte_of(fields.1);
    let c = signed(fields.2, page);
    match form {
        "Branch" => Instr::Branch(spelled(&BRANCHES, BranchOp::Beq, op, page), a, b, c),
        "Load" => Instr::Load(spelled(&LOADS, LoadOp::Lb, op, page), a, b, c),
        "Store" => Instr::Store(spelled(&STORES, StoreOp::Sb, op, page), a, b, c),
        "Imm" => Instr::Imm(spelled(&IMMEDIATES, ImmOp::Addi, op, page), a, b, c),
        "Reg" => {
            let op = spelled(&REGISTERS, RegOp::Add, op, page);
            Instr::Reg(op, a, b, page.byte_of(fields.2))
        }
        _ => unknown(page),
    }
}

fn unknown(page: &mut Page) -> Instr {
    page.refuse("not an instruction");
    Instr::Ecall
}

/// A number from -2^31 to below 2^31.
fn signed(text: &str, page: &mut Page) -> i32 {
    match i32::try_from(page.number_of(text)) {
        Ok(number) => number,
        Err(_) => {
            page.refuse("not a signed word");
            0
        }
    }
}

/// The value whose name in the code this is. If none has it, the page keeps that, and there is the other value.
fn spelled<T: Copy + Debug>(all: &[T], otherwise: T, name: &str, page: &mut Page) -> T {
    for value in all {
        let mut spelling = Page::new(page.alloc());
        spelling.put_debug(value);
        if spelling.text() == name {
            return *value;
        }
    }
    page.refuse("not an instruction");
    otherwise
}
