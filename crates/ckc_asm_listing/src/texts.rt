//! The text of each line of a listing.
ghost use Rattle.std.specs.Prelude.{◌≡◌, ◌+◌, ◌<◌, ◌≤◌, ◌++◌, length, codes};
ghost use Rattle.std.specs.Fmt.{decimal, signed_decimal};
ghost use Rattle.ckc_rv.specs.Table.{InRange};
ghost use Rattle.ckc_asm.specs.Names.{branch_name, load_name, store_name, imm_name, reg_name, register, hexadecimal};
ghost use Rattle.ckc_asm_listing.specs.Listing.{named, two, three, from_register, instr_text, word_text, entry_text, format_text, data_text, ended};

use crate::text_line::TextLine;
use ckc_asm::{branch_name, imm_name, load_name, reg_name, store_name};
use ckc_image::Format;
use ckc_rv::{BranchOp, ImmOp, Instr, RegOp, decode};

/// The line of a format.
pub fn format_line(format: Format) -> TextLine
    ensures { result ≡ ended (format_text format) }
{
    match format {
        Format::First => ended_line(b"# version 1"),
        Format::Elf => ended_line(b"# elf32"),
    }
}

/// A line of this text.
fn ended_line(text: &[u8]) -> TextLine
    requires { length text.now ≤ 40 }
    ensures { result ≡ ended text.now }
{
    let mut line = TextLine::new();
    line.push_text(text);
    line.push(b'\n');
    line
}

/// The line of the entry.
pub fn entry_line(entry: u32) -> TextLine
    ensures { result ≡ ended (entry_text entry) }
{
    let mut line = TextLine::new();
    line.push_text(b".entry 0x");
    line.push_hex_8(entry);
    line.push(b'\n');
    line
}

/// The line of a word: its instruction, or `.word`.
pub fn word_line(word: u32) -> TextLine
    ensures { result ≡ ended (word_text word) }
{
    let mut line = match decode(word) {
        Some(i) => instr_line(&i),
        None => plain_word(word),
    };
    line.push(b'\n');
    line
}

fn plain_word(word: u32) -> TextLine
    ensures text { result ≡ named (codes ".word") (hexadecimal 8 word) }
    ensures length { length result ≤ 40 }
{
    let mut line = TextLine::new();
    line.push_text(b".word 0x");
    line.push_hex_8(word);
    line
}

/// The line of at most 16 initial bytes.
pub fn data_line(bytes: &[u8]) -> TextLine
    requires { length bytes.now ≤ 16 }
    ensures { result ≡ ended (data_text bytes.now) }
{
    let mut line = TextLine::new();
    line.push_text(b".data");
    for byte in bytes {
        line.push(b' ');
        line.push_hex_2(u32::from(*byte));
    }
    line.push(b'\n');
    line
}

fn instr_line(i: &Instr) -> TextLine
    requires { InRange i.now }
    ensures text { result ≡ instr_text i.now }
    ensures length { length result ≤ 40 }
{
    match *i {
        Instr::Lui(rd, upper) => upper_line("lui", rd, upper),
        Instr::Auipc(rd, upper) => upper_line("auipc", rd, upper),
        Instr::Jal(rd, offset) => jump_line(rd, offset),
        Instr::Jalr(rd, rs1, offset) => memory_line("jalr", rd, rs1, offset),
        Instr::Branch(op, rs1, rs2, offset) => branch_line(op, rs1, rs2, offset),
        Instr::Load(op, rd, rs1, offset) => memory_line(load_name(op), rd, rs1, offset),
        Instr::Store(op, rs1, rs2, offset) => memory_line(store_name(op), rs2, rs1, offset),
        Instr::Imm(op, rd, rs1, immediate) => imm_line(op, rd, rs1, immediate),
        Instr::Reg(op, rd, rs1, rs2) => reg_line(op, rd, rs1, rs2),
        Instr::Fence(sets) => fence_line(sets),
        Instr::Ecall => whole_line("ecall"),
        Instr::Ebreak => whole_line("ebreak"),
    }
}

/// A name and a space.
fn begun(name: &str) -> TextLine
    requires { length name.now ≤ 6 }
    ensures text { result ≡ name.now ++ codes " " }
    ensures length { length result ≤ 7 }
{
    let mut line = TextLine::new();
    line.push_text(name.as_bytes());
    line.push(b' ');
    line
}

fn push_two(line: &mut TextLine, first: u8, second: u8)
    requires room { length line.old ≤ 20 }
    requires registers { (first < 32) × (second < 32) }
    ensures text { line.new ≡ line.old ++ two (register first) (register second) }
    ensures length { length line.new ≤ length line.old + 8 }
{
    line.push_register(first);
    line.push_text(b", ");
    line.push_register(second);
}

fn push_from_register(line: &mut TextLine, offset: i32, register: u8)
    requires room { length line.old ≤ 20 }
    requires number { register < 32 }
    ensures text { line.new ≡ line.old ++ from_register offset register }
    ensures length { length line.new ≤ length line.old + 16 }
{
    line.push_signed(offset);
    line.push(b'(');
    line.push_register(register);
    line.push(b')');
}

fn whole_line(name: &str) -> TextLine
    requires { length name.now ≤ 40 }
    ensures text { result ≡ name.now }
    ensures length { length result ≤ 40 }
{
    let mut line = TextLine::new();
    line.push_text(name.as_bytes());
    line
}

fn upper_line(name: &str, rd: u8, upper: u32) -> TextLine
    requires name { length name.now ≤ 6 }
    requires register { rd < 32 }
    ensures text { result ≡ named name.now (two (register rd) (hexadecimal 5 upper)) }
    ensures length { length result ≤ 40 }
{
    let mut line = begun(name);
    line.push_register(rd);
    line.push_text(b", 0x");
    line.push_hex_5(upper);
    line
}

fn jump_line(rd: u8, offset: i32) -> TextLine
    requires { rd < 32 }
    ensures text { result ≡ named (codes "jal") (two (register rd) (signed_decimal offset)) }
    ensures length { length result ≤ 40 }
{
    let mut line = begun("jal");
    line.push_register(rd);
    line.push_text(b", ");
    line.push_signed(offset);
    line
}

fn branch_line(op: BranchOp, rs1: u8, rs2: u8, offset: i32) -> TextLine
    requires { (rs1 < 32) × (rs2 < 32) }
    ensures text { result ≡ named (branch_name op) (three (register rs1) (register rs2)
        (signed_decimal offset)) }
    ensures length { length result ≤ 40 }
{
    let mut line = begun(branch_name(op));
    push_two(&mut line, rs1, rs2);
    line.push_text(b", ");
    line.push_signed(offset);
    line
}

/// A load, a store or a JALR: a register, and an offset from another.
fn memory_line(name: &str, first: u8, base: u8, offset: i32) -> TextLine
    requires name { length name.now ≤ 6 }
    requires registers { (first < 32) × (base < 32) }
    ensures text { result ≡ named name.now (two (register first) (from_register offset base)) }
    ensures length { length result ≤ 40 }
{
    let mut line = begun(name);
    line.push_register(first);
    line.push_text(b", ");
    push_from_register(&mut line, offset, base);
    line
}

fn imm_line(op: ImmOp, rd: u8, rs1: u8, immediate: i32) -> TextLine
    requires { (rd < 32) × (rs1 < 32) }
    ensures text { result ≡ named (imm_name op) (three (register rd) (register rs1)
        (signed_decimal immediate)) }
    ensures length { length result ≤ 40 }
{
    let mut line = begun(imm_name(op));
    push_two(&mut line, rd, rs1);
    line.push_text(b", ");
    line.push_signed(immediate);
    line
}

fn reg_line(op: RegOp, rd: u8, rs1: u8, rs2: u8) -> TextLine
    requires { (rd < 32) × (rs1 < 32) × (rs2 < 32) }
    ensures text { result ≡ named (reg_name op) (three (register rd) (register rs1)
        (register rs2)) }
    ensures length { length result ≤ 40 }
{
    let mut line = begun(reg_name(op));
    push_two(&mut line, rd, rs1);
    line.push_text(b", ");
    line.push_register(rs2);
    line
}

fn fence_line(sets: u8) -> TextLine
    ensures text { result ≡ named (codes "fence") (decimal sets) }
    ensures length { length result ≤ 40 }
{
    let mut line = begun("fence");
    line.push_decimal(u32::from(sets));
    line
}
