//! The one case in code: labelled lines with jumps to any distance, which no text of assembly spells.
use ckc_asm_lines::{Labelled, Line, assemble};
use ckc_base::Seq;
use ckc_image::Parts;
use ckc_rv::{BranchOp, Instr};
use ckc_test_trials::Report;
use std::alloc::{AllocError, Global};

/// The words are those of LLVM's `llvm-mc`.
const CODE: [u8; 28] = [
    0xef, 0x00, 0x80, 0x00, // jal x1, 8
    0xe3, 0x9e, 0x62, 0xfe, // bne x5, x6, -4
    0x17, 0x0d, 0x00, 0x00, // auipc x26, 0
    0x67, 0x00, 0x8d, 0xff, // jalr x0, -8(x26)
    0x17, 0x0d, 0x00, 0x00, // auipc x26, 0
    0xe7, 0x00, 0xcd, 0x00, // jalr x1, 12(x26)
    0x73, 0x00, 0x00, 0x00, // ecall
];

/// Tries them.
pub fn run_labelled(report: &mut Report) {
    let failed_before = report.failed;
    match assembled(report.page.alloc()) {
        Ok(parts) if is_wanted(&parts) => {}
        Ok(parts) => {
            report.failed = report.failed.saturating_add(1);
            report.page.put_digits(parts.code.as_slice());
            report.page.put("\n");
        }
        Err(_) => report.page.lacks_memory(),
    }
    report.count("labelled lines", 1, " case, ", failed_before);
    report.page.put(" differ\n");
}

fn is_wanted(parts: &Parts) -> bool {
    parts.entry == 0x1008
        && parts.code.as_slice() == CODE.as_slice()
        && parts.initial.as_slice() == [1, 2].as_slice()
}

/// Labels in front, at the end and in the middle, and each kind of line.
fn assembled(alloc: Global) -> Result<Parts, AllocError> {
    let lines = [
        Line::Label(7),
        Line::Jump(1, 9),
        Line::Branch(BranchOp::Bne, 5, 6, 7),
        Line::Label(8),
        Line::Label(9),
        Line::Far(0, 7),
        Line::Far(1, 10),
        Line::Plain(Instr::Ecall),
        Line::Label(10),
    ];
    let labelled = Labelled {
        lines: Seq::from_slice(alloc, &lines)?,
        start: 8,
        initial: Seq::from_slice(alloc, &[1, 2])?,
    };
    assemble(alloc, &labelled)
}
