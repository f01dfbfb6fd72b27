ghost use Rattle.std.specs.Prelude.{◌≡◌, slice_index};

use ckc_rv_operations::{LoadOp, StoreOp};

/// The 32 registers. Register 0 always holds 0 (RISC-V unprivileged ISA manual, RV32I, programmers' model).
#[derive(Clone, Copy)]
pub struct Regs {
    pub x: [u32; 32],
    ghost zero: { slice_index x 0 ≡ 0 },
}

/// What an instruction asks of the machine.
///
/// - `Next(rd, value, pc)`: write the value to register rd, unless rd is 0, and go on at pc.
/// - `Load(op, rd, address)` and `Store(op, address, value)`: move bytes, and go on at the next instruction.
/// - `Call`, `Break`: ECALL and EBREAK.
/// - `BadTarget`: the target of a jump or of a taken branch is no multiple of 4.
#[derive(Clone, Copy)]
pub enum Outcome {
    Next(u8, u32, u32),
    Load(LoadOp, u8, u32),
    Store(StoreOp, u32, u32),
    Call,
    Break,
    BadTarget,
}
