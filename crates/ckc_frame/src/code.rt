use ckc_base::{Bytes, Seq};
use ckc_tac::TacFunc;

/// A place of a frame: one of the registers 0 to 15, or one of the slots 0 to 4,063.
#[derive(Clone, Copy)]
pub enum Place {
    Reg(u8),
    Slot(u16),
}

/// A program: the first bytes of the data region, which are followed by zeros, its functions, and the number of
/// `main`.
#[derive(Drop)]
pub struct Placed {
    pub initial: Bytes,
    pub funcs: Seq<PlacedFunc>,
    pub main: u32,
}

/// A function with the place of each register, and for each call, in the order of the code, which registers keep
/// their values over it.
#[derive(Drop)]
pub struct PlacedFunc {
    pub code: TacFunc,
    pub homes: Seq<Place>,
    pub kept: Seq<Seq<bool>>,
}
