use ckc_base::{Boxed, Pos};
use ckc_syntax::{Expr, Spelling, TreeOp};

/// A binary operator with its place, and its right operand.
#[derive(Drop)]
pub struct Step<'a> {
    pub op: TreeOp,
    pub pos: Pos,
    pub operand: Boxed<Expr<Spelling<'a>, ()>>,
}
