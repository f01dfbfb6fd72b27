//! What a text means: its functions as plain trees in which every type is resolved to what evaluation needs, and, in
//! `specs/`, the meaning of them: blocks, evaluation, steps, and what a run shows. It speaks of the whole language.
#![tactic(auto)]

mod expr;
pub mod laws;
pub mod operators;
mod outcome;
mod program;
mod stmt;

pub use expr::{
    Access, Base, Count, End, ExprTree, Integer, Limits, Operation, Pointee, Shift, Through,
    Variable,
};
pub use outcome::{Halt, Place, Range, Value};
pub use program::{FunctionTree, Interface, MemberRun, Object, Program, Shape};
pub use stmt::{Assign, Kept, RightTree, Spot, StmtTree, TargetTree};
