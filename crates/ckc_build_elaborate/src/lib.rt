//! From the typed tree of a text to its program: the plain functions, statements and expressions of which the meaning
//! of a text is said. What each part of a text means stands in `specs/`, and what expressions mean in `ckc_build_values`.
#![tactic(auto)]

ghost use Rattle.std.specs.Prelude.{◌≡◌, IfOk};
ghost use Rattle.ckc_source.specs.Code.{program_of};
ghost use Rattle.ckc_build_elaborate.specs.Elaborated.{elaborated};

mod destinations;
mod functions;
mod interfaces;
pub mod laws;
mod literals;
mod names;
mod objects;
mod shapes;
mod statements;
mod steps;

use ckc_build_values::texts::Text;
use ckc_source::Program;
use ckc_syntax::Name;
use ckc_typed::Typed;
use std::alloc::{AllocError, Global};

/// The program of a typed text. That a number does not fit is taken for want of memory.
pub fn elaborate(alloc: Global, typed: &Typed) -> Result<Program, AllocError>
    ensures { IfOk result (λ p. program_of p ≡ elaborated typed.now) }
{
    let main = names::number_of(typed.tree.items.as_slice(), Name::Function(typed.main))?;
    let objects = objects::objects(alloc, typed)?;
    let shapes = shapes::shapes(alloc, &typed.layout)?;
    let text = Text::new(typed);
    let functions = functions::functions(alloc, &text)?;
    Ok(Program {
        objects,
        shapes,
        functions,
        main,
    })
}
