//! The places in the functions of a program.
ghost use Rattle.std.specs.Prelude.{map};
ghost use Rattle.ckc_source.specs.Code.{function_of, program_of};
ghost use Rattle.ckc_build_words.specs.Places.{FunctionsPlaces, PlacesFit};

use crate::statements::code_places;
use ckc_source::{FunctionTree, Program};

fn function_places(functions: &[FunctionTree])
    ensures { FunctionsPlaces (map function_of functions.now) }
{
    let mut i = functions.len();
    while i > 0 {
        i -= 1;
        code_places(functions[i].body.as_slice());
    }
}

/// The places in a program fit in 32 bits. It takes no memory.
pub fn places_fit(p: &Program)
    ensures { PlacesFit (program_of p.now) }
{
    function_places(p.functions.as_slice());
}
