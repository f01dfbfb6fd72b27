//! From a text to the bytes of its image.
ghost use Rattle.std.specs.Prelude.{IfOk, Ok};
ghost use Rattle.ckc_base.specs.Phases.{Answers, Exact, viewed};
ghost use Rattle.ckc_source.specs.Code.{program_of};
ghost use Rattle.ckc_source.specs.LaidOut.{IsLaidOut};
ghost use Rattle.ckc_build.specs.Meanings.{meanings};
ghost use Rattle.ckc_build.specs.Built.{building, bytes_of};
ghost use Rattle.ckc_build.specs.Sizes.{HasShortCode};

use crate::laws::{
    checked_stores_lie_in_blocks, programs_fit, programs_have_the_form, unchecked_code_is_to_blame,
};
use crate::meanings::program;
use ckc_base::Fault;
use ckc_build_compile::compile;
use ckc_build_words::places_fit;
use ckc_image::write;
use ckc_source::Program;
use std::alloc::Global;
use std::mem::forget;

/// The image of a text.
pub fn build(alloc: Global, text: &[u8]) -> Result<Vec<u8>, Fault>
    // Ok of an image of the text, whose machine follows its meaning; a refusal for its first error.
    ensures answers { Answers building text.now (viewed bytes_of result) }
    ensures short { IfOk result (λ image. HasShortCode text.now image.items) }
{
    match program(alloc, text) {
        Err(fault) => Err(fault),
        // The program is left to the end of the process, which gives its memory back at once.
        Ok(p) => {
            let image = image_of(alloc, text, &p);
            forget(p);
            image
        }
    }
}

/// An image of the program of a text.
fn image_of(alloc: Global, text: &[u8], p: &Program) -> Result<Vec<u8>, Fault>
    requires means { Exact meanings text.now (Ok (program_of p.now)) }
    requires laid { IsLaidOut (program_of p.now) }
    ensures answers { Answers building text.now (viewed bytes_of result) }
    ensures short { IfOk result (λ image. HasShortCode text.now image.items) }
{
    places_fit(p);
    programs_have_the_form();
    programs_fit();
    unchecked_code_is_to_blame();
    checked_stores_lie_in_blocks();
    match compile(alloc, p) {
        Err(_) => Err(Fault::Memory),
        Ok(parts) => match write(alloc, &parts) {
            Err(_) => Err(Fault::Memory),
            Ok(image) => Ok(image),
        },
    }
}
