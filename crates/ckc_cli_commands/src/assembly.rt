//! From a text of assembly to the bytes of its image.
ghost use Rattle.ckc_base.specs.Phases.{Answers, viewed};
ghost use Rattle.ckc_build.specs.Built.{bytes_of};
ghost use Rattle.ckc_cli_commands.specs.code.Commands.{imaging};

use ckc_asm::read_asm;
use ckc_base::Fault;
use ckc_image::write;
use std::alloc::Global;

/// The image of the parts that a text of assembly stands for.
pub fn assemble(alloc: Global, text: &[u8]) -> Result<Vec<u8>, Fault>
    ensures { Answers imaging text.now (viewed bytes_of result) }
{
    match read_asm(alloc, text) {
        Err(fault) => Err(fault),
        Ok(parts) => match write(alloc, &parts) {
            Err(_) => Err(Fault::Memory),
            Ok(image) => Ok(image),
        },
    }
}
