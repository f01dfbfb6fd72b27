//! A program's text.
ghost use Rattle.std.specs.Prelude.{◌≡◌, length, map, All, IfOk};
ghost use Rattle.ckc_core.specs.declared.code.CoreFunc.{CoreFunc};
ghost use Rattle.ckc_core.specs.Code.{program_of};
ghost use Rattle.ckc_core.specs.WellFormed.{IsWellFormed};
ghost use Rattle.ckc_core.specs.Limits.{IsWithinLimits};
ghost use Rattle.ckc_test_code.specs.code.Fine.{IsFunction};

use crate::fault::TextFault;
use crate::stmts::{block, fits};
use crate::words::Words;
use ckc_base::Seq;
use ckc_core::{Core, CoreFunc};
use std::alloc::Global;

/// How deep statements may stand in one another.
const NESTED: u32 = 200;

/// A program: `( PARAMS .. )`, the number of parameters of each function, and then each function, as
/// `fn LOCALS { STATEMENT .. }`. The first one is `main`. The heap begins at 0x02000008.
pub fn program(alloc: Global, text: &[u8]) -> Result<Core, TextFault>
    ensures whole { IfOk result (λ c. IsWellFormed (program_of c)) }
    ensures limits { IfOk result (λ c. IsWithinLimits (program_of c)) }
    ensures initial { IfOk result (λ c. length c.initial ≡ 8) }
{
    let mut words = Words::new(alloc, text)?;
    let params = params_in(alloc, &mut words)?;
    let counts = params.as_slice();
    let funcs = functions(alloc, &mut words, counts)?;
    if fits(counts, 0, 0) {
        let initial = Seq::from_slice(alloc, &[8, 0, 0, 2, 0, 0, 0, 0])?;
        let main = 0;
        Ok(Core {
            initial,
            funcs,
            main,
        })
    } else {
        Err(TextFault::Malformed("no main without parameters"))
    }
}

fn params_in(alloc: Global, words: &mut Words) -> Result<Vec<u32>, TextFault> {
    let mut params = Vec::new(alloc);
    words.expect("(");
    for _turn in 0..words.left() {
        if words.eat(")") {
            return Ok(params);
        }
        let count = words.number();
        params.push(count)?;
    }
    Err(TextFault::Malformed("parameters without their end"))
}

fn functions(alloc: Global, words: &mut Words, params: &[u32]) -> Result<Seq<CoreFunc>, TextFault>
    ensures same { IfOk result (λ fs. map (λ (f : CoreFunc). f.params) fs ≡ params.now) }
    ensures fine { IfOk result (λ fs. All (IsFunction params.now) fs) }
{
    let mut funcs = Seq::new(alloc);
    for count in params {
        let f = function(alloc, words, params, *count)?;
        funcs.push(f)?;
    }
    if words.left() > 0 || words.is_wrong() {
        return Err(TextFault::Malformed("a word that has no meaning there"));
    }
    Ok(funcs)
}

fn function(
    alloc: Global,
    words: &mut Words,
    params: &[u32],
    count: u32,
) -> Result<CoreFunc, TextFault>
    ensures params { IfOk result (λ f. f.params ≡ count) }
    ensures fine { IfOk result (IsFunction params.now) }
{
    words.expect("fn");
    let locals = words.number();
    if count > locals || locals > 2000 {
        return Err(TextFault::Malformed("too many or too few locals"));
    }
    let body = block(alloc, words, params, locals, false, NESTED)?;
    let params = count;
    Ok(CoreFunc {
        params,
        locals,
        body,
    })
}
