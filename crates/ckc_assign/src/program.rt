ghost use Rattle.std.specs.Prelude.{◌≡◌, ◌≤◌, All, IfOk, List, ℕ};
ghost use Rattle.ckc_base.specs.Follows.{Follows};
ghost use Rattle.ckc_tac.specs.WellFormed as tac;
ghost use Rattle.ckc_tac.specs.Meaning.{tac_detail};
ghost use Rattle.ckc_frame.specs.Meaning.{placed_detail};
ghost use Rattle.ckc_frame.specs.WellFormed as frame;
ghost use Rattle.ckc_tac.specs.Sizes.{program_size as tac_size};
ghost use Rattle.ckc_assign.specs.Apart.{HasOwnPlaces, KeepsLive};
ghost use Rattle.ckc_assign.specs.Slots.{UsesFewSlots};
ghost use Rattle.ckc_assign.specs.code.Assigned.{AreAssigned, IsAssigned};

use crate::copies::copy_of;
use crate::homes::homes_of;
use crate::kept::kept_of;
use crate::ranges::ranges_of;
use ckc_base::Seq;
use ckc_flow::live;
use ckc_frame::{Placed, PlacedFunc};
use ckc_tac::{Tac, TacFunc};
use std::alloc::{AllocError, Global};

/// The program with a place for each register of each function, by linear scan over live ranges. Registers that are
/// live at once never share a place, a call keeps exactly what is live after it, and a register has a slot only if more
/// than sixteen ranges meet at some place of its own. The code, and with it the initial bytes, is as it was. The placed
/// program does what the program does, calls, returns and stores to the data region included, in as many steps.
pub fn assign(alloc: Global, t: &Tac) -> Result<Placed, AllocError>
    requires whole { tac.IsWellFormed t.now }
    requires few { tac.HasFewRegisters t.now }
    ensures code { IfOk result (λ p. frame.code_of p ≡ t.now) }
    ensures whole { IfOk result (λ p. frame.IsWellFormed p) }
    ensures apart { IfOk result (λ p. All HasOwnPlaces p.funcs) }
    ensures keeps { IfOk result (λ p. All KeepsLive p.funcs) }
    ensures slots { IfOk result (λ p. All UsesFewSlots p.funcs) }
    ensures size { IfOk result (λ p. frame.program_size p ≡ tac_size t.now) }
    ensures follows { IfOk result
        (λ p. (input : List ℕ) → Follows (tac_detail t.now input) (placed_detail p input) 1) }
{
    let funcs = functions(alloc, t.funcs.as_slice())?;
    let initial = Seq::from_slice(alloc, t.initial.as_slice())?;
    Ok(Placed {
        initial,
        funcs: Seq::from_vec(funcs),
        main: t.main,
    })
}

fn functions(alloc: Global, fs: &[TacFunc]) -> Result<Vec<PlacedFunc>, AllocError>
    requires { All (λ f. f.regs ≤ 4064) fs.now }
    ensures { IfOk result (λ placed. AreAssigned fs.now placed.items) }
{
    let mut placed = Vec::new(alloc);
    for f in fs {
        let one = function(alloc, f)?;
        placed.push(one)?;
    }
    Ok(placed)
}

fn function(alloc: Global, f: &TacFunc) -> Result<PlacedFunc, AllocError>
    requires { f.now.regs ≤ 4064 }
    ensures { IfOk result (λ p. IsAssigned f.now p) }
{
    let live = live(alloc, f)?;
    let rows = live.before.as_slice();
    let ranges = ranges_of(alloc, f, rows)?;
    let homes = homes_of(alloc, f, ranges.as_slice())?;
    let kept = kept_of(alloc, f, rows)?;
    let code = copy_of(alloc, f)?;
    Ok(PlacedFunc {
        code,
        homes: Seq::from_vec(homes),
        kept: Seq::from_vec(kept),
    })
}
