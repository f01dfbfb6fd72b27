//! The new numbers of blocks.
ghost use Rattle.std.specs.Prelude.{◌≡◌, ◌≤◌, IfOk, List, get_or, length, ℕ};
ghost use Rattle.ckc_tac.specs.declared.code.TacBlock.{TacBlock};
ghost use Rattle.ckc_passes_jumps.specs.code.Reached.{ArePlaced, AreReached};

use std::alloc::{AllocError, Global};

/// How many blocks with a mark stand in front of each block.
pub fn places(alloc: Global, marks: &[bool]) -> Result<Vec<usize>, AllocError>
    ensures exact { IfOk result (λ places. (blocks : List TacBlock) → AreReached blocks marks.now
        → ArePlaced blocks (length marks.now) places.items) }
    ensures small { IfOk result (λ places. (b : ℕ) → get_or places.items b 0 ≤ b) }
{
    let mut places = Vec::new(alloc);
    let mut count = 0;
    for b in 0..marks.len() {
        places.push(count)?;
        if marks[b] {
            count += 1;
        }
    }
    Ok(places)
}

/// The new number of a block.
pub fn place(places: &[usize], b: u32) -> u32
    requires { (b : ℕ) → get_or places.now b 0 ≤ b }
    ensures { result ≡ get_or places.now b 0 }
{
    if (b as usize) < places.len() {
        places[b as usize] as u32
    } else {
        0
    }
}
