ghost use Rattle.std.specs.Prelude.{◌≡◌, ◌≤◌, length, nat_eq, Some, IsSome, IfOk, sum_by};
ghost use Rattle.ckc_base.specs.MemoryMap.{longest_code};
ghost use Rattle.indexmap.specs.IndexMap.{get};
ghost use Rattle.ckc_asm_lines.specs.Assembled.{size_of};
ghost use Rattle.ckc_asm_lines.specs.code.Places.{KnowsPlaces};

use crate::lines::Line;
use ckc_base::memory_map::CODE_START;
use indexmap::IndexMap;
use std::alloc::{AllocError, Global};

/// The address of each label.
pub fn places_of(alloc: Global, lines: &[Line]) -> Result<IndexMap<u32, u32>, AllocError>
    requires { sum_by size_of lines.now ≤ longest_code }
    ensures { IfOk result
        (λ m. KnowsPlaces (λ label. get nat_eq m label) lines.now (length lines.now)) }
{
    let mut places = IndexMap::new(alloc);
    let mut address = CODE_START;
    for line in lines {
        if let Line::Label(label) = *line {
            places.insert(label, address)?;
        }
        address += size(*line);
    }
    Ok(places)
}

/// How many bytes a line takes.
pub fn size(line: Line) -> u32
    ensures { result ≡ size_of line }
{
    match line {
        Line::Label(_) => 0,
        Line::Plain(_) | Line::Jump(_, _) | Line::Branch(_, _, _, _) => 4,
        Line::Far(_, _) => 8,
    }
}

/// The address of a label that the table has.
pub fn target_of(places: &IndexMap<u32, u32>, label: u32) -> u32
    requires { IsSome (get nat_eq places.now label) }
    ensures { get nat_eq places.now label ≡ Some result }
{
    match places.get(&label) {
        Some(address) => *address,
        None => unreachable!(),
    }
}
