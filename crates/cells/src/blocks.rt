//! Blocks of 64 cells, and those of them that have a cell within a cube.

ghost use Rattle.std.specs.Prelude.{◌≡◌, ◌<◌, ◌≤◌, ◌*◌, ◌/◌, ℕ, true, false, IfOk};
ghost use Rattle.cells.specs.Blocks.{HasInner};

use net_types::{Cube, Memory};
use place_sets::PlaceSet;
use std::alloc::Global;

/// So many cells are a block.
pub const BLOCK: usize = 64;

/// How many blocks so many cells are.
pub fn blocks_of(count: usize) -> usize
    ensures all { (p : ℕ) → p < count → p / 64 < result }
    ensures begun { (block : ℕ) → block < result → block * 64 < count }
{
    count.div_ceil(BLOCK)
}

/// The blocks that have a cell within a cube.
pub fn blocks_within(alloc: Global, cells: &[Cube], outer: &Cube) -> Result<PlaceSet, Memory>
    ensures { IfOk result (HasInner cells.now outer.now) }
{
    let mut blocks = PlaceSet::none(alloc);
    let mut place = 0;
    while place < cells.len() {
        if cube::within(&cells[place], outer) {
            blocks.put(place / BLOCK)?;
            // the rest of the block changes nothing
            place = (place / BLOCK + 1) * BLOCK;
        } else {
            place += 1;
        }
    }
    Ok(blocks)
}
