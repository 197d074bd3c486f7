//! Lists of the cells within a cube.

ghost use Rattle.std.specs.Prelude.{◌≡◌, ◌<◌, ◌*◌, ◌/◌, ℕ, true, length, IfOk, IfSome, OnOk};
ghost use Rattle.place_sets.specs.Places.{has_place};
ghost use Rattle.cells.specs.Listed.{ListsOnly, ListsThese, is_listed};

use crate::blocks::{BLOCK, blocks_of};
use net_types::{Cube, Memory};
use place_sets::PlaceSet;
use std::alloc::Global;

/// A cube, and the places of the cells within it.
#[derive(Drop)]
pub struct Listed {
    pub cube: Cube,
    pub places: Vec<usize>,
}

/// Puts the places last of the cells of a block that lie within a cube.
fn push_block(
    places: &mut Vec<usize>,
    cells: &[Cube],
    cube: &Cube,
    block: usize,
) -> Result<(), Memory>
    requires begun { block * 64 < length cells.now }
    requires only { ListsOnly cells.now cube.now places.old.items }
    ensures these { OnOk result (ListsThese cells.now cube.now (λ p. p / 64 ≡ block) places.new.items) }
    ensures only { OnOk result (ListsOnly cells.now cube.now places.new.items) }
    ensures kept { OnOk result ((p : ℕ) → is_listed places.old.items p ≡ true → is_listed places.new.items p ≡ true) }
{
    let start = block * BLOCK;
    let count = (cells.len() - start).min(BLOCK);
    for place in start..start + count {
        if cube::within(&cells[place], cube) {
            places.push(place)?;
        }
    }
    Ok(())
}

/// The places of the cells within a cube, of those of some blocks. None where there are more than there is room for.
pub fn listed_in(
    alloc: Global,
    cells: &[Cube],
    cube: &Cube,
    blocks: &PlaceSet,
    room: usize,
) -> Result<Option<Vec<usize>>, Memory>
    ensures these { IfOk result (λ o. IfSome o (λ v. ListsThese cells.now cube.now (λ p. has_place blocks.now (p / 64) ≡ true) v.items)) }
    ensures only { IfOk result (λ o. IfSome o (λ v. ListsOnly cells.now cube.now v.items)) }
{
    let mut places = Vec::new(alloc);
    for block in 0..blocks_of(cells.len()) {
        if blocks.has(block) {
            push_block(&mut places, cells, cube, block)?;
        }
        if places.len() > room {
            return Ok(None);
        }
    }
    Ok(Some(places))
}
