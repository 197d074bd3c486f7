//! Of each cell the first of some cubes that it lies within.

ghost use Rattle.std.specs.Prelude.{◌≡◌, ◌<◌, ◌≤◌, ◌*◌, ◌/◌, ℕ, nat_eq, true, [], length, Option, IfOk, OnOk};
ghost use Rattle.std.specs.Option.{is_some};
ghost use Rattle.place_sets.specs.Places.{has_place};
ghost use Rattle.cells.specs.Firsts.{firsts, noted};
ghost use Rattle.cells.specs.Listed.{is_listed};
ghost use Rattle.cells.specs.Marks.{AreAllNoted, AreFound, AreGiven, AreLeft, AreNoted, found_at};

use crate::blocks::{BLOCK, blocks_of};
use crate::inside::Inside;
use net_types::{Cube, Memory};
use place_sets::PlaceSet;
use std::alloc::Global;

/// Nothing found of each cell.
fn nothing_of(alloc: Global, cells: &[Cube]) -> Result<Vec<Option<usize>>, Memory>
    ensures { IfOk result (λ v. v.items ≡ firsts [] cells.now) }
{
    let mut found = Vec::with_capacity(alloc, cells.len())?;
    for _cell in cells {
        found.push(None)?;
    }
    Ok(found)
}

/// What a cell has once it was looked at whether it lies within a cube.
fn noted(earlier: Option<usize>, cell: &Cube, cube: &Cube, place: usize) -> Option<usize>
    ensures { result ≡ noted place cube.now cell.now earlier }
{
    match earlier {
        Some(_) => earlier,
        None => {
            if cube::within(cell, cube) {
                Some(place)
            } else {
                None
            }
        }
    }
}

/// Notes the place of a cube at the cells of a block that have none and lie within it. Whether each cell has one then.
fn note_block(
    cells: &[Cube],
    cube: &Cube,
    place: usize,
    block: usize,
    found: &mut Vec<Option<usize>>,
) -> bool
    requires begun { block * 64 < length cells.now }
    requires long { length found.old.items ≡ length cells.now }
    ensures noted { AreNoted place cube.now cells.now (λ p. p / 64 ≡ block) found.old.items found.new.items }
    ensures full { result ≡ true → (p : ℕ) → p < length cells.now → p / 64 ≡ block → is_some (found_at found.new.items p) ≡ true }
{
    let start = block * BLOCK;
    let count = (cells.len() - start).min(BLOCK);
    let mut is_full = true;
    for i in start..start + count {
        let first = noted(found[i], &cells[i], cube, place);
        is_full &= first.is_some();
        found[i] = first;
    }
    is_full
}

/// Notes the place of a cube at the cells that have none and lie within it, of those of some blocks whose bits stand in one word.
/// Puts in the blocks of which each cell has one then.
fn note_word(
    cells: &[Cube],
    cube: &Cube,
    place: usize,
    blocks: &PlaceSet,
    word: usize,
    found: &mut Vec<Option<usize>>,
    full: &mut PlaceSet,
) -> Result<(), Memory>
    requires begun { word * 64 * 64 < length cells.now }
    requires long { length found.old.items ≡ length cells.now }
    requires full { AreFound cells.now found.old.items full.old }
    ensures noted { OnOk result (AreNoted place cube.now cells.now (λ p. (p / 64 / 64 ≡ word) × (has_place blocks.now (p / 64) ≡ true)) found.old.items found.new.items) }
    ensures full { OnOk result (AreFound cells.now found.new.items full.new) }
{
    let start = word * BLOCK;
    let count = (blocks_of(cells.len()) - start).min(BLOCK);
    for block in start..start + count {
        if blocks.has(block) && note_block(cells, cube, place, block, found) {
            full.put(block)?;
        }
    }
    Ok(())
}

/// Notes the place of a cube at the cells of some blocks that have none and lie within it. The blocks of which each cell has
/// one then.
fn note_blocks(
    alloc: Global,
    cells: &[Cube],
    cube: &Cube,
    place: usize,
    blocks: &PlaceSet,
    found: &mut Vec<Option<usize>>,
) -> Result<PlaceSet, Memory>
    requires { length found.old.items ≡ length cells.now }
    ensures noted { OnOk result (AreNoted place cube.now cells.now (λ p. has_place blocks.now (p / 64) ≡ true) found.old.items found.new.items) }
    ensures full { IfOk result (AreFound cells.now found.new.items) }
{
    let mut full = PlaceSet::none(alloc);
    for word in 0..blocks_of(blocks_of(cells.len())) {
        if !blocks.is_empty_at(word) {
            note_word(cells, cube, place, blocks, word, found, &mut full)?;
        }
    }
    Ok(full)
}

/// Gives a cell a place where it has none.
fn note_at(place: usize, at: usize, found: &mut Vec<Option<usize>>)
    ensures { AreGiven place (nat_eq at) found.old.items found.new.items }
{
    if at < found.len() && found[at].is_none() {
        found[at] = Some(place);
    }
}

/// Gives the cells of a list that have none a place.
fn note_listed(place: usize, listed: &[usize], found: &mut Vec<Option<usize>>)
    ensures { AreGiven place (is_listed listed.now) found.old.items found.new.items }
{
    for i in 0..listed.len() {
        note_at(place, listed[i], found);
    }
}

/// Notes the place of a cube at the cells that have none and lie within it, where blocks are left that have cells without one.
/// The blocks that are left then.
fn note_within(
    alloc: Global,
    inside: &mut Inside<'_>,
    cube: &Cube,
    place: usize,
    left: &PlaceSet,
    found: &mut Vec<Option<usize>>,
) -> Result<PlaceSet, Memory>
    requires long { length found.old.items ≡ length inside.old.cells.now }
    requires left { AreLeft inside.old.cells.now found.old.items left.now }
    ensures noted { OnOk result (AreAllNoted place cube.now inside.old.cells.now found.old.items found.new.items) }
    ensures left { IfOk result (AreLeft inside.old.cells.now found.new.items) }
    ensures cells { inside.new.cells.now ≡ inside.old.cells.now }
{
    let cells = inside.cells;
    let blocks = inside.among(left, cube)?;
    let full = note_blocks(alloc, cells, cube, place, &blocks, found)?;
    let rest = left.without(alloc, &full)?;
    Ok(rest)
}

/// The same, by the list of the cells within the cube where there is one.
fn note(
    alloc: Global,
    inside: &mut Inside<'_>,
    cube: &Cube,
    place: usize,
    left: PlaceSet,
    found: &mut Vec<Option<usize>>,
) -> Result<PlaceSet, Memory>
    requires long { length found.old.items ≡ length inside.old.cells.now }
    requires left { AreLeft inside.old.cells.now found.old.items left }
    ensures noted { OnOk result (AreAllNoted place cube.now inside.old.cells.now found.old.items found.new.items) }
    ensures left { IfOk result (AreLeft inside.old.cells.now found.new.items) }
    ensures cells { inside.new.cells.now ≡ inside.old.cells.now }
{
    match inside.list_of(cube)? {
        Some(number) => {
            note_listed(place, &inside.lists[number].places, found);
            Ok(left)
        }
        None => note_within(alloc, inside, cube, place, &left, found),
    }
}

/// Of each cell the place of the first of the cubes that it lies within. Cubes behind those that hold all cells aren't looked at.
pub fn firsts_of(
    alloc: Global,
    inside: &mut Inside<'_>,
    cubes: &[Cube],
) -> Result<Vec<Option<usize>>, Memory>
    ensures firsts { IfOk result (λ v. v.items ≡ firsts cubes.now inside.old.cells.now) }
    ensures cells { inside.new.cells.now ≡ inside.old.cells.now }
{
    let mut found = nothing_of(alloc, inside.cells)?;
    let mut left = PlaceSet::first(alloc, blocks_of(inside.cells.len()))?;
    for place in 0..cubes.len() {
        if left.is_empty() {
            return Ok(found);
        }
        left = note(alloc, inside, &cubes[place], place, left, &mut found)?;
    }
    Ok(found)
}
