//! Sets of the locations to which packets go.

ghost use Rattle.std.specs.Prelude.{◌≡◌, ◌<◌, ℕ, Some, None, length, map, IfOk, IfSome, OnOk};
ghost use Rattle.std.specs.List.{slice_get};
ghost use Rattle.net_types.specs.Headers.{arrived};
ghost use Rattle.net_types.specs.Sets.{Member, SameMembers};
ghost use Rattle.place_sets.specs.Places.{has_place};
ghost use Rattle.policy_compile.specs.Columns.{KeepSets};
ghost use Rattle.policy_compile.specs.Groups.{AreMoved, IsClosed, IsMoved, picked};

use crate::memo::Memo;
use crate::set_table::SetTable;
use net_types::{Loc, Memory};
use place_sets::PlaceSet;
use std::alloc::Global;

/// The place of a location.
pub fn place_of(locations: &[Loc], loc: Loc) -> Option<usize>
    ensures found { IfSome result (λ n. slice_get locations.now n ≡ Some loc) }
    ensures absent { result ≡ None → Member loc locations.now → ⊥ }
{
    for place in 0..locations.len() {
        if locations[place] == loc {
            return Some(place);
        }
    }
    None
}

/// Where a packet goes next that goes to one of some locations.
fn moved(alloc: Global, locations: &[Loc], ways: &PlaceSet, loc: Loc) -> Result<PlaceSet, Memory>
    requires { IsClosed locations.now loc }
    ensures { IfOk result (λ s. SameMembers (picked locations.now (has_place s)) (map (λ l. arrived l loc) (picked locations.now (has_place ways.now)))) }
{
    let mut next = PlaceSet::none(alloc);
    for place in 0..locations.len() {
        if ways.has(place) {
            if let Some(other) = place_of(locations, loc.after(locations[place])) {
                next.put(other)?;
            }
        }
    }
    Ok(next)
}

/// The number of the set to which one goes from the locations of another.
pub fn moved_number(
    alloc: Global,
    made: &mut SetTable,
    asked: &mut Memo<usize, usize>,
    locations: &[Loc],
    ways: &[PlaceSet],
    number: usize,
    loc: Loc,
) -> Result<usize, Memory>
    requires closed { IsClosed locations.now loc }
    requires inside { number < length ways.now }
    requires asked { AreMoved locations.now loc ways.now made.old.sets.items asked.old.noted.items }
    ensures number { IfOk result (IsMoved locations.now loc ways.now made.new.sets.items number) }
    ensures asked { OnOk result (AreMoved locations.now loc ways.now made.new.sets.items asked.new.noted.items) }
    ensures kept { KeepSets made.old.sets.items made.new.sets.items }
{
    if let Some(known) = asked.find(&number) {
        return Ok(known);
    }
    let next = made.put(moved(alloc, locations, &ways[number], loc)?)?;
    asked.note(number, next)?;
    Ok(next)
}
