//! Results one by one, with the cubes in which they are given.

ghost use Rattle.std.specs.Prelude.{◌<◌, ◌++◌, [], ℕ, if◌then◌else◌, length, IfOk, OnOk};
ghost use Rattle.net_types.specs.Sets.{SameMembers};
ghost use Rattle.place_sets.specs.Places.{has_place};
ghost use Rattle.policy_compile.specs.Columns.{KeepSets, given, set_at};
ghost use Rattle.policy_compile.specs.Groups.{alone, picked, with_each};
ghost use Rattle.policy_compile.specs.Given.{given_by};

use crate::columns::{Columns, Key};
use crate::groups::Groups;
use crate::memo::Memo;
use net_types::{Assign, Loc, Memory};
use place_sets::PlaceSet;
use std::alloc::Global;

/// Adds an assignment with each of some locations.
fn add_each(
    made: &mut Columns,
    locations: &[Loc],
    ways: &PlaceSet,
    set: Assign,
    number: usize,
) -> Result<(), Memory>
    requires { number < length made.old.sets.sets.items }
    ensures given { OnOk result ((k : ℕ) → SameMembers (alone locations.now (given made.new.sets.sets.items made.new.columns.items k)) (alone locations.now (given made.old.sets.sets.items made.old.columns.items k) ++ (if set_at made.old.sets.sets.items number k then with_each set (picked locations.now (has_place ways.now)) else []))) }
    ensures kept { KeepSets made.old.sets.sets.items made.new.sets.sets.items }
{
    for place in 0..locations.len() {
        if ways.has(place) {
            made.add(Key { set, number: place }, number)?;
        }
    }
    Ok(())
}

/// Each result by itself: the keys are assignments with the places of locations.
pub fn one_by_one(alloc: Global, locations: &[Loc], groups: &Groups) -> Result<Columns, Memory>
    ensures { IfOk result (λ made. (k : ℕ) → SameMembers (alone locations.now (given made.sets.sets.items made.columns.items k)) (given_by locations.now groups.now k)) }
{
    let mut made = Columns::new(alloc);
    let mut asked = Memo::new(alloc);
    for column in groups.columns.columns.iter() {
        let places = made
            .sets
            .carry(alloc, &mut asked, &groups.columns.sets.sets, column.set)?;
        add_each(
            &mut made,
            locations,
            &groups.ways.sets[column.key.number],
            column.key.set,
            places,
        )?;
    }
    Ok(made)
}
