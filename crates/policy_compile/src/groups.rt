//! Results, with the cubes in which they are given; those that differ in the location alone are together.

ghost use Rattle.std.specs.Prelude.{length};
ghost use Rattle.policy_compile.specs.Columns.{AreBelow};

use crate::columns::{Columns, Key};
use crate::memo::Memo;
use crate::set_table::SetTable;
use crate::ways::moved_number;
use net_types::{Assign, Loc, Memory};
use std::alloc::Global;

/// Assignments, each with the number of a set of locations, and the set of the cubes in which it is given with each of these. A
/// location is told by its place in a list of all that a policy has.
#[derive(Drop)]
pub struct Groups {
    alloc: Global,
    pub ways: SetTable,
    pub columns: Columns,
    ghost are: { AreBelow (length ways.sets.items) columns.columns.items },
}

impl Groups {
    ghost use Rattle.std.specs.Prelude.{◌≡◌, ◌++◌, [], ℕ, List, map, OnOk};
    ghost use Rattle.net_types.specs.declared.headers.Loc.{Loc as AnyLoc};
    ghost use Rattle.net_types.specs.Sets.{SameMembers};
    ghost use Rattle.policy_compile.specs.Groups.{IsClosed};
    ghost use Rattle.policy_compile.specs.Given.{given_by};
    ghost use Rattle.policy_compile.specs.Paths.{after_item};

    /// No results.
    #[inline(never)]
    pub fn new(alloc: Global) -> Groups
        ensures { (locations : List AnyLoc) (k : ℕ) → given_by locations result k ≡ [] }
    {
        Groups {
            alloc,
            ways: SetTable::new(alloc),
            columns: Columns::new(alloc),
        }
    }

    /// Assignments with the numbers of sets of locations.
    pub fn from_parts(alloc: Global, ways: SetTable, columns: Columns) -> Groups
        requires { AreBelow (length ways.sets.items) columns.columns.items }
        ensures ways { result.ways ≡ ways }
        ensures columns { result.columns ≡ columns }
    {
        Groups {
            alloc,
            ways,
            columns,
        }
    }

    /// Adds what is done after each result of others.
    #[inline(never)]
    pub fn add_after(
        &mut self,
        locations: &[Loc],
        others: &Groups,
        set: &Assign,
        loc: Loc,
    ) -> Result<(), Memory>
        requires { IsClosed locations.now loc }
        ensures { OnOk result ((k : ℕ) → SameMembers (given_by locations.now self.new k) (given_by locations.now self.old k ++ map (after_item set.now loc) (given_by locations.now others.now k))) }
    {
        let mut ways = Memo::new(self.alloc);
        let mut sets = Memo::new(self.alloc);
        for column in others.columns.columns.iter() {
            let number = moved_number(
                self.alloc,
                &mut self.ways,
                &mut ways,
                locations,
                &others.ways.sets,
                column.key.number,
                loc,
            )?;
            let key = Key {
                set: column.key.set.followed_by(set),
                number,
            };
            let places = self.columns.sets.carry(
                self.alloc,
                &mut sets,
                &others.columns.sets.sets,
                column.set,
            )?;
            self.columns.add(key, places)?;
        }
        self.columns.lighten()?;
        Ok(())
    }
}
