//! Results with the same assignment and cubes are brought together.

ghost use Rattle.std.specs.Prelude.{ℕ, List, length, IfOk};
ghost use Rattle.net_types.specs.declared.headers.Loc.{Loc as AnyLoc};
ghost use Rattle.net_types.specs.Sets.{SameMembers};
ghost use Rattle.policy_compile.specs.Columns.{AreBelow, given};
ghost use Rattle.policy_compile.specs.Groups.{turned};
ghost use Rattle.policy_compile.specs.Given.{given_by};

use crate::columns::{Columns, Key};
use crate::groups::Groups;
use crate::memo::Memo;
use net_types::Memory;
use place_sets::PlaceSet;
use std::alloc::Global;

/// By assignments with the number of a set of places, the sets whose numbers their keys have.
fn turn(alloc: Global, sets: &[PlaceSet], columns: &Columns) -> Result<Columns, Memory>
    requires { AreBelow (length sets.now) columns.now.columns.items }
    ensures given { IfOk result (λ made. (j : ℕ) → SameMembers (given made.sets.sets.items made.columns.items j) (turned sets.now columns.now.columns.items j)) }
    ensures below { IfOk result (λ made. AreBelow (length columns.now.sets.sets.items) made.columns.items) }
{
    let mut made = Columns::new(alloc);
    let mut asked = Memo::new(alloc);
    for column in columns.columns.iter() {
        let number = made.sets.carry(alloc, &mut asked, sets, column.key.number)?;
        let key = Key {
            set: column.key.set,
            number: column.set,
        };
        made.add(key, number)?;
    }
    Ok(made)
}

/// The same results, where those with the same assignment and cubes are one.
#[inline(never)]
pub fn regrouped(alloc: Global, groups: &Groups) -> Result<Groups, Memory>
    ensures { IfOk result (λ made. (locations : List AnyLoc) (k : ℕ) → SameMembers (given_by locations made k) (given_by locations groups.now k)) }
{
    let by_cubes = turn(alloc, &groups.ways.sets, &groups.columns)?;
    let columns = turn(alloc, &groups.columns.sets.sets, &by_cubes)?;
    Ok(Groups::from_parts(alloc, by_cubes.sets, columns))
}
