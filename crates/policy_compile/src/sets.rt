//! Sets of values in the order in which they were put.

ghost use Rattle.std.specs.Prelude.{◌≡◌, IfOk, OnOk};
ghost use Rattle.std.specs.List.{list_all};
ghost use Rattle.indexmap.specs.IndexSet.{contains};
ghost use Rattle.net_types.specs.Meets.{behind_one};
ghost use Rattle.classifier.specs.Seen.{cube_eq};
ghost use Rattle.policy_compile.specs.Sets.{adds};

use indexmap::IndexSet;
use net_types::{Assign, Cube, Memory};
use std::alloc::Global;
use std::hash::Hash;

/// Puts each value last, unless it is there.
pub fn push_all<T: Copy + Eq + Hash + Drop>(
    set: &mut IndexSet<T>,
    others: &[T],
) -> Result<(), Memory>
    ensures { OnOk result (set.new.keys ≡ adds T.eq set.old.keys others.now) }
{
    for value in others {
        set.insert(*value)?;
    }
    Ok(())
}

/// The same set once more.
pub fn copy_of(alloc: Global, set: &IndexSet<Cube>) -> Result<IndexSet<Cube>, Memory>
    ensures { IfOk result (λ s. s.keys ≡ set.now.keys) }
{
    let mut copy = IndexSet::new(alloc);
    push_all(&mut copy, set.as_slice())?;
    Ok(copy)
}

/// Puts each cube behind an assignment last, where it has headers and isn't there.
pub fn push_behind(cubes: &mut IndexSet<Cube>, set: &Assign, others: &[Cube]) -> Result<(), Memory>
    ensures { OnOk result (cubes.new.keys ≡ adds cube_eq cubes.old.keys (behind_one set.now others.now)) }
{
    for other in others {
        if let Some(cube) = cube::pull(other, set) {
            cubes.insert(cube)?;
        }
    }
    Ok(())
}

/// Whether each of the cubes is in the set.
pub fn has_all(cubes: &IndexSet<Cube>, others: &[Cube]) -> bool
    ensures { result ≡ list_all (contains cube_eq cubes.now) others.now }
{
    for other in others {
        if !cubes.contains(other) {
            return false;
        }
    }
    true
}
