//! Sets of cubes that are counted apart. What several have in common is counted once.

ghost use Rattle.std.specs.Prelude.{◌≡◌, ◌↔◌, IsTrue, IfOk, OnOk};
ghost use Rattle.std.specs.List.{list_all};
ghost use Rattle.indexmap.specs.IndexSet.{contains};
ghost use Rattle.classifier.specs.Seen.{cube_eq};
ghost use Rattle.policy_compile.specs.Apart.{SomeIsMany, IsShared, IsCommon, IsNoted};

use crate::meets::more_meets;
use crate::sets::has_all;
use indexmap::IndexSet;
use net_types::{Cube, Memory};
use std::alloc::Global;

/// How many meets a part of a policy may have.
const MOST: usize = 65536;

/// So few cubes have at most 65536 meets, whichever they are.
const FEW: usize = 16;

/// Notes a part of a policy, unless its cubes are few or all in the whole: then it hasn't too many meets, or the whole has.
pub fn push_apart(
    apart: &mut Vec<IndexSet<Cube>>,
    whole: &IndexSet<Cube>,
    part: IndexSet<Cube>,
) -> Result<(), Memory>
    ensures { OnOk result (IsNoted whole.now.keys part.keys apart.old.items apart.new.items) }
{
    if part.len() <= FEW || has_all(whole, part.as_slice()) {
        return Ok(());
    }
    apart.push(part)?;
    Ok(())
}

/// Whether a cube is in each of the sets.
fn is_in_each(sets: &[IndexSet<Cube>], cube: &Cube) -> bool
    ensures { result ≡ list_all (λ set. contains cube_eq set cube.now) sets.now }
{
    for set in sets {
        if !set.contains(cube) {
            return false;
        }
    }
    true
}

/// The cubes of a set that are in each of the others.
fn common_of(
    alloc: Global,
    first: &IndexSet<Cube>,
    others: &[IndexSet<Cube>],
) -> Result<Vec<Cube>, Memory>
    ensures { IfOk result (λ v. IsCommon first.now.keys others.now v.items) }
{
    let cubes = first.as_slice();
    let mut common = Vec::new(alloc);
    for cube in cubes {
        if is_in_each(others, cube) {
            common.push(*cube)?;
        }
    }
    Ok(common)
}

/// Whether one of the sets has too many meets. Those of the cubes that all sets have are given; what the sets of each half
/// have in common besides is put to them once for the half.
pub fn has_some_many(
    alloc: Global,
    kept: &IndexSet<Cube>,
    sets: &[IndexSet<Cube>],
) -> Result<bool, Memory>
    requires { IsShared kept.now.keys sets.now }
    ensures { IfOk result (λ many. IsTrue many ↔ SomeIsMany sets.now) }
{
    let Some((first, others)) = sets.split_first() else {
        return Ok(false);
    };
    let common = common_of(alloc, first, others)?;
    let shared = more_meets(alloc, kept, &common, MOST)?;
    if shared.len() > MOST {
        return Ok(true);
    }
    if others.is_empty() {
        return Ok(false);
    }
    let (front, back) = sets.split_at(sets.len() / 2);
    let is_front = has_some_many(alloc, &shared, front)?;
    if is_front {
        return Ok(true);
    }
    let is_back = has_some_many(alloc, &shared, back)?;
    Ok(is_back)
}
