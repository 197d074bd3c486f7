//! The meets of a list of cubes, counted as far as a limit.

ghost use Rattle.std.specs.Prelude.{◌≡◌, ◌∷◌, ◌++◌, [], List, length, IfOk, OnOk};
ghost use Rattle.net_types.specs.declared.cube.Cube.{Cube as AnyCube};
ghost use Rattle.net_types.specs.Meets.{meets, add_found, add_meets};
ghost use Rattle.policy_compile.specs.Sets.{IsUpTo, IsCount};

use crate::sets::copy_of;
use indexmap::IndexSet;
use net_types::{Cube, Memory};
use std::alloc::Global;

/// Puts a cube last that was found and isn't there.
fn push_met(kept: &mut IndexSet<Cube>, met: Option<Cube>) -> Result<(), Memory>
    ensures { OnOk result (kept.new.keys ≡ add_found kept.old.keys met) }
{
    if let Some(cube) = met {
        kept.insert(cube)?;
    }
    Ok(())
}

/// Puts the meets of a cube with each of the others last that aren't there, until there are more than `limit`.
fn push_meets(
    kept: &mut IndexSet<Cube>,
    cube: &Cube,
    others: &[Cube],
    limit: usize,
) -> Result<(), Memory>
    ensures { OnOk result (IsUpTo limit kept.new.keys (add_meets cube.now kept.old.keys others.now)) }
{
    for other in others {
        if kept.len() > limit {
            return Ok(());
        }
        push_met(kept, cube::meet(cube, other))?;
    }
    Ok(())
}

/// Puts the meets of a cube with all that are there last. A cube that is there adds none.
fn push_atom(
    alloc: Global,
    kept: &mut IndexSet<Cube>,
    cube: &Cube,
    limit: usize,
) -> Result<(), Memory>
    ensures { OnOk result ((cubes : List AnyCube) → kept.old.keys ≡ meets cubes
        → IsUpTo limit kept.new.keys (meets (cube.now ∷ cubes))) }
{
    if !kept.contains(cube) {
        let others = Vec::from_slice(alloc, kept.as_slice())?;
        push_meets(kept, cube, &others, limit)?;
    }
    Ok(())
}

/// Puts the meets of more cubes with those that are there last, until there are more than `limit`.
fn push_cubes(
    alloc: Global,
    kept: &mut IndexSet<Cube>,
    cubes: &[Cube],
    limit: usize,
) -> Result<(), Memory>
    ensures { OnOk result ((others : List AnyCube) → kept.old.keys ≡ meets others
        → IsUpTo limit kept.new.keys (meets (cubes.now ++ others))) }
{
    let mut left = cubes.len();
    while left > 0 {
        if kept.len() > limit {
            return Ok(());
        }
        left -= 1;
        push_atom(alloc, kept, &cubes[left], limit)?;
    }
    Ok(())
}

/// The one meet of no cubes.
pub fn no_meets(alloc: Global) -> Result<IndexSet<Cube>, Memory>
    ensures { IfOk result (λ kept. kept.keys ≡ meets []) }
{
    let mut kept = IndexSet::new(alloc);
    kept.insert(Cube::everything())?;
    Ok(kept)
}

/// The meets of more cubes with those that are there, as far as a limit.
pub fn more_meets(
    alloc: Global,
    kept: &IndexSet<Cube>,
    cubes: &[Cube],
    limit: usize,
) -> Result<IndexSet<Cube>, Memory>
    ensures { IfOk result (λ s. (others : List AnyCube) → kept.now.keys ≡ meets others
        → IsUpTo limit s.keys (meets (cubes.now ++ others))) }
{
    let mut more = copy_of(alloc, kept)?;
    push_cubes(alloc, &mut more, cubes, limit)?;
    Ok(more)
}

/// How many meets the cubes have: their number, or some number above `limit` where there are more.
pub fn count_of(alloc: Global, cubes: &[Cube], limit: usize) -> Result<usize, Memory>
    ensures { IfOk result (λ count. IsCount limit (length (meets cubes.now)) count) }
{
    let mut kept = no_meets(alloc)?;
    push_cubes(alloc, &mut kept, cubes, limit)?;
    Ok(kept.len())
}
