//! The cubes of a sender's and of its receivers' rules.

ghost use Rattle.std.specs.Prelude.{◌≡◌, ◌++◌, IfOk, OnOk};
ghost use Rattle.std.specs.List.Sorted.{IsPermutation};
ghost use Rattle.classifier.specs.Meaning.{cubes_of};
ghost use Rattle.net_types.specs.Sets.{union_over};
ghost use Rattle.block_build.specs.ByCells.{AreTheirs, HasBoth};
ghost use Rattle.block_build.specs.declared.receive.Receiver.{Receiver};

use crate::exits::{Exits, cubes_of};
use classifier::Line;
use net_types::{Cube, Memory};
use std::alloc::Global;

/// Puts the cubes of a receiver's rules last.
fn push_cubes(alloc: Global, atoms: &mut Vec<Cube>, receiver: &Exits<'_>) -> Result<(), Memory>
    ensures { OnOk result (atoms.new.items ≡ atoms.old.items ++ cubes_of receiver.now.lines) }
{
    let cubes = receiver.cubes(alloc)?;
    atoms.extend_from_slice(&cubes)?;
    Ok(())
}

/// How many bits of headers a cube tells.
fn bits_of(cube: &Cube) -> u32 {
    let inport = if cube.inport.is_some() { 16 } else { 0 };
    let proto = if cube.proto.is_some() { 8 } else { 0 };
    let sport = if cube.sport.is_some() { 16 } else { 0 };
    let dport = if cube.dport.is_some() { 16 } else { 0 };
    inport + proto + sport + dport + u32::from(cube.src.len) + u32::from(cube.dst.len)
}

/// Wider cubes before narrower ones, so that those are first of which others are meets.
fn wider_first(cubes: Vec<Cube>) -> Vec<Cube>
    ensures { IsPermutation cubes.items result.items }
{
    let mut sorted = cubes;
    sorted.sort_unstable_by_key(|cube| bits_of(cube));
    sorted
}

/// The cubes of the sender's and of the receivers' rules.
fn all_cubes(alloc: Global, xs: &[Line], receivers: &[Exits<'_>]) -> Result<Vec<Cube>, Memory>
    ensures { IfOk result (λ v. v.items ≡ cubes_of xs.now ++ union_over (λ (r : Receiver). cubes_of r.lines) receivers.now) }
{
    let mut atoms = cubes_of(alloc, xs)?;
    for receiver in receivers {
        push_cubes(alloc, &mut atoms, receiver)?;
    }
    Ok(atoms)
}

/// The same, wider ones first.
pub(crate) fn atoms_of(
    alloc: Global,
    xs: &[Line],
    receivers: &[Exits<'_>],
) -> Result<Vec<Cube>, Memory>
    ensures has { IfOk result (λ v. HasBoth receivers.now xs.now v.items) }
    ensures theirs { IfOk result (λ v. AreTheirs receivers.now xs.now v.items) }
{
    let cubes = all_cubes(alloc, xs, receivers)?;
    Ok(wider_first(cubes))
}
