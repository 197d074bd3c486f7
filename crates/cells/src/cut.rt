//! Cubes cut by one more.

ghost use Rattle.std.specs.Prelude.{◌≡◌, ◌≤◌, ◌++◌, length, IfOk, OnOk, OnErr};
ghost use Rattle.classifier.specs.Seen.{cube_eq};
ghost use Rattle.cells.specs.Adds.{adds};
ghost use Rattle.cells.specs.Cells.{met_by, outside, cut};

use indexmap::IndexSet;
use net_types::{Cube, Memory};
use std::alloc::Global;

/// Puts the meets of a cube with each of the others last that aren't there.
fn push_met_by(met: &mut IndexSet<Cube>, atom: &Cube, cubes: &[Cube]) -> Result<(), Memory>
    ensures { OnOk result (met.new.keys ≡ adds cube_eq met.old.keys (met_by atom.now cubes.now)) }
{
    for other in cubes {
        if let Some(cube) = cube::meet(atom, other) {
            met.insert(cube)?;
        }
    }
    Ok(())
}

/// Puts those of the others last that don't lie within a cube.
fn push_outside(all: &mut Vec<Cube>, atom: &Cube, cubes: &[Cube]) -> Result<(), Memory>
    ensures { OnOk result (all.new.items ≡ all.old.items ++ outside atom.now cubes.now) }
{
    for other in cubes {
        if !cube::within(other, atom) {
            all.push(*other)?;
        }
    }
    Ok(())
}

/// The cubes cut by one more atom: first those within it. With how many these are.
fn cut_by(alloc: Global, atom: &Cube, cubes: &[Cube]) -> Result<(Vec<Cube>, usize), Memory>
    ensures cut { IfOk result (λ r. r.0.items ≡ cut atom.now cubes.now) }
    ensures within { IfOk result (λ r. r.1 ≤ length r.0.items) }
{
    let mut met = IndexSet::new(alloc);
    push_met_by(&mut met, atom, cubes)?;
    met.insert(*atom)?;
    let within = met.len();
    let mut all = Vec::from_slice(alloc, met.as_slice())?;
    push_outside(&mut all, atom, cubes)?;
    Ok((all, within))
}

/// Cuts the cubes by one more atom. How many lie within it then: they stand first.
pub fn cut_more(alloc: Global, atom: &Cube, cubes: &mut Vec<Cube>) -> Result<usize, Memory>
    ensures cut { OnOk result (cubes.new.items ≡ cut atom.now cubes.old.items) }
    ensures within { IfOk result (λ n. n ≤ length cubes.new.items) }
    ensures unchanged { OnErr result (cubes.new.items ≡ cubes.old.items) }
{
    let (more, within) = cut_by(alloc, atom, cubes)?;
    *cubes = more;
    Ok(within)
}
