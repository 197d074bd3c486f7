//! Cubes that are closed under meets.

ghost use Rattle.std.specs.Prelude.{◌≡◌, ◌∷◌, [], ◌++◌, true, length, List, IfOk, OnOk};
ghost use Rattle.net_types.specs.declared.cube.Cube.{Cube as AnyCube};
ghost use Rattle.net_types.specs.Sets.{Member};
ghost use Rattle.cells.specs.Cells.{AreCells, AreMeets, IsClosed};
ghost use Rattle.cells.specs.Known.{AreAmong};

use crate::cut::cut_more;
use net_types::{Cube, Memory};
use std::alloc::Global;
use std::collections::HashSet;
use std::marker::Model;

/// Cubes of which each two have their meet before them, where they meet: with each headers the first that has them lies
/// within all that do. Contracts see the list of them.
#[derive(Drop)]
pub struct Cells {
    alloc: Global,
    cubes: Vec<Cube>,
    // each of the cubes, but for those of an atom for which memory was wanting
    known: HashSet<Cube>,
}

impl Model for Cells {
    ghost use Rattle.std.specs.Prelude.{List};
    ghost use Rattle.net_types.specs.declared.cube.Cube.{Cube as AnyCube};
    ghost use Rattle.cells.specs.Known.{AreKnown};

    ghost Value = { List AnyCube };

    ghost view = { λ c. c.cubes.items };

    ghost invariant = { λ c. AreKnown c.cubes.items c.known };
}

impl Cells {
    /// No cubes.
    pub fn new(alloc: Global) -> Cells
        ensures { result ≡ [] }
    {
        Cells {
            alloc,
            cubes: Vec::new(alloc),
            known: HashSet::new(alloc),
        }
    }

    /// The cubes, each before those that are wider where that matters.
    pub fn cubes(&self) -> &[Cube]
        ensures value { result.now ≡ self.now }
        ensures closed { IsClosed self.now }
    {
        self.cubes.as_slice()
    }

    /// How many cubes there are.
    pub fn len(&self) -> usize
        ensures { result ≡ length self.now }
    {
        self.cubes.len()
    }

    /// Whether this cube stands here, as one that was added or as a meet. After want of memory in `add` it may say no of one
    /// that does.
    pub fn has(&self, cube: &Cube) -> bool
        ensures { result ≡ true → Member cube.now self.now }
    {
        self.known.contains(cube)
    }

    /// Adds a cube and its meets with the others. After want of memory they may be there or not.
    pub fn add(&mut self, atom: &Cube) -> Result<(), Memory>
        ensures there { OnOk result (Member atom.now self.new) }
        ensures cells { OnOk result ((atoms : List AnyCube) → AreCells atoms self.old → AreCells (atoms ++ atom.now ∷ []) self.new) }
        ensures meets { (atoms : List AnyCube) → AreMeets atoms self.old → AreMeets (atoms ++ atom.now ∷ []) self.new }
        ensures kept { (cube : AnyCube) → Member cube self.old → Member cube self.new }
    {
        if self.known.contains(atom) {
            return Ok(());
        }
        let within = cut_more(self.alloc, atom, &mut self.cubes)?;
        // the others were known before
        note(&mut self.known, &self.cubes[..within])
    }

    /// The list of the cubes.
    fn into_cubes(self) -> Vec<Cube>
        ensures { result.items ≡ self }
    {
        self.cubes
    }
}

/// Puts cubes into a set of those that are known.
fn note(known: &mut HashSet<Cube>, cubes: &[Cube]) -> Result<(), Memory>
    ensures { (all : List AnyCube) → ((cube : AnyCube) → Member cube cubes.now → Member cube all) → AreAmong known.old all → AreAmong known.new all }
{
    for cube in cubes {
        known.insert(*cube)?;
    }
    Ok(())
}

/// The meets of the atoms, each once, before those that are wider where that matters.
pub fn cells_of(alloc: Global, atoms: &[Cube]) -> Result<Vec<Cube>, Memory>
    ensures { IfOk result (λ v. AreCells atoms.now v.items) }
{
    let mut cells = Cells::new(alloc);
    for atom in atoms {
        cells.add(atom)?;
    }
    Ok(cells.into_cubes())
}
