//! Cells: the meets of cubes.

ghost use Rattle.std.specs.Prelude.{◌≡◌, IfOk, IfSome, IsTrue, List};
ghost use Rattle.cells.specs.Cells.{AreMeets};
ghost use Rattle.net_types.specs.Meets.{IsMeet};
ghost use Rattle.net_types.specs.Sets.{Member};
ghost use Rattle.net_types.specs.declared.cube.Cube.{Cube as AnyCube};

use cells::Cells;
use net_types::{Cube, Memory};

/// So many cubes may be cut.
const CUTS: usize = 268_435_456;

/// Adds a cube, where so many may be cut. Answers how many still may be, none where too many would be.
fn add_one(cells: &mut Cells, atom: &Cube, cuts: usize) -> Result<Option<usize>, Memory>
    ensures there { IfOk result (λ o. IfSome o (λ _. Member atom.now cells.new)) }
    ensures kept { (c : AnyCube) → Member c cells.old → Member c cells.new }
    ensures meets { (atoms : List AnyCube) → AreMeets atoms cells.old → IsMeet atoms atom.now → AreMeets atoms cells.new }
{
    if cells.has(atom) {
        return Ok(Some(cuts));
    }
    let Some(left) = cuts.checked_sub(cells.len()) else {
        return Ok(None);
    };
    cells.add(atom)?;
    Ok(Some(left))
}

/// Adds cubes. It stops where there are more than the limit, or where too many would be cut. Answers whether all were added.
pub(crate) fn add_each(cells: &mut Cells, atoms: &[Cube], limit: usize) -> Result<bool, Memory>
    ensures there { IfOk result (λ done. IsTrue done → (c : AnyCube) → Member c atoms.now → Member c cells.new) }
    ensures meets { (among : List AnyCube) → AreMeets among cells.old → AreMeets among atoms.now → AreMeets among cells.new }
{
    let mut cuts = CUTS;
    for atom in atoms {
        if cells.len() > limit {
            return Ok(false);
        }
        match add_one(cells, atom, cuts)? {
            Some(left) => cuts = left,
            None => return Ok(false),
        }
    }
    Ok(true)
}
