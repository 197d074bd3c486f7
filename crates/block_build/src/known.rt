//! What is known of receivers before cells are gone over.

ghost use Rattle.std.specs.Prelude.{◌≡◌, ◌<◌, ◌≤◌, IfOk, OnOk, length, take};
ghost use Rattle.classifier.specs.Meaning.{cubes_of};
ghost use Rattle.block_build.specs.Known.{AreKnown, IsKnown};
ghost use Rattle.block_build.specs.Tables.{AreTables, IsAt};

use crate::exits::Exits;
use crate::tables::{MOST, Tables};
use cells::Inside;
use net_types::Memory;
use place_sets::PlaceSet;
use std::alloc::Global;
use std::rc::Rc;

/// Of each cell the place of the first of a receiver's rules that holds it; and whether the receiver leaves by ports by which
/// none before it leaves.
#[derive(Drop)]
pub struct Known {
    pub places: Rc<Vec<Option<usize>>>,
    pub apart: bool,
}

/// Of each cell the first of a receiver's cubes that it lies within, as the number of a table.
pub(crate) fn table_of(
    alloc: Global,
    inside: &mut Inside<'_>,
    tables: &mut Tables,
    receiver: &Exits<'_>,
) -> Result<usize, Memory>
    requires { AreTables inside.old.cells.now tables.old.all.items }
    ensures number { IfOk result (IsAt tables.new.all.items (cubes_of receiver.now.lines)) }
    ensures tables { AreTables inside.old.cells.now tables.new.all.items }
    ensures cells { inside.new.cells.now ≡ inside.old.cells.now }
{
    let cubes = receiver.cubes(alloc)?;
    tables.number_of(alloc, inside, cubes)
}

/// What is known of a receiver, with the ports by which those before it leave, to which its own are added.
fn known_of(
    alloc: Global,
    inside: &mut Inside<'_>,
    tables: &mut Tables,
    ports: &mut PlaceSet,
    receiver: &Exits<'_>,
) -> Result<Known, Memory>
    requires { AreTables inside.old.cells.now tables.old.all.items }
    ensures known { IfOk result (λ k. IsKnown inside.old.cells.now ports.old k receiver.now ports.new) }
    ensures tables { AreTables inside.old.cells.now tables.new.all.items }
    ensures cells { inside.new.cells.now ≡ inside.old.cells.now }
{
    let apart = receiver.is_apart(ports);
    receiver.take_ports(ports)?;
    let number = table_of(alloc, inside, tables, receiver)?;
    let places = tables.all[number].firsts.clone()?;
    Ok(Known { places, apart })
}

/// What is known of the first receivers: of one at least, and of no more once too many places stand in their tables.
pub(crate) fn known_firsts(
    alloc: Global,
    inside: &mut Inside<'_>,
    tables: &mut Tables,
    ports: &mut PlaceSet,
    receivers: &[Exits<'_>],
) -> Result<Vec<Known>, Memory>
    requires { AreTables inside.old.cells.now tables.old.all.items }
    ensures known { IfOk result (λ v. AreKnown inside.old.cells.now ports.old v.items (take (length v.items) receivers.now) ports.new) }
    ensures some { IfOk result (λ v. 0 < length receivers.now → 0 < length v.items) }
    ensures within { IfOk result (λ v. length v.items ≤ length receivers.now) }
    ensures tables { AreTables inside.old.cells.now tables.new.all.items }
    ensures cells { inside.new.cells.now ≡ inside.old.cells.now }
{
    let mut all = Vec::new(alloc);
    let mut held: usize = 0;
    for receiver in receivers {
        let known = known_of(alloc, inside, tables, ports, receiver)?;
        held = held.saturating_add(known.places.as_ref().len());
        all.push(known)?;
        if held > MOST {
            return Ok(all);
        }
    }
    Ok(all)
}
