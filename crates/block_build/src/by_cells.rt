//! The rules of a pair, cell by cell.

ghost use Rattle.std.specs.Prelude.{◌≡◌, ◌<◌, ◌≤◌, [], IfOk, IfSome, length};
ghost use Rattle.cells.specs.Firsts.{firsts};
ghost use Rattle.classifier.specs.Lines.{add_lines};
ghost use Rattle.classifier.specs.Meaning.{cubes_of};
ghost use Rattle.block_build.specs.Bounds.{IsBuilt};
ghost use Rattle.block_build.specs.ByCells.{AreCellsFor, beside_all, beside_first, dropping};
ghost use Rattle.block_build.specs.Tables.{AreTables};

use crate::atoms::atoms_of;
use crate::cutting::add_each;
use crate::exits::{Exits, cubes_of};
use crate::few::{are_shared, beside_next, lines_of, nothing};
use crate::known::{known_firsts, table_of};
use crate::ports::take_lines;
use crate::received::Received;
use crate::rows::{Sent, beside_each};
use crate::sending::Sending;
use crate::tables::{Tables, Workshop};
use cells::{Cells, Inside, firsts_of};
use classifier::{Line, Results, push_lines};
use net_types::{Cube, Memory};
use place_sets::PlaceSet;
use std::alloc::Global;
use std::collections::HashSet;

/// The rules of cells beside what each of the first receivers makes, for as long as many cells give the same; of how many
/// receivers that is.
fn beside_firsts(
    alloc: Global,
    received: &mut Received,
    inside: &mut Inside<'_>,
    tables: &mut Tables,
    sending: &Sending<'_>,
    receivers: &[Exits<'_>],
    own: &[Option<usize>],
) -> Result<(Vec<Line>, usize), Memory>
    requires tables { AreTables inside.old.cells.now tables.old.all.items }
    requires own { own.now ≡ firsts (cubes_of sending.now.rules.now) inside.old.cells.now }
    ensures lines { IfOk result (λ v. v.0.items ≡ beside_first sending.now.best sending.now.offers.now sending.now.rules.now inside.old.cells.now receivers.now v.1) }
    ensures within { IfOk result (λ v. v.1 ≤ length receivers.now) }
    ensures tables { AreTables inside.old.cells.now tables.new.all.items }
    ensures cells { inside.new.cells.now ≡ inside.old.cells.now }
{
    let cells = inside.cells;
    let mut few = nothing(alloc, cells)?;
    let mut n = 0;
    while n < receivers.len() && are_shared(&few) {
        let number = table_of(alloc, inside, tables, &receivers[n])?;
        let places = tables.all[number].firsts.as_ref();
        few = beside_next(received, sending, receivers, n, cells, &few, own, places)?;
        n += 1;
    }
    let lines = lines_of(alloc, cells, &few)?;
    Ok((lines, n))
}

/// The rules of cells beside what each receiver makes.
fn beside_all(
    alloc: Global,
    inside: &mut Inside<'_>,
    tables: &mut Tables,
    sending: &Sending<'_>,
    receivers: &[Exits<'_>],
) -> Result<Vec<Line>, Memory>
    requires { AreTables inside.old.cells.now tables.old.all.items }
    ensures lines { IfOk result (λ v. v.items ≡ beside_all sending.now.best sending.now.offers.now sending.now.rules.now (dropping inside.old.cells.now) receivers.now) }
    ensures tables { AreTables inside.old.cells.now tables.new.all.items }
{
    let mut received = Received::new(alloc, usize::MAX);
    let own = firsts_of(alloc, inside, &cubes_of(alloc, sending.rules)?)?;
    let (mut all, n) = beside_firsts(
        alloc,
        &mut received,
        inside,
        tables,
        sending,
        receivers,
        &own,
    )?;
    let mut ports = PlaceSet::none(alloc);
    take_lines(&mut ports, &all)?;
    let cells = inside.cells;
    let mut next = n;
    while next < receivers.len() {
        let sent = Sent {
            sending,
            cells,
            own: &own,
        };
        let rest = &receivers[next..];
        let known = known_firsts(alloc, inside, tables, &mut ports, rest)?;
        let firsts = &rest[..known.len()];
        all = beside_each(&mut received, &sent, firsts, &known, all)?;
        next += known.len();
    }
    Ok(all)
}

/// Rules for cells that give nothing.
fn dropping(alloc: Global, cubes: &[Cube]) -> Result<Vec<Line>, Memory>
    ensures { IfOk result (λ v. v.items ≡ dropping cubes.now) }
{
    let mut lines = Vec::with_capacity(alloc, cubes.len())?;
    for cube in cubes {
        lines.push(Line {
            cube: *cube,
            results: Results::new(alloc),
        })?;
    }
    Ok(lines)
}

/// The rules without those that can't be reached.
fn reached_of(alloc: Global, lines: Vec<Line>) -> Result<Vec<Line>, Memory>
    ensures { IfOk result (λ v. v.items ≡ add_lines [] lines.items) }
{
    let mut reached = Vec::new(alloc);
    let mut seen = HashSet::new(alloc);
    push_lines(&mut reached, &mut seen, lines)?;
    Ok(reached)
}

/// The rules of the workshop's cells, by which they can be built.
fn lines_by(
    alloc: Global,
    workshop: &mut Workshop,
    sending: &Sending<'_>,
    receivers: &[Exits<'_>],
    limit: usize,
) -> Result<Vec<Line>, Memory>
    requires { AreCellsFor receivers.now sending.now.rules.now workshop.old.cells }
    ensures { IfOk result (λ v. IsBuilt limit sending.now.best sending.now.offers.now receivers.now sending.now.rules.now v.items) }
{
    let mut inside = Inside::new(alloc, workshop.cells.cubes());
    let lines = beside_all(alloc, &mut inside, &mut workshop.tables, sending, receivers)?;
    reached_of(alloc, lines)
}

/// Rules for cells of which there are more than the limit, where they are.
fn too_many(alloc: Global, cubes: &[Cube], limit: usize) -> Result<Option<Vec<Line>>, Memory>
    ensures { IfOk result (λ o. IfSome o (λ v. (v.items ≡ add_lines [] (dropping cubes.now)) × (limit < length v.items))) }
{
    let cells = dropping(alloc, cubes)?;
    let lines = reached_of(alloc, cells)?;
    if lines.len() > limit {
        Ok(Some(lines))
    } else {
        Ok(None)
    }
}

/// The rules within each of a sender's rules, built cell by cell: all of them, where there are no more cells than the limit, and
/// else more than the limit. None where that would be too much work.
pub(crate) fn by_cells(
    alloc: Global,
    workshop: &mut Workshop,
    sending: &Sending<'_>,
    receivers: &[Exits<'_>],
    limit: usize,
) -> Result<Option<Vec<Line>>, Memory>
    ensures { IfOk result (λ o. IfSome o (λ v. IsBuilt limit sending.now.best sending.now.offers.now receivers.now sending.now.rules.now v.items)) }
{
    let atoms = atoms_of(alloc, sending.rules, receivers)?;
    let mut cells = Cells::new(alloc);
    let are_all = add_each(&mut cells, &atoms, limit)?;
    if cells.len() > limit {
        return too_many(alloc, cells.cubes(), limit);
    }
    if !are_all {
        return Ok(None);
    }
    workshop.turn_to(alloc, cells);
    let lines = lines_by(alloc, workshop, sending, receivers, limit)?;
    Ok(Some(lines))
}
