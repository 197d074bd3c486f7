//! Cells beside what receivers make in them, cell by cell.

ghost use Rattle.std.specs.Prelude.{◌≡◌, ◌∷◌, [], IfOk, IsTrue, List, OnOk, Some, map};
ghost use Rattle.std.specs.List.{slice_get};
ghost use Rattle.cells.specs.Firsts.{first_place, firsts};
ghost use Rattle.classifier.specs.Items.{add_all};
ghost use Rattle.classifier.specs.Meaning.{cubes_of};
ghost use Rattle.net_types.specs.Sets.{HasNoRepeats};
ghost use Rattle.net_types.specs.declared.cube.Cube.{Cube as AnyCube};
ghost use Rattle.block_build.specs.ByCells.{beside_them, held_by};
ghost use Rattle.block_build.specs.Known.{AreKnownBeside};
ghost use Rattle.block_build.specs.Ports.{GiveNew};

use crate::exits::{Exits, items_at};
use crate::known::Known;
use crate::offers::goes_to;
use crate::received::Received;
use crate::sending::Sending;
use classifier::{Line, Results};
use net_types::{Assign, Cube, Loc, Memory};

/// Cells, and what a sender sends by, with the place of the first of its rules that holds a cell.
#[derive(Drop)]
pub struct Sent<'s, 'x> {
    pub sending: &'s Sending<'x>,
    pub cells: &'s [Cube],
    pub own: &'s [Option<usize>],
    ghost are: { own.now ≡ firsts (cubes_of sending.now.rules.now) cells.now },
}

/// What a table has at a place.
fn at(table: &[Option<usize>], place: usize) -> Option<usize>
    ensures { (cubes cells : List AnyCube) (c : AnyCube) → table.now ≡ firsts cubes cells → slice_get cells place ≡ Some c → result ≡ first_place c cubes }
{
    if place < table.len() {
        table[place]
    } else {
        None
    }
}

/// Puts what a receiver makes in a cell beside results: the place of its rule is known, and whether none of that is there.
fn push_beside(
    received: &mut Received,
    row: &mut Vec<(Assign, Loc)>,
    receiver: &Exits<'_>,
    cell: &Cube,
    place: Option<usize>,
    apart: bool,
) -> Result<(), Memory>
    requires once { HasNoRepeats row.old.items }
    requires place { place ≡ first_place cell.now (cubes_of receiver.now.lines) }
    requires apart { IsTrue apart → GiveNew row.old.items receiver.now.lines }
    ensures { OnOk result (row.new.items ≡ add_all row.old.items (held_by cell.now receiver.now.lines)) }
{
    let alloc = received.alloc();
    if apart {
        return receiver.push_made(alloc, row, cell, place);
    }
    let others = Results::from_vec(Vec::from_slice(alloc, row.as_slice())?);
    let results = receiver.beside(received, others, cell, place)?;
    row.clear();
    row.extend_from_slice(results.items())?;
    Ok(())
}

/// The cell at a place beside what receivers make in it. The row is one that serves for cell after cell.
fn beside_them(
    received: &mut Received,
    row: &mut Vec<(Assign, Loc)>,
    sent: &Sent<'_, '_>,
    receivers: &[Exits<'_>],
    known: &[Known],
    z: Line,
    n: usize,
) -> Result<Line, Memory>
    requires cell { slice_get sent.now.cells.now n ≡ Some z.cube }
    requires known { AreKnownBeside sent.now.cells.now (z ∷ []) known.now receivers.now }
    ensures { IfOk result (λ y. y ≡ beside_them sent.now.sending.now.best sent.now.sending.now.offers.now sent.now.sending.now.rules.now receivers.now z) }
{
    let sending = sent.sending;
    let own = at(sent.own, n);
    let items = items_at(sending.rules, own);
    let left = sending.left_at(own);
    let cube = z.cube;
    z.results.known();
    row.clear();
    row.extend_from_slice(z.results.items())?;
    for i in 0..receivers.len() {
        let receiver = &receivers[i];
        let one = &known[i];
        if goes_to(left, sending.best, items, receiver.who(), receiver.place()) {
            let place = at(one.places.as_ref(), n);
            push_beside(received, row, receiver, &cube, place, one.apart)?;
        }
    }
    let results = Results::from_vec(Vec::from_slice(received.alloc(), row.as_slice())?);
    Ok(Line { cube, results })
}

/// The rules of cells beside what receivers make in them.
pub(crate) fn beside_each(
    received: &mut Received,
    sent: &Sent<'_, '_>,
    receivers: &[Exits<'_>],
    known: &[Known],
    lines: Vec<Line>,
) -> Result<Vec<Line>, Memory>
    requires cells { cubes_of lines.items ≡ sent.now.cells.now }
    requires known { AreKnownBeside sent.now.cells.now lines.items known.now receivers.now }
    ensures { IfOk result (λ v. v.items ≡ map (beside_them sent.now.sending.now.best sent.now.sending.now.offers.now sent.now.sending.now.rules.now receivers.now) lines.items) }
{
    let mut row = Vec::new(received.alloc());
    let mut more = Vec::with_capacity(received.alloc(), lines.len())?;
    for z in lines {
        let n = more.len();
        more.push(beside_them(received, &mut row, sent, receivers, known, z, n)?)?;
    }
    Ok(more)
}
