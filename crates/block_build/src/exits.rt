//! The rules of a receiver, as ports to leave by.

ghost use Rattle.std.specs.Prelude.{◌≡◌, ◌∷◌, [], IsTrue, IfOk, OnOk, if◌then◌else◌, Some, None, option_copied};
ghost use Rattle.std.specs.List.{slice_get};
ghost use Rattle.net_types.specs.Cubes.{everything};
ghost use Rattle.net_types.specs.declared.cube.Cube.{Cube as AnyCube};
ghost use Rattle.cells.specs.Firsts.{first_place};
ghost use Rattle.classifier.specs.Items.{AreNew, add_all};
ghost use Rattle.classifier.specs.Meaning.{cubes_of};
ghost use Rattle.classifier.specs.Numbered.{AreNumbered};
ghost use Rattle.classifier.specs.Lines.{add_line, add_lines, line, row};
ghost use Rattle.classifier.specs.Runs.{lines_in};
ghost use Rattle.classifier.specs.Seen.{Agrees};
ghost use Rattle.classifier.specs.declared.join.Join.TheVariants.{Union};
ghost use Rattle.block_build.specs.Bounds.{AreMeets, IsPast};
ghost use Rattle.block_build.specs.ByCells.{held_by};
ghost use Rattle.block_build.specs.Closed.{AreClosed, first_holding};
ghost use Rattle.block_build.specs.Groups.{lines_within};
ghost use Rattle.block_build.specs.Ports.{AllFree, AllTaken, KeepPorts};
ghost use Rattle.block_build.specs.Receivers.{IsAlone, received_items, received_lines, receiver};
ghost use Rattle.block_build.specs.Views.{inbound_of};

use crate::given::{Given, given_alone, given_by};
use crate::group::Group;
use crate::grouped::Grouped;
use crate::kept::{Kept, kept_of};
use crate::ports::{are_free, are_lines_free, take_items, take_received};
use crate::receive::push_received;
use crate::received::Received;
use crate::stop::Stop;
use crate::tested::tests_of;
use crate::uncut::push_uncut;
use crate::view::View;
use classifier::{Line, Results, Run, is_hidden, push_reached};
use net_types::{Assign, Cube, Loc, Memory, Offer, Pid, PortNo, TryCopy};
use place_sets::PlaceSet;
use std::alloc::Global;
use std::collections::HashSet;
use std::marker::Model;

/// So many looks a rule takes that may be joined with one.
const RULE: usize = 4;

/// So many looks it takes to join a rule with one for all headers, beside what their results take.
const ALONE: usize = 16;

/// A participant in the offers, with what is kept of its rules. Contracts see these as ports to leave by.
#[derive(Drop)]
pub struct Exits<'v> {
    who: Pid,
    place: usize,
    kept: Kept<'v>,
}

impl<'v> Model for Exits<'v> {
    ghost use Rattle.block_build.specs.Kept.{receiver_of};
    ghost use Rattle.block_build.specs.declared.receive.Receiver.{Receiver};

    ghost Value = { Receiver };

    ghost view = { λ e. receiver_of e.who e.kept };
}

/// Puts the rule of a cube that joins a rule with one of a receiver last, where it can be reached.
fn push_joined(
    received: &mut Received,
    lines: &mut Vec<Line>,
    seen: &mut HashSet<Cube>,
    cube: Cube,
    x: &Line,
    hop: PortNo,
    y: &Line,
) -> Result<(), Memory>
    requires { Agrees lines.old.items seen.old }
    ensures lines { OnOk result (lines.new.items ≡ add_line lines.old.items (line (add_all x.now.results (received_items hop y.now.results)) cube)) }
    ensures agrees { OnOk result (Agrees lines.new.items seen.new) }
{
    if !is_hidden(lines, seen, &cube) {
        let results = received.beside(&x.results, hop, &y.results)?;
        push_reached(lines, seen, Line { cube, results })?;
    }
    Ok(())
}

/// Whether this is the cube that was met last.
fn is_last(last: Option<Cube>, cube: &Cube) -> bool
    ensures { IsTrue result → last ≡ Some cube.now }
{
    match last {
        Some(earlier) => earlier == *cube,
        None => false,
    }
}

/// Adds a rule joined with one of a receiver, where the two have headers in common. Often these are the headers that it had in
/// common with the rule met last, which is less work to see than to look for their cube. It answers the cube that is now the
/// one met last.
fn push_met(
    received: &mut Received,
    lines: &mut Vec<Line>,
    seen: &mut HashSet<Cube>,
    x: &Line,
    hop: PortNo,
    y: &Line,
    last: Option<Cube>,
) -> Result<Option<Cube>, Memory>
    requires agrees { Agrees lines.old.items seen.old }
    requires past { IsPast last lines.old.items }
    ensures lines { OnOk result (lines.new.items ≡ add_lines lines.old.items (row Union x.now (received_lines hop (y.now ∷ [])))) }
    ensures agrees { OnOk result (Agrees lines.new.items seen.new) }
    ensures past { IfOk result (λ met. IsPast met lines.new.items) }
{
    let Some(cube) = cube::meet(&x.cube, &y.cube) else {
        return Ok(last);
    };
    if !is_last(last, &cube) {
        push_joined(received, lines, seen, cube, x, hop, y)?;
    }
    Ok(Some(cube))
}

/// Adds a rule joined with each of a run.
fn push_each(
    received: &mut Received,
    lines: &mut Vec<Line>,
    seen: &mut HashSet<Cube>,
    x: &Line,
    hop: PortNo,
    ys: &[Line],
) -> Result<(), Stop>
    requires { Agrees lines.old.items seen.old }
    ensures lines { OnOk result (lines.new.items ≡ add_lines lines.old.items (row Union x.now (received_lines hop ys.now))) }
    ensures agrees { OnOk result (Agrees lines.new.items seen.new) }
{
    received.count(ys.len().saturating_mul(RULE))?;
    received.count_union(x.results.len(), 0)?;
    let mut last = None;
    for y in ys {
        last = push_met(received, lines, seen, x, hop, y, last)?;
    }
    Ok(())
}

/// The same, passing over a run whose cube tells that none of its rules has headers in common with this one.
fn push_run(
    received: &mut Received,
    lines: &mut Vec<Line>,
    seen: &mut HashSet<Cube>,
    x: &Line,
    hop: PortNo,
    run: &Run<'_>,
) -> Result<(), Stop>
    requires { Agrees lines.old.items seen.old }
    ensures lines { OnOk result (lines.new.items ≡ add_lines lines.old.items (row Union x.now (received_lines hop run.now.lines.now))) }
    ensures agrees { OnOk result (Agrees lines.new.items seen.new) }
{
    match cube::meet(&x.cube, &run.hull) {
        Some(_) => push_each(received, lines, seen, x, hop, run.lines),
        None => Ok(()),
    }
}

/// Adds a rule joined with each of the runs.
fn push_runs(
    received: &mut Received,
    lines: &mut Vec<Line>,
    seen: &mut HashSet<Cube>,
    x: &Line,
    hop: PortNo,
    runs: &[Run<'_>],
) -> Result<(), Stop>
    requires { Agrees lines.old.items seen.old }
    ensures lines { OnOk result (lines.new.items ≡ add_lines lines.old.items (row Union x.now (received_lines hop (lines_in runs.now)))) }
    ensures agrees { OnOk result (Agrees lines.new.items seen.new) }
{
    received.count(runs.len())?;
    for run in runs {
        push_run(received, lines, seen, x, hop, run)?;
    }
    Ok(())
}

/// The same of a group.
fn push_group(
    received: &mut Received,
    lines: &mut Vec<Line>,
    seen: &mut HashSet<Cube>,
    x: &Line,
    hop: PortNo,
    group: &Group<'_>,
) -> Result<(), Stop>
    requires { Agrees lines.old.items seen.old }
    ensures lines { OnOk result (lines.new.items ≡ add_lines lines.old.items (row Union x.now (received_lines hop (lines_in group.now.runs.items)))) }
    ensures agrees { OnOk result (Agrees lines.new.items seen.new) }
{
    match cube::meet(&x.cube, &group.hull) {
        Some(_) => push_runs(received, lines, seen, x, hop, group.runs.as_slice()),
        None => Ok(()),
    }
}

/// Adds a rule joined with each of the groups.
fn push_groups(
    received: &mut Received,
    lines: &mut Vec<Line>,
    seen: &mut HashSet<Cube>,
    x: &Line,
    hop: PortNo,
    groups: &[Group<'_>],
) -> Result<(), Stop>
    requires { Agrees lines.old.items seen.old }
    ensures lines { OnOk result (lines.new.items ≡ add_lines lines.old.items (row Union x.now (received_lines hop (lines_within groups.now)))) }
    ensures agrees { OnOk result (Agrees lines.new.items seen.new) }
{
    received.count(groups.len())?;
    for group in groups {
        push_group(received, lines, seen, x, hop, group)?;
    }
    Ok(())
}

/// Adds a rule joined with one for all headers.
fn push_alone(
    received: &mut Received,
    lines: &mut Vec<Line>,
    seen: &mut HashSet<Cube>,
    x: &Line,
    results: &Results,
) -> Result<(), Memory>
    requires { Agrees lines.old.items seen.old }
    ensures lines { OnOk result (lines.new.items ≡ add_lines lines.old.items (row Union x.now (line results.now everything ∷ []))) }
    ensures agrees { OnOk result (Agrees lines.new.items seen.new) }
{
    if !is_hidden(lines, seen, &x.cube) {
        let results = received.union(&x.results, results)?;
        let cube = x.cube;
        push_reached(lines, seen, Line { cube, results })?;
    }
    Ok(())
}

/// The port of an offer's NEXT_HOP, none for a hole.
fn hop_of(offer: &Offer) -> Option<PortNo>
    ensures { result ≡ (if offer.now.hole then None else Some offer.now.port) }
{
    if offer.hole { None } else { Some(offer.port) }
}

/// The cubes of rules, in their order.
pub(crate) fn cubes_of(alloc: Global, lines: &[Line]) -> Result<Vec<Cube>, Memory>
    ensures { IfOk result (λ v. v.items ≡ cubes_of lines.now) }
{
    let mut cubes = Vec::with_capacity(alloc, lines.len())?;
    for line in lines {
        cubes.push(line.cube)?;
    }
    Ok(cubes)
}

/// The rule at a place.
fn rule_at(xs: &[Line], place: usize) -> Option<&Line>
    ensures { option_copied result ≡ slice_get xs.now place }
{
    if place < xs.len() {
        Some(&xs[place])
    } else {
        None
    }
}

/// The first of some rules that holds a cube, whose place is known.
pub(crate) fn line_at<'x>(xs: &'x [Line], place: Option<usize>) -> Option<&'x Line>
    ensures { (c : AnyCube) → place ≡ first_place c (cubes_of xs.now) → option_copied result ≡ first_holding c xs.now }
{
    match place {
        Some(place) => rule_at(xs, place),
        None => None,
    }
}

/// What the rule at a place gives.
pub(crate) fn items_at<'x>(xs: &'x [Line], place: Option<usize>) -> &'x [(Assign, Loc)]
    ensures { (c : AnyCube) → place ≡ first_place c (cubes_of xs.now) → result.now ≡ held_by c xs.now }
{
    match line_at(xs, place) {
        Some(x) => x.results.items(),
        None => &[],
    }
}

/// How the results leave of the first rule that holds a cell, beside what leaves by others: the place of that rule is known.
fn beside_many(
    received: &mut Received,
    others: Results,
    rows: &Grouped<'_>,
    cell: &Cube,
    place: Option<usize>,
) -> Result<Results, Memory>
    requires { place ≡ first_place cell.now (cubes_of rows.now.lines.now) }
    ensures { IfOk result (λ r. r ≡ add_all others (held_by cell.now (received_lines rows.now.hop rows.now.lines.now))) }
{
    match line_at(rows.lines, place) {
        Some(y) => received.joined(others, rows.hop, &y.results),
        None => Ok(others),
    }
}

/// Puts how the results leave last of the first rule that holds a cell: the place of that rule is known.
fn push_many(
    alloc: Global,
    row: &mut Vec<(Assign, Loc)>,
    rows: &Grouped<'_>,
    cell: &Cube,
    place: Option<usize>,
) -> Result<(), Memory>
    requires place { place ≡ first_place cell.now (cubes_of rows.now.lines.now) }
    requires new { AreNew row.old.items (held_by cell.now (received_lines rows.now.hop rows.now.lines.now)) }
    ensures { OnOk result (row.new.items ≡ add_all row.old.items (held_by cell.now (received_lines rows.now.hop rows.now.lines.now))) }
{
    match line_at(rows.lines, place) {
        Some(y) => push_received(alloc, row, rows.hop, &y.results),
        None => Ok(()),
    }
}

impl<'v> Exits<'v> {
    /// The participant of an offer, with its rules or those of a hole, and its place among those that a sender reaches.
    pub(crate) fn new(
        alloc: Global,
        view: &'v View<'_>,
        offer: &Offer,
        place: usize,
    ) -> Result<Exits<'v>, Memory>
        ensures { IfOk result (λ e. e ≡ receiver (inbound_of view.now) offer.now) }
    {
        let lines = view.inbound(offer.exporter);
        let kept = kept_of(alloc, hop_of(offer), lines)?;
        Ok(Exits {
            who: offer.exporter,
            place,
            kept,
        })
    }

    /// The participant.
    pub(crate) fn who(&self) -> Pid
        ensures { result ≡ self.now.who }
    {
        self.who
    }

    /// Its place among those that the sender reaches. Nothing rests on it but how soon a result is found.
    pub(crate) fn place(&self) -> usize {
        self.place
    }

    /// What it makes of every packet, where its one rule is for all headers.
    pub(crate) fn alone(&self) -> Option<&Results>
        ensures { IsAlone (option_copied result) self.now.lines }
    {
        match &self.kept {
            Kept::Alone(results) => Some(results),
            Kept::Many(_) => None,
        }
    }

    /// The cubes of its rules.
    pub(crate) fn cubes(&self, alloc: Global) -> Result<Vec<Cube>, Memory>
        ensures { IfOk result (λ v. v.items ≡ cubes_of self.now.lines) }
    {
        match &self.kept {
            Kept::Alone(_) => {
                let all = vec![in alloc; Cube::everything()]?;
                Ok(all)
            }
            Kept::Many(rows) => cubes_of(alloc, rows.lines),
        }
    }

    /// What its rules give, with numbers.
    pub(crate) fn given(&self, received: &mut Received) -> Result<Given, Memory>
        ensures { IfOk result (λ g. AreNumbered g.table.lists.items self.now.lines g.numbers.items) }
    {
        match &self.kept {
            Kept::Alone(results) => given_alone(received.alloc(), results),
            Kept::Many(rows) => given_by(received, rows.hop, rows.lines),
        }
    }

    /// What it makes of a cell, beside what others do: the place of the first of its rules that holds the cell is known.
    pub(crate) fn beside(
        &self,
        received: &mut Received,
        others: Results,
        cell: &Cube,
        place: Option<usize>,
    ) -> Result<Results, Memory>
        requires { place ≡ first_place cell.now (cubes_of self.now.lines) }
        ensures { IfOk result (λ r. r ≡ add_all others (held_by cell.now self.now.lines)) }
    {
        match &self.kept {
            Kept::Alone(results) => received.joined_with(others, results),
            Kept::Many(rows) => beside_many(received, others, rows, cell, place),
        }
    }

    /// Puts what it makes of a cell last, where nothing of that is there: the place of the first of its rules that holds the cell
    /// is known.
    pub(crate) fn push_made(
        &self,
        alloc: Global,
        row: &mut Vec<(Assign, Loc)>,
        cell: &Cube,
        place: Option<usize>,
    ) -> Result<(), Memory>
        requires place { place ≡ first_place cell.now (cubes_of self.now.lines) }
        requires new { AreNew row.old.items (held_by cell.now self.now.lines) }
        ensures { OnOk result (row.new.items ≡ add_all row.old.items (held_by cell.now self.now.lines)) }
    {
        match &self.kept {
            Kept::Alone(results) => {
                results.known();
                row.extend_from_slice(results.items())?;
                Ok(())
            }
            Kept::Many(rows) => push_many(alloc, row, rows, cell, place),
        }
    }

    /// Whether nothing that it makes leaves by one of the ports.
    pub(crate) fn is_apart(&self, ports: &PlaceSet) -> bool
        ensures { IsTrue result → AllFree ports.now self.now.lines }
    {
        match &self.kept {
            Kept::Alone(results) => are_free(ports, results.items()),
            Kept::Many(rows) => are_lines_free(ports, rows.hop, rows.lines),
        }
    }

    /// Adds the ports by which it makes packets leave.
    pub(crate) fn take_ports(&self, ports: &mut PlaceSet) -> Result<(), Memory>
        ensures taken { OnOk result (AllTaken ports.new self.now.lines) }
        ensures kept { OnOk result (KeepPorts ports.old ports.new) }
    {
        match &self.kept {
            Kept::Alone(results) => take_items(ports, results.items()),
            Kept::Many(rows) => take_received(ports, rows.hop, rows.lines),
        }
    }

    /// Tested cubes of which the cubes of its rules are meets.
    pub(crate) fn tests(&self, alloc: Global) -> Result<Vec<Cube>, Memory>
        ensures { IfOk result (λ tests. AreMeets tests.items self.now.lines) }
    {
        match &self.kept {
            Kept::Alone(_) => Ok(Vec::new(alloc)),
            Kept::Many(rows) => {
                let tests = tests_of(alloc, rows.lines)?;
                Ok(tests)
            }
        }
    }

    /// Adds a rule joined with each of the receiver's where these don't cut it otherwise than the rules that are there. Answers
    /// whether it did.
    pub(crate) fn push_uncut(
        &self,
        received: &mut Received,
        lines: &mut Vec<Line>,
        seen: &mut HashSet<Cube>,
        x: &Line,
        tests: &[Cube],
    ) -> Result<bool, Stop>
        requires agrees { Agrees lines.old.items seen.old }
        requires closed { AreClosed tests.now lines.old.items }
        requires meets { AreMeets tests.now self.now.lines }
        ensures lines { IfOk result (λ done. lines.new.items ≡ (if done then add_lines lines.old.items (row Union x.now self.now.lines) else lines.old.items)) }
        ensures agrees { OnOk result (Agrees lines.new.items seen.new) }
        ensures closed { OnOk result (AreClosed tests.now lines.new.items) }
    {
        match &self.kept {
            Kept::Alone(_) => Ok(false),
            Kept::Many(rows) => {
                push_uncut(received, lines, seen, x, rows.hop, &rows.groups, tests)
            }
        }
    }

    /// Adds a rule joined with each of the receiver's.
    pub(crate) fn push_row(
        &self,
        received: &mut Received,
        lines: &mut Vec<Line>,
        seen: &mut HashSet<Cube>,
        x: &Line,
    ) -> Result<(), Stop>
        requires { Agrees lines.old.items seen.old }
        ensures lines { OnOk result (lines.new.items ≡ add_lines lines.old.items (row Union x.now self.now.lines)) }
        ensures agrees { OnOk result (Agrees lines.new.items seen.new) }
    {
        match &self.kept {
            Kept::Alone(results) => {
                received.count(ALONE)?;
                received.count_union(x.results.len(), results.len())?;
                push_alone(received, lines, seen, x, results)?;
                Ok(())
            }
            Kept::Many(rows) => push_groups(received, lines, seen, x, rows.hop, &rows.groups),
        }
    }
}
