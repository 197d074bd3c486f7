//! The rules of a sender, spread over the receivers that they send to.

ghost use Rattle.std.specs.Prelude.{◌≡◌, ◌≤◌, ◌∷◌, [], IfOk, OnOk, length, map, true, IsTrue};
ghost use Rattle.std.specs.Option.{option_to_list};
ghost use Rattle.classifier.specs.Lines.{add_lines, line, row};
ghost use Rattle.classifier.specs.Seen.{Agrees};
ghost use Rattle.classifier.specs.declared.join.Join.TheVariants.{Union};
ghost use Rattle.net_types.specs.Cells.{freed};
ghost use Rattle.block_build.specs.Bounds.{AreMeets, IsAdded, IsEnd, IsGrown, IsReached, IsSome, IsSomeBeside};
ghost use Rattle.block_build.specs.Closed.{AreClosed};
ghost use Rattle.block_build.specs.Right.{are_for_any_port};
ghost use Rattle.block_build.specs.Spreads.{blocks, restricted, spread, within_rule};

use crate::alone::beside_alone;
use crate::exits::Exits;
use crate::offers::{goes_to, has_one_left};
use crate::received::Received;
use crate::stop::Stop;
use crate::uncut::looks_of;
use classifier::{Line, Results, push_line};
use net_types::{Assign, Cube, Loc, Memory, Offer, Pid, PortNo, TryCopy};
use std::alloc::Global;
use std::collections::HashSet;

/// So many rules are joined with a receiver's one by one, which is no more work than to find what these test.
const FEW: usize = 4096;

/// The cube of what comes in by a port, with its inport freed; none where it has another.
fn freed(port: PortNo, cube: &Cube) -> Option<Cube>
    ensures { option_to_list result ≡ freed port cube.now }
{
    let free = Cube {
        inport: None,
        ..*cube
    };
    match cube.inport {
        Some(wanted) => { if wanted.0 == port.0 { Some(free) } else { None } }
        None => Some(free),
    }
}

/// Puts the rule of what comes in by a port last, where it can be reached.
fn push_freed(
    lines: &mut Vec<Line>,
    seen: &mut HashSet<Cube>,
    port: PortNo,
    x: &Line,
) -> Result<(), Memory>
    requires { Agrees lines.old.items seen.old }
    ensures lines { OnOk result (lines.new.items ≡ add_lines lines.old.items (map (line x.now.results) (freed port x.now.cube))) }
    ensures agrees { OnOk result (Agrees lines.new.items seen.new) }
{
    match freed(port, &x.cube) {
        Some(cube) => {
            let results = x.results.copy()?;
            push_line(lines, seen, Line { cube, results })
        }
        None => Ok(()),
    }
}

/// The rules of what comes in by a port, without those that can't be reached.
pub(crate) fn restricted(alloc: Global, port: PortNo, xs: &[Line]) -> Result<Vec<Line>, Memory>
    ensures { IfOk result (λ v. v.items ≡ add_lines [] (restricted port xs.now)) }
{
    let mut lines = Vec::new(alloc);
    let mut seen = HashSet::new(alloc);
    for x in xs {
        push_freed(&mut lines, &mut seen, port, x)?;
    }
    Ok(lines)
}

/// Adds a rule joined with each of a receiver's. Answers whether the rules are closed.
fn push_next(
    received: &mut Received,
    lines: &mut Vec<Line>,
    seen: &mut HashSet<Cube>,
    x: &Line,
    receiver: &Exits<'_>,
    tests: &[Cube],
    closed: bool,
) -> Result<bool, Stop>
    requires agrees { Agrees lines.old.items seen.old }
    requires closed { IsTrue closed → AreClosed tests.now lines.old.items }
    requires meets { AreMeets tests.now receiver.now.lines }
    ensures lines { OnOk result (lines.new.items ≡ add_lines lines.old.items (row Union x.now receiver.now.lines)) }
    ensures agrees { OnOk result (Agrees lines.new.items seen.new) }
    ensures closed { IfOk result (λ still. IsTrue still → AreClosed tests.now lines.new.items) }
{
    if !closed {
        receiver.push_row(received, lines, seen, x)?;
        return Ok(false);
    }
    let done = receiver.push_uncut(received, lines, seen, x, tests)?;
    if done {
        return Ok(true);
    }
    receiver.push_row(received, lines, seen, x)?;
    Ok(false)
}

/// Adds each of many rules joined with each of a receiver's to no rules. Where the receiver's cut none of them otherwise than
/// those before it, each is joined with the first one that holds it. It stops where there are more than the limit.
fn push_many(
    received: &mut Received,
    lines: &mut Vec<Line>,
    seen: &mut HashSet<Cube>,
    xs: &[Line],
    receiver: &Exits<'_>,
    limit: usize,
) -> Result<(), Stop>
    requires empty { lines.old.items ≡ [] }
    requires agrees { Agrees lines.old.items seen.old }
    ensures added { OnOk result (IsAdded limit lines.old.items xs.now receiver.now.lines lines.new.items) }
    ensures agrees { OnOk result (Agrees lines.new.items seen.new) }
{
    let tests = receiver.tests(received.alloc())?;
    received.foresee(looks_of(xs.len(), tests.len()))?;
    let mut closed = true;
    for x in xs {
        closed = push_next(received, lines, seen, x, receiver, &tests, closed)?;
        if lines.len() > limit {
            return Ok(());
        }
    }
    Ok(())
}

/// Adds each of some rules joined with each of a receiver's. It stops where there are more than the limit.
fn push_each(
    received: &mut Received,
    lines: &mut Vec<Line>,
    seen: &mut HashSet<Cube>,
    xs: &[Line],
    receiver: &Exits<'_>,
    limit: usize,
) -> Result<(), Stop>
    requires { Agrees lines.old.items seen.old }
    ensures added { OnOk result (IsAdded limit lines.old.items xs.now receiver.now.lines lines.new.items) }
    ensures agrees { OnOk result (Agrees lines.new.items seen.new) }
{
    for x in xs {
        receiver.push_row(received, lines, seen, x)?;
        if lines.len() > limit {
            return Ok(());
        }
    }
    Ok(())
}

/// The same, where the rules may be many.
fn push_product(
    received: &mut Received,
    lines: &mut Vec<Line>,
    seen: &mut HashSet<Cube>,
    xs: &[Line],
    receiver: &Exits<'_>,
    limit: usize,
) -> Result<(), Stop>
    requires { Agrees lines.old.items seen.old }
    ensures added { OnOk result (IsAdded limit lines.old.items xs.now receiver.now.lines lines.new.items) }
    ensures agrees { OnOk result (Agrees lines.new.items seen.new) }
{
    if lines.is_empty() && xs.len() > FEW {
        push_many(received, lines, seen, xs, receiver, limit)
    } else {
        push_each(received, lines, seen, xs, receiver, limit)
    }
}

/// The rules beside those of one more receiver. It stops where there are more than the limit.
fn product_beside(
    received: &mut Received,
    xs: &[Line],
    receiver: &Exits<'_>,
    limit: usize,
) -> Result<Vec<Line>, Stop>
    ensures { IfOk result (λ v. IsSomeBeside limit true xs.now receiver.now.lines v.items) }
{
    let mut more = Vec::new(received.alloc());
    let mut seen = HashSet::new(received.alloc());
    push_product(received, &mut more, &mut seen, xs, receiver, limit)?;
    Ok(more)
}

/// The rules beside those of one more receiver, where they go to it. It stops where there are more than the limit.
fn beside(
    received: &mut Received,
    goes: bool,
    lines: Vec<Line>,
    receiver: &Exits<'_>,
    limit: usize,
) -> Result<Vec<Line>, Stop>
    ensures { IfOk result (λ v. IsSomeBeside limit goes lines.items receiver.now.lines v.items) }
{
    if !goes {
        return Ok(lines);
    }
    match receiver.alone() {
        Some(results) if lines.len() == 1 => {
            received.count(1)?;
            received.count_pushes(lines[0].results.len(), results.len())?;
            let more = beside_alone(lines, results)?;
            Ok(more)
        }
        _ => {
            let more = product_beside(received, &lines, receiver, limit)?;
            Ok(more)
        }
    }
}

/// With how many receivers a rule is still to be joined: the last one of all stands behind these. Nothing rests on it but when
/// the work stops.
fn ahead(receivers: &[Exits<'_>], receiver: &Exits<'_>) -> usize {
    receivers
        .len()
        .saturating_sub(receiver.place())
        .saturating_add(1)
}

/// The rules within one rule of the sender: what each receiver that its results go to makes of a packet. It stops where there
/// are more than the limit.
fn within_rule(
    received: &mut Received,
    left: bool,
    best: Pid,
    receivers: &[Exits<'_>],
    x: &Line,
    limit: usize,
) -> Result<Vec<Line>, Stop>
    ensures { IfOk result (λ v. IsSome limit (spread left best x.now.results (line [] x.now.cube ∷ []) receivers.now) receivers.now (x.now ∷ []) v.items) }
{
    let alloc = received.alloc();
    let mut lines = vec![in alloc;
        Line {
            cube: x.cube,
            results: Results::with_room(alloc, receivers.len())?
        },
    ]?;
    for receiver in receivers {
        let goes = goes_to(
            left,
            best,
            x.results.items(),
            receiver.who(),
            receiver.place(),
        );
        received.expect(ahead(receivers, receiver));
        lines = beside(received, goes, lines, receiver, limit)?;
        if lines.len() > limit {
            return Ok(lines);
        }
    }
    Ok(lines)
}

/// Whether there is a last receiver, and the results don't go to it.
fn ends_unreached(left: bool, best: Pid, items: &[(Assign, Loc)], receivers: &[Exits<'_>]) -> bool
    ensures { IsEnd left best items.now receivers.now result }
{
    match receivers.split_last() {
        None => false,
        Some((last, _)) => !goes_to(left, best, items, last.who(), last.place()),
    }
}

/// The receivers up to the last one that the results go to.
fn reached<'r, 'v>(
    left: bool,
    best: Pid,
    items: &[(Assign, Loc)],
    receivers: &'r [Exits<'v>],
) -> &'r [Exits<'v>]
    ensures { IsReached left best items.now receivers.now result.now }
{
    let mut front = receivers;
    while ends_unreached(left, best, items, front) {
        front = &front[..front.len() - 1];
    }
    front
}

/// Adds the rule of a cube that nobody receives.
fn push_dropped(
    alloc: Global,
    lines: &mut Vec<Line>,
    seen: &mut HashSet<Cube>,
    cube: Cube,
) -> Result<(), Memory>
    requires { Agrees lines.old.items seen.old }
    ensures lines { OnOk result (lines.new.items ≡ add_lines lines.old.items (line [] cube ∷ [])) }
    ensures agrees { OnOk result (Agrees lines.new.items seen.new) }
{
    let results = Results::new(alloc);
    push_line(lines, seen, Line { cube, results })
}

/// Adds the rules within a cube that one receiver alone gets.
fn push_only(
    received: &mut Received,
    lines: &mut Vec<Line>,
    seen: &mut HashSet<Cube>,
    cube: Cube,
    receiver: &Exits<'_>,
) -> Result<(), Stop>
    requires { Agrees lines.old.items seen.old }
    ensures lines { OnOk result (lines.new.items ≡ add_lines lines.old.items (row Union (line [] cube) receiver.now.lines)) }
    ensures agrees { OnOk result (Agrees lines.new.items seen.new) }
{
    let results = Results::new(received.alloc());
    receiver.push_row(received, lines, seen, &Line { cube, results })
}

/// Adds the rules within one rule of the sender. What the last receiver that its results go to makes of a packet is put straight
/// to the rest. Where it finds more than the limit it stops.
fn push_within(
    received: &mut Received,
    lines: &mut Vec<Line>,
    seen: &mut HashSet<Cube>,
    best: Pid,
    offers: &[Offer],
    receivers: &[Exits<'_>],
    x: &Line,
    limit: usize,
) -> Result<(), Stop>
    requires { Agrees lines.old.items seen.old }
    ensures grown { OnOk result (IsGrown limit lines.old.items (within_rule best offers.now receivers.now x.now) receivers.now (x.now ∷ []) lines.new.items) }
    ensures agrees { OnOk result (length lines.new.items ≤ limit → Agrees lines.new.items seen.new) }
{
    let left = has_one_left(offers, x.results.items());
    let front = reached(left, best, x.results.items(), receivers);
    let Some((last, others)) = front.split_last() else {
        push_dropped(received.alloc(), lines, seen, x.cube)?;
        return Ok(());
    };
    if others.is_empty() {
        push_only(received, lines, seen, x.cube, last)?;
        return Ok(());
    }
    let within_x = within_rule(received, left, best, others, x, limit)?;
    if within_x.len() > limit {
        *lines = within_x;
        return Ok(());
    }
    received.expect(1);
    push_product(received, lines, seen, &within_x, last, limit)?;
    Ok(())
}

/// The rules within each of a sender's rules, each joined with the receivers'. It stops where there are more than the limit, and
/// where more looks would be taken than may be.
pub(crate) fn spread_all(
    alloc: Global,
    best: Pid,
    offers: &[Offer],
    receivers: &[Exits<'_>],
    xs: &[Line],
    limit: usize,
    most: usize,
) -> Result<Vec<Line>, Stop>
    ensures { IfOk result (λ v. IsSome limit (add_lines [] (blocks best offers.now receivers.now xs.now)) receivers.now xs.now v.items) }
{
    let mut received = Received::new(alloc, most);
    let mut lines = Vec::new(alloc);
    let mut seen = HashSet::new(alloc);
    for x in xs {
        push_within(
            &mut received,
            &mut lines,
            &mut seen,
            best,
            offers,
            receivers,
            x,
            limit,
        )?;
        if lines.len() > limit {
            return Ok(lines);
        }
    }
    Ok(lines)
}

/// Whether none of the rules tells by which port a packet has to come in.
pub(crate) fn are_for_any_port(xs: &[Line]) -> bool
    ensures { result ≡ are_for_any_port xs.now }
{
    for x in xs {
        if x.cube.inport.is_some() {
            return false;
        }
    }
    true
}
