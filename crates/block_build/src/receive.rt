//! What a receiver makes of a packet, as ports to leave by.

ghost use Rattle.std.specs.Prelude.{◌≡◌, ◌++◌, ◌∷◌, [], IfOk, IsTrue, OnOk};
ghost use Rattle.classifier.specs.Items.{AreNew, add_all};
ghost use Rattle.net_types.specs.Headers.{no_change};
ghost use Rattle.net_types.specs.declared.headers.Loc.TheVariants.{Out};
ghost use Rattle.block_build.specs.Receivers.{AreApart, NoneGoes, add_exit, add_exits, exit_at, exit_of, received_items};

use classifier::{Gathering, Lines, Results};
use net_types::{Assign, Loc, Memory, Pid, PortNo};
use std::alloc::Global;

/// What contracts see of a participant in the offers: its rules as ports to leave by. By a hole nothing leaves. No call makes
/// one: `Exits` has the participant's own rules, and makes of each what is needed of it.
#[derive(Drop)]
pub struct Receiver {
    pub who: Pid,
    pub lines: Lines,
}

/// The port by which a packet leaves, with the port of the NEXT_HOP.
fn exit_of(hop: PortNo, loc: Loc) -> Option<PortNo>
    ensures { result ≡ exit_of hop loc }
{
    match loc {
        Loc::Stay => Some(hop),
        Loc::Out(port) => Some(port),
        Loc::To(_) | Loc::Nowhere => None,
    }
}

/// Puts a result last that leaves by a port, where there is one.
fn push_exit(results: &mut Gathering, set: Assign, exit: Option<PortNo>) -> Result<(), Memory>
    ensures { OnOk result (results.new ≡ add_exit results.old set exit) }
{
    if let Some(port) = exit {
        results.push((set, Loc::Out(port)))?;
    }
    Ok(())
}

/// How each of the results leaves.
fn exits_of(alloc: Global, hop: PortNo, results: &Results) -> Result<Results, Memory>
    ensures { IfOk result (λ r. r ≡ add_exits hop [] results.now) }
{
    let mut exits = Gathering::with_room(alloc, results.len())?;
    for pair in results.items() {
        push_exit(&mut exits, pair.0, exit_of(hop, pair.1))?;
    }
    Ok(exits.into_results())
}

/// Whether none of the results goes there.
fn none_goes(items: &[(Assign, Loc)], loc: Loc) -> bool
    ensures { IsTrue result → NoneGoes loc items.now }
{
    for pair in items {
        if pair.1 == loc {
            return false;
        }
    }
    true
}

/// Puts how a result leaves last, where it does.
fn push_pair(
    pairs: &mut Vec<(Assign, Loc)>,
    set: Assign,
    exit: Option<PortNo>,
) -> Result<(), Memory>
    ensures { OnOk result (pairs.new.items ≡ pairs.old.items ++ exit_at set exit) }
{
    if let Some(port) = exit {
        pairs.push((set, Loc::Out(port)))?;
    }
    Ok(())
}

/// Puts how each of the results leaves last, where none of them leaves as another does.
fn push_apart(pairs: &mut Vec<(Assign, Loc)>, hop: PortNo, results: &Results) -> Result<(), Memory>
    requires { AreApart hop results.now }
    ensures { OnOk result (pairs.new.items ≡ pairs.old.items ++ add_exits hop [] results.now) }
{
    results.known();
    for pair in results.items() {
        push_pair(pairs, pair.0, exit_of(hop, pair.1))?;
    }
    Ok(())
}

/// How each of the results leaves, where none of them leaves as another does.
fn exits_apart(alloc: Global, hop: PortNo, results: &Results) -> Result<Results, Memory>
    requires { AreApart hop results.now }
    ensures { IfOk result (λ r. r ≡ add_exits hop [] results.now) }
{
    let mut pairs = Vec::with_capacity(alloc, results.len())?;
    push_apart(&mut pairs, hop, results)?;
    Ok(Results::from_vec(pairs))
}

/// The packet as it is, by the port of the NEXT_HOP.
fn unchanged(alloc: Global, hop: PortNo) -> Result<Results, Memory>
    ensures { IfOk result (λ r. r ≡ (no_change, Out hop) ∷ []) }
{
    let mut exits = Results::with_room(alloc, 1)?;
    exits.push((Assign::none(), Loc::Out(hop)))?;
    Ok(exits)
}

/// Whether none of the results leaves as another does: none stays, or none leaves by the port of the NEXT_HOP anyway.
fn are_apart(hop: PortNo, items: &[(Assign, Loc)]) -> bool
    ensures { IsTrue result → AreApart hop items.now }
{
    none_goes(items, Loc::Stay) || none_goes(items, Loc::Out(hop))
}

/// How the results leave, and the packet as it is where there are none.
pub(crate) fn received_results(
    alloc: Global,
    hop: PortNo,
    results: &Results,
) -> Result<Results, Memory>
    ensures { IfOk result (λ r. r ≡ received_items hop results.now) }
{
    if results.is_empty() {
        return unchanged(alloc, hop);
    }
    if are_apart(hop, results.items()) {
        exits_apart(alloc, hop, results)
    } else {
        exits_of(alloc, hop, results)
    }
}

/// Puts how the results leave last, where none of that is there.
pub(crate) fn push_received(
    alloc: Global,
    row: &mut Vec<(Assign, Loc)>,
    hop: PortNo,
    results: &Results,
) -> Result<(), Memory>
    requires { AreNew row.old.items (received_items hop results.now) }
    ensures { OnOk result (row.new.items ≡ add_all row.old.items (received_items hop results.now)) }
{
    if results.is_empty() {
        row.push((Assign::none(), Loc::Out(hop)))?;
        return Ok(());
    }
    if are_apart(hop, results.items()) {
        return push_apart(row, hop, results);
    }
    let exits = exits_of(alloc, hop, results)?;
    row.extend_from_slice(exits.items())?;
    Ok(())
}
