//! The pairs of the table whose rules another policy builds anew.

ghost use Rattle.std.specs.Prelude.{◌≡◌, ◌++◌, false, filter, find, IfOk, OnOk};
ghost use Rattle.std.specs.FinMap.{keys};
ghost use Rattle.std.specs.Option.{option_map_or};
ghost use Rattle.events.specs.Sound.{part_of};
ghost use Rattle.exchange_laws.specs.Steady.{PortsDiffer};
ghost use Rattle.net_types.specs.Answers.{is_offered};
ghost use Rattle.net_types.specs.declared.route.Part.{Part as AnyPart};
ghost use Rattle.exchange_core.specs.Rebuilt.{AreTagged, is_at, is_from, is_later, is_to};

use fast_path::part_in;
use match_switch::Switch;
use net_types::{Memory, Offer, Pair, Part, Pid, PortNo, Tag, ascending};
use prefix_classes::ClassMap;
use registry::Registry;
use std::alloc::Global;

/// The least pair of the table at the same port with a greater tag, where there is one.
fn next_at(switch: &Switch, last: Pair) -> Option<Pair>
    ensures { result ≡ find (is_later last) (keys switch.now.table) }
{
    let Some(pair) = switch.next_pair(Some(last)) else {
        return None;
    };
    if pair.port.0 == last.port.0 {
        Some(pair)
    } else {
        None
    }
}

/// Puts the pairs of the table that are of a port last, ascending.
fn push_pairs_at(switch: &Switch, port: PortNo, pairs: &mut Vec<Pair>) -> Result<(), Memory>
    requires { AreTagged switch.now.table }
    ensures { OnOk result (pairs.new.items ≡ pairs.old.items ++ filter (is_at port) (keys switch.now.table)) }
{
    let mut last = Pair { port, tag: Tag(0) };
    while let Some(pair) = next_at(switch, last) {
        pairs.push(pair)?;
        last = pair;
    }
    Ok(())
}

/// The pairs of the table that are of a participant's ports, ascending. It walks these alone. Memory is the only refusal.
pub fn pairs_from(
    alloc: Global,
    names: &Registry,
    switch: &Switch,
    who: Pid,
) -> Result<Vec<Pair>, Memory>
    requires apart { PortsDiffer names.now.ports }
    requires tagged { AreTagged switch.now.table }
    ensures { IfOk result (λ pairs. pairs.items ≡ filter (is_from names.now who) (keys switch.now.table)) }
{
    let ports = names.ports_of(who);
    let mut pairs = Vec::new(alloc);
    for &port in ports {
        push_pairs_at(switch, port, &mut pairs)?;
    }
    Ok(ascending(pairs))
}

/// Whether a participant stands among the offers.
fn is_offered(offers: &[Offer], who: Pid) -> bool
    ensures { result ≡ is_offered offers.now who }
{
    offers.iter().any(|offer| offer.exporter.0 == who.0)
}

/// Whether a participant stands among the offers of a sender's part.
fn is_offered_to(sig: &[Part], sender: Pid, who: Pid) -> bool
    ensures { result ≡ option_map_or (λ (part : AnyPart). is_offered part.offers who) (part_of sig.now sender) false }
{
    match part_in(sig, sender) {
        Some(part) => is_offered(part.offers.items(), who),
        None => false,
    }
}

/// Whether a participant stands among the offers of the part that the owner of a pair's port has.
fn is_to(names: &Registry, classes: &ClassMap, who: Pid, pair: Pair) -> bool
    ensures { result ≡ is_to names.now classes.now.kept who pair }
{
    let Some(port) = names.port(pair.port) else {
        return false;
    };
    match classes.sig_of(pair.tag) {
        Some(sig) => is_offered_to(sig.items(), port.owner, who),
        None => false,
    }
}

/// The pairs of the table in whose owner's part a participant stands among the offers, ascending. Memory is the only
/// refusal.
pub fn pairs_to(
    alloc: Global,
    names: &Registry,
    classes: &ClassMap,
    switch: &Switch,
    who: Pid,
) -> Result<Vec<Pair>, Memory>
    ensures { IfOk result (λ pairs. pairs.items ≡ filter (is_to names.now classes.now.kept who) (keys switch.now.table)) }
{
    let mut pairs = Vec::new(alloc);
    for (pair, _) in switch.iter() {
        if is_to(names, classes, who, pair) {
            pairs.push(pair)?;
        }
    }
    Ok(pairs)
}
