//! The pairs of the table whose rules another policy builds anew.

ghost use Rattle.std.specs.Prelude.{◌≡◌, false, filter, IfOk};
ghost use Rattle.std.specs.FinMap.{keys};
ghost use Rattle.std.specs.Option.{option_map_or};
ghost use Rattle.events.specs.Sound.{part_of};
ghost use Rattle.net_types.specs.Answers.{is_offered};
ghost use Rattle.net_types.specs.declared.route.Part.{Part as AnyPart};
ghost use Rattle.plan_cases.specs.Rebuilt.{is_from, is_to};

use fast_path::part_in;
use match_switch::Switch;
use net_types::{Memory, Offer, Pair, Part, Pid};
use prefix_classes::ClassMap;
use registry::Registry;
use std::alloc::Global;

/// Whether a pair's port is a participant's.
fn is_from(names: &Registry, who: Pid, pair: Pair) -> bool
    ensures { result ≡ is_from names.now who pair }
{
    match names.port(pair.port) {
        Some(port) => port.owner.0 == who.0,
        None => false,
    }
}

/// The pairs of the table that are of a participant's ports, ascending.
pub fn pairs_from(
    alloc: Global,
    names: &Registry,
    switch: &Switch,
    who: Pid,
) -> Result<Vec<Pair>, Memory>
    ensures { IfOk result (λ pairs. pairs.items ≡ filter (is_from names.now who) (keys switch.now.table)) }
{
    let mut pairs = Vec::new(alloc);
    for (pair, _) in switch.iter() {
        if is_from(names, who, pair) {
            pairs.push(pair)?;
        }
    }
    Ok(pairs)
}

/// Whether a participant stands among the offers.
fn is_offered(offers: &[Offer], who: Pid) -> bool
    ensures { result ≡ is_offered offers.now who }
{
    offers.iter().any(|offer| offer.exporter.0 == who.0)
}

/// Whether a participant stands among the offers of a sender's part.
fn is_offered_to(sig: &[Part], sender: Pid, who: Pid) -> bool
    ensures { result ≡ option_map_or (λ (part : AnyPart). is_offered part.offers who) (part_of sig.now sender) false }
{
    match part_in(sig, sender) {
        Some(part) => is_offered(part.offers.items(), who),
        None => false,
    }
}

/// Whether a participant stands among the offers of the part that the owner of a pair's port has.
fn is_to(names: &Registry, classes: &ClassMap, who: Pid, pair: Pair) -> bool
    ensures { result ≡ is_to names.now classes.now.kept who pair }
{
    let Some(port) = names.port(pair.port) else {
        return false;
    };
    match classes.sig_of(pair.tag) {
        Some(sig) => is_offered_to(sig.items(), port.owner, who),
        None => false,
    }
}

/// The pairs of the table in whose owner's part a participant stands among the offers, ascending.
pub fn pairs_to(
    alloc: Global,
    names: &Registry,
    classes: &ClassMap,
    switch: &Switch,
    who: Pid,
) -> Result<Vec<Pair>, Memory>
    ensures { IfOk result (λ pairs. pairs.items ≡ filter (is_to names.now classes.now.kept who) (keys switch.now.table)) }
{
    let mut pairs = Vec::new(alloc);
    for (pair, _) in switch.iter() {
        if is_to(names, classes, who, pair) {
            pairs.push(pair)?;
        }
    }
    Ok(pairs)
}
