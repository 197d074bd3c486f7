//! The signature of a prefix.

ghost use Rattle.std.specs.Prelude.{◌≡◌, ◌&&◌, map, nat_eq, IfOk};
ghost use Rattle.std.specs.List.{list_any};
ghost use Rattle.std.specs.Option.{option_and_then};
ghost use Rattle.net_types.specs.Exports.{is_given};
ghost use Rattle.net_types.specs.Routes.{best_of};
ghost use Rattle.net_types.specs.Signatures.{counts, is_hole, offer, port_with};
ghost use Rattle.net_types.specs.declared.address.Pid.{Pid};
ghost use Rattle.route_server.specs.Choices.{offers_by_row, AreChosen};
ghost use Rattle.route_server.specs.Rows.{settled_by, held_by, held_at, offered, counted, names_at, part_of, signature_of};

use crate::choices::{held_in, place_of};
use crate::held::Held;
use crate::rows::is_given;
use crate::terms::Terms;
use net_types::{Attrs, Ip, Memory, Offer, Offers, Part, Pid, Pids, PortNo, Prefix, Sig};
use registry::Registry;
use std::alloc::Global;

/// The community BLACKHOLE, 65535:666.
// RFC 7999
const BLACKHOLE: u32 = 4294902426;

/// Whether a route's traffic is to be discarded.
fn is_hole(attrs: &Attrs) -> bool
    ensures { result ≡ is_hole attrs.now }
{
    attrs
        .communities
        .items()
        .iter()
        .any(|community| BLACKHOLE == *community)
}

/// The port that has an address.
fn port_with(names: &Registry, ip: Ip) -> PortNo
    ensures { result ≡ port_with names.now.ports ip }
{
    match names.port_with(ip) {
        Some(port) => port.number,
        None => PortNo(0),
    }
}

/// Whom a participant's outbound policy names.
pub fn names_at(named: &[Pids], who: Pid) -> &[Pid]
    ensures { result.now ≡ names_at named.now who.0 }
{
    match named.get(who.0 as usize) {
        Some(own) => own.items(),
        None => &[],
    }
}

/// Whether a participant is named.
pub fn is_named(named: &[Pid], who: Pid) -> bool
    ensures { result ≡ list_any (λ (other : Pid). nat_eq other.0 who.0) named.now }
{
    named.iter().any(|other| other.0 == who.0)
}

/// Whether an exporter is the best one or is named.
fn counts(named: &[Pid], chosen: Pid, who: Pid) -> bool
    ensures { result ≡ counts named.now chosen who }
{
    who.0 == chosen.0 || is_named(named, who)
}

/// Whether a route is given to a sender and counts for it, whose policy names these.
pub fn is_offered(
    terms: Terms<'_>,
    named: &[Pid],
    held: &Held,
    to: Pid,
    chosen: Pid,
    prefix: Prefix,
) -> bool
    requires { named.now ≡ names_at terms.named.now to.0 }
    ensures { result ≡ (counts (names_at terms.entry.named.now to.0) chosen held.now.from && is_given (settled_by terms.entry) held.now.from to prefix held.now.attrs) }
{
    counts(named, chosen, held.from) && is_given(terms, held, to, prefix)
}

/// What a route offers: the port of its next hop, and whether what is sent there is discarded.
fn offer_of(terms: Terms<'_>, held: &Held) -> Offer
    ensures { result ≡ offer (settled_by terms.entry) (held_by (settled_by terms.entry) held.now) }
{
    let attrs = held.attrs.get();
    Offer {
        exporter: held.from,
        port: port_with(terms.names, attrs.next_hop),
        hole: is_hole(attrs),
    }
}

/// What each route of a row offers.
pub fn all_offers(alloc: Global, terms: Terms<'_>, row: &[Held]) -> Result<Vec<Offer>, Memory>
    ensures { IfOk result (λ offers. offers.items ≡ offers_by_row (settled_by terms.entry) row.now) }
{
    let mut offers = Vec::with_capacity(alloc, row.len())?;
    for held in row {
        offers.push(offer_of(terms, held))?;
    }
    Ok(offers)
}

/// What the best exporter and those that the sender names offer to it, of all that the row's routes offer.
fn offers_in(
    alloc: Global,
    terms: Terms<'_>,
    row: &[Held],
    all: &[Offer],
    to: Pid,
    chosen: Pid,
    prefix: Prefix,
) -> Result<Offers, Memory>
    requires { all.now ≡ offers_by_row (settled_by terms) row.now }
    ensures { IfOk result (λ offers. offers ≡ map (offer (settled_by terms.entry)) (counted (settled_by terms.entry) to chosen (offered (settled_by terms.entry) to prefix row.now))) }
{
    let named = names_at(terms.named, to);
    // Mostly there is one.
    let mut offers = Offers::from_vec(Vec::with_capacity(alloc, 1)?);
    for (place, held) in row.iter().enumerate() {
        if is_offered(terms, named, held, to, chosen, prefix) {
            offers.push(all[place])?;
        }
    }
    Ok(offers)
}

/// A sender's part, where it has a best route, from the place of that one.
fn part_in(
    alloc: Global,
    terms: Terms<'_>,
    row: &[Held],
    all: &[Offer],
    to: Pid,
    prefix: Prefix,
    place: Option<usize>,
) -> Result<Option<Part>, Memory>
    requires offers { all.now ≡ offers_by_row (settled_by terms) row.now }
    requires best { option_and_then (held_at (settled_by terms) row.now) place ≡ best_of (offered (settled_by terms) to prefix row.now) }
    ensures { IfOk result (λ part. part ≡ part_of (settled_by terms.entry) to (offered (settled_by terms.entry) to prefix row.now)) }
{
    match held_in(row, place) {
        None => Ok(None),
        Some(held) => {
            let best = held.from;
            let offers = offers_in(alloc, terms, row, all, to, best, prefix)?;
            Ok(Some(Part {
                sender: to,
                best,
                offers,
            }))
        }
    }
}

/// The signature of a prefix that has this row, of which each participant's best route is at these places, by what all routes
/// of the row offer.
fn signature_by(
    alloc: Global,
    terms: Terms<'_>,
    row: &[Held],
    all: &[Offer],
    prefix: Prefix,
    places: &[Option<usize>],
) -> Result<Sig, Memory>
    requires offers { all.now ≡ offers_by_row (settled_by terms) row.now }
    requires chosen { AreChosen (settled_by terms) prefix row.now places.now }
    ensures { IfOk result (λ sig. sig ≡ signature_of (settled_by terms.entry) prefix row.now) }
{
    let count = terms.names.participants().len() as u32;
    let mut sig = Sig::from_vec(Vec::with_capacity(alloc, count as usize)?);
    for number in 0..count {
        let to = Pid(number);
        let place = place_of(places, to);
        let part = part_in(alloc, terms, row, all, to, prefix, place)?;
        match part {
            Some(own) => {
                sig.push(own)?;
            }
            None => {}
        }
    }
    Ok(sig)
}

/// The signature of a prefix that has this row, of which each participant's best route is at these places.
pub fn signature_in(
    alloc: Global,
    terms: Terms<'_>,
    row: &[Held],
    prefix: Prefix,
    places: &[Option<usize>],
) -> Result<Sig, Memory>
    requires { AreChosen (settled_by terms) prefix row.now places.now }
    ensures { IfOk result (λ sig. sig ≡ signature_of (settled_by terms.entry) prefix row.now) }
{
    if let [only] = row {
        let one = [offer_of(terms, only)];
        return signature_by(alloc, terms, row, one.as_slice(), prefix, places);
    }
    let all = all_offers(alloc, terms, row)?;
    signature_by(alloc, terms, row, all.as_slice(), prefix, places)
}
