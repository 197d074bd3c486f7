//! The routes for one prefix: which are given to a participant, and which of these is its best.

ghost use Rattle.std.specs.Prelude.{◌≡◌, ◌≤◌, ◌<◌, length, nat_eq, IfSome, []};
ghost use Rattle.std.specs.List.{list_any};
ghost use Rattle.std.specs.Option.{option_and_then, option_map, option_copied};
ghost use Rattle.net_types.specs.Exports.{is_in_path, is_given, asn_of};
ghost use Rattle.net_types.specs.Routes.{best_of, candidate};
ghost use Rattle.net_types.specs.Routes as definition;
ghost use Rattle.decision.specs.Seen.{seen};
ghost use Rattle.route_server.specs.Rows.{ruled, settled_by, offered, held_at};

use crate::held::Held;
use crate::rules::allowed;
use crate::terms::Terms;
use decision::{Candidate, best};
use net_types::{Attrs, Ip, Pid, Prefix, Segment};
use registry::Registry;

/// How many participants there are at most.
pub const MOST: usize = 256;

/// What stands in the array where there is no route.
const NOTHING: Candidate = Candidate {
    hops: 0,
    origin: 0,
    asn: 0,
    med: None,
    id: Ip(0),
    peer: Ip(0),
};

fn stands_in(asn: u32, asns: &[u32]) -> bool
    ensures { result ≡ list_any (nat_eq asn) asns.now }
{
    asns.iter().any(|other| asn == *other)
}

fn is_in_path(asn: u32, path: &[Segment]) -> bool
    ensures { result ≡ is_in_path asn path.now }
{
    path.iter().any(|segment| stands_in(asn, segment.asns()))
}

/// The AS of a participant; 0 where it is not declared.
pub fn asn_of(names: &Registry, who: Pid) -> u32
    ensures { result ≡ asn_of (ruled names.now []) who }
{
    match names.participant(who) {
        Some(participant) => participant.asn,
        None => 0,
    }
}

/// What the choice looks at.
pub fn seen_of(terms: Terms<'_>, held: &Held) -> Candidate
    ensures { result ≡ seen (candidate (settled_by terms.entry) held.now.from held.now.attrs) }
{
    let (asn, id) = match terms.names.participant(held.from) {
        Some(participant) => (participant.asn, participant.id),
        None => (0, Ip(0)),
    };
    let peer = match terms.names.first_port(held.from) {
        Some(port) => port.ip,
        None => Ip(0),
    };
    let attrs = held.attrs.get();
    Candidate {
        hops: held.hops,
        origin: attrs.origin,
        asn,
        med: attrs.med,
        id,
        peer,
    }
}

/// Whether a route is given to a participant, whose AS is this one.
pub fn is_given_in(terms: Terms<'_>, held: &Held, to: Pid, asn: u32, prefix: Prefix) -> bool
    requires { asn ≡ asn_of (ruled terms.names.now []) to }
    ensures { result ≡ is_given (settled_by terms.entry) held.now.from to prefix held.now.attrs }
{
    held.from.0 != to.0
        && !is_in_path(asn, held.attrs.get().path.items())
        && allowed(terms.rules, held.from, to, prefix)
}

/// Whether a route is given to a participant.
pub fn is_given(terms: Terms<'_>, held: &Held, to: Pid, prefix: Prefix) -> bool
    ensures { result ≡ is_given (settled_by terms.entry) held.now.from to prefix held.now.attrs }
{
    is_given_in(terms, held, to, asn_of(terms.names, to), prefix)
}

/// The place of the best of a row's routes that are given to a participant. It takes no memory: what the choice looks at
/// is put into an array that is as long as a row can be.
pub fn best_in(terms: Terms<'_>, row: &[Held], to: Pid, prefix: Prefix) -> Option<usize>
    requires short { length row.now ≤ 256 }
    ensures best { option_and_then (held_at (settled_by terms.entry) row.now) result ≡ best_of (offered (settled_by terms.entry) to prefix row.now) }
    ensures within { IfSome result (λ i. i < length row.now) }
{
    let mut seen = [NOTHING; MOST];
    let mut places = [0; MOST];
    let mut count = 0;
    for (place, held) in row.iter().enumerate() {
        if is_given(terms, held, to, prefix) {
            seen[count] = seen_of(terms, held);
            places[count] = place;
            count += 1;
        }
    }
    let chosen = best(&seen[..count])?;
    Some(places[chosen])
}

/// The attributes of the best of a row's routes that are given to a participant.
pub fn best_attrs_in<'a>(
    terms: Terms<'_>,
    row: &'a [Held],
    to: Pid,
    prefix: Prefix,
) -> Option<&'a Attrs>
    requires short { length row.now ≤ 256 }
    ensures { option_copied result ≡ option_map (λ (c : definition.Candidate). c.attrs) (best_of (offered (settled_by terms.entry) to prefix row.now)) }
{
    let place = best_in(terms, row, to, prefix)?;
    Some(row[place].attrs.get())
}
