//! Whether a signature is that of a row, which isn't made for it.

ghost use Rattle.std.specs.Prelude.{◌≡◌, ◌&&◌, false, map, slice_get};
ghost use Rattle.std.specs.Cmp.Lexicographic.{pointwise};
ghost use Rattle.std.specs.Option.{option_and_then, option_map_or};
ghost use Rattle.net_types.specs.Attributes.{same_offer, same_part, same_signature};
ghost use Rattle.net_types.specs.Routes.{best_of};
ghost use Rattle.net_types.specs.Signatures.{offer};
ghost use Rattle.net_types.specs.declared.route.Offer.{Offer};
ghost use Rattle.net_types.specs.declared.route.Part.{Part};
ghost use Rattle.route_server.specs.Choices.{offers_by_row, AreChosen};
ghost use Rattle.route_server.specs.Rows.{settled_by, offered, counted, signature_of};

use crate::choices::{held_in, place_of};
use crate::held::Held;
use crate::signature::{is_offered, names_at};
use crate::terms::Terms;
use net_types::{Offer, Part, Pid, Prefix, Same};

/// Whether this offer is at a place.
fn has_offer(offers: &[Offer], at: usize, own: Offer) -> bool
    ensures { result ≡ option_map_or (λ (x : Offer). same_offer x own) (slice_get offers.now at) false }
{
    match offers.get(at) {
        Some(other) => other.same(&own),
        None => false,
    }
}

/// Whether these are the offers to a sender, of all that the row's routes offer.
fn are_offers(
    terms: Terms<'_>,
    row: &[Held],
    all: &[Offer],
    to: Pid,
    chosen: Pid,
    prefix: Prefix,
    offers: &[Offer],
) -> bool
    requires { all.now ≡ offers_by_row (settled_by terms) row.now }
    ensures { result ≡ pointwise same_offer offers.now (map (offer (settled_by terms.entry)) (counted (settled_by terms.entry) to chosen (offered (settled_by terms.entry) to prefix row.now))) }
{
    let named = names_at(terms.named, to);
    let mut next = 0;
    for (place, held) in row.iter().enumerate() {
        if is_offered(terms, named, held, to, chosen, prefix) {
            if !has_offer(offers, next, all[place]) {
                return false;
            }
            next += 1;
        }
    }
    offers.len() <= next
}

/// Whether the part at a place is that of a sender, whose best exporter is this one.
fn has_part(
    terms: Terms<'_>,
    row: &[Held],
    all: &[Offer],
    to: Pid,
    chosen: Pid,
    prefix: Prefix,
    parts: &[Part],
    at: usize,
) -> bool
    requires { all.now ≡ offers_by_row (settled_by terms) row.now }
    ensures { result ≡ option_map_or (λ (x : Part). same_part x (record { sender = to; best = chosen; offers = map (offer (settled_by terms.entry)) (counted (settled_by terms.entry) to chosen (offered (settled_by terms.entry) to prefix row.now)) })) (slice_get parts.now at) false }
{
    match parts.get(at) {
        Some(part) => {
            part.sender.0 == to.0
                && (part.best.0 == chosen.0
                    && are_offers(terms, row, all, to, chosen, prefix, part.offers.items()))
        }
        None => false,
    }
}

/// Whether these are the parts of the signature of a prefix that has this row, of which each participant's best route is at
/// these places.
pub fn is_signature(
    terms: Terms<'_>,
    row: &[Held],
    all: &[Offer],
    prefix: Prefix,
    places: &[Option<usize>],
    parts: &[Part],
) -> bool
    requires offers { all.now ≡ offers_by_row (settled_by terms) row.now }
    requires chosen { AreChosen (settled_by terms) prefix row.now places.now }
    ensures { result ≡ same_signature parts.now (signature_of (settled_by terms.entry) prefix row.now) }
{
    let mut next = 0;
    let count = terms.names.participants().len() as u32;
    for number in 0..count {
        let to = Pid(number);
        let place = place_of(places, to);
        match held_in(row, place) {
            Some(held) => {
                if !has_part(terms, row, all, to, held.from, prefix, parts, next) {
                    return false;
                }
                next += 1;
            }
            None => {}
        }
    }
    parts.len() <= next
}
