//! Each participant's best route in a row, by its place.
//!
//! What the choice sees of a route is the same for all participants, and so is found once a row. Participants, one after
//! another, to whom the same routes are given share the decision.

ghost use Rattle.std.specs.Prelude.{◌≡◌, ◌∷◌, [], List, slice_get, IfOk, OnOk};
ghost use Rattle.std.specs.List.{filter_map};
ghost use Rattle.std.specs.Option.{option_and_then, option_copied, option_map};
ghost use Rattle.net_types.specs.Exports.{Routing};
ghost use Rattle.net_types.specs.Routes.{best_of};
ghost use Rattle.route_server.specs.Choices.{seen_by, AreAt, IsBestAt, AreChosen};
ghost use Rattle.route_server.specs.Rows.{held_by, held_at, offered, settled_by};
ghost use Rattle.route_server.specs.declared.held.Held.{Held};

use crate::held::Held;
use crate::rows::{asn_of, is_given, is_given_in, seen_of};
use crate::terms::Terms;
use decision::{Candidate, best};
use net_types::{Memory, Pid, Prefix};
use std::alloc::Global;
use std::mem;

/// The places of the routes that were given last, and of the best of them, and room for the next ones.
#[derive(Drop)]
struct Desk {
    given: Vec<usize>,
    earlier: Vec<usize>,
    choice: Option<usize>,
    looks: Vec<Candidate>,
}

/// What the choice sees of each route of a row.
fn seen_in(alloc: Global, terms: Terms<'_>, row: &[Held]) -> Result<Vec<Candidate>, Memory>
    ensures { IfOk result (λ seen. seen.items ≡ seen_by (settled_by terms.entry) row.now) }
{
    let mut seen = Vec::with_capacity(alloc, row.len())?;
    for held in row {
        seen.push(seen_of(terms, held))?;
    }
    Ok(seen)
}

/// Puts the places of the routes that are given to a participant into a list.
fn give(
    terms: Terms<'_>,
    row: &[Held],
    to: Pid,
    prefix: Prefix,
    given: &mut Vec<usize>,
) -> Result<(), Memory>
    ensures { OnOk result (AreAt (settled_by terms.entry) row.now given.new.items (offered (settled_by terms.entry) to prefix row.now)) }
{
    given.clear();
    let asn = asn_of(terms.names, to);
    for (place, held) in row.iter().enumerate() {
        if is_given_in(terms, held, to, asn, prefix) {
            given.push(place)?;
        }
    }
    Ok(())
}

fn sight_at(seen: &[Candidate], place: usize) -> Option<Candidate>
    ensures { result ≡ slice_get seen.now place }
{
    seen.get(place).copied()
}

fn place_at(given: &[usize], chosen: usize) -> Option<usize>
    ensures { result ≡ slice_get given.now chosen }
{
    given.get(chosen).copied()
}

/// Puts what the choice sees at these places into a list.
fn look(seen: &[Candidate], given: &[usize], looks: &mut Vec<Candidate>) -> Result<(), Memory>
    ensures { OnOk result (looks.new.items ≡ filter_map (slice_get seen.now) given.now) }
{
    looks.clear();
    for place in given {
        match sight_at(seen, *place) {
            Some(own) => {
                looks.push(own)?;
            }
            None => {}
        }
    }
    Ok(())
}

/// The place of the best of the routes at these places.
fn best_at(
    seen: &[Candidate],
    given: &[usize],
    looks: &mut Vec<Candidate>,
) -> Result<Option<usize>, Memory>
    ensures { IfOk result (λ choice. (r : Routing) (row : List Held) → seen.now ≡ seen_by r row → IsBestAt r row given.now choice) }
{
    look(seen, given, looks)?;
    match best(looks.as_slice()) {
        Some(chosen) => Ok(place_at(given, chosen)),
        None => Ok(None),
    }
}

/// The place of a participant's best route. Where the routes are given to it that were given last, it is decided.
fn choose(
    terms: Terms<'_>,
    row: &[Held],
    to: Pid,
    prefix: Prefix,
    seen: &[Candidate],
    desk: &mut Desk,
) -> Result<Option<usize>, Memory>
    requires seen { seen.now ≡ seen_by (settled_by terms) row.now }
    requires known { IsBestAt (settled_by terms) row.now desk.old.earlier.items desk.old.choice }
    ensures known { OnOk result (IsBestAt (settled_by terms.entry) row.now desk.new.earlier.items desk.new.choice) }
    ensures best { IfOk result (λ place. option_and_then (held_at (settled_by terms.entry) row.now) place ≡ best_of (offered (settled_by terms.entry) to prefix row.now)) }
{
    give(terms, row, to, prefix, &mut desk.given)?;
    if desk.given.as_slice() != desk.earlier.as_slice() {
        desk.choice = best_at(seen, desk.given.as_slice(), &mut desk.looks)?;
        mem::swap(&mut desk.given, &mut desk.earlier);
    }
    Ok(desk.choice)
}

/// The place of each participant's best route in a row of several.
fn chosen_among(
    alloc: Global,
    terms: Terms<'_>,
    row: &[Held],
    prefix: Prefix,
) -> Result<Vec<Option<usize>>, Memory>
    ensures { IfOk result (λ places. AreChosen (settled_by terms.entry) prefix row.now places.items) }
{
    let seen = seen_in(alloc, terms, row)?;
    let mut desk = Desk {
        given: Vec::new(alloc),
        earlier: Vec::new(alloc),
        choice: None,
        looks: Vec::new(alloc),
    };
    let count = terms.names.participants().len() as u32;
    let mut places = Vec::with_capacity(alloc, count as usize)?;
    for number in 0..count {
        let place = choose(terms, row, Pid(number), prefix, seen.as_slice(), &mut desk)?;
        places.push(place)?;
    }
    Ok(places)
}

/// The place of a participant's best route in a row of this one.
fn place_alone(terms: Terms<'_>, only: &Held, to: Pid, prefix: Prefix) -> Option<usize>
    ensures { option_and_then (held_at (settled_by terms.entry) (only.now ∷ [])) result ≡ best_of (offered (settled_by terms.entry) to prefix (only.now ∷ [])) }
{
    if is_given(terms, only, to, prefix) {
        Some(0)
    } else {
        None
    }
}

/// The place of each participant's best route in a row of this one: it is the best where it is given.
fn chosen_alone(
    alloc: Global,
    terms: Terms<'_>,
    only: &Held,
    prefix: Prefix,
) -> Result<Vec<Option<usize>>, Memory>
    ensures { IfOk result (λ places. AreChosen (settled_by terms.entry) prefix (only.now ∷ []) places.items) }
{
    let count = terms.names.participants().len() as u32;
    let mut places = Vec::with_capacity(alloc, count as usize)?;
    for number in 0..count {
        places.push(place_alone(terms, only, Pid(number), prefix))?;
    }
    Ok(places)
}

/// The place of each participant's best route in a row.
pub fn chosen_in(
    alloc: Global,
    terms: Terms<'_>,
    row: &[Held],
    prefix: Prefix,
) -> Result<Vec<Option<usize>>, Memory>
    ensures { IfOk result (λ places. AreChosen (settled_by terms.entry) prefix row.now places.items) }
{
    match row {
        [only] => chosen_alone(alloc, terms, only, prefix),
        _ => chosen_among(alloc, terms, row, prefix),
    }
}

/// A participant's place, where there is one.
pub fn place_of(places: &[Option<usize>], who: Pid) -> Option<usize>
    ensures { result ≡ option_and_then (λ o. o) (slice_get places.now who.0) }
{
    match places.get(who.0 as usize) {
        Some(place) => *place,
        None => None,
    }
}

/// The route at a place, where there is one.
pub fn held_in(row: &[Held], place: Option<usize>) -> Option<&Held>
    ensures held { option_copied result ≡ option_and_then (slice_get row.now) place }
    ensures route { (r : Routing) → option_map (held_by r) (option_copied result) ≡ option_and_then (held_at r row.now) place }
{
    match place {
        Some(place) => row.get(place),
        None => None,
    }
}
