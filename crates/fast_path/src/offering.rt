//! What becomes present of the touched prefixes: each participant's best attributes with the prefix's tag.

ghost use Rattle.std.specs.Prelude.{◌≡◌, ℕ, ◌≤◌, ◌<◌, ◌++◌, ◌∷◌, [], length, option_copied, slice_index, IfOk, OnOk};
ghost use Rattle.advert_queue.specs.Advertised.{HasQueue};
ghost use Rattle.fast_path.specs.Offers.{AreTo, HaveRoom, Present, advert_of, adverts_of, adverts_to, best_at, declared_pids, AreBelow, all_taken, entry_of, offered_all, place_taken};
ghost use Rattle.fast_path.specs.Demands.{greater, is_above, place_for};

use crate::planned::Advert;
use advert_queue::Adverts;
use events::{Entry, TagChange};
use net_types::{Memory, Pid, Prefix, SharedAttrs, Tag, TryCopy};
use registry::Registry;
use route_server::Proposal;
use std::alloc::Global;

/// The attributes with the tag, where there are both. The entry is a further owner of the attributes.
fn entry_of(best: Option<&SharedAttrs>, tag: Option<Tag>) -> Result<Option<Entry>, Memory>
    ensures { IfOk result (λ entry. entry ≡ entry_of (option_copied best.entry) tag) }
{
    let Some(best) = best else {
        return Ok(None);
    };
    let Some(tag) = tag else {
        return Ok(None);
    };
    let attrs = best.copy()?;
    Ok(Some(Entry { attrs, tag }))
}

/// Puts what a participant is offered of the prefix at a place last.
fn offer(
    proposal: &Proposal,
    at: usize,
    after: TagChange,
    who: Pid,
    offers: &mut Vec<Advert>,
) -> Result<(), Memory>
    requires { at < length proposal.now.touched }
    ensures { OnOk result (offers.new.items ≡ offers.old.items ++ advert_of (best_at proposal.now at) after who ∷ []) }
{
    let entry = entry_of(proposal.best_shared(at, who), after.tag)?;
    offers.push(Advert {
        who,
        prefix: after.prefix,
        entry,
    })?;
    Ok(())
}

/// Puts what a participant is offered of the touched prefixes last, in their order.
fn offer_each(
    proposal: &Proposal,
    tagged: &[TagChange],
    who: Pid,
    offers: &mut Vec<Advert>,
) -> Result<(), Memory>
    requires { length tagged.now ≤ length proposal.now.touched }
    ensures { OnOk result (offers.new.items ≡ offers.old.items ++ adverts_to proposal.now who 0 tagged.now) }
{
    for (at, &after) in tagged.iter().enumerate() {
        offer(proposal, at, after, who, offers)?;
    }
    Ok(())
}

/// What the participants are offered of the touched prefixes, one after the other, by the tags that the prefixes have
/// afterwards.
pub fn offers_of(
    alloc: Global,
    names: &Registry,
    proposal: &Proposal,
    tagged: &[TagChange],
) -> Result<Vec<Advert>, Memory>
    requires { length tagged.now ≤ length proposal.now.touched }
    ensures { IfOk result (λ offers. offers.items ≡ adverts_of proposal.now (declared_pids names.now) tagged.now) }
{
    let count = names.participants().len() as u32;
    let mut offers = Vec::with_capacity(alloc, tagged.len().saturating_mul(count as usize))?;
    for number in 0..count {
        offer_each(proposal, tagged, Pid(number), &mut offers)?;
    }
    Ok(offers)
}

/// Whether a participant with a prefix comes after the greatest of those before it: by participant, and then by prefix.
fn is_above(greatest: Option<(Pid, Prefix)>, who: Pid, prefix: Prefix) -> bool
    ensures { result ≡ is_above greatest who prefix }
{
    match greatest {
        None => true,
        Some((other, least)) => {
            let prefixes = least.cmp(&prefix);
            other.0.cmp(&who.0).then(prefixes).is_lt()
        }
    }
}

/// The greater one of these: a participant with a prefix, and the greatest of those before it.
fn greater(greatest: Option<(Pid, Prefix)>, who: Pid, prefix: Prefix) -> Option<(Pid, Prefix)>
    ensures { result ≡ greater greatest who prefix }
{
    if is_above(greatest, who, prefix) {
        Some((who, prefix))
    } else {
        greatest
    }
}

/// How many places an offer may need: none where something is pending at its prefix now, and the offer rises above all before
/// it, so that it is pending still when its turn comes.
fn place_for(adverts: &Adverts, greatest: Option<(Pid, Prefix)>, offer: &Advert) -> usize
    requires { HasQueue adverts.now offer.now.who }
    ensures { result ≡ place_for adverts.now.told adverts.now.present greatest offer.now }
{
    let is_above = is_above(greatest, offer.who, offer.prefix);
    if is_above && adverts.is_pending(offer.who, offer.prefix) {
        0
    } else {
        1
    }
}

/// How many offers there are for each participant, which need no more places.
fn places_by_count(
    alloc: Global,
    participants: usize,
    offers: &[Advert],
) -> Result<Vec<usize>, Memory>
    requires { AreTo participants offers.now }
    ensures length { IfOk result (λ places. length places.items ≡ participants) }
    ensures places { IfOk result (λ places. (told present : Present) (n : ℕ) → all_taken (place_taken told) present offers.now n ≤ slice_index places.items n) }
{
    let mut places = Vec::from_elem(alloc, 0, participants)?;
    for offer in offers {
        places[offer.who.0 as usize] += 1;
    }
    Ok(places)
}

/// How many places offers may need for each participant, at most, by what is pending now.
fn places_by_pending(
    alloc: Global,
    adverts: &Adverts,
    offers: &[Advert],
) -> Result<Vec<usize>, Memory>
    requires { AreTo (length adverts.now.told) offers.now }
    ensures length { IfOk result (λ places. length places.items ≡ length adverts.now.told) }
    ensures places { IfOk result (λ places. (n : ℕ) → all_taken (place_taken adverts.now.told) adverts.now.present offers.now n ≤ slice_index places.items n) }
{
    let mut places = Vec::from_elem(alloc, 0, adverts.len())?;
    let mut greatest = None;
    for offer in offers {
        places[offer.who.0 as usize] += place_for(adverts, greatest, offer);
        greatest = greater(greatest, offer.who, offer.prefix);
    }
    Ok(places)
}

/// How many places offers may need for each participant, at most. What is pending is looked for only where there are more
/// offers than participants: of a single prefix, a place for each costs less.
fn places_for(alloc: Global, adverts: &Adverts, offers: &[Advert]) -> Result<Vec<usize>, Memory>
    requires { AreTo (length adverts.now.told) offers.now }
    ensures length { IfOk result (λ places. length places.items ≡ length adverts.now.told) }
    ensures places { IfOk result (λ places. (n : ℕ) → all_taken (place_taken adverts.now.told) adverts.now.present offers.now n ≤ slice_index places.items n) }
{
    let participants = adverts.len();
    if offers.len() <= participants {
        places_by_count(alloc, participants, offers)
    } else {
        places_by_pending(alloc, adverts, offers)
    }
}

/// A number above those of all tags that are offered.
fn above_all(offers: &[Advert]) -> usize
    ensures { AreBelow result offers.now }
{
    let mut most = 0;
    for offer in offers {
        if let Some(entry) = &offer.entry {
            most = most.max(entry.tag.0 as usize + 1);
        }
    }
    most
}

/// Makes room for offers to those that are declared, and changes nothing else.
pub fn reserve_all(
    alloc: Global,
    names: &Registry,
    adverts: &mut Adverts,
    offers: &[Advert],
) -> Result<(), Memory>
    requires declared { length names.now.participants ≡ length adverts.old.told }
    requires known { AreTo (length adverts.old.told) offers.now }
    ensures told { adverts.new.told ≡ adverts.old.told }
    ensures present { adverts.new.present ≡ adverts.old.present }
    ensures room { OnOk result (HaveRoom adverts.new offers.now) }
{
    let places = places_for(alloc, adverts, offers)?;
    let tags = above_all(offers);
    for number in 0..names.participants().len() as u32 {
        let at = number as usize;
        adverts.reserve(Pid(number), places[at], tags)?;
    }
    Ok(())
}

/// Offers all of these, in their order. It takes no memory.
pub fn offer_all(adverts: &mut Adverts, offers: Vec<Advert>)
    requires known { AreTo (length adverts.old.told) offers.items }
    requires room { HaveRoom adverts.old offers.items }
    ensures told { adverts.new.told ≡ adverts.old.told }
    ensures present { adverts.new.present ≡ offered_all adverts.old.present offers.items }
{
    for offer in offers {
        let Advert { who, prefix, entry } = offer;
        adverts.offer(who, prefix, entry);
    }
}
