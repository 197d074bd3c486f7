//! Whom the results of a sender's rule go to.

ghost use Rattle.std.specs.Prelude.{◌≡◌};
ghost use Rattle.net_types.specs.Answers.{is_offered};
ghost use Rattle.block_build.specs.Offers.{is_for, stays, has_one_for, has_one_left, goes_to};

use net_types::{Assign, Loc, Offer, Pid};

/// Whether a participant stands in the offers.
fn is_offered(offers: &[Offer], who: Pid) -> bool
    ensures { result ≡ is_offered offers.now who }
{
    for offer in offers {
        if offer.exporter.0 == who.0 {
            return true;
        }
    }
    false
}

/// Whether a result goes to a participant, with the best one.
fn is_for(best: Pid, who: Pid, loc: Loc) -> bool
    ensures { result ≡ is_for best who loc }
{
    match loc {
        Loc::Stay => best.0 == who.0,
        Loc::To(other) => other.0 == who.0,
        Loc::Out(_) | Loc::Nowhere => false,
    }
}

/// Whether a result isn't taken out.
fn stays(offers: &[Offer], loc: Loc) -> bool
    ensures { result ≡ stays offers.now loc }
{
    match loc {
        Loc::Stay | Loc::Nowhere => true,
        Loc::To(other) => is_offered(offers, other),
        Loc::Out(_) => false,
    }
}

/// Whether one of the results goes to a participant.
fn has_one_for(best: Pid, who: Pid, items: &[(Assign, Loc)]) -> bool
    ensures { result ≡ has_one_for best who items.now }
{
    for pair in items {
        if is_for(best, who, pair.1) {
            return true;
        }
    }
    false
}

/// The same, with the results from a place on looked at first.
fn has_one_from(place: usize, best: Pid, who: Pid, items: &[(Assign, Loc)]) -> bool
    ensures { result ≡ has_one_for best who items.now }
{
    let (front, back) = items.split_at(place.min(items.len()));
    if has_one_for(best, who, back) {
        return true;
    }
    has_one_for(best, who, front)
}

/// Whether one of the results isn't taken out.
pub(crate) fn has_one_left(offers: &[Offer], items: &[(Assign, Loc)]) -> bool
    ensures { result ≡ has_one_left offers.now items.now }
{
    for pair in items {
        if stays(offers, pair.1) {
            return true;
        }
    }
    false
}

/// Whether the results send a packet to a participant in the offers, which has this place among them: to the best one where none
/// is left. Results often stand in the order of the offers.
pub(crate) fn goes_to(
    left: bool,
    best: Pid,
    items: &[(Assign, Loc)],
    who: Pid,
    place: usize,
) -> bool
    ensures { result ≡ goes_to left best items.now who }
{
    if left {
        has_one_from(place, best, who, items)
    } else {
        best.0 == who.0
    }
}
