//! The best route of a list, in two passes and without memory.
//!
//! The discriminators give the routes no order: each is compared within its own AS. So a route is asked against the whole
//! list whether it is beaten, and not against the best one so far. The routes that stay are ordered by the other steps.

ghost use Rattle.std.specs.Prelude.{◌≡◌, ◌<◌, ◌&&◌, not, [], List, map, length, IfSome, None, slice_get, ◌↔◌};
ghost use Rattle.std.specs.List.{list_any};
ghost use Rattle.std.specs.Option.{option_and_then};
ghost use Rattle.net_types.specs.Routes as definition;
ghost use Rattle.decision.specs.Passes.{beats, best_place, is_even, is_kept, lead_of, would_lead};
ghost use Rattle.decision.specs.Seen.{seen};

use crate::candidate::Candidate;
use crate::eliminations::{has_lower_discriminator, is_ahead, is_even, precedes};

/// The first of the routes with the fewest hops and then the lowest origin.
fn lead_of(first: Candidate, routes: &[Candidate]) -> Candidate
    ensures { result ≡ lead_of first routes.now }
{
    let mut lead = first;
    for route in routes {
        if is_ahead(route, &lead) {
            lead = *route;
        }
    }
    lead
}

/// Whether a route that is even with the lead beats this one.
fn is_beaten(routes: &[Candidate], lead: &Candidate, route: &Candidate) -> bool
    ensures { result ≡ list_any (λ d. is_even d lead.now && beats d route.now) routes.now }
{
    routes.iter().any(|other| is_even(other, lead) && has_lower_discriminator(other, route))
}

/// Whether the route precedes the winner so far.
fn would_lead(routes: &[Candidate], winner: Option<usize>, route: &Candidate) -> bool
    requires { IfSome winner (λ i. i < length routes.now) }
    ensures { result ≡ would_lead route.now (option_and_then (slice_get routes.now) winner) }
{
    match winner {
        None => true,
        Some(place) => precedes(route, &routes[place]),
    }
}

/// Whether the route is left by the steps a, b and c, and precedes the winner so far.
fn wins(routes: &[Candidate], lead: &Candidate, winner: Option<usize>, route: &Candidate) -> bool
    requires { IfSome winner (λ i. i < length routes.now) }
    ensures { result ≡ (is_kept lead.now routes.now route.now && would_lead route.now (option_and_then (slice_get routes.now) winner)) }
{
    is_even(route, lead) && would_lead(routes, winner, route) && !is_beaten(routes, lead, route)
}

/// The place of the first of those that are left and precede all others that are left.
fn winner_of(routes: &[Candidate]) -> Option<usize>
    ensures best { result ≡ best_place routes.now }
    ensures within { IfSome result (λ i. i < length routes.now) }
    ensures none { (result ≡ None) ↔ (routes.now ≡ []) }
{
    let first = *routes.first()?;
    let lead = lead_of(first, routes);
    let mut winner = None;
    for (place, route) in routes.iter().enumerate() {
        if wins(routes, &lead, winner, route) {
            winner = Some(place);
        }
    }
    winner
}

/// The place of the best of the routes: the one that is left when the five eliminations have passed over them, in their
/// order. Where two are alike in everything, it is the first. It takes no memory.
pub fn best(routes: &[Candidate]) -> Option<usize>
    ensures best { (cs : List definition.Candidate) → map seen cs ≡ routes.now → definition.best_of cs ≡ option_and_then (slice_get cs) result }
    ensures within { IfSome result (λ i. i < length routes.now) }
    ensures none { (result ≡ None) ↔ (routes.now ≡ []) }
{
    winner_of(routes)
}
