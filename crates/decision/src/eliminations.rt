//! By what routes are eliminated, step by step (RFC 4271 9.1.2.2).
//!
//! As the standard says: the steps a, b, c, f and g in this order, each over what the one before left.
//! Here: every route is learned from a neighbouring AS, and all next hops are as near, so that d and e decide nothing.

ghost use Rattle.std.specs.Prelude.{◌≡◌, ◌&&◌, ◌||◌, nat_eq, nat_lt, unwrap_or};
ghost use Rattle.decision.specs.Passes.{is_ahead, is_even, precedes, beats};

use crate::candidate::Candidate;

// RFC 4271 9.1.2.2 a
fn has_fewer_hops(route: &Candidate, other: &Candidate) -> bool
    ensures { result ≡ nat_lt route.now.hops other.now.hops }
{
    route.hops < other.hops
}

// RFC 4271 9.1.2.2 b
fn has_lower_origin(route: &Candidate, other: &Candidate) -> bool
    ensures { result ≡ nat_lt route.now.origin other.now.origin }
{
    route.origin < other.origin
}

/// Of the same AS, and with a lower discriminator; an absent one counts as 0.
// RFC 4271 9.1.2.2 c
pub fn has_lower_discriminator(route: &Candidate, other: &Candidate) -> bool
    ensures { result ≡ beats route.now other.now }
{
    route.asn == other.asn && route.med.unwrap_or(0) < other.med.unwrap_or(0)
}

// RFC 4271 9.1.2.2 f
fn has_lower_identifier(route: &Candidate, other: &Candidate) -> bool
    ensures { result ≡ nat_lt route.now.id.0 other.now.id.0 }
{
    route.id.0 < other.id.0
}

// RFC 4271 9.1.2.2 g
fn has_lower_address(route: &Candidate, other: &Candidate) -> bool
    ensures { result ≡ nat_lt route.now.peer.0 other.now.peer.0 }
{
    route.peer.0 < other.peer.0
}

/// Left where the other one goes by the steps a and b.
pub fn is_ahead(route: &Candidate, other: &Candidate) -> bool
    ensures { result ≡ is_ahead route.now other.now }
{
    if route.hops == other.hops {
        has_lower_origin(route, other)
    } else {
        has_fewer_hops(route, other)
    }
}

/// Neither goes by the steps a and b where the other is left.
pub fn is_even(route: &Candidate, other: &Candidate) -> bool
    ensures { result ≡ is_even route.now other.now }
{
    route.hops == other.hops && route.origin == other.origin
}

/// Left where the other one goes by the steps f and g.
pub fn precedes(route: &Candidate, other: &Candidate) -> bool
    ensures { result ≡ precedes route.now other.now }
{
    if route.id.0 == other.id.0 {
        has_lower_address(route, other)
    } else {
        has_lower_identifier(route, other)
    }
}
