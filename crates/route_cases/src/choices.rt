//! Choices by the standard's steps.

use crate::words::{numbers, octet};
use decision::{Candidate, best};
use net_types::{Ip, Memory};
use std::alloc::Global;

/// A route: its hops, its ORIGIN, its AS, its identifier and its peer's address, and its discriminator where it has one.
fn candidate(numbers: &[u32]) -> Option<Candidate> {
    match numbers {
        [hops, origin, asn, id, peer, rest @ ..] => Some(Candidate {
            hops: *hops,
            origin: octet(*origin),
            asn: *asn,
            med: rest.first().copied(),
            id: Ip(*id),
            peer: Ip(*peer),
        }),
        _ => None,
    }
}

/// The place of the best of these routes.
pub fn best_of(alloc: Global, text: &str) -> Result<String, Memory> {
    let mut routes = Vec::new(alloc);
    for part in text.split("; ") {
        if let Some(route) = candidate(numbers(alloc, part)?.as_slice()) {
            routes.push(route)?;
        }
    }
    match best(routes.as_slice()) {
        Some(place) => Ok(format!(in alloc; "{place}")?),
        None => Ok(String::from_str(alloc, "none")?),
    }
}
