//! What is asked for in a row: a pair, and the offers and policies that its rules come from.

use crate::fault::Fault;
use crate::policies::Policies;
use net_types::{Offer, Offers, Pair, Part, Pid, PortNo, Tag};
use registry::Registry;
use std::alloc::Global;

/// The port and the tag, and what stands behind them.
pub fn pair(text: &str) -> (Pair, &str) {
    let (port, rest) = text.split_once(' ').unwrap_or((text, ""));
    let (tag, rest) = rest.split_once(' ').unwrap_or((rest, ""));
    let pair = Pair {
        port: PortNo(port.parse().unwrap_or(0)),
        tag: Tag(tag.parse().unwrap_or(0)),
    };
    (pair, rest)
}

/// What A sends by, and the policies.
#[derive(Drop)]
pub struct Asked {
    pub part: Part,
    pub policies: Policies,
}

/// A name and a port, and maybe `hole`.
fn offer(names: &Registry, text: &str) -> Option<Offer> {
    let (name, rest) = text.split_once(' ').unwrap_or((text, ""));
    let (port, end) = rest.split_once(' ').unwrap_or((rest, ""));
    let exporter = names.find(name)?;
    let port = PortNo(port.parse().ok()?);
    let hole = end == "hole";
    Some(Offer {
        exporter,
        port,
        hole,
    })
}

/// Offers between commas. The first one is the best.
fn part(alloc: Global, names: &Registry, text: &str) -> Result<Part, Fault> {
    let mut offers = Offers::new(alloc);
    for word in text.split(", ") {
        match offer(names, word) {
            None => return Err(Fault::Offers),
            Some(offer) => offers.push(offer)?,
        }
    }
    match offers.items().first() {
        None => Err(Fault::Offers),
        Some(first) => {
            let best = first.exporter;
            let sender = Pid(0);
            Ok(Part {
                sender,
                best,
                offers,
            })
        }
    }
}

/// Offers, and then policies, each behind a semicolon. Policies that aren't given drop.
pub fn read(alloc: Global, names: &Registry, text: &str) -> Result<Asked, Fault> {
    let mut policies = Policies::new(alloc, names)?;
    let mut words = text.split("; ");
    let part = part(alloc, names, words.next().unwrap_or(""))?;
    for word in words {
        policies.set(alloc, names, word)?;
    }
    Ok(Asked { part, policies })
}
