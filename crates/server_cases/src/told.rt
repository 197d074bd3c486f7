//! Answers as short texts.

ghost use Rattle.std.specs.Prelude.{◌<◌, length};
ghost use Rattle.route_server.specs.Served.{AreDeclared};

use crate::said::prefix;
use crate::wrong::Wrong;
use net_types::{Attrs, Memory, Pid, Prefix, Sig};
use registry::Registry;
use route_server::{Proposal, RouteFault, RouteServer};
use std::alloc::{AllocError, Global};

fn letter(who: Pid) -> &'static str {
    match who.0 {
        0 => "A",
        1 => "B",
        2 => "C",
        _ => "?",
    }
}

/// The first octets of prefixes, as `10 20 `.
pub fn prefixes(alloc: Global, prefixes: &[Prefix]) -> Result<String, AllocError> {
    let mut text = String::new(alloc);
    for prefix in prefixes {
        let first = prefix.address.0.to_be_bytes()[0];
        text.push_str(format!(in alloc; "{first} ")?.as_str())?;
    }
    Ok(text)
}

/// A signature behind an earlier text, as `A by B of B2; B by C of C4 hole; `.
pub fn push_signature(alloc: Global, text: &mut String, sig: &Sig) -> Result<(), AllocError> {
    for part in sig.items() {
        text.push_str(letter(part.sender))?;
        text.push_str(" by ")?;
        text.push_str(letter(part.best))?;
        text.push_str(" of")?;
        for offer in part.offers.items() {
            let port = offer.port.0;
            text.push_str(" ")?;
            text.push_str(letter(offer.exporter))?;
            text.push_str(format!(in alloc; "{port}")?.as_str())?;
            if offer.hole {
                text.push_str(" hole")?;
            }
        }
        text.push_str("; ")?;
    }
    Ok(())
}

/// The touched prefixes of a proposal, and the signature of the first one afterwards.
pub fn proposed(alloc: Global, proposal: &Proposal) -> Result<String, AllocError> {
    let touched = proposal.touched();
    let mut text = prefixes(alloc, touched)?;
    if !touched.is_empty() {
        push_signature(alloc, &mut text, proposal.sig(0))?;
    }
    Ok(text)
}

/// The last octet of a next hop.
fn hop(attrs: &Attrs) -> u8 {
    attrs.next_hop.0.to_be_bytes()[3]
}

fn best_hop(server: &RouteServer, names: &Registry, who: Pid, prefix: Prefix) -> Option<u8>
    requires { AreDeclared names.now server.now.routes }
{
    match server.best_for(names, who, prefix) {
        Some(attrs) => Some(hop(attrs)),
        None => None,
    }
}

/// The next hop of a participant's best route for 10.0.0.0/8, and for how many prefixes it has a best route.
pub fn bests(
    alloc: Global,
    server: &RouteServer,
    names: &Registry,
    who: Pid,
) -> Result<String, Wrong>
    requires { AreDeclared names.now server.now.routes }
{
    let all = server.bests(names, who)?.len();
    match best_hop(server, names, who, prefix(10)?) {
        Some(hop) => Ok(format!(in alloc; "by {hop}, of {all}")?),
        None => Ok(format!(in alloc; "none, of {all}")?),
    }
}

pub fn fault(alloc: Global, why: RouteFault) -> Result<String, Wrong> {
    match why {
        RouteFault::FirstAs => Ok(String::from_str(alloc, "first AS")?),
        RouteFault::NextHop => Ok(String::from_str(alloc, "next hop")?),
        RouteFault::Oversize => Ok(String::from_str(alloc, "oversize")?),
        RouteFault::Memory => Err(Wrong::Memory),
    }
}
