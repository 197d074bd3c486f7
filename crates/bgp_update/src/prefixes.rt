//! Prefixes of a message, and those that another list doesn't have.

ghost use Rattle.std.specs.Prelude.{◌≡◌, ◌<◌, length, IfOk};
ghost use Rattle.net_types.specs.UpdateSpelling.{IsOrderedWithout, is_before};
ghost use Rattle.net_types.specs.Sets.{IsRising};
ghost use Rattle.bgp_update.specs.Answers.{Gives, is_among};
ghost use Rattle.net_types.specs.UpdateReading.{read_prefix, read_prefixes};

use crate::fault::UpdateFault;
use crate::octets::{octet, octets, padded};
use net_types::{Fault, Ip, Prefix, ascending};
use std::alloc::Global;

#[tactic(auto, unfolding(net_types::specs::UpdateReading::read_prefix))]
fn prefix(rest: &[u8]) -> Result<(Prefix, &[u8]), UpdateFault>
    ensures reads { Gives (λ x. (x.0, x.1.now)) result (read_prefix rest.now) }
    ensures left { IfOk result (λ x. length x.1.now < length rest.now) }
{
    let (len, rest) = octet(rest, Fault::Network)?;
    let (bits, rest) = octets((len as usize + 7) / 8, rest, Fault::Network)?;
    match Prefix::new(Ip(padded(bits)), len) {
        Ok(prefix) => Ok((prefix, rest)),
        Err(_) => Err(UpdateFault::Bad(Fault::Network)),
    }
}

/// The prefixes of a block.
pub fn prefixes(alloc: Global, block: &[u8]) -> Result<Vec<Prefix>, UpdateFault>
    ensures { Gives (λ v. v.items) result (read_prefixes block.now) }
{
    let mut all = Vec::new(alloc);
    let mut left = block;
    while !left.is_empty() {
        let (item, after) = prefix(left)?;
        all.push(item)?;
        left = after;
    }
    Ok(all)
}

/// Whether an ascending list has the prefix.
fn is_among(prefix: Prefix, list: &[Prefix]) -> bool
    ensures { IsRising is_before list.now → result ≡ is_among prefix list.now }
{
    list.binary_search(&prefix).is_ok()
}

/// The prefixes that aren't announced, ascending, each once.
pub fn without(list: Vec<Prefix>, announced: &[Prefix]) -> Vec<Prefix>
    requires { IsRising is_before announced.now }
    ensures { IsOrderedWithout result.items list.items announced.now }
{
    let mut kept = ascending(list);
    kept.retain(|prefix| !is_among(*prefix, announced));
    kept
}
