//! The next hops that a router was told and hasn't resolved.

ghost use Rattle.std.specs.Prelude.{◌≡◌, ◌≤◌, IfOk, All};
ghost use Rattle.exchange_core.specs.Resolved.{missing_hops};

use crate::address_set::AddressSet;
use net_types::{Ip, Memory, Tag};
use std::alloc::Global;

/// The addresses of the tags that a router was told, without those that it has resolved; they ascend as the tags do.
pub fn missing_hops(
    alloc: Global,
    base: Ip,
    resolved: &AddressSet,
    tags: &[Tag],
) -> Result<Vec<Ip>, Memory>
    requires low { base.0 ≤ 3758096383 }
    requires small { All (λ t. t.0 ≤ 65536) tags.now }
    ensures { IfOk result (λ ips. ips.items ≡ missing_hops base resolved.now tags.now) }
{
    let mut ips = Vec::new(alloc);
    for tag in tags {
        let ip = Ip(base.0 + tag.0);
        if !resolved.contains(ip) {
            ips.push(ip)?;
        }
    }
    Ok(ips)
}
