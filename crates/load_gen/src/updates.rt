//! The updates of generated lines.

ghost use Rattle.std.specs.Prelude.{◌≡◌, ◌≤◌, ◌∷◌, replicate, IfOk};
ghost use Rattle.load_gen.specs.Generated.{announcing, asn_of, attrs_of, network_prefix, path_of, router_of, withdrawing};
ghost use Rattle.net_types.specs.Updates.{canonical};

use bgp_update::{announcement, single_messages_are_canonical, withdrawal};
use net_types::{Asns, Attrs, Bytes, Ip, Items, Memory, Prefix, Segment, Segments};
use std::alloc::Global;

/// The AS that paths go on with.
const BEHIND: u32 = 64512;

/// 10.q.0.0/16.
fn network_prefix(network: u8) -> Prefix
    ensures { result ≡ network_prefix network }
{
    Prefix {
        address: Ip(0x0A00_0000 + 65536 * u32::from(network)),
        len: 16,
    }
}

/// 172.16.128.k.
fn router_of(k: u8) -> Ip
    ensures { result ≡ router_of k }
{
    Ip(0xAC10_8000 + u32::from(k))
}

/// The number of a participant's AS, and then so often that of another one.
fn asns(alloc: Global, k: u8, more: u8) -> Result<Asns, Memory>
    ensures { IfOk result (λ asns. asns ≡ asn_of k ∷ replicate more 64512) }
{
    let mut asns = vec![in alloc; BEHIND; usize::from(more) + 1]?;
    asns[0] = 65000 + u32::from(k);
    Ok(Items::from_vec(asns))
}

fn path_of(alloc: Global, k: u8, more: u8) -> Result<Segments, Memory>
    ensures { IfOk result (λ path. path ≡ path_of k more) }
{
    let mut path = Items::new(alloc);
    path.push(Segment::Sequence(asns(alloc, k, more)?))?;
    Ok(path)
}

/// What a participant says of a route with a path of so many more numbers.
fn attrs_of(alloc: Global, k: u8, more: u8) -> Result<Attrs, Memory>
    ensures { IfOk result (λ attrs. attrs ≡ attrs_of k more) }
{
    Ok(Attrs {
        origin: 0,
        path: path_of(alloc, k, more)?,
        next_hop: router_of(k),
        med: None,
        atomic: false,
        aggregator: None,
        communities: Items::new(alloc),
        communities_partial: false,
        unknown: Items::new(alloc),
    })
}

/// The canonical message of a participant that announces a network.
pub fn announcing(alloc: Global, k: u8, network: u8, more: u8) -> Result<Bytes, Memory>
    ensures { IfOk result (λ octets. octets ≡ canonical (announcing k network more)) }
{
    single_messages_are_canonical();
    let attrs = attrs_of(alloc, k, more)?;
    announcement(alloc, network_prefix(network), &attrs, router_of(k))
}

/// The canonical message that withdraws a network.
pub fn withdrawing(alloc: Global, network: u8) -> Result<Bytes, Memory>
    ensures { IfOk result (λ octets. octets ≡ canonical (withdrawing network)) }
{
    single_messages_are_canonical();
    withdrawal(alloc, network_prefix(network))
}
