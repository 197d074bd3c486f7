//! The ARP responder, which tells the MACs of the tags' addresses (RFC 826).

ghost use Rattle.std.specs.Prelude.{◌≡◌, ◌≤◌, ◌+◌, ◌-◌, IfOk, All, map};
ghost use Rattle.exchange_core.specs.Resolved.{exchange_for, mac_at, pool_request, reply_to};

use crate::pool_range::is_in_pool;
use arp_frame::{ArpRequest, read_request, reply, request};
use events::{Exchange, Exchanges};
use net_types::{Bytes, Ip, Items, Mac, Memory, PortInfo, Tag};
use next_hop_pool::vmac;
use std::alloc::Global;

/// The request that a frame is, where it asks for an address of the pool.
pub fn pool_request(base: Ip, size: u32, frame: &[u8]) -> Option<ArpRequest>
    ensures { result ≡ pool_request base size frame.now }
{
    let asked = read_request(frame)?;
    if is_in_pool(base, size, asked.target) {
        Some(asked)
    } else {
        None
    }
}

/// The reply to a request for an address of the pool.
pub fn answer(alloc: Global, base: Ip, asked: &ArpRequest) -> Result<Bytes, Memory>
    requires above { base.0 ≤ asked.now.target.0 }
    requires within { asked.now.target.0 ≤ base.0 + 65536 }
    ensures { IfOk result (λ octets. octets ≡ reply_to base asked.now) }
{
    octets(alloc, reply(asked, mac_at(base, asked.target)))
}

/// The router at a port asks for each of the addresses, and the responder replies.
pub fn exchanges(alloc: Global, base: Ip, port: &PortInfo, ips: &[Ip]) -> Result<Exchanges, Memory>
    requires { All (λ ip. (base.0 ≤ ip.0) × (ip.0 ≤ base.0 + 65536)) ips.now }
    ensures { IfOk result (λ exchanges. exchanges ≡ map (exchange_for base port.now) ips.now) }
{
    let mut exchanges = Items::new(alloc);
    for ip in ips {
        exchanges.push(exchange(alloc, base, port, *ip)?)?;
    }
    Ok(exchanges)
}

fn exchange(alloc: Global, base: Ip, port: &PortInfo, ip: Ip) -> Result<Exchange, Memory>
    requires above { base.0 ≤ ip.0 }
    requires within { ip.0 ≤ base.0 + 65536 }
    ensures { IfOk result (λ exchange. exchange ≡ exchange_for base port.now ip) }
{
    let asking = ArpRequest {
        mac: port.mac,
        ip: port.ip,
        target: ip,
    };
    Ok(Exchange {
        request: Some(octets(alloc, request(port.mac, port.ip, ip))?),
        reply: answer(alloc, base, &asking)?,
    })
}

/// The MAC of the tag that an address of the pool stands for.
fn mac_at(base: Ip, ip: Ip) -> Mac
    requires above { base.0 ≤ ip.0 }
    requires within { ip.0 ≤ base.0 + 65536 }
    ensures { result ≡ mac_at base ip }
{
    vmac(Tag(ip.0 - base.0))
}

fn octets(alloc: Global, frame: [u8; 42]) -> Result<Bytes, Memory>
    ensures { IfOk result (λ octets. octets ≡ frame) }
{
    Ok(Items::from_vec(Vec::from_slice(alloc, &frame)?))
}
