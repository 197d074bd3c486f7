//! Writes requests and replies (RFC 826).

ghost use Rattle.std.specs.Prelude.{◌≡◌, ◌++◌};
ghost use Rattle.net_types.specs.Arp.{arp_reply, arp_request};
ghost use Rattle.net_types.specs.Octets.{address_octets};

use crate::read::ArpRequest;
use crate::writer::Writer;
use net_types::{Ip, Mac};

/// EtherType 0x0806, Ethernet, IPv4, the lengths of their addresses, and the operation.
pub(crate) const REQUEST: [u8; 10] = [8, 6, 0, 1, 8, 0, 6, 4, 0, 1];

const REPLY: [u8; 10] = [8, 6, 0, 1, 8, 0, 6, 4, 0, 2];

const BROADCAST: Mac = Mac([255; 6]);

/// The hardware address that a request doesn't know yet.
const UNKNOWN: Mac = Mac([0; 6]);

/// A station's hardware and protocol address.
#[derive(Clone, Copy)]
struct Station {
    mac: Mac,
    ip: Ip,
}

/// A frame from the sender's MAC: the Ethernet header, and then the packet's fields in order (RFC 826, "Packet format").
fn packet(to: Mac, head: &[u8; 10], sender: Station, target: Station) -> [u8; 42]
    ensures { result ≡ to.0 ++ sender.mac.0 ++ head.now
        ++ sender.mac.0 ++ address_octets sender.ip
        ++ target.mac.0 ++ address_octets target.ip }
{
    Writer::new()
        .put(&to.0)
        .put(&sender.mac.0)
        .put(head)
        .put(&sender.mac.0)
        .put(&sender.ip.0.to_be_bytes())
        .put(&target.mac.0)
        .put(&target.ip.0.to_be_bytes())
        .finish()
}

/// The reply to who asked, that the address asked for is at this MAC. Takes no memory.
pub fn reply(request: &ArpRequest, mac: Mac) -> [u8; 42]
    ensures { result ≡ arp_reply request.now.mac request.now.ip request.now.target mac }
{
    let sender = Station {
        mac,
        ip: request.target,
    };
    let target = Station {
        mac: request.mac,
        ip: request.ip,
    };
    packet(request.mac, &REPLY, sender, target)
}

/// The request to all stations, by who has this MAC and this address, for the MAC of a target. Takes no memory.
pub fn request(mac: Mac, ip: Ip, target: Ip) -> [u8; 42]
    ensures { result ≡ arp_request mac ip target }
{
    let sender = Station { mac, ip };
    let target = Station {
        mac: UNKNOWN,
        ip: target,
    };
    packet(BROADCAST, &REQUEST, sender, target)
}
