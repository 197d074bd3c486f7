//! Reads requests (RFC 826).

ghost use Rattle.std.specs.Prelude.{◌≡◌, ◌+◌, ◌≤◌, length, take, drop};
ghost use Rattle.net_types.specs.Arp.{is_arp_request};
ghost use Rattle.net_types.specs.Octets.{address_at};
ghost use Rattle.arp_frame.specs.Requests.{request_of};

use crate::write::REQUEST;
use net_types::{Ip, Mac};

/// Who asks, by hardware and protocol address, and the address that is asked for.
#[derive(Clone, Copy, Debug, PartialEq, Eq)]
pub struct ArpRequest {
    pub mac: Mac,
    pub ip: Ip,
    pub target: Ip,
}

/// Octets 12 to 21 tell the kind of packet (RFC 826, "Packet format").
fn is_request(frame: &[u8]) -> bool
    ensures { result ≡ is_arp_request frame.now }
{
    frame.len() >= 42 && frame[12..].starts_with(&REQUEST)
}

fn mac(frame: &[u8], at: usize) -> Mac
    requires { at + 6 ≤ length frame.now }
    ensures { result.0 ≡ take 6 (drop at frame.now) }
{
    let mut octets = [0; 6];
    octets.copy_from_slice(&frame[at..at + 6]);
    Mac(octets)
}

fn address(frame: &[u8], at: usize) -> Ip
    requires { at + 4 ≤ length frame.now }
    ensures { result ≡ address_at at frame.now }
{
    Ip(u32::from_be_bytes([frame[at], frame[at + 1], frame[at + 2], frame[at + 3]]))
}

/// The request that a frame is. None exactly where it is no request: it has fewer than 42 octets, or octets 12 to 21
/// are not those of a request. The frame's two MACs and what stands behind the 42 octets don't count. Takes no memory.
pub fn read_request(frame: &[u8]) -> Option<ArpRequest>
    ensures { result ≡ request_of frame.now }
{
    if !is_request(frame) {
        return None;
    }
    Some(ArpRequest {
        mac: mac(frame, 22),
        ip: address(frame, 28),
        target: address(frame, 38),
    })
}
