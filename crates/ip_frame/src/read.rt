//! Reads the headers of a frame.

ghost use Rattle.std.specs.Prelude.{◌≡◌};
ghost use Rattle.net_types.specs.Frames.{headers_of};

use crate::layout::{DESTINATION, PROTOCOL, SOURCE, has_headers, ports_at};
use crate::words::{address, word};
use net_types::{Headers, PortNo};

/// The headers of a frame that comes in at a port, with srcport and dstport where the frame has them. None exactly where
/// no whole IPv4 datagram stands in the frame (RFC 791 3.1); octets behind its total length may. Takes no memory.
pub fn headers(port: PortNo, frame: &[u8]) -> Option<Headers>
    ensures { result ≡ headers_of port frame.now }
{
    if !has_headers(frame) {
        return None;
    }
    let (sport, dport) = match ports_at(frame) {
        Some(at) => (Some(word(frame, at)), Some(word(frame, at + 2))),
        None => (None, None),
    };
    Some(Headers {
        inport: port,
        src: address(frame, SOURCE),
        dst: address(frame, DESTINATION),
        proto: frame[PROTOCOL],
        sport,
        dport,
    })
}
