//! Where the parts of a frame stand, in octets from its start (RFC 791 3.1).

ghost use Rattle.std.specs.Prelude.{◌≡◌, ◌+◌, ◌≤◌, length, IsTrue, Some, None, IfSome, slice_index, if◌then◌else◌};
ghost use Rattle.ip_frame.specs.Places.{IsPlaced};
ghost use Rattle.net_types.specs.Frames.{ip_end, ip_total, has_headers, has_ports};

use crate::words::word;

pub(crate) const SOURCE: usize = 26;

pub(crate) const DESTINATION: usize = 30;

pub(crate) const CHECKSUM: usize = 24;

pub(crate) const PROTOCOL: usize = 23;

pub(crate) const TCP: u8 = 6;

const UDP: u8 = 17;

/// Where the IPv4 header ends.
fn header_end(frame: &[u8]) -> usize
    requires { 15 ≤ length frame.now }
    ensures { result ≡ ip_end frame.now }
{
    14 + 4 * usize::from(frame[14] % 16)
}

/// Where the datagram ends by its total length.
fn total_end(frame: &[u8]) -> usize
    requires { 18 ≤ length frame.now }
    ensures { result ≡ 14 + ip_total frame.now }
{
    14 + usize::from(word(frame, 16))
}

/// Whether a whole IPv4 datagram stands in the frame, with or without octets behind it. Its checksum isn't looked at.
pub(crate) fn has_headers(frame: &[u8]) -> bool
    ensures { result ≡ has_headers frame.now }
{
    if frame.len() < 34 {
        return false;
    }
    word(frame, 12) == 0x0800
        && frame[14] / 16 == 4
        && frame[14] % 16 >= 5
        && header_end(frame) <= total_end(frame)
        && total_end(frame) <= frame.len()
}

/// Where the ports stand: in a first fragment, with at least a whole header of TCP (RFC 9293 3.1) or UDP (RFC 768) in the
/// total length.
pub(crate) fn ports_at(frame: &[u8]) -> Option<usize>
    requires { IsTrue (has_headers frame.now) }
    ensures value { result ≡ (if has_ports frame.now then Some (ip_end frame.now) else None) }
    ensures placed { IfSome result (λ at. IsPlaced (slice_index frame.now 23) (length frame.now) at) }
{
    let start = header_end(frame);
    let least = match frame[PROTOCOL] {
        TCP => 20,
        UDP => 8,
        _ => return None,
    };
    if word(frame, 20) % 8192 == 0 && start + least <= total_end(frame) {
        Some(start)
    } else {
        None
    }
}
