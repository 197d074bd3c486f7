//! Addresses among octets.

ghost use Rattle.std.specs.Prelude.{◌≡◌, ◌+◌, ◌≤◌, length, take, drop};
ghost use Rattle.net_types.specs.Octets.{address_at};

use net_types::{Ip, Mac};

/// The address in four octets at a place.
pub(crate) fn address(octets: &[u8], at: usize) -> Ip
    requires { at + 4 ≤ length octets.now }
    ensures { result ≡ address_at at octets.now }
{
    Ip(u32::from_be_bytes([octets[at], octets[at + 1], octets[at + 2], octets[at + 3]]))
}

/// The hardware address in six octets at a place.
pub(crate) fn mac(octets: &[u8], at: usize) -> Mac
    requires { at + 6 ≤ length octets.now }
    ensures { result.0 ≡ take 6 (drop at octets.now) }
{
    let mut mac = [0; 6];
    mac.copy_from_slice(&octets[at..at + 6]);
    Mac(mac)
}
