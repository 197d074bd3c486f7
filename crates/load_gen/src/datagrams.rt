//! The datagrams of generated lines.

ghost use Rattle.std.specs.Prelude.{◌≡◌, ◌++◌, flat_map, OnOk, IfOk};
ghost use Rattle.load_gen.specs.Generated.{datagram, header_checksum};
ghost use Rattle.net_types.specs.Octets.{word};

use net_types::Memory;
use std::alloc::Global;

/// The checksum of the header of a datagram to 10.0.0.1; each network further on it is one less.
const CHECKSUM: u16 = 0xAECF;

fn header_checksum(network: u8) -> u16
    ensures { result ≡ header_checksum network }
{
    CHECKSUM - u16::from(network)
}

/// Writes words in two octets each, the high octet first.
fn octets_of(alloc: Global, words: &[u16]) -> Result<Vec<u8>, Memory>
    ensures { IfOk result (λ octets. octets.items ≡ flat_map word words.now) }
{
    let mut octets = Vec::new(alloc);
    for word in words {
        octets.push((*word / 256) as u8)?;
        octets.push((*word % 256) as u8)?;
    }
    Ok(octets)
}

/// An empty UDP datagram without checksum from 192.0.2.1 and port 1000 to 10.q.0.1 and a port.
pub fn datagram(alloc: Global, network: u8, port: u16) -> Result<Vec<u8>, Memory>
    ensures { IfOk result (λ octets. octets.items ≡ datagram network port) }
{
    let words = [
        0x4500,
        28,
        0,
        0,
        0x4011,
        header_checksum(network),
        0xC000,
        0x0201,
        0x0A00 + u16::from(network),
        1,
        1000,
        port,
        8,
        0,
    ];
    octets_of(alloc, words.as_slice())
}
