//! Octets as hexadecimal digits.

use net_types::{Mac, Memory};
use std::alloc::Global;

/// The octets of a text of hexadecimal digits, spaces and markers; none where it is something else.
pub fn octets(alloc: Global, text: &str) -> Result<Vec<u8>, Memory> {
    let mut digits = Vec::new(alloc);
    for octet in text.as_bytes() {
        if *octet == b'M' {
            digits.extend_from_slice([b'f'; 32].as_slice())?;
        } else if *octet != b' ' {
            digits.push(*octet)?;
        }
    }
    match hex::decode(alloc, digits.as_slice()) {
        Ok(octets) => Ok(octets),
        Err(_) => Ok(Vec::new(alloc)),
    }
}

/// The octets as digits.
pub fn digits(alloc: Global, octets: &[u8]) -> Result<String, Memory> {
    Ok(hex::encode(alloc, octets)?)
}

/// The hardware address of six octets.
pub fn mac(octets: &[u8]) -> Option<Mac> {
    match octets {
        [a, b, c, d, e, f] => Some(Mac([*a, *b, *c, *d, *e, *f])),
        _ => None,
    }
}
