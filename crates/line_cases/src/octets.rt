//! Octets as text: those that can't be seen are a backslash and two hexadecimal digits.

use net_types::Memory;
use std::alloc::Global;

/// The value of a hexadecimal digit; 0 of another octet.
fn digit(octet: u8) -> u8 {
    char::from(octet).to_digit(16).unwrap_or(0) as u8
}

/// The octets that a text stands for.
fn unescaped(alloc: Global, text: &str) -> Result<Vec<u8>, Memory> {
    let mut octets = Vec::new(alloc);
    for (place, part) in text.split('\\').enumerate() {
        match part.as_bytes() {
            [high, low, rest @ ..] if place > 0 => {
                octets.push(digit(*high).wrapping_mul(16).wrapping_add(digit(*low)))?;
                octets.extend_from_slice(rest)?;
            }
            plain => octets.extend_from_slice(plain)?,
        }
    }
    Ok(octets)
}

/// The line of a row: the octets of a text, the last of them as often as a number behind a tab says.
pub fn line_of(alloc: Global, text: &str) -> Result<Vec<u8>, Memory> {
    match text.split_once('\t') {
        None => unescaped(alloc, text),
        Some((front, times)) => {
            let mut line = unescaped(alloc, front)?;
            repeat_last(&mut line, times.parse().unwrap_or(1))?;
            Ok(line)
        }
    }
}

/// The last octet comes to stand so often.
fn repeat_last(octets: &mut Vec<u8>, times: u16) -> Result<(), Memory> {
    if let Some(last) = octets.as_slice().last().copied() {
        for _ in 1..times {
            octets.push(last)?;
        }
    }
    Ok(())
}

/// The octets as such a text behind an earlier one.
pub fn push_escaped(text: &mut String, octets: &[u8]) -> Result<(), Memory> {
    for octet in octets {
        if (32..127).contains(octet) && *octet != b'\\' {
            text.push(char::from(*octet))?;
        } else {
            write!(text, "\\{octet:02x}")?;
        }
    }
    Ok(())
}

/// All octets in hexadecimal digits; how many there are, where these are over a hundred.
pub fn push_hex(text: &mut String, octets: &[u8]) -> Result<(), Memory> {
    let count = octets.len();
    if count > 100 {
        write!(text, "{count} octets")?;
        return Ok(());
    }
    for octet in octets {
        write!(text, "{octet:02x}")?;
    }
    Ok(())
}
