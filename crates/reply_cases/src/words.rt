//! Words and numbers of a question.

use net_types::{Bytes, Ip, Memory, Prefix};
use std::alloc::Global;

/// The first word, and what stands behind it.
pub fn first_word(text: &str) -> (&str, &str) {
    text.split_once(' ').unwrap_or((text, ""))
}

/// The numbers between spaces and dots; what is no number is 0.
pub fn numbers(alloc: Global, text: &str) -> Result<Vec<u64>, Memory> {
    let mut numbers = Vec::new(alloc);
    for word in text.split(' ') {
        for part in word.split('.') {
            numbers.push(part.parse().unwrap_or(0))?;
        }
    }
    Ok(numbers)
}

/// The last 32 bits of a number.
pub fn small(number: u64) -> u32 {
    (number % 0x1_0000_0000) as u32
}

/// The last 16 bits of a number.
pub fn port(number: u64) -> u16 {
    (number % 0x1_0000) as u16
}

fn octet(number: u64) -> u8 {
    (number % 256) as u8
}

/// The address of four numbers.
pub fn address(numbers: [u64; 4]) -> Ip {
    Ip(u32::from_be_bytes(numbers.map(octet)))
}

/// The address of a word `A.B.C.D`; none of another.
pub fn some_address(alloc: Global, word: &str) -> Result<Option<Ip>, Memory> {
    match numbers(alloc, word)?.as_slice() {
        [a, b, c, d] => Ok(Some(address([*a, *b, *c, *d]))),
        _ => Ok(None),
    }
}

/// The prefix of a word `A.B.C.D/LEN`; all addresses of another.
pub fn prefix(alloc: Global, word: &str) -> Result<Prefix, Memory> {
    let (address, len) = word.split_once('/').unwrap_or((word, ""));
    let ip = some_address(alloc, address)?.unwrap_or(Ip(0));
    match Prefix::new(ip, len.parse().unwrap_or(0)) {
        Ok(prefix) => Ok(prefix),
        Err(_) => Ok(Prefix::any()),
    }
}

/// The octets of hexadecimal digits; none where they are something else.
pub fn octets(alloc: Global, digits: &str) -> Result<Bytes, Memory> {
    match hex::decode(alloc, digits.as_bytes()) {
        Ok(octets) => Ok(Bytes::from_vec(octets)),
        Err(_) => Ok(Bytes::new(alloc)),
    }
}
