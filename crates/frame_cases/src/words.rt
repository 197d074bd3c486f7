//! Words, numbers and addresses of a question.

use net_types::{Ip, Memory, Prefix};
use std::alloc::Global;

/// The first word, and what stands behind it.
pub fn first_word(text: &str) -> (&str, &str) {
    text.split_once(' ').unwrap_or((text, ""))
}

/// The numbers between spaces and dots; what is no number is 0.
pub fn numbers(alloc: Global, text: &str) -> Result<Vec<u32>, Memory> {
    let mut numbers = Vec::new(alloc);
    for word in text.split(' ') {
        for part in word.split('.') {
            numbers.push(part.parse().unwrap_or(0))?;
        }
    }
    Ok(numbers)
}

/// The last octet of a number.
pub fn octet(number: u32) -> u8 {
    (number % 256) as u8
}

/// The address of four numbers.
pub fn address(numbers: [u32; 4]) -> Ip {
    Ip(u32::from_be_bytes(numbers.map(octet)))
}

/// The prefix of four numbers and a length.
pub fn prefix(numbers: [u32; 4], len: u32) -> Option<Prefix> {
    Prefix::new(address(numbers), octet(len)).ok()
}

/// Puts an address behind a text.
pub fn push_address(text: &mut String, ip: Ip) -> Result<(), Memory> {
    let [a, b, c, d] = ip.0.to_be_bytes();
    write!(text, "{a}.{b}.{c}.{d}")?;
    Ok(())
}

/// Puts each prefix behind a text.
pub fn push_prefixes(text: &mut String, prefixes: &[Prefix]) -> Result<(), Memory> {
    for prefix in prefixes {
        text.push_str(" ")?;
        push_address(text, prefix.address)?;
        let len = prefix.len;
        write!(text, "/{len}")?;
    }
    Ok(())
}

/// What is said of a question that can't be asked.
pub fn no_question(alloc: Global) -> Result<String, Memory> {
    Ok(String::from_str(alloc, "no question")?)
}
