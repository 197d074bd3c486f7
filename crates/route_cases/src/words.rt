//! Words and numbers of a question.

use net_types::{Ip, Memory};
use std::alloc::Global;

/// The first word, and what stands behind it.
pub fn first_word(text: &str) -> (&str, &str) {
    text.split_once(' ').unwrap_or((text, ""))
}

/// The numbers between spaces and dots; what is no number is 0.
pub fn numbers(alloc: Global, text: &str) -> Result<Vec<u32>, Memory> {
    let mut numbers = Vec::new(alloc);
    for word in text.split(' ') {
        for part in word.split('.') {
            numbers.push(part.parse().unwrap_or(0))?;
        }
    }
    Ok(numbers)
}

/// The last octet of a number.
pub fn octet(number: u32) -> u8 {
    (number % 256) as u8
}

/// The address of four numbers.
pub fn address(a: u32, b: u32, c: u32, d: u32) -> Ip {
    Ip(u32::from_be_bytes([octet(a), octet(b), octet(c), octet(d)]))
}

/// A yes or a no.
pub fn yes_or_no(alloc: Global, yes: bool) -> Result<String, Memory> {
    Ok(String::from_str(alloc, if yes { "yes" } else { "no" })?)
}

/// What is said of a question that can't be asked.
pub fn no_question(alloc: Global) -> Result<String, Memory> {
    Ok(String::from_str(alloc, "no question")?)
}
