//! Words, numbers, participants and octets of a question.

use crate::wrong::Wrong;
use net_types::{Memory, Pid};
use std::alloc::Global;

/// The first word, and what stands behind it.
pub fn first_word(text: &str) -> (&str, &str) {
    text.split_once(' ').unwrap_or((text, ""))
}

/// The number that a word is.
fn number(word: &str) -> Result<u32, Wrong> {
    match word.parse() {
        Ok(number) => Ok(number),
        Err(_) => Err(Wrong::Row),
    }
}

/// The number that the first word is, and what stands behind it.
pub fn first_number(text: &str) -> Result<(u32, &str), Wrong> {
    let (word, rest) = first_word(text);
    Ok((number(word)?, rest))
}

/// The participant of a letter.
pub fn who(word: &str) -> Result<Pid, Wrong> {
    match word {
        "A" => Ok(Pid(0)),
        "B" => Ok(Pid(1)),
        "C" => Ok(Pid(2)),
        _ => Err(Wrong::Row),
    }
}

/// The octets of a text of hexadecimal digits, spaces and markers; none where it is something else.
pub fn octets(alloc: Global, text: &str) -> Result<Vec<u8>, Memory> {
    let mut digits = Vec::new(alloc);
    for octet in text.as_bytes() {
        if *octet == b'M' {
            digits.extend_from_slice([b'f'; 32].as_slice())?;
        } else if *octet != b' ' {
            digits.push(*octet)?;
        }
    }
    match hex::decode(alloc, digits.as_slice()) {
        Ok(octets) => Ok(octets),
        Err(_) => Ok(Vec::new(alloc)),
    }
}
