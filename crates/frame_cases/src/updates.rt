//! What messages give: themselves as they are written again, or the word of their fault.

use crate::octets::{digits, octets};
use crate::words::{address, first_word, no_question, numbers, prefix};
use bgp_update::{UpdateFault, announcement, decode, encode, encoded_len, withdrawal};
use net_types::{Attrs, Memory, TryCopy, Update};
use std::alloc::Global;

fn written(alloc: Global, update: &Update) -> Result<String, Memory> {
    if encoded_len(update) > 4096 {
        return Ok(String::from_str(alloc, "too long")?);
    }
    digits(alloc, encode(alloc, update)?.as_slice())
}

/// The word of a fault.
pub fn fault(alloc: Global, why: UpdateFault) -> Result<String, Memory> {
    match why {
        UpdateFault::Bad(fault) => Ok(String::from_str(alloc, fault.row().word)?),
        UpdateFault::Memory => Err(Memory),
    }
}

fn told(alloc: Global, message: &[u8]) -> Result<String, Memory> {
    match decode(alloc, message) {
        Ok(update) => written(alloc, &update),
        Err(why) => fault(alloc, why),
    }
}

/// The message written again, or the word of its fault.
pub fn answer(alloc: Global, text: &str) -> Result<String, Memory> {
    told(alloc, octets(alloc, text)?.as_slice())
}

/// The same of a copy of what it says.
pub fn copied(alloc: Global, text: &str) -> Result<String, Memory> {
    match decode(alloc, octets(alloc, text)?.as_slice()) {
        Ok(update) => written(alloc, &update.copy()?),
        Err(why) => fault(alloc, why),
    }
}

/// `read`, or the word of its fault.
fn verdict(alloc: Global, message: &[u8]) -> Result<String, Memory> {
    match decode(alloc, message) {
        Ok(_) => Ok(String::from_str(alloc, "read")?),
        Err(why) => fault(alloc, why),
    }
}

/// In how many places two messages of one length differ.
fn places_apart(one: &[u8], other: &[u8]) -> usize {
    one.iter()
        .zip(other.iter())
        .filter(|(a, b)| **a != **b)
        .count()
}

/// What is said of a message and of one beside it, and how far they are apart.
pub fn beside(alloc: Global, text: &str) -> Result<String, Memory> {
    let (one, other) = text.split_once('|').unwrap_or((text, ""));
    let (one, other) = (octets(alloc, one)?, octets(alloc, other)?);
    if one.len() != other.len() {
        return Ok(String::from_str(alloc, "not of one length")?);
    }
    let apart = places_apart(one.as_slice(), other.as_slice());
    let (one, other) = (
        verdict(alloc, one.as_slice())?,
        verdict(alloc, other.as_slice())?,
    );
    Ok(format!(in alloc; "{one}; {other}; {apart} apart")?)
}

/// A message with one attribute, which has these flags.
fn with_flags(alloc: Global, flags: u8, number: u8, value: &[u8]) -> Result<Vec<u8>, Memory> {
    let lengthy = flags / 16 % 2 == 1;
    let block = if lengthy {
        4 + value.len()
    } else {
        3 + value.len()
    };
    let mut message = Vec::from_slice(alloc, [255; 16].as_slice())?;
    let total = ((23 + block) % 256) as u8;
    message.extend_from_slice([0, total, 2, 0, 0, 0, (block % 256) as u8].as_slice())?;
    message.extend_from_slice([flags, number].as_slice())?;
    if lengthy {
        message.push(0)?;
    }
    message.push((value.len() % 256) as u8)?;
    message.extend_from_slice(value)?;
    Ok(message)
}

/// `NUMBER VALUE`: what is said of an attribute with each of the 256 flags. Flags that follow one another and give the same
/// stand in one answer, behind the first of them.
pub fn flags(alloc: Global, text: &str) -> Result<String, Memory> {
    let (number, value) = first_word(text);
    let number: u8 = number.parse().unwrap_or(0);
    let value = octets(alloc, value)?;
    let mut all = String::new(alloc);
    let mut before = String::new(alloc);
    for flags in 0..=255u8 {
        let message = with_flags(alloc, flags, number, value.as_slice())?;
        let now = told(alloc, message.as_slice())?;
        if now.as_bytes() != before.as_bytes() {
            write!(all, "{flags} {now};")?;
        }
        before = now;
    }
    Ok(all)
}

/// The attributes of a message.
fn attributes(alloc: Global, text: &str) -> Result<Option<Attrs>, Memory> {
    match decode(alloc, octets(alloc, text)?.as_slice()) {
        Ok(update) => Ok(update.attrs),
        Err(UpdateFault::Bad(_)) => Ok(None),
        Err(UpdateFault::Memory) => Err(Memory),
    }
}

/// `PREFIX LENGTH NEXT_HOP | MESSAGE`: the announcement of a prefix by the attributes of a message.
pub fn announced(alloc: Global, text: &str) -> Result<String, Memory> {
    let (said, message) = text.split_once(" | ").unwrap_or((text, ""));
    let Some(attrs) = attributes(alloc, message)? else {
        return no_question(alloc);
    };
    let numbers = numbers(alloc, said)?;
    let [a, b, c, d, len, e, f, g, h] = numbers.as_slice() else {
        return no_question(alloc);
    };
    match prefix([*a, *b, *c, *d], *len) {
        Some(prefix) => {
            let next_hop = address([*e, *f, *g, *h]);
            let message = announcement(alloc, prefix, &attrs, next_hop)?;
            digits(alloc, message.items())
        }
        None => no_question(alloc),
    }
}

/// `PREFIX LENGTH`: the withdrawal of a prefix.
pub fn withdrawn(alloc: Global, text: &str) -> Result<String, Memory> {
    let numbers = numbers(alloc, text)?;
    let [a, b, c, d, len] = numbers.as_slice() else {
        return no_question(alloc);
    };
    match prefix([*a, *b, *c, *d], *len) {
        Some(prefix) => digits(alloc, withdrawal(alloc, prefix)?.items()),
        None => no_question(alloc),
    }
}
