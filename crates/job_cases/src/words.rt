//! Numbers, prefixes and pairs of a question.

use crate::wrong::Wrong;
use net_types::{Ip, Memory, Pair, Pairs, PortNo, Prefix, Prefixes, Tag, Tags};
use std::alloc::Global;

/// The first word, and what stands behind it.
pub fn first_word(text: &str) -> (&str, &str) {
    text.split_once(' ').unwrap_or((text, ""))
}

/// The number that a word is.
pub fn number(word: &str) -> Result<u64, Wrong> {
    match word.parse() {
        Ok(number) => Ok(number),
        Err(_) => Err(Wrong::Row),
    }
}

/// The tag that a word is.
pub fn tag(word: &str) -> Result<Tag, Wrong> {
    match word.parse() {
        Ok(number) => Ok(Tag(number)),
        Err(_) => Err(Wrong::Row),
    }
}

/// The tags between spaces.
pub fn tags(alloc: Global, text: &str) -> Result<Tags, Wrong> {
    let mut tags = Tags::new(alloc);
    for word in text.split(' ') {
        if !word.is_empty() {
            tags.push(tag(word)?)?;
        }
    }
    Ok(tags)
}

/// A port and a tag with a colon between them.
pub fn pair(word: &str) -> Result<Pair, Wrong> {
    let (port, digits) = word.split_once(':').unwrap_or((word, ""));
    match port.parse() {
        Ok(port) => Ok(Pair {
            port: PortNo(port),
            tag: tag(digits)?,
        }),
        Err(_) => Err(Wrong::Row),
    }
}

/// The pairs between spaces.
pub fn pairs(alloc: Global, text: &str) -> Result<Pairs, Wrong> {
    let mut pairs = Pairs::new(alloc);
    for word in text.split(' ') {
        if !word.is_empty() {
            pairs.push(pair(word)?)?;
        }
    }
    Ok(pairs)
}

/// The prefixes of 8 bits whose first octets stand between spaces.
pub fn prefixes(alloc: Global, text: &str) -> Result<Prefixes, Wrong> {
    let mut prefixes = Prefixes::new(alloc);
    for word in text.split(' ') {
        let Ok(first) = word.parse::<u8>() else {
            return Err(Wrong::Row);
        };
        match Prefix::new(Ip(u32::from_be_bytes([first, 0, 0, 0])), 8) {
            Ok(prefix) => prefixes.push(prefix)?,
            Err(_) => return Err(Wrong::Row),
        }
    }
    Ok(prefixes)
}

/// Puts a prefix behind a text, as `10.0.0.0/8`.
pub fn push_prefix(text: &mut String, prefix: Prefix) -> Result<(), Memory> {
    let [a, b, c, d] = prefix.address.0.to_be_bytes();
    let len = prefix.len;
    write!(text, "{a}.{b}.{c}.{d}/{len}")?;
    Ok(())
}
