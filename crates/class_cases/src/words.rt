//! Words, numbers and prefixes of a question.

use crate::wrong::Wrong;
use net_types::{Ip, Memory, Prefix, Tag};

/// The first word, and what stands behind it.
pub fn first_word(text: &str) -> (&str, &str) {
    text.split_once(' ').unwrap_or((text, ""))
}

/// The number that a word is.
pub fn number(word: &str) -> Result<u32, Wrong> {
    match word.parse() {
        Ok(number) => Ok(number),
        Err(_) => Err(Wrong::Row),
    }
}

/// The number that the first word is, and what stands behind it.
pub fn first_number(text: &str) -> Result<(u32, &str), Wrong> {
    let (word, rest) = first_word(text);
    Ok((number(word)?, rest))
}

/// The prefix of 8 bits whose first octet is the number that a word is.
pub fn prefix(word: &str) -> Result<Prefix, Wrong> {
    let Ok(first) = word.parse::<u8>() else {
        return Err(Wrong::Row);
    };
    Prefix::new(Ip(u32::from_be_bytes([first, 0, 0, 0])), 8).map_err(|_| Wrong::Row)
}

/// Puts a prefix behind a text, as `10.0.0.0/8`.
pub fn push_prefix(text: &mut String, prefix: Prefix) -> Result<(), Memory> {
    let [a, b, c, d] = prefix.address.0.to_be_bytes();
    let len = prefix.len;
    write!(text, "{a}.{b}.{c}.{d}/{len}")?;
    Ok(())
}

/// Puts a tag behind a text, or `none`.
pub fn push_tag(text: &mut String, tag: Option<Tag>) -> Result<(), Memory> {
    match tag {
        Some(Tag(tag)) => write!(text, "{tag}")?,
        None => text.push_str("none")?,
    }
    Ok(())
}
