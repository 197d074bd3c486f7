//! Messages whose paths are long.

use crate::words::{no_question, numbers, octet};
use bgp_update::{decode, encoded_len, is_oversize};
use net_types::{Memory, Segment, Update};
use std::alloc::Global;

/// A sequence of AS 65002, so many times, as it stands in AS_PATH.
fn push_sequence(out: &mut Vec<u8>, count: u8) -> Result<(), Memory> {
    out.extend_from_slice([2, count].as_slice())?;
    for _ in 0..count {
        out.extend_from_slice([0xfd, 0xea].as_slice())?;
    }
    Ok(())
}

/// A path of sequences of so many numbers.
fn path(alloc: Global, counts: &[u32]) -> Result<Vec<u8>, Memory> {
    let mut path = Vec::new(alloc);
    for count in counts {
        push_sequence(&mut path, octet(*count))?;
    }
    Ok(path)
}

/// NEXT_HOP, AS 196618 alone in AS4_PATH, and 10.0.0.0/8.
const BEHIND: [u8; 18] = [
    0x40, 3, 4, 172, 16, 1, 2, 0xc0, 17, 6, 2, 1, 0, 3, 0, 10, 8, 10,
];

/// The two octets of a number.
fn pair(number: usize) -> [u8; 2] {
    [(number / 256 % 256) as u8, (number % 256) as u8]
}

/// A message with this path in AS_PATH.
fn with_path(alloc: Global, path: &[u8]) -> Result<Vec<u8>, Memory> {
    let len = path.len() % 4096;
    let block = 24 + len;
    let mut message = Vec::from_slice(alloc, [255; 16].as_slice())?;
    message.extend_from_slice(pair(25 + block).as_slice())?;
    message.extend_from_slice([2, 0, 0].as_slice())?;
    message.extend_from_slice(pair(block).as_slice())?;
    message.extend_from_slice([0x40, 1, 1, 0, 0x50, 2].as_slice())?;
    message.extend_from_slice(pair(len).as_slice())?;
    message.extend_from_slice(path)?;
    message.extend_from_slice(BEHIND.as_slice())?;
    Ok(message)
}

/// How many numbers a segment has.
fn count_in(segment: &Segment) -> usize {
    match segment {
        Segment::Set(asns) => asns.len(),
        Segment::Sequence(asns) => asns.len(),
    }
}

/// How many segments a path has, and how many numbers the last one.
fn segments(update: &Update) -> (usize, usize) {
    match &update.attrs {
        None => (0, 0),
        Some(attrs) => (
            attrs.path.len(),
            attrs.path.items().last().map_or(0, count_in),
        ),
    }
}

/// What is read of sequences of so many numbers.
pub fn sequences(alloc: Global, text: &str) -> Result<String, Memory> {
    let counts = numbers(alloc, text)?;
    let path = path(alloc, counts.as_slice())?;
    let message = with_path(alloc, path.as_slice())?;
    let Ok(update) = decode(alloc, message.as_slice()) else {
        return no_question(alloc);
    };
    let (count, last) = segments(&update);
    let fits = if is_oversize(&update) {
        "oversize"
    } else {
        "told"
    };
    let octets = encoded_len(&update);
    Ok(format!(in alloc; "{count} segments, {last} in the last; {octets} octets, {fits}")?)
}
