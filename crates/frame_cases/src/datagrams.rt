//! Datagrams in frames: the headers that are found, and those that are written.

use crate::octets::{digits, octets};
use crate::words::{address, first_word, no_question, numbers, push_address};
use ip_frame::{headers, rewrite, wrap};
use net_types::{Assign, Headers, Ip, Mac, Memory, PortNo};
use std::alloc::Global;

const FROM: Mac = Mac([2, 0, 0, 0, 0, 1]);

const TO: Mac = Mac([2, 0, 0, 0, 0, 2]);

/// Where a frame goes when its headers are written.
const NEXT: Mac = Mac([2, 0, 0, 0, 0, 3]);

/// A datagram in its frame.
pub fn wrapped(alloc: Global, text: &str) -> Result<String, Memory> {
    let datagram = octets(alloc, text)?;
    digits(
        alloc,
        wrap(alloc, datagram.as_slice(), FROM, TO)?.as_slice(),
    )
}

fn push_port(text: &mut String, port: Option<u16>) -> Result<(), Memory> {
    match port {
        Some(port) => write!(text, " {port}")?,
        None => text.push_str(" -")?,
    }
    Ok(())
}

fn shown(alloc: Global, h: &Headers) -> Result<String, Memory> {
    let mut text = String::new(alloc);
    push_address(&mut text, h.src)?;
    text.push_str(" ")?;
    push_address(&mut text, h.dst)?;
    push_port(&mut text, h.sport)?;
    push_port(&mut text, h.dport)?;
    Ok(text)
}

/// The addresses and ports of a frame, `-` where it has none.
pub fn found(alloc: Global, text: &str) -> Result<String, Memory> {
    match headers(PortNo(1), octets(alloc, text)?.as_slice()) {
        Some(h) => shown(alloc, &h),
        None => Ok(String::from_str(alloc, "no headers")?),
    }
}

/// How many octets of a frame have headers at least, and in how many lengths it has them.
pub fn cuts(alloc: Global, text: &str) -> Result<String, Memory> {
    let frame = octets(alloc, text)?;
    let mut least = None;
    let mut count = 0u32;
    for len in 0..=frame.len() {
        if headers(PortNo(1), &frame[..len]).is_some() {
            least = least.or(Some(len));
            count = count.saturating_add(1);
        }
    }
    let least = least.unwrap_or(0);
    Ok(format!(in alloc; "{least} octets at least, {count} lengths")?)
}

fn ip(alloc: Global, word: &str) -> Result<Option<Ip>, Memory> {
    match numbers(alloc, word)?.as_slice() {
        [a, b, c, d] => Ok(Some(address([*a, *b, *c, *d]))),
        _ => Ok(None),
    }
}

/// What four words set, `-` for nothing; and what stands behind them.
fn assign(alloc: Global, text: &str) -> Result<(Assign, &str), Memory> {
    let (src, rest) = first_word(text);
    let (dst, rest) = first_word(rest);
    let (sport, rest) = first_word(rest);
    let (dport, rest) = first_word(rest);
    let set = Assign {
        src: ip(alloc, src)?,
        dst: ip(alloc, dst)?,
        sport: sport.parse().ok(),
        dport: dport.parse().ok(),
    };
    Ok((set, rest))
}

/// Sets fields of a frame; false where it has no headers.
fn set_fields(frame: &mut [u8], set: &Assign) -> bool {
    let Some(h) = headers(PortNo(1), frame) else {
        return false;
    };
    rewrite(frame, &set.apply(&h), NEXT);
    true
}

/// `SRC DST SPORT DPORT FRAME`: the frame with these headers.
pub fn rewritten(alloc: Global, text: &str) -> Result<String, Memory> {
    let (set, rest) = assign(alloc, text)?;
    let mut frame = octets(alloc, rest)?;
    if set_fields(&mut frame, &set) {
        digits(alloc, frame.as_slice())
    } else {
        no_question(alloc)
    }
}
