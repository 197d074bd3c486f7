//! ARP requests and replies.

use crate::octets::{digits, mac, octets};
use crate::words::{address, no_question, numbers, push_address};
use arp_frame::{ArpRequest, read_request, reply, request};
use net_types::Memory;
use std::alloc::Global;

/// Who asks for which address: the hardware address, the address and the address that is asked for.
pub fn asked(alloc: Global, text: &str) -> Result<String, Memory> {
    match read_request(octets(alloc, text)?.as_slice()) {
        None => Ok(String::from_str(alloc, "no request")?),
        Some(asking) => {
            let mut told = digits(alloc, asking.mac.0.as_slice())?;
            told.push_str(" ")?;
            push_address(&mut told, asking.ip)?;
            told.push_str(" ")?;
            push_address(&mut told, asking.target)?;
            Ok(told)
        }
    }
}

/// How many octets of a frame are a request at least, and in how many lengths it is one.
pub fn cuts(alloc: Global, text: &str) -> Result<String, Memory> {
    let frame = octets(alloc, text)?;
    let mut least = None;
    let mut count = 0u32;
    for len in 0..=frame.len() {
        if read_request(&frame[..len]).is_some() {
            least = least.or(Some(len));
            count = count.saturating_add(1);
        }
    }
    let least = least.unwrap_or(0);
    Ok(format!(in alloc; "{least} octets at least, {count} lengths")?)
}

/// `MAC IP TARGET`, where the hardware address has no spaces.
fn asking(alloc: Global, text: &str) -> Result<Option<ArpRequest>, Memory> {
    let (first, rest) = text.split_once(' ').unwrap_or((text, ""));
    let asker = octets(alloc, first)?;
    let Some(mac) = mac(asker.as_slice()) else {
        return Ok(None);
    };
    match numbers(alloc, rest)?.as_slice() {
        [a, b, c, d, e, f, g, h] => Ok(Some(ArpRequest {
            mac,
            ip: address([*a, *b, *c, *d]),
            target: address([*e, *f, *g, *h]),
        })),
        _ => Ok(None),
    }
}

/// `MAC IP TARGET`: the request.
pub fn written(alloc: Global, text: &str) -> Result<String, Memory> {
    match asking(alloc, text)? {
        Some(it) => digits(alloc, request(it.mac, it.ip, it.target).as_slice()),
        None => no_question(alloc),
    }
}

/// `MAC MAC IP TARGET`: the reply that the target has the first hardware address, to a request by the second.
pub fn replied(alloc: Global, text: &str) -> Result<String, Memory> {
    let (first, rest) = text.split_once(' ').unwrap_or((text, ""));
    let told = octets(alloc, first)?;
    match (mac(told.as_slice()), asking(alloc, rest)?) {
        (Some(mac), Some(asking)) => digits(alloc, reply(&asking, mac).as_slice()),
        _ => no_question(alloc),
    }
}
